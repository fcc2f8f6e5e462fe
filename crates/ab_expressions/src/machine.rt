//! An expression that is being read, token by token.
ghost use Rattle.std.specs.Prelude.{◌≡◌, ◌∷◌, List, [], None, IfOk, map};
ghost use Rattle.ab_grammar.proofs.Machine as machine;
ghost use Rattle.ab_expressions.specs.SyntaxTrees.{tree_of};
ghost use Rattle.ab_expressions.specs.Reader.{seen};
ghost use Rattle.ab_expressions.specs.Frames.{frame_of, frames_of};
ghost use Rattle.ab_expressions.specs.declared.machine.Next.TheVariants.{On};
ghost use Rattle.ab_expressions.specs.declared.machine.State.TheVariants.{Want};
ghost use Rattle.ab_expressions.specs.States.{state_in, Says};

use crate::build::new_box;
use crate::frame::{Bracket, Context, Frame, Frames, Prefix};
use crate::kind::Kind;
use crate::located_tokens::Seen;
use crate::text::name_of;
use crate::tree::Parse;
use crate::types::{TypeFrames, TypeState};
use ab_grammar::Quant;
use ab_name::Name;
use std::alloc::{AllocError, Global};

/// What was read last, and what must come.
#[derive(Drop)]
pub(crate) enum State {
    /// An operand must come.
    Want,
    /// A name stands there, which a backslash can follow.
    Alone(Name, usize),
    /// Another operand stands there.
    Have(Box<Parse>),
    /// An abstraction must come, behind `pi`.
    PiWant,
    /// A name stands there, behind `pi`.
    PiName(Name, usize),
    /// What `pi` takes stands there, in parentheses.
    Enclosed(Box<Parse>),
    /// An item of a judgement must come.
    Item(Context),
    /// The focused formula stands there, in its brackets.
    FocusEnd(Context, Box<Parse>),
    /// A binder or a comma must come.
    Binders(Prefix),
    /// The name of a binder with a type must come.
    BinderName(Prefix),
    /// That name stands there.
    BinderColon(Prefix, Name, usize),
    /// That name's type is read.
    BinderType(Prefix, Name, usize, TypeFrames, TypeState),
}

/// What a token does to what is being read, a `T` in the end.
#[derive(Drop)]
pub(crate) enum Next<S, T> {
    /// It goes on.
    On(S),
    /// It ended before the token.
    Done(Box<T>),
    /// Nothing goes on with the token, and nothing that ended before it is followed by it.
    Wrong,
}

/// What a token does to an expression, if there is memory for it.
pub(crate) type Step = Result<Next<State, Parse>, AllocError>;

/// A quantifier without binders.
fn prefix(alloc: Global, quant: Quant, place: usize) -> State
    ensures { (fs : List machine.Frame) → state_in fs result ≡ machine.binders fs quant place [] }
{
    State::Binders(Prefix {
        quant,
        place,
        binders: Vec::new(alloc),
    })
}

/// Goes where an operand must come, in a frame.
pub(crate) fn enter(frames: &mut Frames, frame: Frame) -> Step
    ensures { IfOk result (λ r. (r ≡ On Want) × (frames_of frames.new ≡ frame_of frame ∷ frames_of frames.old)) }
{
    frames.push(frame)?;
    Ok(Next::On(State::Want))
}

/// A token where an operand may begin.
pub(crate) fn start_operand(frames: &mut Frames, token: Seen<'_>) -> Step
    ensures { IfOk result (λ r. Says (machine.starts_operand (frames_of frames.old) (seen token.entry)) None (seen token.entry) (frames_of frames.new) r) }
{
    match token.kind {
        Kind::Word => Ok(Next::On(State::Alone(name_of(frames.alloc, token)?, token.place))),
        Kind::Truth => {
            let name = name_of(frames.alloc, token)?;
            let operand = new_box(frames.alloc, Parse::Name(name, token.place))?;
            Ok(Next::On(State::Have(operand)))
        }
        Kind::LeftParen => enter(frames, Frame::Bracket(Bracket::Paren)),
        Kind::LeftBrace => Ok(Next::On(State::Item(Context {
            place: token.place,
            items: Vec::new(frames.alloc),
        }))),
        Kind::Forall => Ok(Next::On(prefix(frames.alloc, Quant::Forall, token.place))),
        Kind::Exists => Ok(Next::On(prefix(frames.alloc, Quant::Exists, token.place))),
        Kind::Nabla => Ok(Next::On(prefix(frames.alloc, Quant::Nabla, token.place))),
        Kind::Pi => {
            frames.push(Frame::Pi(token.place))?;
            Ok(Next::On(State::PiWant))
        }
        _ => Ok(Next::Wrong),
    }
}

/// A token where an item of a judgement may begin.
pub(crate) fn start_item(frames: &mut Frames, context: Context, token: Seen<'_>) -> Step
    ensures { IfOk result (λ r. Says (machine.starts_item (frames_of frames.old) context.place (map tree_of context.items.items) (seen token.entry)) None (seen token.entry) (frames_of frames.new) r) }
{
    match token.kind {
        Kind::LeftBracket => enter(frames, Frame::Bracket(Bracket::Focus(context))),
        _ => {
            frames.push(Frame::Bracket(Bracket::Item(context)))?;
            start_operand(frames, token)
        }
    }
}
