//! What each token does to an expression that is being read.
ghost use Rattle.std.specs.Prelude.{◌≡◌, IfOk, is_some};
ghost use Rattle.ab_grammar.specs.Language.{Expression};
ghost use Rattle.ab_grammar.specs.Tree as tree;
ghost use Rattle.ab_grammar.proofs.Following.{Followed};
ghost use Rattle.ab_grammar.proofs.Machine as machine;
ghost use Rattle.ab_expressions.specs.SyntaxTrees.{tree_of};
ghost use Rattle.ab_expressions.specs.Reader.{seen, rest, Found};
ghost use Rattle.ab_expressions.specs.ReaderSteps.{begins, follows, is_sign};
ghost use Rattle.ab_expressions.specs.Frames.{frames_of};
ghost use Rattle.ab_expressions.specs.States.{state_in, IsNext, IsClosed, IsSign};

use crate::binder_tokens::{step_binder_type, step_binders};
use crate::build::new_box;
use crate::closed_brackets::close;
use crate::frame::{Bracket, Frame, Frames, grow, shut_bracket, step_sign};
use crate::kind::Kind;
use crate::located_tokens::Seen;
use crate::machine::{Next, State, Step, enter, start_item, start_operand};
use crate::nesting::{check_nesting, outside};
use crate::stack::Stack;
use crate::stop::Stop;
use crate::text::{Text, name_of, next_or_stop};
use crate::tree::Parse;
use ab_grammar::Infix;
use ab_name::Name;

/// The sign that a token is.
fn sign_of(kind: Kind) -> Option<Infix>
    ensures sign { IsSign kind result }
    ensures some { is_some result ≡ is_sign kind }
{
    match kind {
        Kind::Arrow => Some(Infix::Arrow),
        Kind::Or => Some(Infix::Or),
        Kind::And => Some(Infix::And),
        Kind::Equal => Some(Infix::Equal),
        Kind::Imply => Some(Infix::Imply),
        Kind::Both => Some(Infix::With),
        Kind::Cons => Some(Infix::Cons),
        _ => None,
    }
}

/// Whether a token can begin an argument.
fn begins_argument(kind: Kind) -> bool
    ensures { result ≡ begins kind }
{
    match kind {
        Kind::Word
        | Kind::Truth
        | Kind::Forall
        | Kind::Exists
        | Kind::Nabla
        | Kind::LeftParen
        | Kind::LeftBrace => true,
        _ => false,
    }
}

/// Whether a token can stand behind a whole type and behind a whole expression.
pub(crate) fn ends(kind: Kind) -> bool
    ensures { result ≡ follows kind }
{
    match kind {
        Kind::Pi | Kind::LeftBracket | Kind::Backslash => false,
        _ => !begins_argument(kind) && sign_of(kind).is_none(),
    }
}

/// What can close a bracket or follow an expression, behind an operand.
fn step_closer(frames: &mut Frames, operand: Box<Parse>, token: Seen<'_>) -> Step
    ensures { IfOk result (λ r. IsClosed (machine.shut (tree_of operand.value) (frames_of frames.old)) (seen token.entry) (frames_of frames.new) r) }
{
    let (inner, bracket) = shut_bracket(frames, operand)?;
    match bracket {
        None => Ok(Next::Done(inner)),
        Some(bracket) => close(frames, bracket, inner, token),
    }
}

/// A token behind what is whole: no argument can follow.
fn step_enclosed(frames: &mut Frames, operand: Box<Parse>, token: Seen<'_>) -> Step
    ensures { IfOk result (λ r. IsNext (machine.enclosed (frames_of frames.old) (tree_of operand.value)) (seen token.entry) (frames_of frames.new) r) }
{
    if ends(token.kind) {
        return step_closer(frames, operand, token);
    }
    match sign_of(token.kind) {
        Some(sign) => step_sign(frames, operand, sign),
        None => Ok(Next::Wrong),
    }
}

/// A token behind an operand that is no name alone.
fn step_have(frames: &mut Frames, operand: Box<Parse>, token: Seen<'_>) -> Step
    ensures { IfOk result (λ r. IsNext (machine.have machine.compound (frames_of frames.old) (tree_of operand.value)) (seen token.entry) (frames_of frames.new) r) }
{
    if !begins_argument(token.kind) {
        return step_enclosed(frames, operand, token);
    }
    grow(frames, operand)?;
    start_operand(frames, token)
}

/// A token behind a name alone.
fn step_alone(frames: &mut Frames, name: Name, place: usize, token: Seen<'_>) -> Step
    ensures { IfOk result (λ r. IsNext (machine.have (machine.alone name place) (frames_of frames.old) (tree.name name place)) (seen token.entry) (frames_of frames.new) r) }
{
    match token.kind {
        Kind::Backslash => enter(frames, Frame::Abs(name, place)),
        _ => {
            let operand = new_box(frames.alloc, Parse::Name(name, place))?;
            step_have(frames, operand, token)
        }
    }
}

/// What a token does to an expression that is being read.
pub(crate) fn step(frames: &mut Frames, state: State, token: Seen<'_>) -> Step
    ensures { IfOk result (λ r. IsNext (state_in (frames_of frames.old) state) (seen token.entry) (frames_of frames.new) r) }
{
    match (state, token.kind) {
        (State::Want, _) => start_operand(frames, token),
        (State::Alone(name, place), _) => step_alone(frames, name, place, token),
        (State::Have(operand), _) => step_have(frames, operand, token),
        (State::PiWant, Kind::Word) => {
            let name = name_of(frames.alloc, token)?;
            Ok(Next::On(State::PiName(name, token.place)))
        }
        (State::PiWant, Kind::LeftParen) => {
            frames.push(Frame::Bracket(Bracket::PiParen))?;
            Ok(Next::On(State::PiWant))
        }
        (State::PiName(name, place), Kind::Backslash) => enter(frames, Frame::Abs(name, place)),
        (State::Enclosed(operand), _) => step_enclosed(frames, operand, token),
        (State::Item(context), _) => start_item(frames, context, token),
        (State::FocusEnd(context, focus), Kind::Turnstile) => {
            enter(frames, Frame::Bracket(Bracket::Goal(context, Some(focus))))
        }
        (State::Binders(prefix), _) => step_binders(frames, prefix, token),
        (State::BinderName(prefix), Kind::Word) => {
            let name = name_of(frames.alloc, token)?;
            Ok(Next::On(State::BinderColon(prefix, name, token.place)))
        }
        (State::BinderColon(prefix, name, place), Kind::Colon) => {
            let types = Stack::new(frames.alloc);
            Ok(Next::On(State::BinderType(prefix, name, place, types, None)))
        }
        (State::BinderType(prefix, name, place, types, state), _) => {
            step_binder_type(prefix, name, place, types, state, token)
        }
        _ => Ok(Next::Wrong),
    }
}

/// Reads an expression, which what follows ends.
pub fn read_expression(text: &Text<'_>, here: &mut usize) -> Result<Parse, Stop>
    ensures { Found Expression Followed tree_of (rest text.now here.old) (rest text.now here.new) result }
{
    let mut frames = Stack::new(text.alloc);
    let mut state = State::Want;
    let mut layers = outside(text.alloc);
    loop {
        let token = next_or_stop(text, *here);
        match step(&mut frames, state, token)? {
            Next::Done(found) => return Ok(Box::into_inner(found)),
            Next::Wrong => return Err(Stop::Syntax),
            Next::On(next) => {
                state = check_nesting(&mut layers, token.kind, next)?;
                *here += 1;
            }
        }
    }
}
