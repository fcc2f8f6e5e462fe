//! What a token does behind the last expression in a bracket.
ghost use Rattle.std.specs.Prelude.{◌≡◌, None, IfOk, map, option_map};
ghost use Rattle.ab_grammar.specs.Tree as tree;
ghost use Rattle.ab_grammar.proofs.Machine as machine;
ghost use Rattle.ab_expressions.specs.SyntaxTrees.{tree_of};
ghost use Rattle.ab_expressions.specs.Reader.{seen};
ghost use Rattle.ab_expressions.specs.Frames.{bracket_of, frames_of};
ghost use Rattle.ab_expressions.specs.States.{Says};

use crate::build::new_box;
use crate::frame::{Bracket, Context, Frame, Frames};
use crate::items::Items;
use crate::kind::Kind;
use crate::located_tokens::Seen;
use crate::machine::{Next, State, Step, enter};
use crate::tree::Parse;
use std::alloc::{AllocError, Global};

/// A judgement.
fn judge(
    alloc: Global,
    context: Context,
    focus: Option<Box<Parse>>,
    goal: Box<Parse>,
) -> Result<Box<Parse>, AllocError>
    ensures { IfOk result (λ r. tree_of r.value ≡ tree.judgement (map tree_of context.items.items) (option_map (λ b. tree_of b.value) focus) (tree_of goal.value) context.place) }
{
    let items = Items::from_vec(context.items);
    new_box(alloc, Parse::Judge(items, focus, goal, context.place))
}

/// Behind an item of a context.
fn close_item(frames: &mut Frames, mut context: Context, last: Box<Parse>, token: Seen<'_>) -> Step
    ensures { IfOk result (λ r. Says (machine.close (machine.item_in context.place (map tree_of context.items.items)) (frames_of frames.old) (tree_of last.value) (seen token.entry)) None (seen token.entry) (frames_of frames.new) r) }
{
    match token.kind {
        Kind::Comma => {
            context.items.push(Box::into_inner(last))?;
            Ok(Next::On(State::Item(context)))
        }
        Kind::Turnstile => {
            context.items.push(Box::into_inner(last))?;
            enter(frames, Frame::Bracket(Bracket::Goal(context, None)))
        }
        Kind::RightBrace if context.items.is_empty() => {
            Ok(Next::On(State::Have(judge(frames.alloc, context, None, last)?)))
        }
        _ => Ok(Next::Wrong),
    }
}

/// A token behind the last expression in a bracket.
pub(crate) fn close(
    frames: &mut Frames,
    bracket: Bracket,
    last: Box<Parse>,
    token: Seen<'_>,
) -> Step
    ensures { IfOk result (λ r. Says (machine.close (bracket_of bracket) (frames_of frames.old) (tree_of last.value) (seen token.entry)) None (seen token.entry) (frames_of frames.new) r) }
{
    match (bracket, token.kind) {
        (Bracket::Paren, Kind::RightParen) => Ok(Next::On(State::Have(last))),
        (Bracket::PiParen, Kind::RightParen) => Ok(Next::On(State::Enclosed(last))),
        (Bracket::Item(context), _) => close_item(frames, context, last, token),
        (Bracket::Focus(context), Kind::RightBracket) => {
            Ok(Next::On(State::FocusEnd(context, last)))
        }
        (Bracket::Goal(context, focus), Kind::RightBrace) => {
            let whole = judge(frames.alloc, context, focus, last)?;
            Ok(Next::On(State::Have(whole)))
        }
        _ => Ok(Next::Wrong),
    }
}
