//! What each token does to the binders of a quantifier that are being read.
ghost use Rattle.std.specs.Prelude.{List, None, IfOk, map};
ghost use Rattle.ab_grammar.proofs.Machine as machine;
ghost use Rattle.ab_expressions.specs.SyntaxTrees.{binder_of};
ghost use Rattle.ab_expressions.specs.Reader.{seen};
ghost use Rattle.ab_expressions.specs.ReaderSteps.{type_frames_of, type_state};
ghost use Rattle.ab_expressions.specs.Frames.{frames_of};
ghost use Rattle.ab_expressions.specs.States.{Says};

use crate::frame::{Frame, Frames, Prefix};
use crate::kind::Kind;
use crate::located_tokens::Seen;
use crate::machine::{Next, State, Step, enter};
use crate::text::name_of;
use crate::tree::Binder;
use crate::types::{TypeFrames, TypeState, step_type};
use ab_name::Name;

/// A token where a binder or a comma must come.
pub(crate) fn step_binders(frames: &mut Frames, mut prefix: Prefix, token: Seen<'_>) -> Step
    ensures { IfOk result (λ r. Says (machine.step_binders (frames_of frames.old) prefix.quant prefix.place (map binder_of prefix.binders.items) (seen token.entry)) None (seen token.entry) (frames_of frames.new) r) }
{
    match token.kind {
        Kind::Word => {
            let (name, ty, place) = (name_of(frames.alloc, token)?, None, token.place);
            prefix.binders.push(Binder { name, ty, place })?;
            Ok(Next::On(State::Binders(prefix)))
        }
        Kind::LeftParen => Ok(Next::On(State::BinderName(prefix))),
        Kind::Comma => {
            if prefix.binders.is_empty() {
                return Ok(Next::Wrong);
            }
            enter(frames, Frame::Bind(prefix))
        }
        _ => Ok(Next::Wrong),
    }
}

/// A token where the type of a binder is read.
pub(crate) fn step_binder_type(
    mut prefix: Prefix,
    name: Name,
    place: usize,
    mut types: TypeFrames,
    state: TypeState,
    token: Seen<'_>,
) -> Step
    ensures { IfOk result (λ r. (fs : List machine.Frame) → Says (machine.step (machine.binder_type fs prefix.quant prefix.place (map binder_of prefix.binders.items) name place (type_state (type_frames_of types) state)) (seen token.entry)) None (seen token.entry) fs r) }
{
    match step_type(&mut types, state, token)? {
        Next::On(state) => Ok(Next::On(State::BinderType(prefix, name, place, types, state))),
        Next::Done(ty) => match token.kind {
            Kind::RightParen => {
                let ty = Some(Box::into_inner(ty));
                prefix.binders.push(Binder { name, ty, place })?;
                Ok(Next::On(State::Binders(prefix)))
            }
            _ => Ok(Next::Wrong),
        },
        Next::Wrong => Ok(Next::Wrong),
    }
}
