//! Types, read from tokens by a stack of what isn't finished yet.
ghost use Rattle.std.specs.Prelude.{◌≡◌, IfOk};
ghost use Rattle.ab_grammar.specs.Language.{TypeExpression};
ghost use Rattle.ab_grammar.proofs.Following.{Followed};
ghost use Rattle.ab_grammar.proofs.Machine as machine;
ghost use Rattle.ab_expressions.specs.SyntaxTrees.{type_of};
ghost use Rattle.ab_expressions.specs.Reader.{seen, rest, Found};
ghost use Rattle.ab_expressions.specs.ReaderSteps.{type_frames_of, type_shut_of, type_state, IsTypeNext};

use crate::build::new_box;
use crate::kind::Kind;
use crate::located_tokens::Seen;
use crate::machine::Next;
use crate::nesting::{check_nesting, outside};
use crate::stack::Stack;
use crate::step::ends;
use crate::stop::Stop;
use crate::text::{Text, name_of, next_or_stop};
use crate::tree::TypeParse;
use std::alloc::AllocError;

/// What a type stands in.
#[derive(Drop)]
pub(crate) enum TypeFrame {
    /// An open parenthesis.
    Paren,
    /// What stands left of an arrow.
    Arrow(Box<TypeParse>),
}

/// What a type stands in, the innermost last.
pub(crate) type TypeFrames = Stack<TypeFrame>;

/// The type that stands there, or none where a type must come.
pub(crate) type TypeState = Option<Box<TypeParse>>;

/// What a token does to a type, if there is memory for it.
type TypeStep = Result<Next<TypeState, TypeParse>, AllocError>;

/// The type up to the innermost parenthesis, which is taken away, and whether there is one.
fn shut_type(
    frames: &mut TypeFrames,
    mut last: Box<TypeParse>,
) -> Result<(Box<TypeParse>, bool), AllocError>
    ensures { IfOk result (λ r. machine.type_shut (type_of last.value) (type_frames_of frames.old) ≡ type_shut_of r (type_frames_of frames.new)) }
{
    loop {
        match frames.pop() {
            Some(TypeFrame::Arrow(left)) => {
                last = new_box(frames.alloc, TypeParse::Arrow(left, last))?
            }
            Some(TypeFrame::Paren) => return Ok((last, true)),
            None => return Ok((last, false)),
        }
    }
}

/// A token behind a type.
fn step_behind_type(frames: &mut TypeFrames, last: Box<TypeParse>, token: Seen<'_>) -> TypeStep
    ensures { IfOk result (λ r. IsTypeNext (machine.type_have (type_frames_of frames.old) (type_of last.value)) (seen token.entry) (type_frames_of frames.new) r) }
{
    if ends(token.kind) {
        let (inner, enclosed) = shut_type(frames, last)?;
        if !enclosed {
            return Ok(Next::Done(inner));
        }
        return match token.kind {
            Kind::RightParen => Ok(Next::On(Some(inner))),
            _ => Ok(Next::Wrong),
        };
    }
    match token.kind {
        Kind::Arrow => {
            frames.push(TypeFrame::Arrow(last))?;
            Ok(Next::On(None))
        }
        _ => Ok(Next::Wrong),
    }
}

/// What a token does to a type that is being read.
pub(crate) fn step_type(frames: &mut TypeFrames, state: TypeState, token: Seen<'_>) -> TypeStep
    ensures { IfOk result (λ r. IsTypeNext (type_state (type_frames_of frames.old) state) (seen token.entry) (type_frames_of frames.new) r) }
{
    match (state, token.kind) {
        (Some(last), _) => step_behind_type(frames, last, token),
        (None, Kind::Word) => {
            let name = name_of(frames.alloc, token)?;
            let base = new_box(frames.alloc, TypeParse::Base(name, token.place))?;
            Ok(Next::On(Some(base)))
        }
        (None, Kind::LeftParen) => {
            frames.push(TypeFrame::Paren)?;
            Ok(Next::On(None))
        }
        _ => Ok(Next::Wrong),
    }
}

/// Reads a type, which what follows ends.
pub fn read_type(text: &Text<'_>, here: &mut usize) -> Result<TypeParse, Stop>
    ensures { Found TypeExpression Followed type_of (rest text.now here.old) (rest text.now here.new) result }
{
    let mut frames = Stack::new(text.alloc);
    let mut state = None;
    let mut layers = outside(text.alloc);
    loop {
        let token = next_or_stop(text, *here);
        match step_type(&mut frames, state, token)? {
            Next::Done(found) => return Ok(Box::into_inner(found)),
            Next::Wrong => return Err(Stop::Syntax),
            Next::On(next) => {
                state = check_nesting(&mut layers, token.kind, next)?;
                *here += 1;
            }
        }
    }
}
