//! What an expression that is being read stands in: a stack of what isn't finished yet.
ghost use Rattle.std.specs.Prelude.{◌≡◌, IfOk};
ghost use Rattle.ab_grammar.specs.Grammar as grammar;
ghost use Rattle.ab_grammar.specs.Token as grammatical;
ghost use Rattle.ab_grammar.proofs.Machine as machine;
ghost use Rattle.ab_expressions.specs.SyntaxTrees.{tree_of};
ghost use Rattle.ab_expressions.specs.Frames.{frame_of, frames_of, reduced, shut_of, IsFate};
ghost use Rattle.ab_expressions.specs.States.{IsNext};

use crate::build::{apply, new_box, pi, place_of};
use crate::items::Items;
use crate::machine::{Next, Step, enter};
use crate::stack::Stack;
use crate::tree::{Binder, Parse};
use ab_grammar::{Infix, Quant};
use ab_name::Name;
use std::alloc::{AllocError, Global};

/// The place of a judgement's brace, and the items of its context so far.
#[derive(Drop)]
pub(crate) struct Context {
    pub place: usize,
    pub items: Vec<Parse>,
}

/// A quantifier, its place, and its binders so far.
#[derive(Drop)]
pub(crate) struct Prefix {
    pub quant: Quant,
    pub place: usize,
    pub binders: Vec<Binder>,
}

/// An open bracket, with what was read in it.
#[derive(Drop)]
pub(crate) enum Bracket {
    Paren,
    /// Around what `pi` takes.
    PiParen,
    /// A brace, where an item of the context or the goal alone is read.
    Item(Context),
    /// Around the focused formula.
    Focus(Context),
    /// A brace, where the goal behind `|-` is read; with the focused formula, where there is one.
    Goal(Context, Option<Box<Parse>>),
}

/// What an operand stands in.
#[derive(Drop)]
pub(crate) enum Frame {
    /// A sign, with what stands left of it.
    Infix(Infix, Box<Parse>),
    /// A head, with its arguments so far.
    Args(Box<Parse>, Vec<Parse>),
    Pi(usize),
    Abs(Name, usize),
    Bind(Prefix),
    Bracket(Bracket),
}

/// What an operand stands in, the innermost last.
pub(crate) type Frames = Stack<Frame>;

/// What becomes of the innermost frame where a sign comes.
#[derive(Clone, Copy, Drop)]
pub(crate) enum Fate {
    /// The operand stands in it, left of the sign.
    Stays,
    /// The operand is its last part.
    Reduces,
    /// No sign can come.
    Refuses,
}

/// How tightly a sign binds, and how tightly its left and its right operand have to bind at least.
fn levels(sign: Infix) -> (usize, usize, usize)
    ensures { result ≡ (grammar.level sign, grammar.left sign, grammar.right sign) }
{
    match sign {
        Infix::Arrow => (1, 2, 1),
        Infix::Or => (2, 2, 3),
        Infix::And => (3, 3, 4),
        Infix::Equal => (4, 5, 5),
        Infix::Imply => (5, 6, 5),
        Infix::With => (6, 6, 7),
        Infix::Cons => (7, 8, 7),
    }
}

/// What an operand is the last part of, in a frame; in a bracket the operand alone.
fn reduce(alloc: Global, frame: Frame, operand: Box<Parse>) -> Result<Box<Parse>, AllocError>
    ensures { IfOk result (λ r. tree_of r.value ≡ reduced (frame_of frame) (tree_of operand.value)) }
{
    match frame {
        Frame::Infix(sign, before) => {
            let place = place_of(&before);
            new_box(alloc, Parse::Join(sign, before, operand, place))
        }
        Frame::Args(head, args) => apply(alloc, head, args, operand),
        Frame::Pi(place) => pi(alloc, place, operand),
        Frame::Abs(name, place) => new_box(alloc, Parse::Abs(name, operand, place)),
        Frame::Bind(prefix) => {
            let place = prefix.place;
            let binders = Items::from_vec(prefix.binders);
            new_box(alloc, Parse::Bind(prefix.quant, binders, operand, place))
        }
        Frame::Bracket(_) => Ok(operand),
    }
}

/// What becomes of a frame where a sign comes.
fn fate_of(frame: &Frame, sign: Infix) -> Fate
    ensures { IsFate sign (frame_of frame.now) result }
{
    match frame {
        Frame::Infix(other, _) => {
            let (level, left, _) = levels(sign);
            let (other_level, _, other_right) = levels(*other);
            if other_right <= level {
                Fate::Stays
            } else if other_level < left {
                Fate::Refuses
            } else {
                Fate::Reduces
            }
        }
        Frame::Args(_, _) | Frame::Pi(_) => Fate::Reduces,
        Frame::Bracket(Bracket::PiParen) => Fate::Refuses,
        Frame::Bracket(_) | Frame::Bind(_) | Frame::Abs(_, _) => Fate::Stays,
    }
}

/// A sign behind an operand: it joins it, or what it is the last part of, if a sign can stand there.
pub(crate) fn step_sign(frames: &mut Frames, mut operand: Box<Parse>, sign: Infix) -> Step
    ensures { IfOk result (λ r. IsNext (machine.enclosed (frames_of frames.old) (tree_of operand.value)) (grammatical.sign sign) (frames_of frames.new) r) }
{
    while let Some(frame) = frames.pop() {
        match fate_of(&frame, sign) {
            Fate::Stays => {
                frames.push(frame)?;
                return enter(frames, Frame::Infix(sign, operand));
            }
            Fate::Refuses => return Ok(Next::Wrong),
            Fate::Reduces => operand = reduce(frames.alloc, frame, operand)?,
        }
    }
    enter(frames, Frame::Infix(sign, operand))
}

/// The expression up to the innermost bracket, which is taken away, and that bracket, if there is one.
pub(crate) fn shut_bracket(
    frames: &mut Frames,
    mut operand: Box<Parse>,
) -> Result<(Box<Parse>, Option<Bracket>), AllocError>
    ensures { IfOk result (λ r. machine.shut (tree_of operand.value) (frames_of frames.old) ≡ shut_of r (frames_of frames.new)) }
{
    loop {
        match frames.pop() {
            Some(Frame::Bracket(bracket)) => return Ok((operand, Some(bracket))),
            Some(frame) => operand = reduce(frames.alloc, frame, operand)?,
            None => return Ok((operand, None)),
        }
    }
}

/// Goes where the argument behind a head, or behind another argument, is read.
pub(crate) fn grow(frames: &mut Frames, last: Box<Parse>) -> Result<(), AllocError>
    ensures { IfOk result (λ r. frames_of frames.new ≡ machine.grow (frames_of frames.old) (tree_of last.value)) }
{
    if let Some(frame) = frames.pop() {
        if let Frame::Args(head, mut args) = frame {
            args.push(Box::into_inner(last))?;
            return frames.push(Frame::Args(head, args));
        }
        frames.push(frame)?;
    }
    frames.push(Frame::Args(last, Vec::new(frames.alloc)))
}
