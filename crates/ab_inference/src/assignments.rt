//! Whether types solve the equations, and which: one walk over the variables, each after those that it is made of.
ghost use Rattle.std.specs.Prelude.{◌≡◌, ℕ, ◌<◌, ◌↔◌, length, true, false, IfOk, OnOk, OnErr, MatchOption, ⊤};
ghost use Rattle.ab_term.specs.Types.{o};
ghost use Rattle.ab_store.specs.ab_types.specs.Entries.{kinds, constants, IsExtendedBy};
ghost use Rattle.ab_store.specs.ab_types.specs.Ids.{HoldsType, type_of};
ghost use Rattle.ab_store.specs.ab_types.specs.Sound.{IsTable};
ghost use Rattle.ab_inference.specs.declared.assignments.Mark.TheVariants.{Done};
ghost use Rattle.ab_inference.specs.Solutions.{AreFormed, AreHeld, HasNoSolution, shape_at};
ghost use Rattle.ab_inference.specs.Assignments.{IsDone, PartsDone, NotDone, Finishes, Settling, AreIdle, IsSettled, Solved, mark_at, settled_at};

use crate::shape::Shape;
use ab_store::types::{TypeId, TypeTable};
use std::alloc::{AllocError, Global};

/// What a type variable is in the end: its type, with `o` for what is open, and whether anything is.
#[derive(Clone, Copy)]
pub struct Settled {
    pub ty: TypeId,
    pub is_open: bool,
}

/// How far a variable is.
#[derive(Clone, Copy)]
enum Mark {
    Unseen,
    Active,
    Done(Settled),
}

/// What a variable is that is done.
fn settled_of(marks: &[Mark], i: usize, other: Settled) -> Settled
    requires i_in { i < length marks.now }
    requires done { IsDone marks.now i }
    ensures { mark_at marks.now i ≡ Done result }
{
    if let Mark::Done(settled) = marks[i] {
        settled
    } else {
        other
    }
}

fn is_done(marks: &[Mark], i: usize) -> bool
    requires { i < length marks.now }
    ensures done { result ≡ true → IsDone marks.now i }
    ensures not_done { result ≡ false → IsDone marks.now i → ⊥ }
{
    matches!(marks[i], Mark::Done(_))
}

/// A variable of which this one is made and that isn't done.
fn next_part(shapes: &[Shape], marks: &[Mark], i: usize) -> Option<usize>
    requires formed { AreFormed shapes.now }
    requires i_in { i < length shapes.now }
    requires len { length marks.now ≡ length shapes.now }
    ensures within { MatchOption result ⊤ (λ j. j < length shapes.now) }
    ensures part { MatchOption result (PartsDone marks.now (shape_at shapes.now i)) (NotDone marks.now (shape_at shapes.now i)) }
{
    match shapes[i] {
        Shape::Open | Shape::Known(_) => None,
        Shape::Link(j) => { if is_done(marks, j) { None } else { Some(j) } }
        Shape::Arrow(from, to) => {
            if !is_done(marks, from) {
                Some(from)
            } else if !is_done(marks, to) {
                Some(to)
            } else {
                None
            }
        }
    }
}

/// What a variable is, of which all parts are done.
fn finish(
    types: &mut TypeTable,
    filler: TypeId,
    shapes: &[Shape],
    marks: &[Mark],
    i: usize,
) -> Result<Settled, AllocError>
    requires table { IsTable types.old }
    requires filler_held { HoldsType types.old filler }
    requires filler { type_of types.old filler ≡ o }
    requires formed { AreFormed shapes.now }
    requires i_in { i < length shapes.now }
    requires settling { Settling types.old shapes.now marks.now }
    requires parts { PartsDone marks.now (shape_at shapes.now i) }
    ensures held { IfOk result (λ s. HoldsType types.new s.ty) }
    ensures finishes { IfOk result (λ s. Finishes types.old types.new marks.now (shape_at shapes.now i) s) }
    ensures kinds { kinds types.new ≡ kinds types.old }
    ensures constants { constants types.new ≡ constants types.old }
    ensures kept { IsExtendedBy types.old types.new }
    ensures table { IsTable types.new }
{
    let none = Settled {
        ty: filler,
        is_open: true,
    };
    match shapes[i] {
        Shape::Open => Ok(none),
        Shape::Known(ty) => Ok(Settled { ty, is_open: false }),
        Shape::Link(j) => Ok(settled_of(marks, j, none)),
        Shape::Arrow(from, to) => {
            let from = settled_of(marks, from, none);
            let to = settled_of(marks, to, none);
            let ty = types.arrow(from.ty, to.ty)?;
            let is_open = from.is_open | to.is_open;
            Ok(Settled { ty, is_open })
        }
    }
}

/// A variable is done, after all that it is made of, where it isn't done already; or no types solve the equations.
fn settle(
    alloc: Global,
    types: &mut TypeTable,
    filler: TypeId,
    shapes: &[Shape],
    marks: &mut [Mark],
    i: usize,
) -> Result<bool, AllocError>
    requires table { IsTable types.old }
    requires filler_held { HoldsType types.old filler }
    requires filler { type_of types.old filler ≡ o }
    requires formed { AreFormed shapes.now }
    requires i_in { i < length shapes.now }
    requires settling { Settling types.old shapes.now marks.old }
    requires idle { AreIdle marks.old }
    ensures settled { IfOk result (λ yes. yes ≡ true → IsSettled types.new shapes.now marks.old marks.new i) }
    ensures none { IfOk result (λ yes. yes ≡ false → HasNoSolution types.old shapes.now) }
    ensures kinds { kinds types.new ≡ kinds types.old }
    ensures constants { constants types.new ≡ constants types.old }
    ensures kept { IsExtendedBy types.old types.new }
    ensures table { IsTable types.new }
{
    let Mark::Unseen = marks[i] else {
        return Ok(true);
    };
    let mut path = vec![in alloc; i]?;
    marks[i] = Mark::Active;
    while let Some(top) = path.pop() {
        match next_part(shapes, marks, top) {
            None => {
                let settled = finish(types, filler, shapes, marks, top)?;
                marks[top] = Mark::Done(settled);
            }
            Some(part) => match marks[part] {
                Mark::Unseen => {
                    path.push(top)?;
                    marks[part] = Mark::Active;
                    path.push(part)?;
                }
                Mark::Active => return Ok(false),
                Mark::Done(_) => return Ok(false),
            },
        }
    }
    Ok(true)
}

/// What each variable is in the end, or none where no types solve the equations.
pub fn solve(
    alloc: Global,
    types: &mut TypeTable,
    filler: TypeId,
    shapes: &[Shape],
) -> Result<Option<Vec<Settled>>, AllocError>
    requires table { IsTable types.old }
    requires filler_held { HoldsType types.old filler }
    requires filler { type_of types.old filler ≡ o }
    requires formed { AreFormed shapes.now }
    requires held { AreHeld types.old shapes.now }
    ensures solved { IfOk result (λ found. MatchOption found (HasNoSolution types.old shapes.now) (λ s. Solved types.old types.new shapes.now s.items)) }
    ensures kinds { kinds types.new ≡ kinds types.old }
    ensures constants { constants types.new ≡ constants types.old }
    ensures kept { IsExtendedBy types.old types.new }
    ensures table { IsTable types.new }
{
    let mut marks = vec![in alloc; Mark::Unseen; shapes.len()]?;
    for i in 0..shapes.len() {
        if !settle(alloc, types, filler, shapes, &mut marks, i)? {
            return Ok(None);
        }
    }
    Ok(Some(settled_variables(alloc, filler, shapes, &marks)?))
}

/// What all variables are, of which each is done.
fn settled_variables(
    alloc: Global,
    filler: TypeId,
    shapes: &[Shape],
    marks: &[Mark],
) -> Result<Vec<Settled>, AllocError>
    requires len { length marks.now ≡ length shapes.now }
    requires done { (k : ℕ) → k < length shapes.now → IsDone marks.now k }
    ensures len { IfOk result (λ found. length found.items ≡ length shapes.now) }
    ensures found { IfOk result (λ found. (k : ℕ) → k < length shapes.now → mark_at marks.now k ≡ Done (settled_at found.items k)) }
{
    let none = Settled {
        ty: filler,
        is_open: true,
    };
    let mut found = Vec::new(alloc);
    for i in 0..shapes.len() {
        found.push(settled_of(marks, i, none))?;
    }
    Ok(found)
}
