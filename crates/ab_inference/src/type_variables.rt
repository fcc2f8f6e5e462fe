//! One type variable more, and what is known of it.
ghost use Rattle.std.specs.Prelude.{◌≡◌, ◌<◌, length, true, false, IfOk, MatchOption};
ghost use Rattle.ab_store.specs.ab_types.specs.Sound.{IsTable};
ghost use Rattle.ab_inference.specs.Solutions.{AreFormed, AreHeld, Names, HeldShape};
ghost use Rattle.ab_inference.specs.Work.{Within, WithinOne, Fails, Meeting, Part};
ghost use Rattle.ab_inference.specs.VariableSteps.{Step, NoStep, HasShape, IsApplied, MeetingAll};

use crate::shape::Shape;
use crate::type_unification::unify;
use crate::work::Wanted;
use ab_store::types::TypeTable;
use std::alloc::{AllocError, Global};

/// All equations are met, or no types meet them.
fn meet_all(
    alloc: Global,
    types: &TypeTable,
    shapes: &mut [Shape],
    wanted: &[Wanted],
) -> Result<bool, AllocError>
    requires table { IsTable types.now }
    requires formed { AreFormed shapes.old }
    requires held { AreHeld types.now shapes.old }
    requires within { Within types.now (length shapes.old) wanted.now }
    ensures met { IfOk result (λ yes. yes ≡ true → MeetingAll types.now shapes.old shapes.new wanted.now) }
    ensures apart { IfOk result (λ yes. yes ≡ false → Fails types.now shapes.old wanted.now) }
{
    for one in wanted {
        if !unify(alloc, types, shapes, *one)? {
            return Ok(false);
        }
    }
    Ok(true)
}

/// The same, in a vector.
fn meet_in(
    alloc: Global,
    types: &TypeTable,
    shapes: &mut Vec<Shape>,
    wanted: &[Wanted],
) -> Result<bool, AllocError>
    requires table { IsTable types.now }
    requires formed { AreFormed shapes.old.items }
    requires held { AreHeld types.now shapes.old.items }
    requires within { Within types.now (length shapes.old.items) wanted.now }
    ensures len { length shapes.new.items ≡ length shapes.old.items }
    ensures met { IfOk result (λ yes. yes ≡ true → MeetingAll types.now shapes.old.items shapes.new.items wanted.now) }
    ensures apart { IfOk result (λ yes. yes ≡ false → Fails types.now shapes.old.items wanted.now) }
{
    meet_all(alloc, types, shapes, wanted)
}

/// A new variable, of this shape, where the equations are met.
pub fn step(
    alloc: Global,
    types: &TypeTable,
    shapes: &mut Vec<Shape>,
    shape: Shape,
    wanted: &[Wanted],
) -> Result<Option<usize>, AllocError>
    requires table { IsTable types.now }
    requires formed { AreFormed shapes.old.items }
    requires held { AreHeld types.now shapes.old.items }
    requires shape { Names (length shapes.old.items) (length shapes.old.items) shape }
    requires shape_held { HeldShape types.now shape }
    requires within { Within types.now (length shapes.old.items) wanted.now }
    ensures { IfOk result (λ found. MatchOption found (NoStep types.now shapes.old.items (HasShape types.now shape wanted.now))
        (λ n. Step types.now shapes.old.items shapes.new.items n (HasShape types.now shape wanted.now))) }
{
    if !meet_in(alloc, types, shapes, wanted)? {
        return Ok(None);
    }
    let node = shapes.len();
    shapes.push(shape)?;
    Ok(Some(node))
}

/// A new variable for the type of an application, where a term of the one type can be given one of the other.
pub fn application_type(
    alloc: Global,
    types: &TypeTable,
    shapes: &mut Vec<Shape>,
    function: usize,
    argument: usize,
) -> Result<Option<usize>, AllocError>
    requires table { IsTable types.now }
    requires formed { AreFormed shapes.old.items }
    requires held { AreHeld types.now shapes.old.items }
    requires function_in { function < length shapes.old.items }
    requires argument_in { argument < length shapes.old.items }
    ensures { IfOk result (λ found. MatchOption found (NoStep types.now shapes.old.items (IsApplied function argument))
        (λ n. Step types.now shapes.old.items shapes.new.items n (IsApplied function argument))) }
{
    let node = shapes.len();
    shapes.push(Shape::Open)?;
    let arrow = shapes.len();
    shapes.push(Shape::Arrow(argument, node))?;
    let met = equate(alloc, types, shapes, Wanted::Equal(function, arrow))?;
    if met { Ok(Some(node)) } else { Ok(None) }
}

/// Changes what is known of the variables as `unify` does, in a vector.
pub fn equate(
    alloc: Global,
    types: &TypeTable,
    shapes: &mut Vec<Shape>,
    wanted: Wanted,
) -> Result<bool, AllocError>
    requires table { IsTable types.now }
    requires formed { AreFormed shapes.old.items }
    requires held { AreHeld types.now shapes.old.items }
    requires within { WithinOne types.now (length shapes.old.items) wanted }
    ensures len { length shapes.new.items ≡ length shapes.old.items }
    ensures met { IfOk result (λ yes. yes ≡ true → Meeting types.now shapes.old.items shapes.new.items wanted) }
    ensures apart { IfOk result (λ yes. yes ≡ false → Part types.now shapes.old.items wanted) }
{
    unify(alloc, types, shapes, wanted)
}
