//! One equation between type variables is met, or gives way to equations between the parts of their types.
ghost use Rattle.std.specs.Prelude.{◌≡◌, ◌<◌, ◌++◌, [], ◌∷◌, length, true, false, IfOk};
ghost use Rattle.ab_store.specs.ab_types.specs.Entries.{Table};
ghost use Rattle.ab_store.specs.ab_types.specs.Ids.{HoldsType};
ghost use Rattle.ab_store.specs.ab_types.specs.Sound.{IsTable};
ghost use Rattle.ab_inference.specs.declared.work.Wanted.TheVariants.{Equal as Equated, Is};
ghost use Rattle.ab_inference.specs.Solutions.{AreFormed, AreHeld, IsRoot, is_loose, shape_at};
ghost use Rattle.ab_inference.specs.Work.{WithinOne, Moves, Fails};

use crate::links::find;
use crate::shape::Shape;
use crate::work::Wanted;
use ab_store::types::{TypeId, TypeTable, TypeView};
use std::alloc::AllocError;

/// A variable that has no link is this type.
fn settle_root(
    types: &TypeTable,
    shapes: &mut [Shape],
    work: &mut Vec<Wanted>,
    root: usize,
    ty: TypeId,
) -> Result<bool, AllocError>
    requires table { IsTable types.now }
    requires formed { AreFormed shapes.old }
    requires held { AreHeld types.now shapes.old }
    requires root_in { root < length shapes.old }
    requires is_root { IsRoot (shape_at shapes.old root) }
    requires ty { HoldsType types.now ty }
    ensures met { IfOk result (λ yes. yes ≡ true → Moves types.now shapes.old (Is root ty) shapes.new work.old.items work.new.items) }
    ensures apart { IfOk result (λ yes. yes ≡ false → Fails types.now shapes.old (Is root ty ∷ [])) }
{
    match shapes[root] {
        Shape::Open => {
            shapes[root] = Shape::Known(ty);
            Ok(true)
        }
        Shape::Known(known) => Ok(known == ty),
        Shape::Arrow(from, to) => match types.view(ty) {
            TypeView::Base(_) => Ok(false),
            TypeView::Arrow(known_from, known_to) => {
                shapes[root] = Shape::Known(ty);
                work.push(Wanted::Is(from, known_from))?;
                work.push(Wanted::Is(to, known_to))?;
                Ok(true)
            }
        },
        Shape::Link(_) => Ok(false),
    }
}

/// Two variables that have no links and aren't known to be types are the same.
fn join_roots(
    shapes: &mut [Shape],
    work: &mut Vec<Wanted>,
    low: usize,
    high: usize,
) -> Result<(), AllocError>
    requires formed { AreFormed shapes.old }
    requires order { low < high }
    requires high_in { high < length shapes.old }
    requires low_root { is_loose (shape_at shapes.old low) ≡ true }
    requires high_root { is_loose (shape_at shapes.old high) ≡ true }
    ensures { IfOk result (λ _. (types : Table) → AreHeld types shapes.old → Moves types shapes.old (Equated low high) shapes.new work.old.items work.new.items) }
{
    let shape = shapes[high];
    match shapes[low] {
        Shape::Open => {
            shapes[low] = shape;
            shapes[high] = Shape::Link(low);
            Ok(())
        }
        Shape::Arrow(from, to) => match shape {
            Shape::Open => {
                shapes[high] = Shape::Link(low);
                Ok(())
            }
            Shape::Arrow(other_from, other_to) => {
                shapes[high] = Shape::Link(low);
                work.push(Wanted::Equal(from, other_from))?;
                work.push(Wanted::Equal(to, other_to))?;
                Ok(())
            }
            Shape::Known(_) | Shape::Link(_) => Ok(()),
        },
        Shape::Known(_) | Shape::Link(_) => Ok(()),
    }
}

/// Two variables that have no links are the same.
fn unite(
    types: &TypeTable,
    shapes: &mut [Shape],
    work: &mut Vec<Wanted>,
    low: usize,
    high: usize,
) -> Result<bool, AllocError>
    requires table { IsTable types.now }
    requires formed { AreFormed shapes.old }
    requires held { AreHeld types.now shapes.old }
    requires order { low < high }
    requires high_in { high < length shapes.old }
    requires low_root { IsRoot (shape_at shapes.old low) }
    requires high_root { IsRoot (shape_at shapes.old high) }
    ensures met { IfOk result (λ yes. yes ≡ true → Moves types.now shapes.old (Equated low high) shapes.new work.old.items work.new.items) }
    ensures apart { IfOk result (λ yes. yes ≡ false → Fails types.now shapes.old (Equated low high ∷ [])) }
{
    if let Shape::Known(ty) = shapes[low] {
        return settle_root(types, shapes, work, high, ty);
    }
    if let Shape::Known(ty) = shapes[high] {
        return settle_root(types, shapes, work, low, ty);
    }
    join_roots(shapes, work, low, high)?;
    Ok(true)
}

/// The equation is met, or gives way to equations that are put behind the others; or no types meet it.
pub(crate) fn meet(
    types: &TypeTable,
    shapes: &mut [Shape],
    work: &mut Vec<Wanted>,
    wanted: Wanted,
) -> Result<bool, AllocError>
    requires table { IsTable types.now }
    requires formed { AreFormed shapes.old }
    requires held { AreHeld types.now shapes.old }
    requires within { WithinOne types.now (length shapes.old) wanted }
    ensures met { IfOk result (λ yes. yes ≡ true → Moves types.now shapes.old wanted shapes.new work.old.items work.new.items) }
    ensures apart { IfOk result (λ yes. yes ≡ false → Fails types.now shapes.old (wanted ∷ [])) }
{
    match wanted {
        Wanted::Equal(a, b) => {
            let one = find(shapes, a);
            let other = find(shapes, b);
            if one == other {
                return Ok(true);
            }
            if one < other {
                unite(types, shapes, work, one, other)
            } else {
                unite(types, shapes, work, other, one)
            }
        }
        Wanted::Is(a, ty) => {
            let root = find(shapes, a);
            settle_root(types, shapes, work, root, ty)
        }
    }
}
