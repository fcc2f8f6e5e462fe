//! Whether an expression has one reading, none, or several.
ghost use Rattle.std.specs.Prelude.{◌≡◌, ℕ, ◌+◌, ◌<◌, ◌^◌, ◌∷◌, [], List, length, true, false, IfOk, All, OnOk, MatchOption};
ghost use Rattle.ab_term.specs.Types as plain;
ghost use Rattle.ab_store.specs.ab_types.specs.Entries.{kinds, constants, IsExtendedBy};
ghost use Rattle.ab_store.specs.ab_types.specs.Ids.{HoldsType, type_of};
ghost use Rattle.ab_store.specs.ab_types.specs.Sound.{IsTable};
ghost use Rattle.ab_store.specs.declared.node.CellEntry.{CellEntry};
ghost use Rattle.ab_meaning.specs.Types.{PropFree};
ghost use Rattle.ab_meaning.specs.ResolvedNames.{Name as AName};
ghost use Rattle.ab_meaning.specs.Readings.{Making};
ghost use Rattle.ab_inference.specs.Assignments.{settled_at};
ghost use Rattle.ab_inference.specs.Sketches.{Sketch, Fit, count, variable_of, marks_of};
ghost use Rattle.ab_inference.specs.Programs.{Runs, items_of, OpTyped};
ghost use Rattle.ab_inference.specs.Inferences.{IsFormulas};
ghost use Rattle.ab_inference.specs.Verdicts.{marks_in, mark_of, IsVerdict, AreApart, type_found, IsFirstOpenMark, IsOpenAt, HasPropAt, HasTypesFound};

use crate::assignments::{Settled, solve};
use crate::constraints::{Formulas, infer};
use crate::op::{Mark, Op};
use crate::prop_free::{Free, is_prop_free};
use crate::shape::Shape;
use crate::type_variables::equate;
use crate::work::Wanted;
use ab_store::types::{TypeId, TypeTable};
use std::alloc::{AllocError, Global};

/// What is found of an expression's readings.
#[derive(Drop)]
pub enum Verdict {
    /// One, with these types.
    One(Vec<Settled>),
    /// None.
    Nothing,
    /// Several: the place of the first name to which two of them give different types.
    Open(usize),
}

/// What the variable at a mark is in the end.
fn found_at(base: usize, found: &[Settled], mark: &Mark) -> Settled
    requires { variable_of base (mark_of mark.now) < length found.now }
    ensures { result ≡ settled_at found.now (variable_of base (mark_of mark.now)) }
{
    match mark {
        Mark::Binder(node, _) => found[*node],
        Mark::Free(number, _) => found[base + *number],
    }
}

/// Whether `prop` stands in a type at a mark.
fn has_prop(
    alloc: Global,
    types: &TypeTable,
    prop: TypeId,
    base: usize,
    found: &[Settled],
    marks: &[Mark],
) -> Result<bool, AllocError>
    requires table { IsTable types.now }
    requires prop_held { HoldsType types.now prop }
    requires prop { type_of types.now prop ≡ plain.prop }
    requires marks { All (λ m. variable_of base (mark_of m) < length found.now) marks.now }
    requires held { (i : ℕ) → i < length found.now → HoldsType types.now (settled_at found.now i).ty }
    ensures some { IfOk result (λ has. has ≡ true → HasPropAt types.now base found.now marks.now) }
    ensures none { IfOk result (λ has. has ≡ false → (i : ℕ) → i < length marks.now → PropFree (type_found types.now base found.now marks.now i)) }
{
    let mut free = Free::new(alloc);
    for mark in marks {
        let settled = found_at(base, found, mark);
        if !is_prop_free(types, prop, settled.ty, &mut free)? {
            return Ok(true);
        }
    }
    Ok(false)
}

/// The place of the first mark whose type is open.
fn first_open(base: usize, found: &[Settled], marks: &[Mark]) -> Option<usize>
    requires marks { All (λ m. variable_of base (mark_of m) < length found.now) marks.now }
    ensures { MatchOption result ((i : ℕ) → i < length marks.now → IsOpenAt base found.now marks.now i ≡ false) (IsFirstOpenMark base found.now marks.now) }
{
    for mark in marks {
        let settled = found_at(base, found, mark);
        if settled.is_open {
            return Some(mark.place());
        }
    }
    None
}

/// Whether what the steps make has one reading at the type, none, or several.
pub fn decide(
    alloc: Global,
    types: &mut TypeTable,
    formulas: Formulas,
    base: usize,
    frees: usize,
    steps: &[Op],
    marks: &[Mark],
    expected: TypeId,
) -> Result<Verdict, AllocError>
    requires table { IsTable types.old }
    requires prop { IsFormulas types.old formulas }
    requires sum { base + frees < 2 ^ 63 }
    requires steps { All (OpTyped types.old base frees) steps.now }
    requires marks { All (λ m. variable_of base (mark_of m) < base + frees) marks.now }
    requires expected { HoldsType types.old expected }
    ensures verdict { IfOk result (λ verdict. (made : Making) (cells : List CellEntry) (names : List AName) (k : Sketch) →
        Runs (items_of types.old cells names steps.now) [] (k ∷ []) → Fit names [] 0 k → base ≡ count k → frees ≡ length names → AreApart names → marks_in marks.now ≡ marks_of k →
        IsVerdict types.new made base k (type_of types.old expected) verdict) }
    ensures found { IfOk result (HasTypesFound types.new (base + frees)) }
    ensures kinds { kinds types.new ≡ kinds types.old }
    ensures constants { constants types.new ≡ constants types.old }
    ensures kept { IsExtendedBy types.old types.new }
    ensures table { IsTable types.new }
{
    let mut shapes = vec![in alloc; Shape::Open; base + frees]?;
    let Some(root) = infer(alloc, types, formulas, base, frees, steps, &mut shapes)? else {
        return Ok(Verdict::Nothing);
    };
    if !equate(alloc, types, &mut shapes, Wanted::Is(root, expected))? {
        return Ok(Verdict::Nothing);
    }
    let Some(found) = solve(alloc, types, formulas.o, &shapes)? else {
        return Ok(Verdict::Nothing);
    };
    if has_prop(alloc, types, formulas.prop, base, &found, marks)? {
        return Ok(Verdict::Nothing);
    }
    match first_open(base, &found, marks) {
        Some(place) => Ok(Verdict::Open(place)),
        None => Ok(Verdict::One(found)),
    }
}
