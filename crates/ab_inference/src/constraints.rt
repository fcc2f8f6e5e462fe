//! What the steps of an expression say of type variables.
ghost use Rattle.std.specs.Prelude.{◌≡◌, ◌<◌, ◌≤◌, ◌+◌, ◌∷◌, [], List, length, IfOk, IfSome, All, MatchOption};
ghost use Rattle.ab_store.specs.ab_types.specs.Sound.{IsTable};
ghost use Rattle.ab_store.specs.declared.node.CellEntry.{CellEntry};
ghost use Rattle.ab_inference.specs.declared.shape.Shape.{Shape as AShape};
ghost use Rattle.ab_inference.specs.Solutions.{AreFormed, AreHeld};
ghost use Rattle.ab_meaning.specs.ResolvedNames.{Name as AName};
ghost use Rattle.ab_inference.specs.Sketches.{Sketch};
ghost use Rattle.ab_inference.specs.Programs.{Item, Runs, item_of, items_of, OpTyped, HoldsWritten, binding_of};
ghost use Rattle.ab_inference.specs.Inferences.{Running, Inferring, HasNoTyping, AreBelow, Kept, IsBinder, IsFormulas, turned};
ghost use Rattle.ab_inference.specs.VariableSteps.{Step, NoStep};

use crate::op::{Binds, Op};
use crate::shape::Shape;
use crate::type_variables::{application_type, step};
use crate::work::Wanted;
use ab_store::types::{TypeId, TypeTable};
use std::alloc::{AllocError, Global};

/// The ids of `prop` and `o`.
#[derive(Clone, Copy)]
pub struct Formulas {
    pub prop: TypeId,
    pub o: TypeId,
}

/// The last variable, which is taken off.
fn pop_one(stack: &mut Vec<usize>) -> Option<usize>
    ensures { MatchOption result (turned stack.old.items ≡ []) (λ x. turned stack.old.items ≡ x ∷ turned stack.new.items) }
{
    stack.pop()
}

/// The last but one and the last, which are taken off.
fn pop_two(stack: &mut Vec<usize>) -> Option<(usize, usize)>
    ensures { MatchOption result (length (turned stack.old.items) ≤ 1) (λ p. turned stack.old.items ≡ p.1 ∷ p.0 ∷ turned stack.new.items) }
{
    let last = pop_one(stack)?;
    let first = pop_one(stack)?;
    Some((first, last))
}

/// What the variable of a quantifier's name is, and that its body is a formula.
fn infer_binder(
    alloc: Global,
    types: &TypeTable,
    formulas: Formulas,
    binds: Binds,
    node: usize,
    written: Option<TypeId>,
    body: usize,
    shapes: &mut Vec<Shape>,
) -> Result<Option<usize>, AllocError>
    requires table { IsTable types.now }
    requires prop { IsFormulas types.now formulas }
    requires formed { AreFormed shapes.old.items }
    requires held { AreHeld types.now shapes.old.items }
    requires node_in { node < length shapes.old.items }
    requires body_in { body < length shapes.old.items }
    requires written { HoldsWritten types.now written }
    ensures { IfOk result (λ found. MatchOption found (NoStep types.now shapes.old.items (IsBinder types.now node body (binding_of binds) written))
        (λ n. Step types.now shapes.old.items shapes.new.items n (IsBinder types.now node body (binding_of binds) written))) }
{
    let ty = match binds {
        Binds::Forall | Binds::Exists | Binds::Nabla => formulas.prop,
        Binds::Pi => formulas.o,
    };
    match written {
        None => {
            let wanted = [Wanted::Is(body, ty)];
            let found = step(alloc, types, shapes, Shape::Known(ty), &wanted)?;
            Ok(found)
        }
        Some(id) => {
            let wanted = [Wanted::Is(node, id), Wanted::Is(body, ty)];
            let found = step(alloc, types, shapes, Shape::Known(ty), &wanted)?;
            Ok(found)
        }
    }
}

/// The variable of the type of what a step makes, where it has one.
fn infer_step(
    alloc: Global,
    types: &TypeTable,
    formulas: Formulas,
    base: usize,
    frees: usize,
    step_of: &Op,
    shapes: &mut Vec<Shape>,
    stack: &mut Vec<usize>,
) -> Result<Option<usize>, AllocError>
    requires table { IsTable types.now }
    requires prop { IsFormulas types.now formulas }
    requires formed { AreFormed shapes.old.items }
    requires held { AreHeld types.now shapes.old.items }
    requires sum { base + frees ≤ length shapes.old.items }
    requires op { OpTyped types.now base frees step_of.now }
    requires stack { AreBelow (length shapes.old.items) (turned stack.old.items) }
    ensures kept { IfOk result (λ found. IfSome found (Kept types.now shapes.old.items shapes.new.items (turned stack.new.items))) }
    ensures inferred { IfOk result (λ found. (first : List AShape) (cells : List CellEntry) (names : List AName) (rest : List Item) (out : List Sketch) →
        length first ≡ base + frees →
        Running types.now base first shapes.old.items (item_of types.now cells names step_of.now ∷ rest) out (turned stack.old.items) →
        MatchOption found (HasNoTyping types.now base first out)
        (λ n. Running types.now base first shapes.new.items rest out (n ∷ turned stack.new.items))) }
{
    match step_of {
        Op::Bound(_, node) => Ok(Some(*node)),
        Op::Known(_, ty) => {
            let found = step(alloc, types, shapes, Shape::Known(*ty), &[])?;
            Ok(found)
        }
        Op::Free(number, _) => Ok(Some(base + *number)),
        Op::Apply => {
            let Some((function, argument)) = pop_two(stack) else {
                return Ok(None);
            };
            let found = application_type(alloc, types, shapes, function, argument)?;
            Ok(found)
        }
        Op::Abs(_, node, _) => {
            let Some(body) = pop_one(stack) else {
                return Ok(None);
            };
            let found = step(alloc, types, shapes, Shape::Arrow(*node, body), &[])?;
            Ok(found)
        }
        Op::Equal(node) => {
            let Some((left, right)) = pop_two(stack) else {
                return Ok(None);
            };
            let sides = [Wanted::Equal(left, *node), Wanted::Equal(right, *node)];
            let found = step(alloc, types, shapes, Shape::Known(formulas.prop), &sides)?;
            Ok(found)
        }
        Op::Bind(binds, _, node, _, written) => {
            let Some(body) = pop_one(stack) else {
                return Ok(None);
            };
            let found = infer_binder(
                alloc, types, formulas, *binds, *node, *written, body, shapes,
            )?;
            Ok(found)
        }
        Op::Behind => {
            let Some((argument, function)) = pop_two(stack) else {
                return Ok(None);
            };
            let found = application_type(alloc, types, shapes, function, argument)?;
            Ok(found)
        }
    }
}

/// The variable of the type of what the steps make, where it has one.
pub fn infer(
    alloc: Global,
    types: &TypeTable,
    formulas: Formulas,
    base: usize,
    frees: usize,
    steps: &[Op],
    shapes: &mut Vec<Shape>,
) -> Result<Option<usize>, AllocError>
    requires table { IsTable types.now }
    requires prop { IsFormulas types.now formulas }
    requires formed { AreFormed shapes.old.items }
    requires held { AreHeld types.now shapes.old.items }
    requires sum { base + frees ≡ length shapes.old.items }
    requires steps { All (OpTyped types.now base frees) steps.now }
    ensures kept { IfOk result (λ found. IfSome found (Kept types.now shapes.old.items shapes.new.items [])) }
    ensures inferred { IfOk result (λ found. (cells : List CellEntry) (names : List AName) (k : Sketch) →
        Runs (items_of types.now cells names steps.now) [] (k ∷ []) →
        MatchOption found (HasNoTyping types.now base shapes.old.items (k ∷ []))
        (λ n. Inferring types.now base shapes.old.items shapes.new.items (k ∷ []) (n ∷ []))) }
{
    let mut stack = Vec::new(alloc);
    for step_of in steps {
        let Some(node) = infer_step(
            alloc, types, formulas, base, frees, step_of, shapes, &mut stack,
        )?
        else {
            return Ok(None);
        };
        stack.push(node)?;
    }
    Ok(stack.pop())
}
