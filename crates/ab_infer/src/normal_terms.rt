//! The term that steps make.
ghost use Rattle.std.specs.Prelude.{◌≡◌, ℕ, ◌+◌, ◌<◌, ◌≤◌, [], ◌∷◌, List, Option, length, MatchOption, IfOk, IfSome, All};
ghost use Rattle.ab_term.specs.Types as plain;
ghost use Rattle.ab_term.specs.Types.{Ty};
ghost use Rattle.ab_term.specs.Terms.{lam};
ghost use Rattle.ab_norm.specs.ab_types.specs.Entries.{Table};
ghost use Rattle.ab_norm.specs.ab_types.specs.Ids.{HoldsType, type_of};
ghost use Rattle.ab_norm.specs.ab_types.specs.Sound.{IsTable};
ghost use Rattle.ab_norm.specs.ab_store.specs.declared.node.CellEntry.{CellEntry};
ghost use Rattle.ab_norm.specs.ab_store.specs.Trees.{logical_of};
ghost use Rattle.ab_norm.specs.ab_store.specs.Naming.{HeadNames, HeadIsTyped, LogicalIsTyped, IsTypedBy};
ghost use Rattle.ab_norm.specs.NodeGrowth.{AddsTypedTerms};
ghost use Rattle.ab_meaning.specs.ResolvedNames.{Name as AName, binding_head, binding_type};
ghost use Rattle.ab_meaning.specs.Readings.{Making};
ghost use Rattle.ab_inference.specs.Sketches.{Sketch, Fit};
ghost use Rattle.ab_inference.specs.Programs.{Runs, items_of, item_of, OpTyped, binding_of, apply_item, behind_item, abs_item, equal_item, bind_item};
ghost use Rattle.ab_inference.specs.Inferences.{IsFormulas, written_type};
ghost use Rattle.ab_inference.specs.Verdicts.{types_found};
ghost use Rattle.ab_infer.specs.declared.value.Value.TheVariants.{Given};
ghost use Rattle.ab_norm.specs.ab_store.specs.declared.node.Head.TheVariants.{Index};
ghost use Rattle.ab_inference.specs.Assignments.{settled_at};
ghost use Rattle.ab_infer.specs.NormalTerms.{OpFits, AreFreeHeads, AreTypes, BecomeHeads, IsBuilt, head_at};
ghost use Rattle.ab_infer.specs.Values.{HoldsValue, turned, Popped, Advances};

use crate::value::{Value, one, pop, pop_term, two, with_argument};
use ab_inference::{Binds, Formulas, Op, Settled};
use ab_norm::name::Name;
use ab_norm::store::{Arguments, Head, Logical, Store, TermId};
use ab_norm::types::{Steps, TypeId, TypeTable};
use std::alloc::{AllocError, Global};

/// The last term under a binder of the name.
fn abstraction(
    alloc: Global,
    types: &TypeTable,
    store: &mut Store,
    name: &Name,
    ty: TypeId,
    stack: &mut Vec<Value>,
) -> Result<Option<TermId>, AllocError>
    requires table { IsTable types.now }
    requires store { IsTypedBy types.now store.old }
    requires stack { All (HoldsValue types.now store.old) stack.old.items }
    requires ty { HoldsType types.now ty }
    ensures popped { IfOk result (λ found. MatchOption found (turned stack.old.items ≡ [])
        (Popped types.now store.old store.new stack.old.items stack.new.items (lam (type_of types.now ty) name.now))) }
    ensures stack { All (HoldsValue types.now store.new) stack.new.items }
    ensures adds { AddsTypedTerms types.now store.old store.new }
{
    let Some(body) = pop_term(alloc, types, store, stack)? else {
        return Ok(None);
    };
    let hint = name.copy(alloc)?;
    let made = store.lam(ty, hint, body)?;
    Ok(Some(made))
}

/// The last but one, given the last.
fn apply_last<L>(
    alloc: Global,
    types: &TypeTable,
    store: &mut Store,
    stack: &mut Vec<Value>,
    count: &mut Steps<L>,
) -> Result<Option<Value>, AllocError>
    requires table { IsTable types.now }
    requires store { IsTypedBy types.now store.old }
    requires stack { All (HoldsValue types.now store.old) stack.old.items }
    ensures advances { IfOk result (λ found. (base : ℕ) (v : ℕ → Ty) →
        Advances types.now store.old store.new base v (λ x. Unit {0}) (λ x. apply_item) stack.old.items stack.new.items found) }
    ensures held { IfOk result (λ found. IfSome found (HoldsValue types.now store.new)) }
    ensures stack { All (HoldsValue types.now store.new) stack.new.items }
    ensures adds { AddsTypedTerms types.now store.old store.new }
    ensures count { count.old ≤ count.new }
{
    let Some(argument) = pop_term(alloc, types, store, stack)? else {
        return Ok(None);
    };
    let Some(function) = pop(stack) else {
        return Ok(None);
    };
    let made = with_argument(alloc, types, store, function, argument, count)?;
    Ok(Some(made))
}

/// The last, given the last but one.
fn apply_behind<L>(
    alloc: Global,
    types: &TypeTable,
    store: &mut Store,
    stack: &mut Vec<Value>,
    count: &mut Steps<L>,
) -> Result<Option<Value>, AllocError>
    requires table { IsTable types.now }
    requires store { IsTypedBy types.now store.old }
    requires stack { All (HoldsValue types.now store.old) stack.old.items }
    ensures advances { IfOk result (λ found. (base : ℕ) (v : ℕ → Ty) →
        Advances types.now store.old store.new base v (λ x. Unit {0}) (λ x. behind_item) stack.old.items stack.new.items found) }
    ensures held { IfOk result (λ found. IfSome found (HoldsValue types.now store.new)) }
    ensures stack { All (HoldsValue types.now store.new) stack.new.items }
    ensures adds { AddsTypedTerms types.now store.old store.new }
    ensures count { count.old ≤ count.new }
{
    let Some(function) = pop(stack) else {
        return Ok(None);
    };
    let Some(argument) = pop_term(alloc, types, store, stack)? else {
        return Ok(None);
    };
    let made = with_argument(alloc, types, store, function, argument, count)?;
    Ok(Some(made))
}

/// The last under a binder.
fn abstract_last(
    alloc: Global,
    types: &TypeTable,
    store: &mut Store,
    name: &Name,
    ty: TypeId,
    stack: &mut Vec<Value>,
) -> Result<Option<Value>, AllocError>
    requires table { IsTable types.now }
    requires store { IsTypedBy types.now store.old }
    requires stack { All (HoldsValue types.now store.old) stack.old.items }
    requires ty { HoldsType types.now ty }
    ensures advances { IfOk result (λ found. (base : ℕ) (v : ℕ → Ty) (n p : ℕ) → v n ≡ type_of types.now ty →
        Advances types.now store.old store.new base v (λ x. Unit {0}) (λ x. abs_item name.now n p) stack.old.items stack.new.items found) }
    ensures held { IfOk result (λ found. IfSome found (HoldsValue types.now store.new)) }
    ensures stack { All (HoldsValue types.now store.new) stack.new.items }
    ensures adds { AddsTypedTerms types.now store.old store.new }
{
    let Some(made) = abstraction(alloc, types, store, name, ty, stack)? else {
        return Ok(None);
    };
    Ok(Some(Value::Done(made)))
}

/// An equation between the last two.
fn equate_last(
    alloc: Global,
    types: &TypeTable,
    store: &mut Store,
    prop: TypeId,
    side: TypeId,
    stack: &mut Vec<Value>,
) -> Result<Option<Value>, AllocError>
    requires table { IsTable types.now }
    requires store { IsTypedBy types.now store.old }
    requires stack { All (HoldsValue types.now store.old) stack.old.items }
    requires prop_held { HoldsType types.now prop }
    requires prop { type_of types.now prop ≡ plain.prop }
    requires side { HoldsType types.now side }
    ensures advances { IfOk result (λ found. (base : ℕ) (v : ℕ → Ty) (n : ℕ) → v n ≡ type_of types.now side →
        Advances types.now store.old store.new base v (λ x. Unit {0}) (λ x. equal_item n) stack.old.items stack.new.items found) }
    ensures held { IfOk result (λ found. IfSome found (HoldsValue types.now store.new)) }
    ensures stack { All (HoldsValue types.now store.new) stack.new.items }
    ensures adds { AddsTypedTerms types.now store.old store.new }
{
    let Some(right) = pop_term(alloc, types, store, stack)? else {
        return Ok(None);
    };
    let Some(left) = pop_term(alloc, types, store, stack)? else {
        return Ok(None);
    };
    let sides = two(alloc, left, right)?;
    Ok(Some(Value::Given(Head::Logic(Logical::Equal(side)), prop, sides)))
}

/// The logical constant that binds a name of the type.
fn binder(binds: Binds, ty: TypeId) -> Logical
    ensures is { (types : Table) → logical_of types result ≡ binding_head (binding_of binds) (type_of types ty) }
    ensures typed { (types : Table) → HoldsType types ty → LogicalIsTyped types result }
{
    match binds {
        Binds::Forall => Logical::Forall(ty),
        Binds::Exists => Logical::Exists(ty),
        Binds::Nabla => Logical::Nabla(ty),
        Binds::Pi => Logical::Pi(ty),
    }
}

/// The type of what it binds a name in.
fn formula_type(binds: Binds, formulas: Formulas) -> TypeId
    ensures held { (types : Table) → IsFormulas types formulas → HoldsType types result }
    ensures is { (types : Table) → IsFormulas types formulas → type_of types result ≡ binding_type (binding_of binds) }
{
    match binds {
        Binds::Forall | Binds::Exists | Binds::Nabla => formulas.prop,
        Binds::Pi => formulas.o,
    }
}

/// The last under a quantifier.
fn bind_last(
    alloc: Global,
    types: &TypeTable,
    store: &mut Store,
    formulas: Formulas,
    binds: Binds,
    name: &Name,
    ty: TypeId,
    stack: &mut Vec<Value>,
) -> Result<Option<Value>, AllocError>
    requires table { IsTable types.now }
    requires formulas { IsFormulas types.now formulas }
    requires store { IsTypedBy types.now store.old }
    requires stack { All (HoldsValue types.now store.old) stack.old.items }
    requires ty { HoldsType types.now ty }
    ensures advances { IfOk result (λ found. (base : ℕ) (v : ℕ → Ty) (n p : ℕ) (w : Option Ty) → v n ≡ type_of types.now ty →
        Advances types.now store.old store.new base v (λ x. Unit {0}) (λ x. bind_item (binding_of binds) name.now n p w) stack.old.items stack.new.items found) }
    ensures held { IfOk result (λ found. IfSome found (HoldsValue types.now store.new)) }
    ensures stack { All (HoldsValue types.now store.new) stack.new.items }
    ensures adds { AddsTypedTerms types.now store.old store.new }
{
    let Some(made) = abstraction(alloc, types, store, name, ty, stack)? else {
        return Ok(None);
    };
    let head = Head::Logic(binder(binds, ty));
    let left = formula_type(binds, formulas);
    let body = one(alloc, made)?;
    Ok(Some(Value::Given(head, left, body)))
}

/// A head that is given nothing yet.
fn bare(alloc: Global, head: Head, ty: TypeId) -> Value
    ensures { result ≡ Given head ty [] }
{
    Value::Given(head, ty, Arguments::from_vec(Vec::new(alloc)))
}

/// A bound name.
fn bare_name(alloc: Global, found: &[Settled], index: usize, node: usize) -> Value
    requires { node < length found.now }
    ensures { result ≡ Given (Index index) (settled_at found.now node).ty [] }
{
    bare(alloc, Head::Index(index), found[node].ty)
}

/// A free name.
fn bare_free(alloc: Global, base: usize, found: &[Settled], frees: &[Head], number: usize) -> Value
    requires number { number < length frees.now }
    requires within { base + length frees.now ≤ length found.now }
    ensures { result ≡ Given (head_at frees.now number) (settled_at found.now (base + number)).ty [] }
{
    bare(alloc, frees[number], found[base + number].ty)
}

/// What a step makes of the last values.
fn build_step<L>(
    alloc: Global,
    types: &TypeTable,
    store: &mut Store,
    formulas: Formulas,
    base: usize,
    found: &[Settled],
    frees: &[Head],
    step_of: &Op,
    stack: &mut Vec<Value>,
    count: &mut Steps<L>,
) -> Result<Option<Value>, AllocError>
    requires table { IsTable types.now }
    requires formulas { IsFormulas types.now formulas }
    requires store { IsTypedBy types.now store.old }
    requires within { base + length frees.now ≤ length found.now }
    requires found { AreTypes types.now found.now }
    requires frees { AreFreeHeads types.now store.old.cells base found.now frees.now }
    requires typed { OpTyped types.now base (length frees.now) step_of.now }
    requires fits { OpFits types.now store.old.cells step_of.now }
    requires stack { All (HoldsValue types.now store.old) stack.old.items }
    ensures advances { IfOk result (λ value. Advances types.now store.old store.new base (types_found types.now found.now)
        (λ x. BecomeHeads types.now store.old.cells base (types_found types.now found.now) x.made x.names frees.now)
        (λ x. item_of types.now store.old.cells x.names step_of.now) stack.old.items stack.new.items value) }
    ensures held { IfOk result (λ value. IfSome value (HoldsValue types.now store.new)) }
    ensures stack { All (HoldsValue types.now store.new) stack.new.items }
    ensures adds { AddsTypedTerms types.now store.old store.new }
    ensures count { count.old ≤ count.new }
{
    match step_of {
        Op::Bound(index, node) => Ok(Some(bare_name(alloc, found, *index, *node))),
        Op::Known(head, ty) => Ok(Some(bare(alloc, *head, *ty))),
        Op::Free(number, _) => Ok(Some(bare_free(alloc, base, found, frees, *number))),
        Op::Apply => apply_last(alloc, types, store, stack, count),
        Op::Behind => apply_behind(alloc, types, store, stack, count),
        Op::Abs(name, node, _) => {
            abstract_last(alloc, types, store, name, found[*node].ty, stack)
        }
        Op::Equal(node) => {
            let side = found[*node].ty;
            equate_last(alloc, types, store, formulas.prop, side, stack)
        }
        Op::Bind(binds, name, node, _, _) => {
            let ty = found[*node].ty;
            bind_last(alloc, types, store, formulas, *binds, name, ty, stack)
        }
    }
}

/// The normal form of what the steps make, with these types at variables, and these heads for free names.
pub fn build<L>(
    alloc: Global,
    types: &TypeTable,
    store: &mut Store,
    formulas: Formulas,
    base: usize,
    found: &[Settled],
    frees: &[Head],
    steps: &[Op],
    count: &mut Steps<L>,
) -> Result<Option<TermId>, AllocError>
    requires table { IsTable types.now }
    requires formulas { IsFormulas types.now formulas }
    requires store { IsTypedBy types.now store.old }
    requires within { base + length frees.now ≤ length found.now }
    requires found { AreTypes types.now found.now }
    requires frees { AreFreeHeads types.now store.old.cells base found.now frees.now }
    requires typed { All (OpTyped types.now base (length frees.now)) steps.now }
    requires fit { All (OpFits types.now store.old.cells) steps.now }
    ensures built { IfOk result (λ term. (made : Making) (names : List AName) (k : Sketch) →
        Runs (items_of types.now store.old.cells names steps.now) [] (k ∷ []) → Fit names [] 0 k →
        BecomeHeads types.now store.old.cells base (types_found types.now found.now) made names frees.now →
        MatchOption term ⊥ (IsBuilt types.now store.new base (types_found types.now found.now) made k)) }
    ensures adds { AddsTypedTerms types.now store.old store.new }
    ensures count { count.old ≤ count.new }
{
    let mut stack = Vec::new(alloc);
    for step_of in steps {
        let Some(value) = build_step(
            alloc, types, store, formulas, base, found, frees, step_of, &mut stack, count,
        )?
        else {
            return Ok(None);
        };
        stack.push(value)?;
    }
    pop_term(alloc, types, store, &mut stack)
}
