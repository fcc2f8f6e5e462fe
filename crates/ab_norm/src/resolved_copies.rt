//! Terms in which no bound cell stands.
ghost use Rattle.std.specs.Prelude.{◌≡◌, ◌↔◌, ◌<◌, ◌≤◌, true, IfOk, OnOk, List, All};
ghost use Rattle.ab_term.specs.Types.{Ty};
ghost use Rattle.ab_store.specs.ab_types.specs.Sound.{IsTable};
ghost use Rattle.ab_store.specs.Reading.{Holds, tree_of, reading};
ghost use Rattle.ab_store.specs.Bindings.{IsResolved};
ghost use Rattle.ab_store.specs.Naming.{HoldsHead, IsTypedBy, IsTerm};
ghost use Rattle.ab_norm.specs.NodeGrowth.{AddsTerms};
ghost use Rattle.ab_norm.specs.Heads.{IsFree};
ghost use Rattle.ab_norm.specs.ResolvedTerms.{AllResolved};

use crate::bindings_put_in::resolve;
use crate::memo::{Memo, Seen};
use ab_store::types::laws::has_unique_ids;
use ab_store::types::{Steps, TypeTable};
use ab_store::{Head, Node, Store, TermId};
use std::alloc::{AllocError, Global};

/// The term with its bound cells replaced by what they are bound to, so that none stands in it, also as a node. A term
/// in which none stands is answered as it is.
pub fn copy_resolved<L>(
    alloc: Global,
    types: &TypeTable,
    store: &mut Store,
    id: TermId,
    steps: &mut Steps<L>,
) -> Result<TermId, AllocError>
    requires store { IsTypedBy types.now store.old }
    requires id { Holds store.old id }
    ensures held { IfOk result (λ r. Holds store.new r) }
    ensures reads { IfOk result (λ r. reading types.now store.new r ≡ reading types.now store.old id) }
    ensures resolved { IfOk result (λ r. IsResolved store.new r) }
    ensures same { IsResolved store.old id → IfOk result (λ r. r ≡ id) }
    ensures tree { IfOk result (λ r. tree_of types.now store.new r ≡ reading types.now store.old id) }
    ensures term { IfOk result (λ r. (G : List Ty) (A : Ty) → IsTerm types.now store.old G id A → IsTerm types.now store.new G r A) }
    ensures typed { IsTypedBy types.now store.new }
    ensures adds { AddsTerms store.old store.new }
    ensures steps { steps.old < steps.new }
{
    has_unique_ids(types);
    steps.tick();
    if is_resolved(alloc, store, id)? {
        return Ok(id);
    }
    fill(alloc, types, store, id, steps)
}

/// The term, with all bindings put in.
pub(crate) fn fill<L>(
    alloc: Global,
    types: &TypeTable,
    store: &mut Store,
    id: TermId,
    steps: &mut Steps<L>,
) -> Result<TermId, AllocError>
    requires types { IsTable types.now }
    requires store { IsTypedBy types.now store.old }
    requires id { Holds store.old id }
    ensures held { IfOk result (λ r. Holds store.new r) }
    ensures tree { IfOk result (λ r. tree_of types.now store.new r ≡ reading types.now store.old id) }
    ensures resolved { IfOk result (λ r. IsResolved store.new r) }
    ensures adds { AddsTerms store.old store.new }
    ensures steps { steps.old ≤ steps.new }
{
    let count = store.bindings().len();
    let mut memo = Memo::new(alloc);
    resolve(alloc, types, store, count, id, &mut memo, steps)
}

/// Whether no bound cell stands in the term.
pub(crate) fn is_resolved(alloc: Global, store: &Store, id: TermId) -> Result<bool, AllocError>
    requires { Holds store.now id }
    ensures { IfOk result (λ clear. (clear ≡ true) ↔ IsResolved store.now id) }
{
    let mut seen = Seen::new(alloc);
    is_clear(store, id, &mut seen)
}

/// Whether no bound cell stands in either term.
pub(crate) fn are_resolved(
    alloc: Global,
    store: &Store,
    a: TermId,
    b: TermId,
) -> Result<bool, AllocError>
    requires a { Holds store.now a }
    requires b { Holds store.now b }
    ensures { IfOk result (λ clear. clear ≡ true → IsResolved store.now a × IsResolved store.now b) }
{
    if is_resolved(alloc, store, a)? {
        is_resolved(alloc, store, b)
    } else {
        Ok(false)
    }
}

/// Whether the head is no bound cell.
pub(crate) fn is_free(store: &Store, head: Head) -> bool
    requires { HoldsHead store.now head }
    ensures { (result ≡ true) ↔ IsFree store.now head }
{
    match head {
        Head::Cell(cell) => store.binding(cell).is_none(),
        Head::Const(_) | Head::Logic(_) | Head::Nominal(_, _) | Head::Index(_) => true,
    }
}

/// Whether no bound cell stands in the term.
#[cycle(cleared)]
fn is_clear(store: &Store, id: TermId, seen: &mut Seen) -> Result<bool, AllocError>
    requires id { Holds store.now id }
    requires seen { AllResolved store.now seen.old }
    ensures clear { IfOk result (λ clear. (clear ≡ true) ↔ IsResolved store.now id) }
    ensures seen { OnOk result (AllResolved store.now seen.new) }
{
    if !store.has_bound_cells(id) {
        return Ok(true);
    }
    if seen.has(id) {
        return Ok(true);
    }
    let clear = is_clear_node(store, id, seen)?;
    if clear {
        seen.keep(id)?;
    }
    Ok(clear)
}

/// Whether no bound cell stands in the term, where that isn't known yet.
#[cycle(cleared)]
fn is_clear_node(store: &Store, id: TermId, seen: &mut Seen) -> Result<bool, AllocError>
    requires id { Holds store.now id }
    requires seen { AllResolved store.now seen.old }
    ensures clear { IfOk result (λ clear. (clear ≡ true) ↔ IsResolved store.now id) }
    ensures seen { OnOk result (AllResolved store.now seen.new) }
{
    match store.view(id) {
        Node::Lam(_, _, body) => is_clear(store, *body, seen),
        Node::Spine(head, args) => {
            if is_free(store, *head) {
                are_clear(store, args.as_slice(), seen)
            } else {
                Ok(false)
            }
        }
    }
}

/// Whether no bound cell stands in the terms.
#[cycle(cleared)]
fn are_clear(store: &Store, ids: &[TermId], seen: &mut Seen) -> Result<bool, AllocError>
    requires ids { All (Holds store.now) ids.now }
    requires seen { AllResolved store.now seen.old }
    ensures clear { IfOk result (λ clear. (clear ≡ true) ↔ All (IsResolved store.now) ids.now) }
    ensures seen { OnOk result (AllResolved store.now seen.new) }
{
    for id in ids {
        if !is_clear(store, *id, seen)? {
            return Ok(false);
        }
    }
    Ok(true)
}
