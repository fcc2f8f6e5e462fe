//! Terms carried over into a store of their own, where the bindings of their cells are put in: first the bindings are
//! carried over, and the walk of `bindings_put_in` does the rest there.
ghost use Rattle.std.specs.Prelude.{◌≡◌, map, IfOk, OnOk, All};
ghost use Rattle.ab_store.specs.ab_types.specs.Sound.{IsTable};
ghost use Rattle.ab_store.specs.Reading.{Holds, tree_of, reading};
ghost use Rattle.ab_store.specs.Naming.{IsTypedBy};
ghost use Rattle.ab_norm.specs.NodeGrowth.{AddsTypedTerms};
ghost use Rattle.ab_norm.specs.OtherStores.{Carries, HasSameBindings};

use crate::memo::Memo;
use crate::resolved_copies::fill;
use ab_store::types::{Steps, TypeTable};
use ab_store::{Node, Store, TermId};
use std::alloc::{AllocError, Global};

/// A store with the same cells, which are bound to the same terms, and with no other term.
pub(crate) fn with_same_bindings(
    alloc: Global,
    types: &TypeTable,
    store: &Store,
) -> Result<Store, AllocError>
    requires store { IsTypedBy types.now store.now }
    ensures same { IfOk result (HasSameBindings types.now store.now) }
    ensures typed { IfOk result (IsTypedBy types.now) }
{
    let mut apart = store.with_same_cells(alloc)?;
    let mut memo = Memo::new(alloc);
    let mut steps = Steps::<()>::new();
    let bindings = store.bindings();
    apart.reserve(bindings.len())?;
    for binding in bindings {
        let term = carry(alloc, types, store, &mut apart, binding.term, &mut memo)?;
        apart.bind(binding.cell, term, &mut steps);
    }
    Ok(apart)
}

/// The term with its bindings put in, in the other store, which has the same bindings.
pub(crate) fn carry_resolved(
    alloc: Global,
    types: &TypeTable,
    store: &Store,
    apart: &mut Store,
    id: TermId,
) -> Result<TermId, AllocError>
    requires types { IsTable types.now }
    requires store { IsTypedBy types.now store.now }
    requires apart { IsTypedBy types.now apart.old }
    requires same { HasSameBindings types.now store.now apart.old }
    requires id { Holds store.now id }
    ensures held { IfOk result (λ r. Holds apart.new r) }
    ensures tree { IfOk result (λ r. tree_of types.now apart.new r ≡ reading types.now store.now id) }
    ensures adds { AddsTypedTerms types.now apart.old apart.new }
{
    let mut memo = Memo::new(alloc);
    let mut steps = Steps::<()>::new();
    let here = carry(alloc, types, store, apart, id, &mut memo)?;
    fill(alloc, types, apart, here, &mut steps)
}

/// The term, as it is, in the other store.
#[cycle(carried)]
fn carry(
    alloc: Global,
    types: &TypeTable,
    store: &Store,
    apart: &mut Store,
    id: TermId,
    memo: &mut Memo,
) -> Result<TermId, AllocError>
    requires store { IsTypedBy types.now store.now }
    requires apart { IsTypedBy types.now apart.old }
    requires cells { apart.old.cells ≡ store.now.cells }
    requires id { Holds store.now id }
    requires memo { Carries types.now store.now apart.old memo.old }
    ensures held { IfOk result (λ r. Holds apart.new r) }
    ensures tree { IfOk result (λ r. tree_of types.now apart.new r ≡ tree_of types.now store.now id) }
    ensures memo { OnOk result (Carries types.now store.now apart.new memo.new) }
    ensures adds { AddsTypedTerms types.now apart.old apart.new }
{
    match memo.answer(id, 0) {
        Some(answer) => Ok(answer),
        None => {
            let made = carry_node(alloc, types, store, apart, id, memo)?;
            memo.keep(id, 0, made)?;
            Ok(made)
        }
    }
}

/// The term, as it is, in the other store, where it isn't known yet.
#[cycle(carried)]
fn carry_node(
    alloc: Global,
    types: &TypeTable,
    store: &Store,
    apart: &mut Store,
    id: TermId,
    memo: &mut Memo,
) -> Result<TermId, AllocError>
    requires store { IsTypedBy types.now store.now }
    requires apart { IsTypedBy types.now apart.old }
    requires cells { apart.old.cells ≡ store.now.cells }
    requires id { Holds store.now id }
    requires memo { Carries types.now store.now apart.old memo.old }
    ensures held { IfOk result (λ r. Holds apart.new r) }
    ensures tree { IfOk result (λ r. tree_of types.now apart.new r ≡ tree_of types.now store.now id) }
    ensures memo { OnOk result (Carries types.now store.now apart.new memo.new) }
    ensures adds { AddsTypedTerms types.now apart.old apart.new }
{
    match store.view(id) {
        Node::Lam(ty, hint, body) => {
            let name = hint.copy(alloc)?;
            let inner = carry(alloc, types, store, apart, *body, memo)?;
            apart.lam(*ty, name, inner)
        }
        Node::Spine(head, args) => {
            let given = carry_all(alloc, types, store, apart, args.as_slice(), memo)?;
            apart.spine(*head, given)
        }
    }
}

/// The terms, as they are, in the other store.
#[cycle(carried)]
fn carry_all(
    alloc: Global,
    types: &TypeTable,
    store: &Store,
    apart: &mut Store,
    ids: &[TermId],
    memo: &mut Memo,
) -> Result<Vec<TermId>, AllocError>
    requires store { IsTypedBy types.now store.now }
    requires apart { IsTypedBy types.now apart.old }
    requires cells { apart.old.cells ≡ store.now.cells }
    requires ids { All (Holds store.now) ids.now }
    requires memo { Carries types.now store.now apart.old memo.old }
    ensures held { IfOk result (λ rs. All (Holds apart.new) rs.items) }
    ensures trees { IfOk result (λ rs. map (tree_of types.now apart.new) rs.items ≡ map (tree_of types.now store.now) ids.now) }
    ensures memo { OnOk result (Carries types.now store.now apart.new memo.new) }
    ensures adds { AddsTypedTerms types.now apart.old apart.new }
{
    let mut made = Vec::new(alloc);
    for id in ids {
        made.push(carry(alloc, types, store, apart, *id, memo)?)?;
    }
    Ok(made)
}
