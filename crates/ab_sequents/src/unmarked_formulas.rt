//! Formulas without their marks.
ghost use Rattle.std.specs.Prelude.{◌≡◌, map, IfOk, All, get_or};
ghost use Rattle.ab_norm.specs.ab_store.specs.Trees.{Holds, tree_of, head_reading};
ghost use Rattle.ab_norm.specs.ab_store.specs.Naming.{IsTypedBy, HoldsHead, HeadIsTyped};
ghost use Rattle.ab_norm.specs.NodeGrowth.{AddsTypedTerms};
ghost use Rattle.ab_formulas.specs.Marks.{erased, erased_all};
ghost use Rattle.ab_term.specs.Terms.{spine, terms_of};
ghost use Rattle.ab_logic.specs.WorldGrowth.{Grows};
ghost use Rattle.ab_logic.specs.Worlds.{IsWorld, Holds as HoldsIn, read};

use crate::head_marks::{Making, making_of};
use ab_logic::World;
use ab_norm::store::{Head, Node, Store, TermId};
use ab_norm::types::TypeTable;
use std::alloc::{AllocError, Global};

/// The formula without its marks.
pub fn without_marks(
    alloc: Global,
    world: &mut World,
    formula: TermId,
) -> Result<TermId, AllocError>
    requires world { IsWorld world.old }
    requires formula { HoldsIn world.old formula }
    ensures held { IfOk result (HoldsIn world.new) }
    ensures reads { IfOk result (λ t. read world.new t ≡ erased (read world.old formula)) }
    ensures grows { Grows world.old world.new }
    ensures types { world.new.types ≡ world.old.types }
    ensures additions { world.new.additions ≡ world.old.additions }
{
    erase(alloc, &world.types, &mut world.store, formula)
}

/// The first of the terms, or else the one that is given.
fn first_or(terms: &[TermId], other: TermId) -> TermId
    ensures { result ≡ get_or terms.now 0 other }
{
    if terms.is_empty() { other } else { terms[0] }
}

/// The term without its marks.
#[cycle(erased)]
pub fn erase(
    alloc: Global,
    types: &TypeTable,
    store: &mut Store,
    id: TermId,
) -> Result<TermId, AllocError>
    requires store { IsTypedBy types.now store.old }
    requires id { Holds store.old id }
    ensures held { IfOk result (λ r. Holds store.new r) }
    ensures reads { IfOk result (λ r. tree_of types.now store.new r ≡ erased (tree_of types.now store.old id)) }
    ensures adds { AddsTypedTerms types.now store.old store.new }
{
    match store.view(id).copy(alloc)? {
        Node::Lam(ty, hint, body) => {
            let inner = erase(alloc, types, store, body)?;
            store.lam(ty, hint, inner)
        }
        Node::Spine(head, args) => match making_of(head) {
            Making::ByHead => Ok(id),
            Making::ByMark(_) => Ok(first_or(args.as_slice(), id)),
            Making::ByScope => erase_spine(alloc, types, store, head, args.as_slice()),
            Making::ByParts => erase_spine(alloc, types, store, head, args.as_slice()),
        },
    }
}

/// The head, given the terms without their marks.
#[cycle(erased)]
fn erase_spine(
    alloc: Global,
    types: &TypeTable,
    store: &mut Store,
    head: Head,
    args: &[TermId],
) -> Result<TermId, AllocError>
    requires store { IsTypedBy types.now store.old }
    requires head { HoldsHead store.old head }
    requires typed { HeadIsTyped types.now head }
    requires args { All (Holds store.old) args.now }
    ensures held { IfOk result (λ r. Holds store.new r) }
    ensures reads { IfOk result (λ r. tree_of types.now store.new r ≡ spine (head_reading types.now store.old head) (erased_all (terms_of (map (tree_of types.now store.old) args.now)))) }
    ensures adds { AddsTypedTerms types.now store.old store.new }
{
    let given = erase_all(alloc, types, store, args)?;
    store.spine(head, given)
}

/// The terms without their marks.
#[cycle(erased)]
fn erase_all(
    alloc: Global,
    types: &TypeTable,
    store: &mut Store,
    ids: &[TermId],
) -> Result<Vec<TermId>, AllocError>
    requires store { IsTypedBy types.now store.old }
    requires ids { All (Holds store.old) ids.now }
    ensures held { IfOk result (λ rs. All (Holds store.new) rs.items) }
    ensures reads { IfOk result (λ rs. map (tree_of types.now store.new) rs.items ≡ map (λ t. erased (tree_of types.now store.old t)) ids.now) }
    ensures adds { AddsTypedTerms types.now store.old store.new }
{
    let mut made = Vec::new(alloc);
    for id in ids {
        made.push(erase(alloc, types, store, *id)?)?;
    }
    Ok(made)
}
