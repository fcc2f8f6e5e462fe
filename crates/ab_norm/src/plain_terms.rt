//! What a term reads as.
ghost use Rattle.std.specs.Prelude.{◌≡◌, map, IfOk, All};
ghost use Rattle.ab_store.specs.ab_types.specs.Entries.{Table};
ghost use Rattle.ab_store.specs.Reading as terms;
ghost use Rattle.ab_store.specs.Trees.{Holds, tree_of};
ghost use Rattle.ab_store.specs.Naming.{IsTypedBy};
ghost use Rattle.ab_norm.specs.NodeTrees.{tree_reading, HoldsTree};

use crate::carried_terms::{carry_resolved, with_same_bindings};
use crate::items::Items;
use crate::resolved_copies::is_resolved;
use crate::tree::Tree;
use ab_store::types::TypeTable;
use ab_store::types::laws::has_unique_ids;
use ab_store::{Node, Store, TermId};
use std::alloc::{AllocError, Global};

/// The term as a tree of its own, with the bindings put in.
pub fn plain_term(
    alloc: Global,
    types: &TypeTable,
    store: &Store,
    id: TermId,
) -> Result<Tree, AllocError>
    requires store { IsTypedBy types.now store.now }
    requires id { Holds store.now id }
    ensures reads { IfOk result (λ tree. tree_reading types.now store.now tree ≡ terms.reading types.now store.now id) }
    ensures held { IfOk result (λ tree. HoldsTree types.now store.now tree) }
{
    has_unique_ids(types);
    if is_resolved(alloc, store, id)? {
        return unfold(alloc, store, id);
    }
    let mut apart = with_same_bindings(alloc, types, store)?;
    let plain = carry_resolved(alloc, types, store, &mut apart, id)?;
    unfold(alloc, &apart, plain)
}

/// The term as a tree of its own, where the bindings don't count.
#[cycle(unfolded)]
fn unfold(alloc: Global, store: &Store, id: TermId) -> Result<Tree, AllocError>
    requires { Holds store.now id }
    ensures reads { IfOk result (λ tree. (types : Table) → tree_reading types store.now tree ≡ tree_of types store.now id) }
    ensures held { IfOk result (λ tree. (types : Table) → IsTypedBy types store.now → HoldsTree types store.now tree) }
{
    match store.view(id) {
        Node::Lam(ty, hint, body) => {
            let name = hint.copy(alloc)?;
            let inner = unfold(alloc, store, *body)?;
            Ok(Tree::Lam(*ty, name, Box::new(alloc, inner)?))
        }
        Node::Spine(head, args) => {
            let trees = unfold_all(alloc, store, args.as_slice())?;
            Ok(Tree::Spine(*head, Items::from_vec(trees)))
        }
    }
}

#[cycle(unfolded)]
fn unfold_all(alloc: Global, store: &Store, ids: &[TermId]) -> Result<Vec<Tree>, AllocError>
    requires { All (Holds store.now) ids.now }
    ensures reads { IfOk result (λ trees. (types : Table) →
        map (tree_reading types store.now) trees.items ≡ map (tree_of types store.now) ids.now) }
    ensures held { IfOk result (λ trees. (types : Table) → IsTypedBy types store.now → All (HoldsTree types store.now) trees.items) }
{
    let mut trees = Vec::new(alloc);
    for id in ids {
        trees.push(unfold(alloc, store, *id)?)?;
    }
    Ok(trees)
}
