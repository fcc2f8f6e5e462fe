//! How a term begins.
ghost use Rattle.std.specs.Prelude.{◌≡◌, ◌≤◌, true, length, IfOk, List};
ghost use Rattle.ab_term.specs.Types.{Ty};
ghost use Rattle.ab_store.specs.Reading.{Holds, reading, node_reading};
ghost use Rattle.ab_store.specs.Naming.{NodeNames, NodeIsTyped, IsTypedBy, IsTerm};
ghost use Rattle.ab_norm.specs.NodeGrowth.{AddsTerms};
ghost use Rattle.ab_norm.specs.Heads.{BeginsFree};

use crate::resolved_copies::{copy_resolved, is_free};
use ab_store::types::{Steps, TypeTable};
use ab_store::{Node, Store, TermId};
use std::alloc::{AllocError, Global};

/// The outermost node of the term. A bound cell that the term is headed by gives way to its term, given the arguments:
/// so a head that is answered is no bound cell.
pub fn look<L>(
    alloc: Global,
    types: &TypeTable,
    store: &mut Store,
    id: TermId,
    steps: &mut Steps<L>,
) -> Result<Node, AllocError>
    requires store { IsTypedBy types.now store.old }
    requires id { Holds store.old id }
    ensures reads { IfOk result (λ node. (G : List Ty) (A : Ty) → IsTerm types.now store.old G id A →
        reading types.now store.old id ≡ node_reading types.now store.new node) }
    ensures free { IfOk result (λ node. BeginsFree store.new node) }
    ensures names { IfOk result (λ node. NodeNames (length store.new.nodes) (length store.new.cells) node) }
    ensures node { IfOk result (λ node. NodeIsTyped types.now node) }
    ensures typed { IsTypedBy types.now store.new }
    ensures adds { AddsTerms store.old store.new }
    ensures steps { steps.old ≤ steps.new }
{
    let node = store.view(id).copy(alloc)?;
    if begins_free(store, &node) {
        Ok(node)
    } else {
        resolved_node(alloc, types, store, id, steps)
    }
}

/// The outermost node of the term with its bound cells replaced.
fn resolved_node<L>(
    alloc: Global,
    types: &TypeTable,
    store: &mut Store,
    id: TermId,
    steps: &mut Steps<L>,
) -> Result<Node, AllocError>
    requires store { IsTypedBy types.now store.old }
    requires id { Holds store.old id }
    ensures reads { IfOk result (λ node. (G : List Ty) (A : Ty) → IsTerm types.now store.old G id A →
        reading types.now store.old id ≡ node_reading types.now store.new node) }
    ensures free { IfOk result (λ node. BeginsFree store.new node) }
    ensures names { IfOk result (λ node. NodeNames (length store.new.nodes) (length store.new.cells) node) }
    ensures node { IfOk result (λ node. NodeIsTyped types.now node) }
    ensures typed { IsTypedBy types.now store.new }
    ensures adds { AddsTerms store.old store.new }
    ensures steps { steps.old ≤ steps.new }
{
    let plain = copy_resolved(alloc, types, store, id, steps)?;
    store.view(plain).copy(alloc)
}

/// Whether the node has no bound cell for its head.
fn begins_free(store: &Store, node: &Node) -> bool
    requires { NodeNames (length store.now.nodes) (length store.now.cells) node.now }
    ensures { result ≡ true → BeginsFree store.now node.now }
{
    match node {
        Node::Lam(_, _, _) => true,
        Node::Spine(head, _) => is_free(store, *head),
    }
}
