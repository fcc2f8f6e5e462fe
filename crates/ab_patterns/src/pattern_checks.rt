//! Whether each of some cells is given different names wherever it stands in a term.
ghost use Rattle.std.specs.Prelude.{◌≡◌, ◌↔◌, true, map, length, IfOk, OnOk, All};
ghost use Rattle.ab_term.specs.Terms.{terms_of};
ghost use Rattle.ab_norm.specs.ab_types.specs.Entries.{Table};
ghost use Rattle.ab_norm.specs.ab_store.specs.Trees.{Holds, tree_of, node_tree, head_reading};
ghost use Rattle.ab_norm.specs.ab_store.specs.Reading.{cell_variable};
ghost use Rattle.ab_norm.specs.ab_store.specs.Bindings.{IsResolved};
ghost use Rattle.ab_norm.specs.ab_store.specs.Naming.{HoldsHead, NodeNames, IsTypedBy};
ghost use Rattle.ab_norm.specs.NodeGrowth.{AddsTypedTerms};
ghost use Rattle.ab_unifiers.specs.Replacements as solve;
ghost use Rattle.ab_patterns.specs.ReadingWalks.{IsPatterned, AllPatterned, given_names};

use crate::flexible_cells::{FlexibleCells, is_flexible};
use crate::names::pattern;
use crate::visited_nodes::Seen;
use ab_norm::store::{Head, Node, Store, TermId};
use ab_norm::types::TypeTable;
use std::alloc::{AllocError, Global};

/// Whether each of the cells that stands in the term is given pairwise different names there, up to eta. A part that is
/// shared is walked once.
pub fn has_patterns(
    alloc: Global,
    types: &TypeTable,
    store: &mut Store,
    cells: &FlexibleCells,
    term: TermId,
) -> Result<bool, AllocError>
    requires store { IsTypedBy types.now store.old }
    requires term { Holds store.old term }
    requires resolved { IsResolved store.old term }
    ensures adds { AddsTypedTerms types.now store.old store.new }
    ensures reads { IfOk result (λ r. r ≡ solve.has_patterns (map (cell_variable types.now store.old) cells.now.items) (tree_of types.now store.old term)) }
{
    let mut seen = Seen::new(alloc);
    is_patterned(alloc, types, store, cells, term, &mut seen)
}

/// Whether the head is a cell, and the arguments are different names.
fn is_given_names(
    alloc: Global,
    types: &TypeTable,
    store: &mut Store,
    head: Head,
    args: &[TermId],
) -> Result<bool, AllocError>
    requires store { IsTypedBy types.now store.old }
    requires head { HoldsHead store.old head }
    requires args { All (Holds store.old) args.now }
    requires resolved { All (IsResolved store.old) args.now }
    ensures adds { AddsTypedTerms types.now store.old store.new }
    ensures reads { IfOk result (λ r. r ≡ given_names (head_reading types.now store.old head) (terms_of (map (tree_of types.now store.old) args.now))) }
{
    match head {
        Head::Cell(cell) => {
            let ty = store.cell_type(cell);
            let names = pattern(alloc, types, store, ty, args)?;
            Ok(names.is_some())
        }
        Head::Const(_) | Head::Logic(_) | Head::Nominal(_, _) | Head::Index(_) => Ok(false),
    }
}

/// Whether each of the cells in the term is given different names.
#[cycle(patterned)]
fn is_patterned(
    alloc: Global,
    types: &TypeTable,
    store: &mut Store,
    cells: &FlexibleCells,
    id: TermId,
    seen: &mut Seen,
) -> Result<bool, AllocError>
    requires store { IsTypedBy types.now store.old }
    requires id { Holds store.old id }
    requires resolved { IsResolved store.old id }
    requires seen { AllPatterned types.now store.old cells.now.items seen.old }
    ensures adds { AddsTypedTerms types.now store.old store.new }
    ensures patterned { IfOk result (λ r. (r ≡ true) ↔ IsPatterned types.now store.old cells.now.items id) }
    ensures seen { OnOk result (AllPatterned types.now store.new cells.now.items seen.new) }
{
    if seen.has(id, 0) {
        return Ok(true);
    }
    let patterned = is_patterned_node(alloc, types, store, cells, id, seen)?;
    if patterned {
        seen.keep(id, 0)?;
    }
    Ok(patterned)
}

/// Whether each of the cells in the term is given different names, where that isn't known yet.
#[cycle(patterned)]
fn is_patterned_node(
    alloc: Global,
    types: &TypeTable,
    store: &mut Store,
    cells: &FlexibleCells,
    id: TermId,
    seen: &mut Seen,
) -> Result<bool, AllocError>
    requires store { IsTypedBy types.now store.old }
    requires id { Holds store.old id }
    requires resolved { IsResolved store.old id }
    requires seen { AllPatterned types.now store.old cells.now.items seen.old }
    ensures adds { AddsTypedTerms types.now store.old store.new }
    ensures patterned { IfOk result (λ r. (r ≡ true) ↔ IsPatterned types.now store.old cells.now.items id) }
    ensures seen { OnOk result (AllPatterned types.now store.new cells.now.items seen.new) }
{
    let node = store.view(id).copy(alloc)?;
    is_patterned_in(alloc, types, store, cells, id, &node, seen)
}

/// Whether each of the cells in the term with the node is given different names.
#[cycle(patterned)]
fn is_patterned_in(
    alloc: Global,
    types: &TypeTable,
    store: &mut Store,
    cells: &FlexibleCells,
    id: TermId,
    node: &Node,
    seen: &mut Seen,
) -> Result<bool, AllocError>
    requires store { IsTypedBy types.now store.old }
    requires id { Holds store.old id }
    requires resolved { IsResolved store.old id }
    requires node { (t : Table) → tree_of t store.old id ≡ node_tree t store.old node.now }
    requires names { NodeNames id.0 (length store.old.cells) node.now }
    requires seen { AllPatterned types.now store.old cells.now.items seen.old }
    ensures adds { AddsTypedTerms types.now store.old store.new }
    ensures patterned { IfOk result (λ r. (r ≡ true) ↔ IsPatterned types.now store.old cells.now.items id) }
    ensures seen { OnOk result (AllPatterned types.now store.new cells.now.items seen.new) }
{
    match node {
        Node::Lam(_, _, body) => is_patterned(alloc, types, store, cells, *body, seen),
        Node::Spine(head, args) => {
            if is_flexible(cells, *head) {
                is_given_names(alloc, types, store, *head, args.as_slice())
            } else {
                are_patterned(alloc, types, store, cells, args.as_slice(), seen)
            }
        }
    }
}

/// Whether each of the cells in the terms is given different names.
#[cycle(patterned)]
fn are_patterned(
    alloc: Global,
    types: &TypeTable,
    store: &mut Store,
    cells: &FlexibleCells,
    ids: &[TermId],
    seen: &mut Seen,
) -> Result<bool, AllocError>
    requires store { IsTypedBy types.now store.old }
    requires ids { All (Holds store.old) ids.now }
    requires resolved { All (IsResolved store.old) ids.now }
    requires seen { AllPatterned types.now store.old cells.now.items seen.old }
    ensures adds { AddsTypedTerms types.now store.old store.new }
    ensures patterned { IfOk result (λ r. (r ≡ true) ↔ All (IsPatterned types.now store.old cells.now.items) ids.now) }
    ensures seen { OnOk result (AllPatterned types.now store.new cells.now.items seen.new) }
{
    for id in ids {
        if !is_patterned(alloc, types, store, cells, *id, seen)? {
            return Ok(false);
        }
    }
    Ok(true)
}
