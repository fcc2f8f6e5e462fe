//! Whether a foreign name stands in a term.
ghost use Rattle.std.specs.Prelude.{◌≡◌, ◌↔◌, true, map, IfOk, OnOk, All};
ghost use Rattle.ab_term.specs.Abstraction as closing;
ghost use Rattle.ab_norm.specs.ab_types.specs.Entries.{Table};
ghost use Rattle.ab_norm.specs.ab_types.specs.Sound.{IsTable};
ghost use Rattle.ab_norm.specs.ab_store.specs.Trees.{Contents, Holds, tree_of, head_reading};
ghost use Rattle.ab_norm.specs.ab_store.specs.Reading.{cell_variable};
ghost use Rattle.ab_norm.specs.ab_store.specs.Naming.{HeadIsTyped, IsTypedBy};
ghost use Rattle.ab_unifiers.specs.Replacements as solve;
ghost use Rattle.ab_patterns.specs.ReadingWalks.{deep, IsOwn, AllOwn};

use crate::abstraction::next;
use crate::flexible_cells::{FlexibleCells, is_flexible};
use crate::names::is_among;
use crate::visited_nodes::Seen;
use ab_norm::store::{Head, Node, Store, TermId};
use ab_norm::types::TypeTable;
use std::alloc::{AllocError, Global};

/// Whether no name stands in the term that is neither among those listed nor bound in it, other than as an argument of
/// one of the cells. A part that is shared is walked once at each number of binders.
pub fn has_no_foreign(
    alloc: Global,
    types: &TypeTable,
    store: &Store,
    cells: &FlexibleCells,
    names: &[Head],
    term: TermId,
) -> Result<bool, AllocError>
    requires store { IsTypedBy types.now store.now }
    requires names { All (HeadIsTyped types.now) names.now }
    requires term { Holds store.now term }
    ensures { IfOk result (λ r. r ≡ solve.no_foreign (map (cell_variable types.now store.now) cells.now.items)
        (map (head_reading types.now store.now) names.now) (tree_of types.now store.now term)) }
{
    // no two ids of a table stand for one type
    let _ = types.len();
    let mut seen = Seen::new(alloc);
    is_own(types, store, cells, names, 0, term, &mut seen)
}

/// Whether the head may stand under so many binders, where these names may stand outside of them.
fn may_stand(names: &[Head], depth: usize, head: Head) -> bool
    ensures { (types : Table) (store : Contents) → IsTable types → All (HeadIsTyped types) names.now → HeadIsTyped types head →
        result ≡ closing.may_stand (deep depth (map (head_reading types store) names.now)) (head_reading types store head) }
{
    match head {
        Head::Index(index) => {
            if index < depth {
                true
            } else {
                is_among(names, Head::Index(index - depth))
            }
        }
        Head::Nominal(_, _) => is_among(names, head),
        Head::Const(_) | Head::Logic(_) | Head::Cell(_) => true,
    }
}

/// Whether no foreign name stands in the term under so many binders.
#[cycle(owned)]
fn is_own(
    types: &TypeTable,
    store: &Store,
    cells: &FlexibleCells,
    names: &[Head],
    depth: usize,
    id: TermId,
    seen: &mut Seen,
) -> Result<bool, AllocError>
    requires types { IsTable types.now }
    requires store { IsTypedBy types.now store.now }
    requires names { All (HeadIsTyped types.now) names.now }
    requires id { Holds store.now id }
    requires seen { AllOwn types.now store.now cells.now.items names.now seen.old }
    ensures own { IfOk result (λ r. (r ≡ true) ↔ IsOwn types.now store.now cells.now.items names.now depth id) }
    ensures seen { OnOk result (AllOwn types.now store.now cells.now.items names.now seen.new) }
{
    if seen.has(id, depth) {
        return Ok(true);
    }
    let own = is_own_node(types, store, cells, names, depth, id, seen)?;
    if own {
        seen.keep(id, depth)?;
    }
    Ok(own)
}

/// Whether no foreign name stands in the term, where that isn't known yet.
#[cycle(owned)]
fn is_own_node(
    types: &TypeTable,
    store: &Store,
    cells: &FlexibleCells,
    names: &[Head],
    depth: usize,
    id: TermId,
    seen: &mut Seen,
) -> Result<bool, AllocError>
    requires types { IsTable types.now }
    requires store { IsTypedBy types.now store.now }
    requires names { All (HeadIsTyped types.now) names.now }
    requires id { Holds store.now id }
    requires seen { AllOwn types.now store.now cells.now.items names.now seen.old }
    ensures own { IfOk result (λ r. (r ≡ true) ↔ IsOwn types.now store.now cells.now.items names.now depth id) }
    ensures seen { OnOk result (AllOwn types.now store.now cells.now.items names.now seen.new) }
{
    match store.view(id) {
        Node::Lam(_, _, body) => {
            let below = next(depth)?;
            is_own(types, store, cells, names, below, *body, seen)
        }
        Node::Spine(head, args) => {
            if is_flexible(cells, *head) {
                return Ok(true);
            }
            if may_stand(names, depth, *head) {
                are_own(types, store, cells, names, depth, args.as_slice(), seen)
            } else {
                Ok(false)
            }
        }
    }
}

/// Whether no foreign name stands in the terms.
#[cycle(owned)]
fn are_own(
    types: &TypeTable,
    store: &Store,
    cells: &FlexibleCells,
    names: &[Head],
    depth: usize,
    ids: &[TermId],
    seen: &mut Seen,
) -> Result<bool, AllocError>
    requires types { IsTable types.now }
    requires store { IsTypedBy types.now store.now }
    requires names { All (HeadIsTyped types.now) names.now }
    requires ids { All (Holds store.now) ids.now }
    requires seen { AllOwn types.now store.now cells.now.items names.now seen.old }
    ensures own { IfOk result (λ r. (r ≡ true) ↔ All (IsOwn types.now store.now cells.now.items names.now depth) ids.now) }
    ensures seen { OnOk result (AllOwn types.now store.now cells.now.items names.now seen.new) }
{
    for id in ids {
        if !is_own(types, store, cells, names, depth, *id, seen)? {
            return Ok(false);
        }
    }
    Ok(true)
}
