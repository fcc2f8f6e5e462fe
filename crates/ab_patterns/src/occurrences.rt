//! Whether a cell stands in a term.
ghost use Rattle.std.specs.Prelude.{◌≡◌, ◌↔◌, true, IfOk, OnOk, All};
ghost use Rattle.ab_norm.specs.ab_types.specs.Entries.{Table};
ghost use Rattle.ab_norm.specs.ab_store.specs.Trees.{Holds, tree_of};
ghost use Rattle.ab_norm.specs.ab_store.specs.Reading.{cell_variable};
ghost use Rattle.ab_unifiers.specs.Replacements as solve;
ghost use Rattle.ab_patterns.specs.ReadingWalks.{IsAbsent, AllAbsent};

use crate::rigid_rules::is_same_head;
use crate::visited_nodes::Seen;
use ab_norm::store::{CellId, Head, Node, Store, TermId};
use std::alloc::{AllocError, Global};

/// Whether the cell stands in the term. A part that is shared is walked once.
pub fn occurs(alloc: Global, store: &Store, cell: CellId, term: TermId) -> Result<bool, AllocError>
    requires { Holds store.now term }
    ensures { IfOk result (λ r. (types : Table) →
        r ≡ solve.occurs (cell_variable types store.now cell) (tree_of types store.now term)) }
{
    let mut seen = Seen::new(alloc);
    let absent = is_absent(store, cell, term, &mut seen)?;
    Ok(!absent)
}

/// Whether the cell doesn't stand in the term.
#[cycle(absent)]
fn is_absent(store: &Store, cell: CellId, id: TermId, seen: &mut Seen) -> Result<bool, AllocError>
    requires id { Holds store.now id }
    requires seen { (types : Table) → AllAbsent types store.now cell seen.old }
    ensures absent { IfOk result (λ r. (types : Table) → (r ≡ true) ↔ IsAbsent types store.now cell id) }
    ensures seen { OnOk result ((types : Table) → AllAbsent types store.now cell seen.new) }
{
    if !store.has_cells(id) {
        return Ok(true);
    }
    if seen.has(id, 0) {
        return Ok(true);
    }
    let absent = is_absent_node(store, cell, id, seen)?;
    if absent {
        seen.keep(id, 0)?;
    }
    Ok(absent)
}

/// Whether the cell doesn't stand in the term, where that isn't known yet.
#[cycle(absent)]
fn is_absent_node(
    store: &Store,
    cell: CellId,
    id: TermId,
    seen: &mut Seen,
) -> Result<bool, AllocError>
    requires id { Holds store.now id }
    requires seen { (types : Table) → AllAbsent types store.now cell seen.old }
    ensures absent { IfOk result (λ r. (types : Table) → (r ≡ true) ↔ IsAbsent types store.now cell id) }
    ensures seen { OnOk result ((types : Table) → AllAbsent types store.now cell seen.new) }
{
    match store.view(id) {
        Node::Lam(_, _, body) => is_absent(store, cell, *body, seen),
        Node::Spine(head, args) => {
            if is_same_head(*head, Head::Cell(cell)) {
                Ok(false)
            } else {
                are_absent(store, cell, args.as_slice(), seen)
            }
        }
    }
}

/// Whether the cell doesn't stand in the terms.
#[cycle(absent)]
fn are_absent(
    store: &Store,
    cell: CellId,
    ids: &[TermId],
    seen: &mut Seen,
) -> Result<bool, AllocError>
    requires ids { All (Holds store.now) ids.now }
    requires seen { (types : Table) → AllAbsent types store.now cell seen.old }
    ensures absent { IfOk result (λ r. (types : Table) → (r ≡ true) ↔ All (IsAbsent types store.now cell) ids.now) }
    ensures seen { OnOk result ((types : Table) → AllAbsent types store.now cell seen.new) }
{
    for id in ids {
        if !is_absent(store, cell, *id, seen)? {
            return Ok(false);
        }
    }
    Ok(true)
}
