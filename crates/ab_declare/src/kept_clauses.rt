//! Clauses as they are kept.
ghost use Rattle.std.specs.Prelude.{◌≡◌, map, not, filter, All, IfOk};
ghost use Rattle.ab_norm.specs.ab_types.specs.Entries.{Table};
ghost use Rattle.ab_norm.specs.ab_store.specs.Trees.{Holds, HoldsCell, tree_of};
ghost use Rattle.ab_norm.specs.NodeGrowth.{AddsTerms};
ghost use Rattle.ab_typing.specs.DefinitionReadings.{variable_of, clause_of, HoldsClause};
ghost use Rattle.ab_declare.specs.KeptClauses.{stands_in_body_alone, kept_clause};

use crate::existentials::exists_all;
use ab_norm::store::{CellId, Store, TermId};
use ab_patterns::occurs;
use ab_typing::{ClauseCells, ClauseTerm};
use std::alloc::{AllocError, Global};

/// Cells that stand in a body alone, and the others.
#[derive(Drop)]
struct Split {
    alone: Vec<CellId>,
    others: Vec<CellId>,
}

/// Whether the cell stands in the body and not in the head.
fn is_alone(
    alloc: Global,
    store: &Store,
    head: TermId,
    body: TermId,
    cell: CellId,
) -> Result<bool, AllocError>
    requires head { Holds store.now head }
    requires body { Holds store.now body }
    ensures { IfOk result (λ alone. (types : Table) →
        alone ≡ stands_in_body_alone (tree_of types store.now head) (tree_of types store.now body) (variable_of types store.now cell)) }
{
    if !occurs(alloc, store, cell, body)? {
        return Ok(false);
    }
    let in_head = occurs(alloc, store, cell, head)?;
    Ok(!in_head)
}

/// The cells that stand in the body and not in the head, and the others, both in their order.
fn split_cells(
    alloc: Global,
    store: &Store,
    head: TermId,
    body: TermId,
    cells: &[CellId],
) -> Result<Split, AllocError>
    requires head { Holds store.now head }
    requires body { Holds store.now body }
    requires cells { All (HoldsCell store.now) cells.now }
    ensures alone { IfOk result (λ split. (types : Table) → map (variable_of types store.now) split.alone.items
        ≡ filter (stands_in_body_alone (tree_of types store.now head) (tree_of types store.now body)) (map (variable_of types store.now) cells.now)) }
    ensures others { IfOk result (λ split. (types : Table) → map (variable_of types store.now) split.others.items
        ≡ filter (λ v. not (stands_in_body_alone (tree_of types store.now head) (tree_of types store.now body) v)) (map (variable_of types store.now) cells.now)) }
    ensures alone_held { IfOk result (λ split. All (HoldsCell store.now) split.alone.items) }
    ensures others_held { IfOk result (λ split. All (HoldsCell store.now) split.others.items) }
{
    let mut alone = Vec::new(alloc);
    let mut others = Vec::new(alloc);
    for cell in cells {
        if is_alone(alloc, store, head, body, *cell)? {
            alone.push(*cell)?;
        } else {
            others.push(*cell)?;
        }
    }
    Ok(Split { alone, others })
}

/// The clause with these variables, head and body, as it is kept. Where it is closed, variables that stand in the body
/// alone become bound there, and the clause has the others.
pub fn close_clause(
    alloc: Global,
    store: &mut Store,
    closes: bool,
    cells: Vec<CellId>,
    head: TermId,
    body: TermId,
) -> Result<ClauseTerm, AllocError>
    requires cells { All (HoldsCell store.old) cells.items }
    requires head { Holds store.old head }
    requires body { Holds store.old body }
    ensures adds { AddsTerms store.old store.new }
    ensures held { IfOk result (λ clause. (types : Table) → HoldsClause types store.new clause) }
    ensures clause { IfOk result (λ clause. (types : Table) → clause_of types store.new clause
        ≡ kept_clause closes (map (variable_of types store.old) cells.items) (tree_of types store.old head) (tree_of types store.old body)) }
{
    if !closes {
        return Ok(ClauseTerm {
            variables: ClauseCells::from_vec(cells),
            head,
            body,
        });
    }
    let split = split_cells(alloc, store, head, body, &cells)?;
    let body = exists_all(alloc, store, &split.alone, body)?;
    Ok(ClauseTerm {
        variables: ClauseCells::from_vec(split.others),
        head,
        body,
    })
}
