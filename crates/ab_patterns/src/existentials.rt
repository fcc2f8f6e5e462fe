//! `exists` over cells, which become bound names in one walk.
ghost use Rattle.std.specs.Prelude.{◌≡◌, All, IfOk};
ghost use Rattle.ab_norm.specs.ab_types.specs.Entries.{Table};
ghost use Rattle.ab_norm.specs.ab_store.specs.Trees.{Holds, HoldsCell, tree_of};
ghost use Rattle.ab_norm.specs.NodeGrowth.{AddsTerms};
ghost use Rattle.ab_patterns.specs.Existentials as quantified;

use crate::closed_cells::close_cells;
use ab_norm::store::{CellId, Head, Logical, Store, TermId};
use std::alloc::{AllocError, Global};

/// `exists` over a formula in which the cell is a bound name already.
fn exists_of(
    alloc: Global,
    store: &mut Store,
    cell: CellId,
    closed: TermId,
) -> Result<TermId, AllocError>
    requires cell { HoldsCell store.old cell }
    requires closed { Holds store.old closed }
    ensures adds { AddsTerms store.old store.new }
    ensures held { IfOk result (λ r. Holds store.new r) }
    ensures tree { IfOk result (λ r. (types : Table) →
        tree_of types store.new r ≡ quantified.exists_of types store.old cell (tree_of types store.old closed)) }
{
    let ty = store.cell_type(cell);
    let hint = store.cell_name(cell).copy(alloc)?;
    let abstraction = store.lam(ty, hint, closed)?;
    let args = Vec::from_array(alloc, [abstraction])?;
    store.spine(Head::Logic(Logical::Exists(ty)), args)
}

/// The formula under `exists` over the cells, the first outermost.
pub fn exists_over(
    alloc: Global,
    store: &mut Store,
    cells: &[CellId],
    body: TermId,
) -> Result<TermId, AllocError>
    requires cells { All (HoldsCell store.old) cells.now }
    requires body { Holds store.old body }
    ensures adds { AddsTerms store.old store.new }
    ensures held { IfOk result (λ r. Holds store.new r) }
    ensures tree { IfOk result (λ r. (types : Table) →
        tree_of types store.new r ≡ quantified.exists_over types store.old cells.now (tree_of types store.old body)) }
{
    let mut here = close_cells(alloc, store, cells, body)?;
    let count = cells.len();
    for done in 0..count {
        here = exists_of(alloc, store, cells[count - 1 - done], here)?;
    }
    Ok(here)
}
