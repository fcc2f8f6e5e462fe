//! A cell is bound, where it may be.
ghost use Rattle.std.specs.Prelude.{◌≤◌, []};
ghost use Rattle.ab_norm.specs.ab_types.specs.Ids.{type_of};
ghost use Rattle.ab_norm.specs.ab_store.specs.Trees.{HoldsCell, cell_of};
ghost use Rattle.ab_norm.specs.ab_store.specs.Naming.{IsTypedBy, IsTerm};
ghost use Rattle.ab_unify.specs.StoreChanges.{Grows};

use ab_norm::copy_resolved;
use ab_norm::store::{CellId, Store, TermId};
use ab_norm::types::{Steps, TypeTable};
use ab_patterns::occurs;
use std::alloc::{AllocError, Global};

/// Binds the cell to the term, with what cells are bound to in their places. A cell that is bound, or stands in the term then, is
/// refused as want of memory.
pub(crate) fn bind_cell<L>(
    alloc: Global,
    types: &TypeTable,
    store: &mut Store,
    cell: CellId,
    term: TermId,
    steps: &mut Steps<L>,
) -> Result<(), AllocError>
    requires store { IsTypedBy types.now store.old }
    requires cell { HoldsCell store.old cell }
    requires term { IsTerm types.now store.old [] term (type_of types.now (cell_of store.old cell).ty) }
    ensures grows { Grows types.now store.old types.now store.new }
    ensures steps { steps.old ≤ steps.new }
{
    let resolved = copy_resolved(alloc, types, store, term, steps)?;
    if store.binding(cell).is_some() {
        return Err(AllocError);
    }
    if occurs(alloc, store, cell, resolved)? {
        return Err(AllocError);
    }
    store.reserve(1)?;
    store.bind(cell, resolved, steps);
    Ok(())
}
