//! A cell that takes the place of another.
ghost use Rattle.std.specs.Prelude.{◌≡◌, ◌+◌, length, IfOk, OnOk, OnErr};
ghost use Rattle.ab_norm.specs.ab_types.specs.Entries.{kinds, constants, IsExtendedBy as IsPartOf};
ghost use Rattle.ab_norm.specs.ab_types.specs.Ids.{type_of};
ghost use Rattle.ab_norm.specs.ab_store.specs.Trees.{HoldsCell, cell_of};
ghost use Rattle.ab_norm.specs.ab_store.specs.Bindings.{IsUnbound};
ghost use Rattle.ab_norm.specs.ab_store.specs.Growth.{IsExtendedBy};
ghost use Rattle.ab_norm.specs.ab_store.specs.Naming.{IsTypedBy};
ghost use Rattle.ab_unifiers.specs.Patterns as solve;

use crate::narrow_types::kept_type;
use ab_norm::store::{CellId, Store};
use ab_norm::types::TypeTable;
use std::alloc::{AllocError, Global};

/// Makes a cell, the youngest, of the cell's type without the arguments whose flag is not set. Its hint is the cell's.
pub fn make(
    alloc: Global,
    types: &mut TypeTable,
    store: &mut Store,
    cell: CellId,
    keep: &[bool],
) -> Result<CellId, AllocError>
    requires store { IsTypedBy types.old store.old }
    requires cell { HoldsCell store.old cell }
    ensures number { IfOk result (λ z. z.0 ≡ length store.old.cells) }
    ensures one { OnOk result (length store.new.cells ≡ length store.old.cells + 1) }
    ensures unbound { IfOk result (λ z. IsUnbound store.new z) }
    ensures hint { IfOk result (λ z. (cell_of store.new z).hint ≡ (cell_of store.old cell).hint) }
    ensures ty { IfOk result (λ z. type_of types.new (cell_of store.new z).ty ≡ solve.kept_type keep.now (type_of types.old (cell_of store.old cell).ty)) }
    ensures before { IsExtendedBy store.old store.new }
    ensures nodes { store.new.nodes ≡ store.old.nodes }
    ensures typed { IsTypedBy types.new store.new }
    ensures kept { IsPartOf types.old types.new }
    ensures kinds { kinds types.new ≡ kinds types.old }
    ensures constants { constants types.new ≡ constants types.old }
    ensures err { OnErr result (store.new ≡ store.old) }
{
    let ty = store.cell_type(cell);
    let left = kept_type(types, ty, keep)?;
    let hint = store.cell_name(cell).copy(alloc)?;
    store.cell(hint, left)
}
