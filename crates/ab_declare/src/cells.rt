//! The cells that stand for the variables of a clause.
ghost use Rattle.std.specs.Prelude.{◌≡◌, ◌+◌, ◌<◌, ◌≤◌, length, map, IfOk};
ghost use Rattle.ab_norm.specs.ab_types.specs.Ids.{HoldsType};
ghost use Rattle.ab_norm.specs.ab_store.specs.Growth.{IsExtendedBy};
ghost use Rattle.ab_norm.specs.ab_store.specs.Naming.{IsTypedBy};
ghost use Rattle.ab_norm.specs.ab_store.specs.declared.node.Head.TheVariants.{Cell};
ghost use Rattle.ab_inference.specs.Assignments.{settled_at};
ghost use Rattle.ab_inference.specs.Verdicts.{AreFound};
ghost use Rattle.ab_declare.specs.CellGrowth.{AddsVariables};
ghost use Rattle.ab_declare.specs.JoinedRows.{AreCells};

use ab_inference::Settled;
use ab_norm::name::Name;
use ab_norm::store::{CellId, Head, Store};
use ab_norm::types::TypeTable;
use std::alloc::{AllocError, Global};

/// A new cell for each of the names, at the type that is found for it.
pub(crate) fn cells_for(
    alloc: Global,
    types: &TypeTable,
    store: &mut Store,
    base: usize,
    found: &[Settled],
    names: &[Name],
) -> Result<Vec<CellId>, AllocError>
    requires store { IsTypedBy types.now store.old }
    requires found { AreFound types.now (base + length names.now) found.now }
    ensures cells { IfOk result (λ cells. AreCells store.old store.new names.now (λ j. (settled_at found.now (base + j)).ty) (length names.now) cells.items) }
    ensures adds { AddsVariables types.now store.old store.new }
{
    let _ = types;
    let mut cells = Vec::new(alloc);
    for j in 0..names.len() {
        let cell = store.cell(names[j].copy(alloc)?, found[base + j].ty)?;
        cells.push(cell)?;
    }
    Ok(cells)
}

/// Cells as heads of terms.
pub(crate) fn heads_of(alloc: Global, cells: &[CellId]) -> Result<Vec<Head>, AllocError>
    ensures { IfOk result (λ heads. heads.items ≡ map Cell cells.now) }
{
    let mut heads = Vec::new(alloc);
    for cell in cells {
        heads.push(Head::Cell(*cell))?;
    }
    Ok(heads)
}
