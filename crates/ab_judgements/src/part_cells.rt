//! Cells in the places of names.
ghost use Rattle.std.specs.Prelude.{◌≡◌, ◌+◌, ◌++◌, map, length, All, IfOk, OnOk};
ghost use Rattle.ab_norm.specs.ab_store.specs.Trees.{HoldsCell, cell_of};
ghost use Rattle.ab_norm.specs.ab_store.specs.Growth.{IsExtendedBy};
ghost use Rattle.ab_norm.specs.ab_store.specs.Naming.{IsTypedBy};
ghost use Rattle.ab_unify.specs.Problem.{cell_read, cells_read};
ghost use Rattle.ab_theory.specs.Equations.{variables_from};
ghost use Rattle.ab_logic.specs.Worlds.{variable_at};
ghost use Rattle.ab_judgement_forms.specs.PartReadings.{name_read, HoldsName};

use ab_judgement_forms::PartName;
use ab_norm::store::{CellId, Store};
use ab_norm::types::TypeTable;
use std::alloc::{AllocError, Global};

/// A new cell for the name.
fn cell_for(
    alloc: Global,
    types: &TypeTable,
    store: &mut Store,
    name: &PartName,
) -> Result<CellId, AllocError>
    requires store { IsTypedBy types.now store.old }
    requires name { HoldsName types.now name.now }
    ensures number { IfOk result (λ made. made.0 ≡ length store.old.cells) }
    ensures one { OnOk result (length store.new.cells ≡ length store.old.cells + 1) }
    ensures entry { IfOk result (λ made. cell_read types.now (cell_of store.new made) ≡ name_read types.now name.now) }
    ensures nodes { store.new.nodes ≡ store.old.nodes }
    ensures before { IsExtendedBy store.old store.new }
    ensures typed { IsTypedBy types.now store.new }
{
    let _ = types;
    let hint = name.hint.copy(alloc)?;
    store.cell(hint, name.ty)
}

/// A new cell for each of the names.
pub(crate) fn cells_for(
    alloc: Global,
    types: &TypeTable,
    store: &mut Store,
    names: &[PartName],
) -> Result<Vec<CellId>, AllocError>
    requires store { IsTypedBy types.now store.old }
    requires names { All (HoldsName types.now) names.now }
    ensures cells { OnOk result (cells_read types.now store.new ≡ cells_read types.now store.old ++ map (name_read types.now) names.now) }
    ensures made { IfOk result (λ made. map (variable_at types.now store.new) made.items ≡ variables_from (length store.old.cells) (map (name_read types.now) names.now)) }
    ensures held { IfOk result (λ made. All (HoldsCell store.new) made.items) }
    ensures nodes { store.new.nodes ≡ store.old.nodes }
    ensures before { IsExtendedBy store.old store.new }
    ensures typed { IsTypedBy types.now store.new }
{
    let mut made = Vec::new(alloc);
    for name in names {
        made.push(cell_for(alloc, types, store, name)?)?;
    }
    Ok(made)
}
