//! Cells give way to terms for as long as it takes.
ghost use Rattle.std.specs.Prelude.{◌≡◌, [], List, OnOk, OnErr};
ghost use Rattle.ab_term.specs.Types.{Ty};
ghost use Rattle.ab_term.specs.Sameness.{same_number};
ghost use Rattle.ab_term.specs.Variables.{image};
ghost use Rattle.ab_norm.specs.ab_store.specs.Trees.{tree_of};
ghost use Rattle.ab_norm.specs.ab_store.specs.Reading.{reading};
ghost use Rattle.ab_norm.specs.ab_store.specs.Naming.{IsTypedBy, IsTerm};
ghost use Rattle.ab_unifiers.specs.Clauses.{put_together};
ghost use Rattle.ab_unify.specs.Problem.{variables_read};
ghost use Rattle.ab_unify.specs.StoreChanges.{Grows};
ghost use Rattle.ab_instances.specs.CellBindings.{bound_to, CanBeBound};
ghost use Rattle.ab_instances.specs.ListReadings.{trees_at};

use crate::cell_bindings::bind_all;
use ab_norm::store::{CellId, Store, TermId};
use ab_norm::types::{Steps, TypeTable};
use std::alloc::AllocError;

/// Binds the cells, where none is bound, to the terms, in which none of them stands.
pub fn bind_to<L>(
    types: &TypeTable,
    store: &mut Store,
    cells: &[CellId],
    terms: &[TermId],
    steps: &mut Steps<L>,
) -> Result<(), AllocError>
    requires store { IsTypedBy types.now store.old }
    requires unbound { store.old.bindings ≡ [] }
    requires fit { CanBeBound types.now store.old cells.now terms.now }
    ensures grows { Grows types.now store.old types.now store.new }
    ensures nodes { store.new.nodes ≡ store.old.nodes }
    ensures cells { store.new.cells ≡ store.old.cells }
    ensures reads { OnOk result ((G : List Ty) (t : TermId) (A : Ty) → IsTerm types.now store.old G t A → reading types.now store.new t
        ≡ image same_number (put_together (variables_read types.now store.old cells.now) (trees_at types.now store.old terms.now)) (tree_of types.now store.old t)) }
    ensures bound { OnOk result (store.new.bindings ≡ bound_to cells.now terms.now) }
    ensures err { OnErr result (store.new.bindings ≡ []) }
    ensures steps { steps.new ≡ steps.old }
{
    store.reserve(cells.len())?;
    bind_all(types, store, cells, terms, steps);
    Ok(())
}
