//! Cells of goals.
ghost use Rattle.std.specs.Prelude.{◌≡◌, IfOk, All};
ghost use Rattle.ab_norm.specs.ab_store.specs.Trees.{HoldsCell};
ghost use Rattle.ab_unify.specs.Problem.{cells_read};
ghost use Rattle.ab_logic.specs.SequentReadings.{HoldsSequent, sequent_of};
ghost use Rattle.ab_logic.specs.declared.world.World.{World};
ghost use Rattle.ab_logic.specs.declared.sequent.Sequent.{Sequent};
ghost use Rattle.ab_theory.specs.Equations.{AreCells};
ghost use Rattle.ab_equations.specs.Meanwhile.{unbound_of};

use ab_norm::store::{CellId, Store};
use std::alloc::{AllocError, Global};

/// The variables of a goal are cells of its world.
pub fn goals_are_over_cells()
    ensures { (w : World) (s : Sequent) → HoldsSequent w s → AreCells (cells_read w.types w.store) (sequent_of w s) }
{}

/// The cells that are bound to nothing, in their order.
pub(crate) fn unbound_cells(
    alloc: Global,
    store: &Store,
    cells: &[CellId],
) -> Result<Vec<CellId>, AllocError>
    requires { All (HoldsCell store.now) cells.now }
    ensures { IfOk result (λ kept. kept.items ≡ unbound_of store.now cells.now) }
{
    let mut kept = Vec::new(alloc);
    for cell in cells {
        if store.binding(*cell).is_none() {
            kept.push(*cell)?;
        }
    }
    Ok(kept)
}
