//! New variables that stand for cells.
ghost use Rattle.std.specs.Prelude.{◌≡◌, ◌+◌, ◌<◌, [], ◌∷◌, IfOk, OnOk, All, AllPairs, length, map};
ghost use Rattle.ab_norm.specs.ab_store.specs.Trees.{HoldsCell, tree_of};
ghost use Rattle.ab_norm.specs.ab_store.specs.Bindings.{IsUnbound};
ghost use Rattle.ab_norm.specs.ab_store.specs.Growth.{IsExtendedBy};
ghost use Rattle.ab_norm.specs.ab_store.specs.Naming.{IsTypedBy, IsTerm};
ghost use Rattle.ab_formulas.specs.NewNames.{IsNamedFor};
ghost use Rattle.ab_logic.specs.Worlds.{declarations_of, variable_of};
ghost use Rattle.ab_logic.specs.SequentReadings.{HoldsSequent, sequent_of};
ghost use Rattle.ab_theory.specs.Equations.{variable_term};
ghost use Rattle.ab_equations.specs.Meanwhile.{IsMeanwhile, GoesOn, StandsFor, StandForAll};

use crate::variable::variable_name;
use ab_logic::{Sequent, World};
use ab_norm::eta;
use ab_norm::store::{CellId, Head, TermId};
use ab_norm::types::Steps;
use std::alloc::{AllocError, Global};

/// A new cell, and the same as a term.
#[derive(Clone, Copy)]
struct Stand {
    cell: CellId,
    term: TermId,
}

/// A new cell of the type of another, with a name in the goal for which the hint of that one asks.
fn new_for(
    alloc: Global,
    world: &mut World,
    cell: CellId,
    goal: &Sequent,
) -> Result<Stand, AllocError>
    requires world { IsMeanwhile world.old }
    requires cell { HoldsCell world.old.store cell }
    requires goal { HoldsSequent world.old goal.now }
    ensures types { world.new.types ≡ world.old.types }
    ensures additions { world.new.additions ≡ world.old.additions }
    ensures typed { IsTypedBy world.new.types world.new.store }
    ensures before { IsExtendedBy world.old.store world.new.store }
    ensures held { IfOk result (λ s. HoldsCell world.new.store s.cell) }
    ensures number { IfOk result (λ s. s.cell.0 ≡ length world.old.store.cells) }
    ensures one { OnOk result (length world.new.store.cells ≡ length world.old.store.cells + 1) }
    ensures unbound { IfOk result (λ s. IsUnbound world.new.store s.cell) }
    ensures named { IfOk result (λ s. IsNamedFor (declarations_of world.old) (sequent_of world.old goal.now)
        (variable_of world.old cell).name (variable_of world.new s.cell).name) }
    ensures ty { IfOk result (λ s. (variable_of world.new s.cell).type ≡ (variable_of world.old cell).type) }
    ensures term { IfOk result (λ s. IsTerm world.new.types world.new.store [] s.term (variable_of world.old cell).type) }
    ensures tree { IfOk result (λ s. tree_of world.new.types world.new.store s.term ≡ variable_term (variable_of world.new s.cell)) }
{
    let name = variable_name(alloc, world, goal, world.store.cell_name(cell))?;
    let ty = world.store.cell_type(cell);
    let new = world.store.cell(name, ty)?;
    let term = eta(alloc, &world.types, &mut world.store, Head::Cell(new), ty)?;
    Ok(Stand { cell: new, term })
}

/// A new variable of the goal takes the place of the cell, which is bound to it.
fn stand_in<L>(
    alloc: Global,
    world: &mut World,
    cell: CellId,
    goal: Sequent,
    steps: &mut Steps<L>,
) -> Result<Sequent, AllocError>
    requires world { IsMeanwhile world.old }
    requires cell { HoldsCell world.old.store cell }
    requires unbound { IsUnbound world.old.store cell }
    requires room { 0 < world.old.store.room }
    requires goal { HoldsSequent world.old goal }
    ensures goes { GoesOn world.old world.new }
    ensures stands { IfOk result (λ g. StandsFor world.old cell goal world.new g) }
    ensures steps { steps.new ≡ steps.old }
{
    let made = new_for(alloc, world, cell, &goal)?;
    world.store.bind(cell, made.term, steps);
    goal.over(made.cell)
}

/// New variables of the goal take the places of the cells, which are bound to them.
pub(crate) fn stand_for_all<L>(
    alloc: Global,
    world: &mut World,
    cells: &[CellId],
    goal: Sequent,
    steps: &mut Steps<L>,
) -> Result<Sequent, AllocError>
    requires world { IsMeanwhile world.old }
    requires cells { All (HoldsCell world.old.store) cells.now }
    requires unbound { All (IsUnbound world.old.store) cells.now }
    requires in_age { AllPairs (λ a b. a.0 < b.0) cells.now }
    requires goal { HoldsSequent world.old goal }
    ensures goes { GoesOn world.old world.new }
    ensures stand { IfOk result (λ g. StandForAll world.old (map (variable_of world.old) cells.now) goal world.new g) }
    ensures steps { steps.new ≡ steps.old }
{
    world.store.reserve(cells.len())?;
    let mut over = goal;
    for cell in cells {
        over = stand_in(alloc, world, *cell, over, steps)?;
    }
    Ok(over)
}
