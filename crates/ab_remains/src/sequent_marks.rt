//! Marks that are raised for what a goal names.
ghost use Rattle.std.specs.Prelude.{All};
ghost use Rattle.ab_logic.specs.Worlds.{Holds, HoldsCell};
ghost use Rattle.ab_logic.specs.SequentReadings.{HoldsSequent};
ghost use Rattle.ab_logic.specs.declared.sequent.Hypothesis.{Hypothesis as AHypothesis};
ghost use Rattle.ab_remains.specs.RaisedMarks.{IsRaisedFor};

use ab_logic::{Hypothesis, Sequent, World};
use ab_store::{CellId, Mark};

/// The mark, raised for the cells.
pub(crate) fn mark_to_cells(world: &World, mark: Mark, cells: &[CellId]) -> Mark
    ensures { IsRaisedFor world.now (λ v. All (HoldsCell v) cells.now) mark result }
{
    let mut raised = mark;
    for cell in cells {
        raised = world.store.mark_to_cell(raised, *cell);
    }
    raised
}

/// The mark, raised for the formulas of the hypotheses.
fn mark_to_hypotheses(world: &World, mark: Mark, hypotheses: &[Hypothesis]) -> Mark
    ensures { IsRaisedFor world.now (λ v. All (λ (h : AHypothesis). Holds v h.formula) hypotheses.now) mark result }
{
    let mut raised = mark;
    for hypothesis in hypotheses {
        raised = world.store.mark_to_term(raised, hypothesis.formula);
    }
    raised
}

/// The mark, raised for what the goal names.
pub fn mark_to_sequent(world: &World, mark: Mark, sequent: &Sequent) -> Mark
    ensures { IsRaisedFor world.now (λ v. HoldsSequent v sequent.now) mark result }
{
    let cells = mark_to_cells(world, mark, sequent.variables.as_slice());
    let terms = mark_to_hypotheses(world, cells, sequent.hypotheses.as_slice());
    world.store.mark_to_term(terms, sequent.conclusion)
}
