//! Marks that are raised for what a step names.
ghost use Rattle.std.specs.Prelude.{All};
ghost use Rattle.ab_logic.specs.Worlds.{Holds};
ghost use Rattle.ab_kernel.specs.ab_rules.specs.declared.replaces.Replace.{Replace as AReplace};
ghost use Rattle.ab_remains.specs.RaisedMarks.{IsRaisedFor};
ghost use Rattle.ab_proof_marks.specs.NamedInProofs.{HoldsTerms};

use ab_kernel::{Replace, Step};
use ab_logic::World;
use ab_store::Mark;

/// The mark, raised for the terms that are put.
fn mark_to_replaces(world: &World, mark: Mark, replaces: &[Replace]) -> Mark
    ensures { IsRaisedFor world.now (λ v. All (λ (r : AReplace). Holds v r.to) replaces.now) mark result }
{
    let mut raised = mark;
    for replace in replaces {
        raised = world.store.mark_to_term(raised, replace.to);
    }
    raised
}

/// The mark, raised for the terms that the step is told.
pub(crate) fn mark_to_step(world: &World, mark: Mark, step: &Step) -> Mark
    ensures { IsRaisedFor world.now (λ v. HoldsTerms v step.now) mark result }
{
    match step {
        Step::ForallLeft(_, term, _) => world.store.mark_to_term(mark, *term),
        Step::ExistsRight(term) => world.store.mark_to_term(mark, *term),
        Step::CutFormula(formula, _) => world.store.mark_to_term(mark, *formula),
        Step::SpecInst(_, replaces, _) => mark_to_replaces(world, mark, replaces.as_slice()),
        Step::SpecMonotone(_, list, _) => world.store.mark_to_term(mark, *list),
        _ => mark,
    }
}
