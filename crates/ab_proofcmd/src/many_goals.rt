//! One step that leads to as many goals as are awaited.
ghost use Rattle.std.specs.Prelude.{◌≤◌, OnOk};
ghost use Rattle.ab_logic.specs.Worlds.{IsWorld};
ghost use Rattle.ab_theory.specs.Derivations.{debts_of};
ghost use Rattle.ab_hypothesis.specs.ab_steps.specs.ab_kernel.specs.ab_rules.specs.RuleAnswers.{step_of, HoldsStep};
ghost use Rattle.ab_hypothesis.specs.ab_steps.specs.ab_kernel.specs.Layout.{IsProof};
ghost use Rattle.ab_hypothesis.specs.ab_steps.specs.Progress.{FollowsBy, Owes, TookInto};
ghost use Rattle.ab_proofcmd.specs.GoalCounts.{Gives};

use ab_hypothesis::steps::kernel::{Proof, Step};
use ab_hypothesis::steps::{Attempted, attempt_solving};
use ab_logic::World;
use ab_norm::types::Steps;
use std::alloc::AllocError;

/// Takes a step at the goal of this place that leads to so many goals. A place of no goal, and a step that isn't taken or leads
/// to another number, are want of memory to the command, which takes its steps back then.
pub fn step_into<L>(
    world: &mut World,
    proof: &mut Proof,
    place: usize,
    step: Step,
    count: usize,
    steps: &mut Steps<L>,
) -> Result<(), AllocError>
    requires world { IsWorld world.old }
    requires proof { IsProof world.old proof.old }
    requires step { HoldsStep world.old step }
    ensures follows { FollowsBy (debts_of (step_of world.old step)) world.old proof.old world.new proof.new }
    ensures owes { OnOk result (Owes (debts_of (step_of world.old step)) world.old proof.old world.new proof.new) }
    ensures took { OnOk result (TookInto world.old proof.old world.new proof.new place (step_of world.old step) count) }
    ensures gives { OnOk result (Gives world.old proof.old world.new proof.new place count) }
    ensures steps { steps.old ≤ steps.new }
{
    if place >= proof.open_goals() {
        return Err(AllocError);
    }
    match attempt_solving(world, proof, place, step, steps)? {
        Attempted::Taken(premises) => {
            if premises == count {
                Ok(())
            } else {
                Err(AllocError)
            }
        }
        Attempted::Failed(_) | Attempted::Stuck(_) => Err(AllocError),
    }
}
