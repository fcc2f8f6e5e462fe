//! Steps of the kernel at one of its open goals. One that is refused is answered as want of memory.
ghost use Rattle.std.specs.Prelude.{◌≡◌, ◌≢◌, ◌≤◌, ℕ, [], Ok, Some, IfOk, OnOk, OnErr};
ghost use Rattle.ab_formulas.specs.Sequents.{IsSequent};
ghost use Rattle.ab_logic.specs.Worlds.{IsWorld, Holds, HoldsCell, declarations_of};
ghost use Rattle.ab_logic.specs.SequentReadings.{sequent_of, HoldsSequent};
ghost use Rattle.ab_logic.specs.declared.world.World.{World as AWorld};
ghost use Rattle.ab_theory.specs.Derivations.{debts_of};
ghost use Rattle.ab_steps.specs.ab_kernel.specs.ab_rules.specs.RuleAnswers.{step_of, HoldsStep};
ghost use Rattle.ab_steps.specs.ab_kernel.specs.Layout.{IsProof};
ghost use Rattle.ab_steps.specs.Progress.{Follows};
ghost use Rattle.ab_search.specs.GoalCounts.{GaveWayTo};

use crate::own_labels::own_label;
use ab_logic::{Sequent, World};
use ab_norm::name::Name;
use ab_norm::store::{CellId, TermId};
use ab_norm::types::Steps;
use ab_steps::kernel::judgements::alternatives::equations::Label;
use ab_steps::kernel::{Proof, Step};
use ab_steps::{Attempted, attempt_solving};
use std::alloc::{AllocError, Global};

/// Takes the step at the goal of this place, if there is one and the step isn't refused, and tells how many goals are in its place then.
pub(crate) fn try_step<L>(
    world: &mut World,
    proof: &mut Proof,
    place: usize,
    step: Step,
    steps: &mut Steps<L>,
) -> Result<Option<usize>, AllocError>
    requires world { IsWorld world.old }
    requires proof { IsProof world.old proof.old }
    requires step { HoldsStep world.old step }
    requires free { debts_of (step_of world.old step) ≡ [] }
    ensures follows { Follows world.old proof.old world.new proof.new }
    ensures taken { (n : ℕ) → result ≡ Ok (Some n) → GaveWayTo world.old proof.old world.new proof.new place n }
    ensures kept { ((n : ℕ) → result ≢ Ok (Some n)) → proof.new ≡ proof.old }
    ensures steps { steps.old ≤ steps.new }
{
    if place >= proof.open_goals() {
        return Err(AllocError);
    }
    match attempt_solving(world, proof, place, step, steps)? {
        Attempted::Taken(count) => Ok(Some(count)),
        Attempted::Failed(_) | Attempted::Stuck(_) => Ok(None),
    }
}

/// Takes the step at the goal of this place. It is never refused, and so many goals are in its place then.
pub(crate) fn take<L>(
    world: &mut World,
    proof: &mut Proof,
    place: usize,
    step: Step,
    goals: usize,
    steps: &mut Steps<L>,
) -> Result<(), AllocError>
    requires world { IsWorld world.old }
    requires proof { IsProof world.old proof.old }
    requires step { HoldsStep world.old step }
    requires free { debts_of (step_of world.old step) ≡ [] }
    ensures follows { Follows world.old proof.old world.new proof.new }
    ensures taken { OnOk result (GaveWayTo world.old proof.old world.new proof.new place goals) }
    ensures steps { steps.old ≤ steps.new }
{
    match try_step(world, proof, place, step, steps)? {
        Some(count) if count == goals => Ok(()),
        _ => Err(AllocError),
    }
}

/// The goal of this place.
pub(crate) fn goal_at(proof: &Proof, place: usize) -> Result<&Sequent, AllocError>
    ensures held { IfOk result (λ goal. (w : AWorld) → IsProof w proof.now → HoldsSequent w goal.now) }
    ensures sequent { IfOk result (λ goal. (w : AWorld) → IsWorld w → IsProof w proof.now → IsSequent (declarations_of w) (sequent_of w goal.now)) }
{
    match proof.goal(place) {
        Some(goal) => Ok(goal),
        None => Err(AllocError),
    }
}

/// The conclusion of the goal of this place.
pub(crate) fn conclusion_at(proof: &Proof, place: usize) -> Result<TermId, AllocError>
    ensures held { IfOk result (λ t. (w : AWorld) → IsProof w proof.now → Holds w t) }
{
    let goal = goal_at(proof, place)?;
    Ok(goal.conclusion)
}

/// The name of the hypothesis of this number of the goal of this place.
pub(crate) fn name_at(
    alloc: Global,
    proof: &Proof,
    place: usize,
    number: usize,
) -> Result<Name, AllocError> {
    let goal = goal_at(proof, place)?;
    match goal.hypotheses.as_slice().get(number) {
        Some(hypothesis) => hypothesis.name.copy(alloc),
        None => Err(AllocError),
    }
}

/// The name of the last hypothesis but so many of the goal of this place.
pub(crate) fn last_name(
    alloc: Global,
    proof: &Proof,
    place: usize,
    behind: usize,
) -> Result<Name, AllocError> {
    let goal = goal_at(proof, place)?;
    let count = goal.hypotheses.as_slice().len();
    if behind < count {
        name_at(alloc, proof, place, count - 1 - behind)
    } else {
        Err(AllocError)
    }
}

/// The last variable of the goal of this place.
pub(crate) fn last_variable(proof: &Proof, place: usize) -> Result<CellId, AllocError>
    ensures held { IfOk result (λ c. (w : AWorld) → IsProof w proof.now → HoldsCell w c) }
{
    let goal = goal_at(proof, place)?;
    match goal.variables.as_slice().last() {
        Some(cell) => Ok(*cell),
        None => Err(AllocError),
    }
}

/// The hypothesis of the name of the goal of this place.
pub(crate) fn hypothesis_at(proof: &Proof, place: usize, name: &Name) -> Result<TermId, AllocError>
    ensures held { IfOk result (λ t. (w : AWorld) → IsProof w proof.now → Holds w t) }
{
    match goal_at(proof, place)?.look(name) {
        Some(formula) => Ok(formula),
        None => Err(AllocError),
    }
}

/// A label for a new hypothesis of the goal of this place.
pub(crate) fn label_at(
    alloc: Global,
    world: &World,
    proof: &Proof,
    place: usize,
) -> Result<Label, AllocError> {
    own_label(alloc, world, goal_at(proof, place)?)
}
