//! Steps of the rules of judgements: cut, instance and monotonicity.
ghost use Rattle.std.specs.Prelude.{◌≤◌, ◌≡◌, ◌≢◌, [], Err, IfOk, OnOk, OnErr};
ghost use Rattle.ab_equations.specs.Labels.{label_of};
ghost use Rattle.ab_logic.specs.Worlds.{IsWorld};
ghost use Rattle.ab_steps.specs.ab_kernel.specs.ab_rules.specs.RuleAnswers.{step_of, HoldsStep};
ghost use Rattle.ab_steps.specs.ab_kernel.specs.Layout.{history_of, IsProof, goals_of};
ghost use Rattle.ab_steps.specs.Progress.{Follows, Took, SolvesNothing};
ghost use Rattle.ab_theory.specs.Derivations.{debts_of};
ghost use Rattle.ab_steps.specs.declared.fault.ProofCommandFault.{ProofCommandFault as AFault};
ghost use Rattle.ab_hypothesis.specs.JudgementSteps.{fault_at, IsntTaken};

use ab_equations::Label;
use ab_logic::World;
use ab_norm::types::Steps;
use ab_steps::kernel::{Proof, Step};
use ab_steps::{Attempted, ProofCommandFault, attempt_solving};
use std::alloc::{AllocError, Global};

/// The same label again.
pub fn again(alloc: Global, label: &Label) -> Result<Label, AllocError>
    ensures { IfOk result (λ copy. label_of copy ≡ label_of label.now) }
{
    match label {
        Label::Auto => Ok(Label::Auto),
        Label::Given(name) => Ok(Label::Given(name.copy(alloc)?)),
    }
}

/// Why a command is refused whose step's condition of this number fails.
fn fault_at(condition: usize) -> ProofCommandFault
    ensures { result ≡ fault_at condition }
{
    if condition == 2 {
        return ProofCommandFault::WrongShape;
    }
    if condition == 3 {
        ProofCommandFault::NoMatch
    } else {
        ProofCommandFault::NamesSpent
    }
}

/// Takes a step of a rule of judgements at the first goal, or tells by which of its conditions it isn't taken.
pub fn take_judgement_step<L>(
    world: &mut World,
    proof: &mut Proof,
    step: Step,
    steps: &mut Steps<L>,
) -> Result<(), ProofCommandFault>
    requires world { IsWorld world.old }
    requires proof { IsProof world.old proof.old }
    requires open { goals_of world.old proof.old ≢ [] }
    requires step { HoldsStep world.old step }
    requires plain { SolvesNothing (step_of world.old step) }
    requires owing { debts_of (step_of world.old step) ≡ [] }
    ensures follows { Follows world.old proof.old world.new proof.new }
    ensures took { OnOk result (Took world.old proof.old world.new proof.new 0 (step_of world.old step)) }
    ensures refused { (fault : AFault) → result ≡ Err fault → IsntTaken world.old proof.old (step_of world.old step) fault }
    ensures unchanged { OnErr result (history_of world.new proof.new ≡ history_of world.old proof.old) }
    ensures steps { steps.old ≤ steps.new }
{
    match attempt_solving(world, proof, 0, step, steps)? {
        Attempted::Taken(_) => Ok(()),
        Attempted::Failed(condition) => Err(fault_at(condition)),
        Attempted::Stuck(_) => unreachable!(),
    }
}
