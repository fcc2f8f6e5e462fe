//! Steps of a proof, as the proof commands take them and take them back.
ghost use Rattle.std.specs.Prelude.{◌≡◌, ◌≢◌, ℕ, ◌<◌, ◌≤◌, ◌-◌, length, Ok, IfOk, OnOk, OnErr, IsTrue, IsFalse};
ghost use Rattle.ab_logic.specs.Worlds.{IsWorld};
ghost use Rattle.ab_logic.specs.declared.world.World.{World as AWorld};
ghost use Rattle.ab_kernel.specs.ab_rules.specs.RuleAnswers.{step_of, HoldsStep};
ghost use Rattle.ab_theory.specs.Derivations.{debts_of, undone};
ghost use Rattle.ab_kernel.specs.Layout.{Held, history_of, IsProof, goals_of};
ghost use Rattle.ab_steps.specs.Progress.{Advances, Follows, FollowsBy, Owes, Took, TookInto, FailsAt, FailsBy, Holds, StuckAt, SolvesNothing};
ghost use Rattle.ab_steps.specs.declared.goal_steps.Attempted.TheVariants.{Taken, Failed, Stuck};

use ab_kernel::{KernelFault, Proof, Step};
use ab_logic::World;
use ab_types::Steps;
use std::alloc::AllocError;

/// What came of a step.
#[derive(Clone, Copy)]
pub enum Attempted {
    /// It was taken, and led to so many premises.
    Taken(usize),
    /// Of its rule the condition of this number, counted from 1, is the first that fails.
    Failed(usize),
    /// Its equation of this number, counted from 0, is outside the patterns.
    Stuck(usize),
}

/// Takes a step at the goal of this place, which may solve an equation. Where it isn't taken the proof is as it was.
pub fn attempt_solving<L>(
    world: &mut World,
    proof: &mut Proof,
    place: usize,
    step: Step,
    steps: &mut Steps<L>,
) -> Result<Attempted, AllocError>
    requires world { IsWorld world.old }
    requires proof { IsProof world.old proof.old }
    requires step { HoldsStep world.old step }
    requires place { place < length (goals_of world.old proof.old) }
    ensures follows { FollowsBy (debts_of (step_of world.old step)) world.old proof.old world.new proof.new }
    ensures owes { (n : ℕ) → result ≡ Ok (Taken n) → Owes (debts_of (step_of world.old step)) world.old proof.old world.new proof.new }
    ensures took { (n : ℕ) → result ≡ Ok (Taken n) → TookInto world.old proof.old world.new proof.new place (step_of world.old step) n }
    ensures failed { (i : ℕ) → result ≡ Ok (Failed i) → FailsBy world.old proof.old place (step_of world.old step) i }
    ensures stuck { (i : ℕ) → result ≡ Ok (Stuck i) → StuckAt world.old proof.old place (step_of world.old step) i }
    ensures unchanged { ((n : ℕ) → result ≢ Ok (Taken n)) → history_of world.new proof.new ≡ history_of world.old proof.old }
    ensures kept { ((n : ℕ) → result ≢ Ok (Taken n)) → proof.new ≡ proof.old }
    ensures steps { steps.old ≤ steps.new }
{
    match proof.refine(world, place, step, steps) {
        Ok(count) => Ok(Attempted::Taken(count)),
        Err(KernelFault::RuleFails(condition)) => Ok(Attempted::Failed(condition)),
        Err(KernelFault::NotPattern(equation)) => Ok(Attempted::Stuck(equation)),
        Err(KernelFault::Memory(fault)) => Err(fault),
    }
}

/// Takes a step that solves no equation at the goal of this place. It answers false, and changes nothing, where the
/// step's rule fails there.
pub fn attempt<L>(
    world: &mut World,
    proof: &mut Proof,
    place: usize,
    step: Step,
    steps: &mut Steps<L>,
) -> Result<bool, AllocError>
    requires world { IsWorld world.old }
    requires proof { IsProof world.old proof.old }
    requires step { HoldsStep world.old step }
    requires plain { SolvesNothing (step_of world.old step) }
    requires place { place < length (goals_of world.old proof.old) }
    ensures follows { FollowsBy (debts_of (step_of world.old step)) world.old proof.old world.new proof.new }
    ensures owes { IfOk result (λ b. IsTrue b → Owes (debts_of (step_of world.old step)) world.old proof.old world.new proof.new) }
    ensures took { IfOk result (λ b. IsTrue b → Took world.old proof.old world.new proof.new place (step_of world.old step)) }
    ensures failed { IfOk result (λ b. IsFalse b → FailsAt world.old proof.old place (step_of world.old step)) }
    ensures same { IfOk result (λ b. IsFalse b → history_of world.new proof.new ≡ history_of world.old proof.old) }
    ensures kept { IfOk result (λ b. IsFalse b → proof.new ≡ proof.old) }
    ensures unchanged { OnErr result (history_of world.new proof.new ≡ history_of world.old proof.old) }
    ensures err { OnErr result (proof.new ≡ proof.old) }
    ensures steps { steps.old ≤ steps.new }
{
    match proof.refine(world, place, step, steps) {
        Ok(_) => Ok(true),
        Err(KernelFault::RuleFails(_)) => Ok(false),
        Err(KernelFault::NotPattern(_)) => unreachable!(),
        Err(KernelFault::Memory(fault)) => Err(fault),
    }
}

/// Takes a step that solves no equation at the goal of this place, where its rule holds.
pub fn surely<L>(
    world: &mut World,
    proof: &mut Proof,
    place: usize,
    step: Step,
    steps: &mut Steps<L>,
) -> Result<(), AllocError>
    requires world { IsWorld world.old }
    requires proof { IsProof world.old proof.old }
    requires step { HoldsStep world.old step }
    requires plain { SolvesNothing (step_of world.old step) }
    requires place { place < length (goals_of world.old proof.old) }
    requires sure { Holds world.old proof.old place (step_of world.old step) }
    ensures follows { FollowsBy (debts_of (step_of world.old step)) world.old proof.old world.new proof.new }
    ensures owes { OnOk result (Owes (debts_of (step_of world.old step)) world.old proof.old world.new proof.new) }
    ensures took { OnOk result (Took world.old proof.old world.new proof.new place (step_of world.old step)) }
    ensures unchanged { OnErr result (history_of world.new proof.new ≡ history_of world.old proof.old) }
    ensures err { OnErr result (proof.new ≡ proof.old) }
    ensures steps { steps.old ≤ steps.new }
{
    let taken = attempt(world, proof, place, step, steps)?;
    if taken { Ok(()) } else { unreachable!() }
}

/// Takes steps back until only so many stand.
pub fn take_back<L>(world: &mut World, proof: &mut Proof, count: usize, steps: &mut Steps<L>)
    ensures undone { (w : AWorld) → history_of w proof.new ≡ undone (length (history_of w proof.old).earlier - count) (history_of w proof.old) }
    ensures proof { (w : AWorld) → IsProof w proof.old → IsProof w proof.new }
    ensures world { world.new ≡ world.old }
    ensures unchanged { (w : AWorld) (p : Held) → Advances w p world.old proof.old → count ≡ length (history_of w p).earlier →
        history_of world.new proof.new ≡ history_of w p }
    ensures follows { (w : AWorld) (p : Held) → Advances w p world.old proof.old → count ≡ length (history_of w p).earlier →
        Follows w p world.new proof.new }
    ensures kept { (w : AWorld) (p : Held) → Advances w p world.old proof.old → count ≡ length (history_of w p).earlier → proof.new ≡ p }
    ensures steps { steps.new ≡ steps.old }
{
    while proof.steps() > count {
        let _ = proof.unrefine(world, steps);
    }
}
