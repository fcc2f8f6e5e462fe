//! The proof commands that are one step of the kernel.
ghost use Rattle.std.specs.Prelude.{◌≤◌, ◌≡◌, ◌≢◌, [], Err, IfOk, OnOk, OnErr};
ghost use Rattle.ab_grammar.specs.CommandTrees as told;
ghost use Rattle.ab_logic.specs.Worlds.{IsWorld};
ghost use Rattle.ab_formulas.specs.NewNames as plain;
ghost use Rattle.ab_steps.specs.ab_kernel.specs.Layout.{history_of, IsProof, goals_of};
ghost use Rattle.ab_steps.specs.Progress.{Advances, Follows};
ghost use Rattle.ab_steps.specs.ProofEffects.{IsApplied, OwesFor, IsRefused};
ghost use Rattle.ab_steps.specs.declared.fault.ProofCommandFault.{ProofCommandFault};

use ab_logic::World;
use ab_steps::kernel::{Proof, Step};
use ab_steps::{ProofCommandFault, attempt, surely};
use ab_types::Steps;

/// Both parts of a conjunction become goals.
pub fn split<L>(
    world: &mut World,
    proof: &mut Proof,
    steps: &mut Steps<L>,
) -> Result<(), ProofCommandFault>
    requires world { IsWorld world.old }
    requires proof { IsProof world.old proof.old }
    requires open { goals_of world.old proof.old ≢ [] }
    ensures follows { Follows world.old proof.old world.new proof.new }
    ensures applied { IfOk result (λ u. (l : plain.Label) → IsApplied l told.split world.old proof.old world.new proof.new) }
    ensures refused { (fault : ProofCommandFault) → result ≡ Err fault → (l : plain.Label) → IsRefused l told.split world.old proof.old fault }
    ensures unchanged { OnErr result (history_of world.new proof.new ≡ history_of world.old proof.old) }
    ensures steps { steps.old ≤ steps.new }
{
    let taken = attempt(world, proof, 0, Step::AndRight, steps)?;
    if taken {
        Ok(())
    } else {
        Err(ProofCommandFault::WrongShape)
    }
}

/// The left part of a disjunction becomes the goal.
pub fn left<L>(
    world: &mut World,
    proof: &mut Proof,
    steps: &mut Steps<L>,
) -> Result<(), ProofCommandFault>
    requires world { IsWorld world.old }
    requires proof { IsProof world.old proof.old }
    requires open { goals_of world.old proof.old ≢ [] }
    ensures follows { Follows world.old proof.old world.new proof.new }
    ensures applied { IfOk result (λ u. (l : plain.Label) → IsApplied l told.left world.old proof.old world.new proof.new) }
    ensures refused { (fault : ProofCommandFault) → result ≡ Err fault → (l : plain.Label) → IsRefused l told.left world.old proof.old fault }
    ensures unchanged { OnErr result (history_of world.new proof.new ≡ history_of world.old proof.old) }
    ensures steps { steps.old ≤ steps.new }
{
    let taken = attempt(world, proof, 0, Step::OrRight(true), steps)?;
    if taken {
        Ok(())
    } else {
        Err(ProofCommandFault::WrongShape)
    }
}

/// The right part of a disjunction becomes the goal.
pub fn right<L>(
    world: &mut World,
    proof: &mut Proof,
    steps: &mut Steps<L>,
) -> Result<(), ProofCommandFault>
    requires world { IsWorld world.old }
    requires proof { IsProof world.old proof.old }
    requires open { goals_of world.old proof.old ≢ [] }
    ensures follows { Follows world.old proof.old world.new proof.new }
    ensures applied { IfOk result (λ u. (l : plain.Label) → IsApplied l told.right world.old proof.old world.new proof.new) }
    ensures refused { (fault : ProofCommandFault) → result ≡ Err fault → (l : plain.Label) → IsRefused l told.right world.old proof.old fault }
    ensures unchanged { OnErr result (history_of world.new proof.new ≡ history_of world.old proof.old) }
    ensures steps { steps.old ≤ steps.new }
{
    let taken = attempt(world, proof, 0, Step::OrRight(false), steps)?;
    if taken {
        Ok(())
    } else {
        Err(ProofCommandFault::WrongShape)
    }
}

/// The goal is admitted, whatever it is: the proof owes it.
pub fn skip<L>(
    world: &mut World,
    proof: &mut Proof,
    steps: &mut Steps<L>,
) -> Result<(), ProofCommandFault>
    requires world { IsWorld world.old }
    requires proof { IsProof world.old proof.old }
    requires open { goals_of world.old proof.old ≢ [] }
    ensures follows { Advances world.old proof.old world.new proof.new }
    ensures owes { OnOk result (OwesFor told.skip world.old proof.old world.new proof.new) }
    ensures applied { IfOk result (λ u. (l : plain.Label) → IsApplied l told.skip world.old proof.old world.new proof.new) }
    ensures refused { (fault : ProofCommandFault) → result ≡ Err fault → (l : plain.Label) → IsRefused l told.skip world.old proof.old fault }
    ensures unchanged { OnErr result (history_of world.new proof.new ≡ history_of world.old proof.old) }
    ensures steps { steps.old ≤ steps.new }
{
    surely(world, proof, 0, Step::Skip, steps)?;
    Ok(())
}
