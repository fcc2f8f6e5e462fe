//! How a conjunction of any shape becomes goals.
ghost use Rattle.std.specs.Prelude.{◌≤◌, ◌≡◌, ◌≢◌, [], Err, IfOk, OnOk, OnErr};
ghost use Rattle.ab_grammar.specs.CommandTrees as told;
ghost use Rattle.ab_logic.specs.Worlds.{IsWorld};
ghost use Rattle.ab_formulas.specs.NewNames as plain;
ghost use Rattle.ab_steps.specs.ab_kernel.specs.Layout.{history_of, IsProof, goals_of};
ghost use Rattle.ab_steps.specs.Progress.{Follows};
ghost use Rattle.ab_steps.specs.ProofEffects.{IsApplied, IsRefused};
ghost use Rattle.ab_steps.specs.declared.fault.ProofCommandFault.{ProofCommandFault};
ghost use Rattle.ab_conclusion.specs.Conjunctions.{AreParted};

use ab_logic::World;
use ab_steps::kernel::{Proof, Step};
use ab_steps::{ProofCommandFault, attempt, take_back};
use ab_types::Steps;
use std::alloc::AllocError;

/// Each part of a conjunction that is none becomes a goal.
pub fn split_all<L>(
    world: &mut World,
    proof: &mut Proof,
    steps: &mut Steps<L>,
) -> Result<(), ProofCommandFault>
    requires world { IsWorld world.old }
    requires proof { IsProof world.old proof.old }
    requires open { goals_of world.old proof.old ≢ [] }
    ensures follows { Follows world.old proof.old world.new proof.new }
    ensures applied { IfOk result (λ u. (l : plain.Label) → IsApplied l told.split_all world.old proof.old world.new proof.new) }
    ensures refused { (fault : ProofCommandFault) → result ≡ Err fault → (l : plain.Label) → IsRefused l told.split_all world.old proof.old fault }
    ensures unchanged { OnErr result (history_of world.new proof.new ≡ history_of world.old proof.old) }
    ensures steps { steps.old ≤ steps.new }
{
    let count = proof.steps();
    let behind = proof.open_goals() - 1;
    let taken = attempt(world, proof, 0, Step::AndRight, steps)?;
    if !taken {
        return Err(ProofCommandFault::WrongShape);
    }
    match split_before(world, proof, behind, steps) {
        Ok(()) => Ok(()),
        Err(fault) => {
            take_back(world, proof, count, steps);
            Err(ProofCommandFault::Memory(fault))
        }
    }
}

/// Splits all goals but so many at the end, as long as one of them is a conjunction.
fn split_before<L>(
    world: &mut World,
    proof: &mut Proof,
    behind: usize,
    steps: &mut Steps<L>,
) -> Result<(), AllocError>
    requires world { IsWorld world.old }
    requires proof { IsProof world.old proof.old }
    ensures follows { Follows world.old proof.old world.new proof.new }
    ensures parted { OnOk result (AreParted world.old proof.old world.new proof.new behind) }
    ensures steps { steps.old ≤ steps.new }
{
    let mut place = 0;
    while behind < proof.open_goals() - place {
        let taken = attempt(world, proof, place, Step::AndRight, steps)?;
        if !taken {
            place += 1;
        }
    }
    Ok(())
}
