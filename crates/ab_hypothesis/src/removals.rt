//! Hypotheses are removed.
ghost use Rattle.std.specs.Prelude.{◌≤◌, ◌≡◌, ◌≢◌, ◌∷◌, [], List, Err, IfOk, OnOk, OnErr};
ghost use Rattle.std.specs.Option.{option_map, option_copied};
ghost use Rattle.ab_grammar.specs.CommandTrees as told;
ghost use Rattle.ab_formulas.specs.NewNames as plain;
ghost use Rattle.ab_logic.specs.SequentReadings.{sequent_of};
ghost use Rattle.ab_formulas.specs.Sequents.{Sequent as AGoal, without};
ghost use Rattle.ab_logic.specs.Worlds.{IsWorld};
ghost use Rattle.ab_logic.specs.declared.world.World.{World as AWorld};
ghost use Rattle.ab_steps.specs.ab_kernel.specs.Layout.{history_of, IsProof, goals_of};
ghost use Rattle.ab_effects.specs.ProofCommands.{missing, cleared};
ghost use Rattle.ab_meaning.specs.Refusals.{no_hypothesis};
ghost use Rattle.ab_steps.specs.ProofEffects.{IsApplied, IsRefused};
ghost use Rattle.ab_steps.specs.Progress.{Follows};
ghost use Rattle.ab_steps.specs.declared.fault.ProofCommandFault.{ProofCommandFault};

use crate::goal_moves::forget;
use ab_logic::{Sequent, World};
use ab_norm::name::Name;
use ab_norm::types::Steps;
use ab_steps::kernel::Proof;
use ab_steps::{ProofCommandFault, first_goal, take_back};
use std::alloc::{AllocError, Global};

/// The first of the names that no hypothesis of the goal has.
fn first_missing<'a>(sequent: &Sequent, names: &'a [Name]) -> Option<&'a Name>
    ensures { (w : AWorld) → option_map no_hypothesis (option_copied result) ≡ missing names.now (sequent_of w sequent.now) }
{
    for name in names {
        if !sequent.uses(name) {
            return Some(name);
        }
    }
    None
}

/// Removes the hypothesis of that name from the first goal, where it is there.
fn forget_one<L>(
    alloc: Global,
    world: &mut World,
    proof: &mut Proof,
    name: &Name,
    steps: &mut Steps<L>,
) -> Result<(), AllocError>
    requires world { IsWorld world.old }
    requires proof { IsProof world.old proof.old }
    requires open { goals_of world.old proof.old ≢ [] }
    ensures follows { Follows world.old proof.old world.new proof.new }
    ensures forgotten { OnOk result ((s : AGoal) (rest : List AGoal) → goals_of world.old proof.old ≡ s ∷ rest → goals_of world.new proof.new ≡ without name.now s ∷ rest) }
    ensures steps { steps.old ≤ steps.new }
{
    if first_goal(world, proof).uses(name) {
        forget(alloc, world, proof, 0, name, steps)
    } else {
        Ok(())
    }
}

/// Removes the hypotheses of these names from the first goal.
fn forget_all<L>(
    alloc: Global,
    world: &mut World,
    proof: &mut Proof,
    names: &[Name],
    steps: &mut Steps<L>,
) -> Result<(), AllocError>
    requires world { IsWorld world.old }
    requires proof { IsProof world.old proof.old }
    requires open { goals_of world.old proof.old ≢ [] }
    ensures follows { Follows world.old proof.old world.new proof.new }
    ensures forgotten { OnOk result ((s : AGoal) (rest : List AGoal) → goals_of world.old proof.old ≡ s ∷ rest → goals_of world.new proof.new ≡ cleared names.now s ∷ rest) }
    ensures steps { steps.old ≤ steps.new }
{
    for name in names {
        forget_one(alloc, world, proof, name, steps)?;
    }
    Ok(())
}

/// Removes hypotheses. A name may be written twice.
pub fn clear<L>(
    alloc: Global,
    world: &mut World,
    proof: &mut Proof,
    names: &[Name],
    steps: &mut Steps<L>,
) -> Result<(), ProofCommandFault>
    requires world { IsWorld world.old }
    requires proof { IsProof world.old proof.old }
    requires open { goals_of world.old proof.old ≢ [] }
    ensures follows { Follows world.old proof.old world.new proof.new }
    ensures applied { IfOk result (λ u. (l : plain.Label) → IsApplied l (told.clear names.now) world.old proof.old world.new proof.new) }
    ensures refused { (fault : ProofCommandFault) → result ≡ Err fault → (l : plain.Label) → IsRefused l (told.clear names.now) world.old proof.old fault }
    ensures unchanged { OnErr result (history_of world.new proof.new ≡ history_of world.old proof.old) }
    ensures steps { steps.old ≤ steps.new }
{
    if let Some(name) = first_missing(first_goal(world, proof), names) {
        return Err(ProofCommandFault::NoHypothesis(name.copy(alloc)?));
    }
    let count = proof.steps();
    match forget_all(alloc, world, proof, names, steps) {
        Ok(()) => Ok(()),
        Err(fault) => {
            take_back(world, proof, count, steps);
            Err(ProofCommandFault::Memory(fault))
        }
    }
}
