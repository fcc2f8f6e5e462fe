//! A hypothesis gets another name.
ghost use Rattle.std.specs.Prelude.{◌≤◌, ◌≡◌, ◌≢◌, [], Err, IfOk, OnErr};
ghost use Rattle.ab_grammar.specs.CommandTrees as told;
ghost use Rattle.ab_formulas.specs.NewNames as plain;
ghost use Rattle.ab_logic.specs.Worlds.{IsWorld};
ghost use Rattle.ab_steps.specs.ab_kernel.specs.Layout.{history_of, IsProof, goals_of};
ghost use Rattle.ab_steps.specs.ProofEffects.{IsApplied, IsRefused};
ghost use Rattle.ab_steps.specs.Progress.{Follows};
ghost use Rattle.ab_steps.specs.declared.fault.ProofCommandFault.{ProofCommandFault};

use crate::goal_moves::shift;
use ab_equations::Label;
use ab_logic::World;
use ab_norm::name::Name;
use ab_norm::types::Steps;
use ab_steps::kernel::Proof;
use ab_steps::{ProofCommandFault, first_goal, take_back};
use std::alloc::Global;

/// Names a hypothesis anew. It stands behind the others then.
pub fn rename<L>(
    alloc: Global,
    world: &mut World,
    proof: &mut Proof,
    name: &Name,
    to: &Name,
    steps: &mut Steps<L>,
) -> Result<(), ProofCommandFault>
    requires world { IsWorld world.old }
    requires proof { IsProof world.old proof.old }
    requires open { goals_of world.old proof.old ≢ [] }
    ensures follows { Follows world.old proof.old world.new proof.new }
    ensures applied { IfOk result (λ u. (l : plain.Label) → IsApplied l (told.rename name.now to.now) world.old proof.old world.new proof.new) }
    ensures refused { (fault : ProofCommandFault) → result ≡ Err fault → (l : plain.Label) → IsRefused l (told.rename name.now to.now) world.old proof.old fault }
    ensures unchanged { OnErr result (history_of world.new proof.new ≡ history_of world.old proof.old) }
    ensures steps { steps.old ≤ steps.new }
{
    let goal = first_goal(world, proof);
    if goal.uses(to) {
        return Err(ProofCommandFault::Clash(to.copy(alloc)?));
    }
    let Some(formula) = goal.look(name) else {
        return Err(ProofCommandFault::NoHypothesis(name.copy(alloc)?));
    };
    let given = to.copy(alloc)?;
    let count = proof.steps();
    match shift(
        alloc,
        world,
        proof,
        0,
        name,
        formula,
        Label::Given(given),
        steps,
    ) {
        Ok(moved) => { if moved { Ok(()) } else { unreachable!() } }
        Err(fault) => {
            take_back(world, proof, count, steps);
            Err(ProofCommandFault::Memory(fault))
        }
    }
}
