//! Nominal constants change places in a hypothesis or in the conclusion.
ghost use Rattle.std.specs.Prelude.{◌≤◌, ◌≡◌, ◌≢◌, [], Some, None, Err, IfOk, OnErr};
ghost use Rattle.std.specs.Option.{option_copied};
ghost use Rattle.ab_grammar.specs.CommandTrees as told;
ghost use Rattle.ab_formulas.specs.NewNames as plain;
ghost use Rattle.ab_logic.specs.Worlds.{IsWorld};
ghost use Rattle.ab_steps.specs.ab_kernel.specs.Layout.{history_of, IsProof, goals_of};
ghost use Rattle.ab_steps.specs.ProofEffects.{IsApplied, IsRefused};
ghost use Rattle.ab_steps.specs.Progress.{Follows};
ghost use Rattle.ab_steps.specs.declared.fault.ProofCommandFault.{ProofCommandFault as AFault};

use crate::exchange_steps::{turn_conclusion, turn_hypothesis};
use ab_logic::World;
use ab_norm::name::Name;
use ab_norm::types::Steps;
use ab_sequents::{Standing, common_type};
use ab_steps::kernel::Proof;
use ab_steps::{ProofCommandFault, first_goal};
use std::alloc::Global;

/// The constants change places in the conclusion.
fn permute_conclusion<L>(
    alloc: Global,
    world: &mut World,
    proof: &mut Proof,
    numbers: &[u32],
    steps: &mut Steps<L>,
) -> Result<(), ProofCommandFault>
    requires world { IsWorld world.old }
    requires proof { IsProof world.old proof.old }
    requires open { goals_of world.old proof.old ≢ [] }
    ensures follows { Follows world.old proof.old world.new proof.new }
    ensures applied { IfOk result (λ u. (l : plain.Label) → IsApplied l (told.permute numbers.now None) world.old proof.old world.new proof.new) }
    ensures refused { (fault : AFault) → result ≡ Err fault → (l : plain.Label) → IsRefused l (told.permute numbers.now None) world.old proof.old fault }
    ensures unchanged { OnErr result (history_of world.new proof.new ≡ history_of world.old proof.old) }
    ensures steps { steps.old ≤ steps.new }
{
    let goal = first_goal(world, proof);
    let standing = common_type(alloc, world, goal, numbers)?;
    match standing {
        Standing::Mixed => Err(ProofCommandFault::TypeClash(0)),
        Standing::Nowhere => Err(ProofCommandFault::WrongShape),
        Standing::At(ty) => {
            let conclusion = goal.conclusion;
            turn_conclusion(alloc, world, proof, conclusion, ty, numbers, steps)?;
            Ok(())
        }
    }
}

/// The constants change places in a hypothesis.
fn permute_hypothesis<L>(
    alloc: Global,
    world: &mut World,
    proof: &mut Proof,
    numbers: &[u32],
    name: &Name,
    steps: &mut Steps<L>,
) -> Result<(), ProofCommandFault>
    requires world { IsWorld world.old }
    requires proof { IsProof world.old proof.old }
    requires open { goals_of world.old proof.old ≢ [] }
    ensures follows { Follows world.old proof.old world.new proof.new }
    ensures applied { IfOk result (λ u. (l : plain.Label) → IsApplied l (told.permute numbers.now (Some name.now)) world.old proof.old world.new proof.new) }
    ensures refused { (fault : AFault) → result ≡ Err fault → (l : plain.Label) → IsRefused l (told.permute numbers.now (Some name.now)) world.old proof.old fault }
    ensures unchanged { OnErr result (history_of world.new proof.new ≡ history_of world.old proof.old) }
    ensures steps { steps.old ≤ steps.new }
{
    let goal = first_goal(world, proof);
    let standing = common_type(alloc, world, goal, numbers)?;
    match standing {
        Standing::Mixed => Err(ProofCommandFault::TypeClash(0)),
        Standing::Nowhere => match goal.look(name) {
            None => Err(ProofCommandFault::NoHypothesis(name.copy(alloc)?)),
            Some(_) => Err(ProofCommandFault::WrongShape),
        },
        Standing::At(ty) => match goal.look(name) {
            None => Err(ProofCommandFault::NoHypothesis(name.copy(alloc)?)),
            Some(hypothesis) => {
                turn_hypothesis(alloc, world, proof, name, hypothesis, ty, numbers, steps)?;
                Ok(())
            }
        },
    }
}

/// Each of the nominal constants of these numbers becomes the next, and the last the first: in a hypothesis, which then
/// stands last, or in the conclusion where none is named. A number that the goal hasn't takes the type of the others. It
/// is refused, and changes nothing, where a number is given twice or the constants are of different types in the goal, no
/// hypothesis has the name, or none of the numbers stands in the goal.
pub fn permute<L>(
    alloc: Global,
    world: &mut World,
    proof: &mut Proof,
    numbers: &[u32],
    name: Option<&Name>,
    steps: &mut Steps<L>,
) -> Result<(), ProofCommandFault>
    requires world { IsWorld world.old }
    requires proof { IsProof world.old proof.old }
    requires open { goals_of world.old proof.old ≢ [] }
    ensures follows { Follows world.old proof.old world.new proof.new }
    ensures applied { IfOk result (λ u. (l : plain.Label) → IsApplied l (told.permute numbers.now (option_copied name.entry)) world.old proof.old world.new proof.new) }
    ensures refused { (fault : AFault) → result ≡ Err fault → (l : plain.Label) →
        IsRefused l (told.permute numbers.now (option_copied name.entry)) world.old proof.old fault }
    ensures unchanged { OnErr result (history_of world.new proof.new ≡ history_of world.old proof.old) }
    ensures steps { steps.old ≤ steps.new }
{
    match name {
        None => permute_conclusion(alloc, world, proof, numbers, steps),
        Some(name) => permute_hypothesis(alloc, world, proof, numbers, name, steps),
    }
}
