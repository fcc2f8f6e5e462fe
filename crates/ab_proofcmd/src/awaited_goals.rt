//! Formulas that are awaited become goals, and hypotheses of what is left.
ghost use Rattle.std.specs.Prelude.{◌≤◌, map, OnOk, IfOk, All};
ghost use Rattle.ab_logic.specs.Worlds.{IsWorld, Holds, read};
ghost use Rattle.ab_hypothesis.specs.ab_steps.specs.ab_kernel.specs.Layout.{IsProof};
ghost use Rattle.ab_hypothesis.specs.ab_steps.specs.Progress.{Follows};
ghost use Rattle.ab_proofcmd.specs.GoalCounts.{Bares, AwaitsOne, AwaitsAll};

use crate::many_goals::step_into;
use crate::stages::own_at;
use ab_equations::Label;
use ab_hypothesis::steps::kernel::{Proof, Step};
use ab_logic::World;
use ab_norm::name::Name;
use ab_norm::store::TermId;
use ab_norm::types::Steps;
use std::alloc::{AllocError, Global};

/// Removes the hypotheses of these names from the goal of this place, the last one first.
fn bare<L>(
    alloc: Global,
    world: &mut World,
    proof: &mut Proof,
    place: usize,
    names: &[Name],
    steps: &mut Steps<L>,
) -> Result<(), AllocError>
    requires world { IsWorld world.old }
    requires proof { IsProof world.old proof.old }
    ensures follows { Follows world.old proof.old world.new proof.new }
    ensures bares { OnOk result (Bares world.old proof.old world.new proof.new place names.now) }
    ensures steps { steps.old ≤ steps.new }
{
    match names {
        [] => Ok(()),
        [first, others @ ..] => {
            bare(alloc, world, proof, place, others, steps)?;
            let name = first.copy(alloc)?;
            step_into(world, proof, place, Step::Weaken(name), 1, steps)
        }
    }
}

/// Makes a goal of the formula, without the hypotheses of these names, and assumes it in the goal of this place.
fn await_one<L>(
    alloc: Global,
    world: &mut World,
    proof: &mut Proof,
    place: usize,
    formula: TermId,
    names: &mut Vec<Name>,
    steps: &mut Steps<L>,
) -> Result<(), AllocError>
    requires world { IsWorld world.old }
    requires proof { IsProof world.old proof.old }
    requires formula { Holds world.old formula }
    ensures follows { Follows world.old proof.old world.new proof.new }
    ensures awaits { OnOk result (AwaitsOne world.old proof.old world.new proof.new place names.old.items (read world.old formula) names.new.items) }
    ensures steps { steps.old ≤ steps.new }
{
    let own = own_at(alloc, world, proof, place)?;
    let name = own.copy(alloc)?;
    step_into(
        world,
        proof,
        place,
        Step::CutFormula(formula, Label::Given(name)),
        2,
        steps,
    )?;
    bare(alloc, world, proof, place, names.as_slice(), steps)?;
    names.push(own)?;
    Ok(())
}

/// Makes a goal of each formula in the place of the goal, without the hypotheses of these names, and assumes it in what
/// stands behind them. The answer is the place of that.
pub(crate) fn await_all<L>(
    alloc: Global,
    world: &mut World,
    proof: &mut Proof,
    place: usize,
    formulas: &[TermId],
    names: &mut Vec<Name>,
    steps: &mut Steps<L>,
) -> Result<usize, AllocError>
    requires world { IsWorld world.old }
    requires proof { IsProof world.old proof.old }
    requires formulas { All (Holds world.old) formulas.now }
    ensures follows { Follows world.old proof.old world.new proof.new }
    ensures awaits { IfOk result (AwaitsAll world.old proof.old world.new proof.new place names.old.items (map (read world.old) formulas.now)) }
    ensures steps { steps.old ≤ steps.new }
{
    match formulas {
        [] => Ok(place),
        [first, others @ ..] => {
            await_one(alloc, world, proof, place, *first, names, steps)?;
            match place.checked_add(1) {
                Some(next) => await_all(alloc, world, proof, next, others, names, steps),
                None => Err(AllocError),
            }
        }
    }
}
