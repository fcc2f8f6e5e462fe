//! A goal gives way to what is awaited of a formula that is used.
ghost use Rattle.std.specs.Prelude.{◌≤◌, ◌≡◌, ◌∷◌, List, map, OnOk, All};
ghost use Rattle.ab_formulas.specs.Sequents.{Sequent as AGoal};
ghost use Rattle.ab_logic.specs.Worlds.{IsWorld, Holds, read};
ghost use Rattle.ab_logic.specs.declared.world.World.{World as AWorld};
ghost use Rattle.ab_hypothesis.specs.ab_steps.specs.ab_kernel.specs.Layout.{IsProof, goals_of};
ghost use Rattle.ab_uses.specs.UseReadings.{HoldsStage};
ghost use Rattle.ab_effects.specs.ProofCommands.{is_used};
ghost use Rattle.ab_hypothesis.specs.ab_steps.specs.Progress.{Advances};
ghost use Rattle.ab_proofcmd.specs.GoalCounts.{OwesUse, ShowsAll};

use crate::awaited_goals::await_all;
use crate::stages::{take_stages, take_up};
use ab_hypothesis::steps::kernel::Proof;
use ab_logic::World;
use ab_norm::name::Name;
use ab_norm::store::TermId;
use ab_norm::types::Steps;
use ab_syntax::Argument;
use ab_uses::Use;
use std::alloc::{AllocError, Global};

/// The names of the hypotheses that meet the antecedents: those that are named, and these in order, one for each hole. There
/// may be more holes behind the arguments.
fn meeting_names(
    alloc: Global,
    arguments: &[Argument],
    own: Vec<Name>,
) -> Result<Vec<Name>, AllocError> {
    let mut names = Vec::new(alloc);
    let mut holes = own.into_iter();
    for argument in arguments {
        match argument {
            Argument::Named(name) => names.push(name.copy(alloc)?)?,
            Argument::Hole => match holes.next() {
                Some(name) => names.push(name)?,
                None => return Err(AllocError),
            },
        }
    }
    for name in holes {
        names.push(name)?;
    }
    Ok(names)
}

/// Whether the first goal has a hypothesis of that name.
fn has_hypothesis(proof: &Proof, name: &Name) -> bool
    ensures { (w : AWorld) (s : AGoal) (rest : List AGoal) → goals_of w proof.now ≡ s ∷ rest → result ≡ is_used s name.now }
{
    match proof.current() {
        Some(goal) => goal.uses(name),
        None => false,
    }
}

/// Makes a goal of each formula that is awaited in the place of the first goal, whose conclusion the formula that is used leads
/// to. Nothing else is left of it. A step that isn't taken, and a hole for which nothing is awaited, are told as want of memory.
pub fn show<L>(
    alloc: Global,
    world: &mut World,
    proof: &mut Proof,
    source: &Name,
    formula: TermId,
    found: &Use,
    arguments: &[Argument],
    steps: &mut Steps<L>,
) -> Result<(), AllocError>
    requires world { IsWorld world.old }
    requires proof { IsProof world.old proof.old }
    requires formula { Holds world.old formula }
    requires stages { All (HoldsStage world.old) found.now.stages.items }
    requires awaited { All (Holds world.old) found.now.awaited.items }
    ensures follows { Advances world.old proof.old world.new proof.new }
    ensures owes { OnOk result (OwesUse source.now world.old proof.old world.new proof.new) }
    ensures shows { OnOk result (ShowsAll world.old proof.old world.new proof.new 0 (map (read world.old) found.now.awaited.items)) }
    ensures steps { steps.old ≤ steps.new }
{
    let is_hypothesis = has_hypothesis(proof, source);
    let mut own = Vec::new(alloc);
    let place = await_all(
        alloc,
        world,
        proof,
        0,
        found.awaited.as_slice(),
        &mut own,
        steps,
    )?;
    let names = meeting_names(alloc, arguments, own)?;
    let current = take_up(
        alloc,
        world,
        proof,
        place,
        source,
        formula,
        is_hypothesis,
        steps,
    )?;
    take_stages(
        alloc,
        world,
        proof,
        place,
        current,
        found.stages.as_slice(),
        names.as_slice(),
        steps,
    )
}
