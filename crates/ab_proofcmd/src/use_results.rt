//! What a use leads to is opened, where no constant of a term that is given is new.
ghost use Rattle.std.specs.Prelude.{◌≤◌, ◌≡◌, map, OnOk, Err, All, List};
ghost use Rattle.ab_norm.specs.ab_types.specs.Ids.{HoldsType};
ghost use Rattle.ab_logic.specs.Worlds.{IsWorld, Holds, read};
ghost use Rattle.ab_equations.specs.Labels.{label_of};
ghost use Rattle.ab_hypothesis.specs.ab_steps.specs.ab_kernel.specs.Layout.{IsProof};
ghost use Rattle.ab_uses.specs.GivenReadings.{given_of};
ghost use Rattle.ab_hypothesis.specs.ab_steps.specs.Progress.{Follows};
ghost use Rattle.ab_hypothesis.specs.OwnNames.{IsOwn};
ghost use Rattle.ab_hypothesis.specs.HypothesisProgress.{HasAt};
ghost use Rattle.ab_hypothesis.specs.declared.stop.Stop.{Stop as AStop};
ghost use Rattle.ab_proofcmd.specs.GoalCounts.{OpensBeside, CantOpenBeside};

use crate::new_conclusions::{given_that, turn};
use ab_equations::Label;
use ab_hypothesis::steps::kernel::Proof;
use ab_hypothesis::{Stop, open_one};
use ab_logic::World;
use ab_norm::name::Name;
use ab_norm::store::TermId;
use ab_norm::types::Steps;
use ab_uses::GivenTerm;
use std::alloc::{AllocError, Global};

/// Opens the hypothesis of the command's own in the goal of this place, while its conclusion holds the terms that are given. It
/// stops where a new hypothesis gets no name. A place of no goal, and a step that isn't taken, are told as want of memory.
pub fn open_beside<L>(
    alloc: Global,
    world: &mut World,
    proof: &mut Proof,
    place: usize,
    label: &Label,
    own: Name,
    formula: TermId,
    given: &[GivenTerm],
    steps: &mut Steps<L>,
) -> Result<(), Stop>
    requires world { IsWorld world.old }
    requires proof { IsProof world.old proof.old }
    requires formula { Holds world.old formula }
    requires there { HasAt world.old proof.old place own (read world.old formula) }
    requires own { IsOwn (label_of label.now) own }
    requires given { All (λ g. Holds world.old g.value × HoldsType world.old.types g.ty) given.now }
    ensures follows { Follows world.old proof.old world.new proof.new }
    ensures opened { OnOk result (OpensBeside world.old proof.old world.new proof.new place (label_of label.now) own (map (given_of world.old) given.now) (read world.old formula)) }
    ensures stopped { result ≡ Err AStop.NamesSpent → CantOpenBeside world.old proof.old place (label_of label.now) own (map (given_of world.old) given.now) (read world.old formula) }
    ensures steps { steps.old ≤ steps.new }
{
    let Some(goal) = proof.goal(place) else {
        return Err(Stop::Memory(AllocError));
    };
    let conclusion = goal.conclusion;
    let said = given_that(alloc, world, given, conclusion)?;
    turn(alloc, world, proof, place, said, given, true, steps)?;
    open_one(alloc, world, proof, place, label, own, formula, steps)?;
    turn(alloc, world, proof, place, conclusion, given, false, steps)?;
    Ok(())
}
