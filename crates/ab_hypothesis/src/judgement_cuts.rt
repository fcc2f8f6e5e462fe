//! A judgement is cut with another one.
ghost use Rattle.std.specs.Prelude.{◌≤◌, ◌≡◌, ◌≢◌, ◌∷◌, [], Err, IfOk, OnOk, OnErr};
ghost use Rattle.std.specs.Option.{option_map, option_copied};
ghost use Rattle.ab_grammar.specs.CommandTrees as told;
ghost use Rattle.ab_logic.specs.Worlds.{IsWorld};
ghost use Rattle.ab_logic.specs.SequentReadings.{sequent_of};
ghost use Rattle.ab_logic.specs.declared.world.World.{World as AWorld};
ghost use Rattle.ab_equations.specs.Labels.{label_of};
ghost use Rattle.ab_theory.specs.Steps.{spec_cut};
ghost use Rattle.ab_effects.specs.ProofCommands.{missing};
ghost use Rattle.ab_meaning.specs.Refusals.{no_hypothesis};
ghost use Rattle.ab_steps.specs.ab_kernel.specs.Layout.{history_of, IsProof, goals_of};
ghost use Rattle.ab_steps.specs.ProofEffects.{IsApplied, IsRefused};
ghost use Rattle.ab_steps.specs.Progress.{Follows, Took};
ghost use Rattle.ab_steps.specs.declared.fault.ProofCommandFault.{ProofCommandFault as AFault};
ghost use Rattle.ab_hypothesis.specs.JudgementSteps.{IsntTaken};

use crate::cases::label_clash;
use crate::judgement_steps::{again, take_judgement_step};
use ab_equations::Label;
use ab_logic::{Sequent, World};
use ab_norm::name::Name;
use ab_norm::types::Steps;
use ab_steps::kernel::{Proof, Step};
use ab_steps::{ProofCommandFault, first_goal};
use std::alloc::Global;

/// The first of the two names that no hypothesis of the goal has.
fn first_missing<'a>(sequent: &Sequent, name: &'a Name, other: &'a Name) -> Option<&'a Name>
    ensures { (w : AWorld) → option_map no_hypothesis (option_copied result) ≡ missing (name.now ∷ other.now ∷ []) (sequent_of w sequent.now) }
{
    if !sequent.uses(name) {
        return Some(name);
    }
    if sequent.uses(other) {
        None
    } else {
        Some(other)
    }
}

/// Takes the step of the rule at the first goal.
fn cut_by<L>(
    alloc: Global,
    world: &mut World,
    proof: &mut Proof,
    label: &Label,
    name: &Name,
    other: &Name,
    steps: &mut Steps<L>,
) -> Result<(), ProofCommandFault>
    requires world { IsWorld world.old }
    requires proof { IsProof world.old proof.old }
    requires open { goals_of world.old proof.old ≢ [] }
    ensures follows { Follows world.old proof.old world.new proof.new }
    ensures took { OnOk result (Took world.old proof.old world.new proof.new 0 (spec_cut name.now other.now (label_of label.now))) }
    ensures refused { (fault : AFault) → result ≡ Err fault → IsntTaken world.old proof.old (spec_cut name.now other.now (label_of label.now)) fault }
    ensures unchanged { OnErr result (history_of world.new proof.new ≡ history_of world.old proof.old) }
    ensures steps { steps.old ≤ steps.new }
{
    let first = name.copy(alloc)?;
    let second = other.copy(alloc)?;
    let given = again(alloc, label)?;
    take_judgement_step(world, proof, Step::SpecCut(first, second, given), steps)
}

/// Cuts a hypothesis that is a judgement with another one: the second one's goal is an item of the first one's list, and what
/// is left of it is the second one's list. That the first one's goal follows from this list is a hypothesis then, with the
/// label for its name. It is refused, and changes nothing, where the label is in use, no hypothesis has one of the names, one
/// of the two is no judgement or has a formula in focus, the lists aren't so, or the new hypothesis gets no name.
pub fn cut<L>(
    alloc: Global,
    world: &mut World,
    proof: &mut Proof,
    label: &Label,
    name: &Name,
    other: &Name,
    steps: &mut Steps<L>,
) -> Result<(), ProofCommandFault>
    requires world { IsWorld world.old }
    requires proof { IsProof world.old proof.old }
    requires open { goals_of world.old proof.old ≢ [] }
    ensures follows { Follows world.old proof.old world.new proof.new }
    ensures applied { IfOk result (λ u. IsApplied (label_of label.now) (told.cut name.now other.now) world.old proof.old world.new proof.new) }
    ensures refused { (fault : AFault) → result ≡ Err fault → IsRefused (label_of label.now) (told.cut name.now other.now) world.old proof.old fault }
    ensures unchanged { OnErr result (history_of world.new proof.new ≡ history_of world.old proof.old) }
    ensures steps { steps.old ≤ steps.new }
{
    let goal = first_goal(world, proof);
    let clash = label_clash(alloc, goal, label)?;
    if let Some(taken) = clash {
        return Err(ProofCommandFault::Clash(taken));
    }
    let absent = first_missing(goal, name, other);
    if let Some(stranger) = absent {
        return Err(ProofCommandFault::NoHypothesis(stranger.copy(alloc)?));
    }
    cut_by(alloc, world, proof, label, name, other, steps)
}
