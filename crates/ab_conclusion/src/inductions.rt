//! Induction and coinduction: each part of the conclusion gets a size, and is a hypothesis where that is smaller.
ghost use Rattle.std.specs.Prelude.{◌≤◌, ◌≡◌, ◌≢◌, [], Err, IfOk, OnErr, map};
ghost use Rattle.ab_steps.specs.ab_kernel.specs.ab_judgements.specs.ab_alternatives.specs.ab_equations.specs.Labels.{label_of};
ghost use Rattle.ab_grammar.specs.CommandTrees as told;
ghost use Rattle.ab_logic.specs.SequentReadings.{HoldsSequent, sequent_of};
ghost use Rattle.ab_logic.specs.Worlds.{IsWorld, declarations_of};
ghost use Rattle.ab_logic.specs.declared.world.World.{World as AWorld};
ghost use Rattle.ab_steps.specs.Progress.{Follows};
ghost use Rattle.ab_steps.specs.ProofEffects.{IsApplied, IsRefused};
ghost use Rattle.ab_steps.specs.ab_kernel.specs.Layout.{history_of, IsProof, goals_of};
ghost use Rattle.ab_steps.specs.ab_kernel.specs.ab_rules.specs.RuleAnswers.{step_of, HoldsStep};
ghost use Rattle.ab_steps.specs.ab_kernel.specs.ab_rules.specs.SizeSteps.{step_by};
ghost use Rattle.ab_steps.specs.declared.fault.ProofCommandFault.{ProofCommandFault};
ghost use Rattle.ab_conclusion.specs.InductionSizes.{MayGetSizes, GetsNoSizes, command_by, word_by};

use crate::induction_names::{hypothesis_labels, label_clash};
use ab_logic::{Sequent, World};
use ab_steps::kernel::judgements::alternatives::equations::Label;
use ab_steps::kernel::judgements::alternatives::sequents::{Kind, are_unmarked, conjuncts};
use ab_steps::kernel::{Items, Proof, Step};
use ab_steps::{ProofCommandFault, first_goal, surely};
use ab_types::Steps;
use std::alloc::{AllocError, Global};

/// Induction, in each part of the first goal's conclusion on the antecedent of its place, counted from 1: the part gets a
/// size there, and is a hypothesis where that is smaller. It is refused, and leaves the proof as it was, where the label is
/// in use, there are more parts or fewer than places, one has no atom of an inductive definition there and no judgement, or
/// one of these has a mark.
pub fn induction<L>(
    alloc: Global,
    world: &mut World,
    proof: &mut Proof,
    label: &Label,
    places: &[u32],
    steps: &mut Steps<L>,
) -> Result<(), ProofCommandFault>
    requires world { IsWorld world.old }
    requires proof { IsProof world.old proof.old }
    requires open { goals_of world.old proof.old ≢ [] }
    ensures follows { Follows world.old proof.old world.new proof.new }
    ensures applied { IfOk result (λ u. IsApplied (label_of label.now) (told.induction places.now) world.old proof.old world.new proof.new) }
    ensures refused { (fault : ProofCommandFault) → result ≡ Err fault → IsRefused (label_of label.now) (told.induction places.now) world.old proof.old fault }
    ensures unchanged { OnErr result (history_of world.new proof.new ≡ history_of world.old proof.old) }
    ensures steps { steps.old ≤ steps.new }
{
    give_sizes(alloc, world, proof, label, Kind::Induction, places, steps)
}

/// Coinduction: the atom behind all antecedents of each part of the first goal's conclusion gets a size, and the part is a
/// hypothesis where that is smaller. It is refused, and leaves the proof as it was, where the label is in use, a part has no
/// atom of a coinductive definition there, or one of these has a mark.
pub fn coinduction<L>(
    alloc: Global,
    world: &mut World,
    proof: &mut Proof,
    label: &Label,
    steps: &mut Steps<L>,
) -> Result<(), ProofCommandFault>
    requires world { IsWorld world.old }
    requires proof { IsProof world.old proof.old }
    requires open { goals_of world.old proof.old ≢ [] }
    ensures follows { Follows world.old proof.old world.new proof.new }
    ensures applied { IfOk result (λ u. IsApplied (label_of label.now) told.coinduction world.old proof.old world.new proof.new) }
    ensures refused { (fault : ProofCommandFault) → result ≡ Err fault → IsRefused (label_of label.now) told.coinduction world.old proof.old fault }
    ensures unchanged { OnErr result (history_of world.new proof.new ≡ history_of world.old proof.old) }
    ensures steps { steps.old ≤ steps.new }
{
    give_sizes(alloc, world, proof, label, Kind::Coinduction, &[], steps)
}

/// Either of the two, by its kind.
fn give_sizes<L>(
    alloc: Global,
    world: &mut World,
    proof: &mut Proof,
    label: &Label,
    kind: Kind,
    places: &[u32],
    steps: &mut Steps<L>,
) -> Result<(), ProofCommandFault>
    requires world { IsWorld world.old }
    requires proof { IsProof world.old proof.old }
    requires open { goals_of world.old proof.old ≢ [] }
    ensures follows { Follows world.old proof.old world.new proof.new }
    ensures applied { IfOk result (λ u. IsApplied (label_of label.now) (command_by kind places.now) world.old proof.old world.new proof.new) }
    ensures refused { (fault : ProofCommandFault) → result ≡ Err fault → IsRefused (label_of label.now) (command_by kind places.now) world.old proof.old fault }
    ensures unchanged { OnErr result (history_of world.new proof.new ≡ history_of world.old proof.old) }
    ensures steps { steps.old ≤ steps.new }
{
    let goal = first_goal(world, proof);
    let labels = labels_for_sizes(alloc, world, goal, kind, places, label)?;
    let step = size_step(alloc, kind, places, labels)?;
    surely(world, proof, 0, step, steps)?;
    Ok(())
}

/// The step that gives the sizes.
fn size_step(
    alloc: Global,
    kind: Kind,
    places: &[u32],
    labels: Vec<Label>,
) -> Result<Step, AllocError>
    ensures reads { IfOk result (λ step. (w : AWorld) → step_of w step ≡ step_by kind places.now (map label_of labels.items)) }
    ensures held { IfOk result (λ step. (w : AWorld) → HoldsStep w step) }
{
    let labels = Items::from_vec(labels);
    match kind {
        Kind::Induction => {
            let places = Items::from_vec(places.to_vec(alloc)?);
            Ok(Step::Induction(places, labels))
        }
        Kind::Coinduction => Ok(Step::Coinduction(labels)),
    }
}

/// The labels of the new hypotheses, where each part of the goal's conclusion may get a size.
fn labels_for_sizes(
    alloc: Global,
    world: &World,
    goal: &Sequent,
    kind: Kind,
    places: &[u32],
    label: &Label,
) -> Result<Vec<Label>, ProofCommandFault>
    requires world { IsWorld world.now }
    requires goal { HoldsSequent world.now goal.now }
    ensures named { IfOk result (λ labels.
        MayGetSizes (declarations_of world.now) (label_of label.now) (sequent_of world.now goal.now) kind places.now (map label_of labels.items)) }
    ensures refused { (fault : ProofCommandFault) → result ≡ Err fault →
        GetsNoSizes (declarations_of world.now) (label_of label.now) (sequent_of world.now goal.now) kind places.now fault }
{
    if let Some(taken) = label_clash(alloc, world, goal, label)? {
        return Err(ProofCommandFault::Clash(taken));
    }
    let parts = conjuncts(alloc, world, goal.conclusion)?;
    let Some(unmarked) = are_unmarked(world, kind, places, parts.as_slice()) else {
        return Err(ProofCommandFault::WrongShape);
    };
    if !unmarked {
        return Err(ProofCommandFault::Mark);
    }
    Ok(hypothesis_labels(alloc, world, goal, parts.len(), word(kind), label)?)
}

/// The word that names hypotheses.
fn word(kind: Kind) -> &'static str
    ensures { result.now ≡ word_by kind }
{
    match kind {
        Kind::Induction => "IH",
        Kind::Coinduction => "CH",
    }
}
