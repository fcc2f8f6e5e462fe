//! A judgement with terms for nominal constants, and one with a larger list.
ghost use Rattle.std.specs.Prelude.{◌≤◌, ◌≡◌, ◌≢◌, [], map, Err, IfOk, OnOk, OnErr, All};
ghost use Rattle.ab_grammar.specs.CommandTrees as told;
ghost use Rattle.ab_syntax.specs.Commands.{instance_of};
ghost use Rattle.ab_syntax.specs.ab_expressions.specs.SyntaxTrees.{tree_of};
ghost use Rattle.ab_logic.specs.Worlds.{IsWorld, Holds, read};
ghost use Rattle.ab_equations.specs.Labels.{label_of};
ghost use Rattle.ab_theory.specs.Steps.{spec_instance, spec_monotone};
ghost use Rattle.ab_hypothesis.specs.ab_steps.specs.ab_kernel.specs.Layout.{history_of, IsProof, goals_of};
ghost use Rattle.ab_hypothesis.specs.ab_steps.specs.ab_kernel.specs.ab_rules.specs.RuleAnswers.{replacements, HoldsReplace};
ghost use Rattle.ab_hypothesis.specs.ab_steps.specs.ProofEffects.{IsApplied, IsRefused};
ghost use Rattle.ab_hypothesis.specs.ab_steps.specs.Progress.{Follows, Took};
ghost use Rattle.ab_hypothesis.specs.ab_steps.specs.declared.fault.ProofCommandFault.{ProofCommandFault as AFault};
ghost use Rattle.ab_hypothesis.specs.JudgementSteps.{IsntTaken};

use crate::expressions::{fault_for, read_list};
use crate::replaced_constants::read_replaces;
use ab_equations::Label;
use ab_hypothesis::steps::kernel::{Proof, Replaces, Step};
use ab_hypothesis::steps::{ProofCommandFault, first_goal};
use ab_hypothesis::{again, label_clash, take_judgement_step};
use ab_logic::World;
use ab_norm::name::Name;
use ab_norm::store::TermId;
use ab_norm::types::Steps;
use ab_syntax::{Instance, Parse};
use std::alloc::Global;

/// Takes the step of the rule at the first goal, where these terms are put for these constants.
fn put_terms<L>(
    alloc: Global,
    world: &mut World,
    proof: &mut Proof,
    label: &Label,
    name: &Name,
    replaces: Replaces,
    steps: &mut Steps<L>,
) -> Result<(), ProofCommandFault>
    requires world { IsWorld world.old }
    requires proof { IsProof world.old proof.old }
    requires open { goals_of world.old proof.old ≢ [] }
    requires replaces { All (HoldsReplace world.old) replaces }
    ensures follows { Follows world.old proof.old world.new proof.new }
    ensures took { OnOk result (Took world.old proof.old world.new proof.new 0 (spec_instance name.now (replacements world.old replaces) (label_of label.now))) }
    ensures refused { (fault : AFault) → result ≡ Err fault → IsntTaken world.old proof.old (spec_instance name.now (replacements world.old replaces) (label_of label.now)) fault }
    ensures unchanged { OnErr result (history_of world.new proof.new ≡ history_of world.old proof.old) }
    ensures steps { steps.old ≤ steps.new }
{
    let own = name.copy(alloc)?;
    let given = again(alloc, label)?;
    take_judgement_step(world, proof, Step::SpecInst(own, replaces, given), steps)
}

/// Takes the step of the rule at the first goal, by which the judgement gets this list.
fn widen<L>(
    alloc: Global,
    world: &mut World,
    proof: &mut Proof,
    label: &Label,
    name: &Name,
    wider: TermId,
    steps: &mut Steps<L>,
) -> Result<(), ProofCommandFault>
    requires world { IsWorld world.old }
    requires proof { IsProof world.old proof.old }
    requires open { goals_of world.old proof.old ≢ [] }
    requires wider { Holds world.old wider }
    ensures follows { Follows world.old proof.old world.new proof.new }
    ensures took { OnOk result (Took world.old proof.old world.new proof.new 0 (spec_monotone name.now (read world.old wider) (label_of label.now))) }
    ensures refused { (fault : AFault) → result ≡ Err fault → IsntTaken world.old proof.old (spec_monotone name.now (read world.old wider) (label_of label.now)) fault }
    ensures unchanged { OnErr result (history_of world.new proof.new ≡ history_of world.old proof.old) }
    ensures steps { steps.old ≤ steps.new }
{
    let own = name.copy(alloc)?;
    let given = again(alloc, label)?;
    take_judgement_step(world, proof, Step::SpecMonotone(own, wider, given), steps)
}

/// A hypothesis that is a judgement holds with terms in the places of nominal constants, and is so one more hypothesis, with the
/// label for its name. It is refused, and leaves the proof as it was, where the label is in use, no hypothesis has the name, it
/// is no judgement or has a formula in focus, a term is given twice for one constant, a name is none of its constants', a name
/// of an expression stands for nothing, one has no reading at the constant's type, or several, or the new hypothesis gets no
/// name.
pub fn inst<L>(
    alloc: Global,
    world: &mut World,
    proof: &mut Proof,
    label: &Label,
    name: &Name,
    instances: &[Instance],
    steps: &mut Steps<L>,
) -> Result<(), ProofCommandFault>
    requires world { IsWorld world.old }
    requires proof { IsProof world.old proof.old }
    requires open { goals_of world.old proof.old ≢ [] }
    ensures follows { Follows world.old proof.old world.new proof.new }
    ensures applied { IfOk result (λ u. IsApplied (label_of label.now) (told.inst name.now (map instance_of instances.now)) world.old proof.old world.new proof.new) }
    ensures refused { (fault : AFault) → result ≡ Err fault → IsRefused (label_of label.now) (told.inst name.now (map instance_of instances.now)) world.old proof.old fault }
    ensures unchanged { OnErr result (history_of world.new proof.new ≡ history_of world.old proof.old) }
    ensures steps { steps.old ≤ steps.new }
{
    let goal = first_goal(world, proof);
    let clash = label_clash(alloc, goal, label)?;
    if let Some(taken) = clash {
        return Err(ProofCommandFault::Clash(taken));
    }
    let replaces = read_replaces(alloc, world, goal, name, instances, steps)?;
    put_terms(alloc, world, proof, label, name, replaces, steps)
}

/// A hypothesis that is a judgement holds with a list that has each item of its own: that it has these is to be derived, and the
/// judgement with the list is a hypothesis of the goal then, with the label for its name. It is refused, and leaves the proof as
/// it was, where the label is in use, a name of the expression stands for nothing, it has no reading as a list, or several, no
/// hypothesis has the name, it is no judgement or has a formula in focus, or the new hypothesis gets no name.
pub fn monotone<L>(
    alloc: Global,
    world: &mut World,
    proof: &mut Proof,
    label: &Label,
    name: &Name,
    list: &Parse,
    steps: &mut Steps<L>,
) -> Result<(), ProofCommandFault>
    requires world { IsWorld world.old }
    requires proof { IsProof world.old proof.old }
    requires open { goals_of world.old proof.old ≢ [] }
    ensures follows { Follows world.old proof.old world.new proof.new }
    ensures applied { IfOk result (λ u. IsApplied (label_of label.now) (told.monotone name.now (tree_of list.now)) world.old proof.old world.new proof.new) }
    ensures refused { (fault : AFault) → result ≡ Err fault → IsRefused (label_of label.now) (told.monotone name.now (tree_of list.now)) world.old proof.old fault }
    ensures unchanged { OnErr result (history_of world.new proof.new ≡ history_of world.old proof.old) }
    ensures steps { steps.old ≤ steps.new }
{
    let goal = first_goal(world, proof);
    let clash = label_clash(alloc, goal, label)?;
    if let Some(taken) = clash {
        return Err(ProofCommandFault::Clash(taken));
    }
    let there = goal.uses(name);
    match read_list(alloc, world, goal, list, steps) {
        Ok(wider) => {
            if !there {
                return Err(ProofCommandFault::NoHypothesis(name.copy(alloc)?));
            }
            widen(alloc, world, proof, label, name, wider, steps)
        }
        Err(fault) => Err(fault_for(fault)),
    }
}
