//! A hypothesis or a theorem is applied to hypotheses.
ghost use Rattle.std.specs.Prelude.{◌≤◌, ◌≡◌, ◌≢◌, ◌⊎◌, [], map, List, None, Err, IfOk, OnOk, OnErr, All};
ghost use Rattle.std.specs.declared.alloc.AllocError.{AllocError as AMemory};
ghost use Rattle.ab_grammar.specs.CommandTrees as told;
ghost use Rattle.ab_grammar.specs.CommandTrees.{Instance as AnInstance};
ghost use Rattle.ab_syntax.specs.Commands.{argument_of, instance_of};
ghost use Rattle.ab_syntax.specs.ab_expressions.specs.SyntaxTrees.{tree_of};
ghost use Rattle.ab_logic.specs.WorldGrowth.{Grows};
ghost use Rattle.ab_logic.specs.SequentReadings.{sequent_of, HoldsSequent};
ghost use Rattle.ab_formulas.specs.Sequents.{IsSequent};
ghost use Rattle.ab_logic.specs.Worlds.{IsWorld, Holds, read, declarations_of};
ghost use Rattle.ab_logic.specs.declared.world.World.{World as AWorld};
ghost use Rattle.ab_equations.specs.Labels.{label_of};
ghost use Rattle.ab_hypothesis.specs.ab_steps.specs.ab_kernel.specs.Layout.{history_of, IsProof, goals_of};
ghost use Rattle.ab_uses.specs.GivenReadings.{given_of, HoldsIfAny};
ghost use Rattle.ab_uses.specs.UseReadings.{aim_of};
ghost use Rattle.ab_effects.specs.ProofCommands.{effect};
ghost use Rattle.ab_effects.specs.FormulaUses.{formulas_in};
ghost use Rattle.ab_hypothesis.specs.ab_steps.specs.ProofEffects.{IsApplied, OwesFor, IsRefused, RefusedBy};
ghost use Rattle.ab_hypothesis.specs.ab_steps.specs.Progress.{Advances};
ghost use Rattle.ab_hypothesis.specs.ab_steps.specs.declared.fault.ProofCommandFault.{ProofCommandFault as AFault};
ghost use Rattle.ab_hypothesis.specs.declared.stop.Stop.{Stop as AStop};
ghost use Rattle.ab_proofcmd.specs.GoalCounts.{OwesUse};
ghost use Rattle.ab_proofcmd.specs.Questions.{HoldsAsked, IsLookedUp, AsksApply};
ghost use Rattle.ab_proofcmd.specs.RemainingGoals.{LeavesOpened, CantOpenResult};

use crate::awaited_formulas::show;
use crate::given_terms::read_given;
use crate::many_goals::step_into;
use crate::questions::{Asked, add_formulas, first_missing, formula_named, use_of};
use crate::use_results::open_beside;
use ab_equations::Label;
use ab_hypothesis::steps::kernel::{Proof, Step};
use ab_hypothesis::steps::{ProofCommandFault, first_goal, take_back};
use ab_hypothesis::{Stop, label_clash, own_name};
use ab_logic::{Sequent, World};
use ab_norm::name::Name;
use ab_norm::store::TermId;
use ab_norm::types::Steps;
use ab_syntax::{Argument, Instance};
use ab_uses::{Aim, all_serve, antecedent_count};
use std::alloc::{AllocError, Global};

/// What the hypotheses' formulas are to be met by.
fn aim_at(alloc: Global, goal: &Sequent, arguments: &[Argument]) -> Result<Aim, AllocError>
    ensures aim { IfOk result (λ a. (w : AWorld) → aim_of w a ≡ record { hypotheses = formulas_in (sequent_of w goal.now) (map argument_of arguments.now); conclusion = None }) }
    ensures held { IfOk result (λ a. (w : AWorld) → HoldsSequent w goal.now → All (HoldsIfAny w) a.hypotheses.items) }
    ensures alone { IfOk result (λ a. a.conclusion ≡ None) }
{
    let mut hypotheses = Vec::new(alloc);
    add_formulas(goal, arguments, &mut hypotheses)?;
    Ok(Aim {
        hypotheses,
        conclusion: None,
    })
}

/// The formula that is applied, once the label is free, and the hypotheses that are named are there.
fn look_up(
    alloc: Global,
    world: &World,
    goal: &Sequent,
    label: &Label,
    name: &Name,
    arguments: &[Argument],
) -> Result<TermId, ProofCommandFault>
    requires world { IsWorld world.now }
    requires goal { HoldsSequent world.now goal.now }
    ensures held { IfOk result (Holds world.now) }
    ensures found { IfOk result (λ F. IsLookedUp (declarations_of world.now) (label_of label.now) name.now (map argument_of arguments.now) (sequent_of world.now goal.now) (read world.now F)) }
    ensures refused { (fault : AFault) → result ≡ Err fault → (is : List AnInstance) →
        RefusedBy (effect (declarations_of world.now) (label_of label.now) (told.apply name.now (map argument_of arguments.now) is) (sequent_of world.now goal.now)) fault }
{
    let clash = label_clash(alloc, goal, label)?;
    if let Some(taken) = clash {
        return Err(ProofCommandFault::Clash(taken));
    }
    let Some(formula) = formula_named(world, goal, name) else {
        return Err(ProofCommandFault::NoHypothesis(name.copy(alloc)?));
    };
    match first_missing(goal, arguments) {
        Some(missing) => Err(ProofCommandFault::NoHypothesis(missing.copy(alloc)?)),
        None => Ok(formula),
    }
}

/// All that is asked.
fn ask<L>(
    alloc: Global,
    world: &mut World,
    goal: &Sequent,
    label: &Label,
    name: &Name,
    arguments: &[Argument],
    given: &[Instance],
    steps: &mut Steps<L>,
) -> Result<Asked, ProofCommandFault>
    requires world { IsWorld world.old }
    requires goal { HoldsSequent world.old goal.now }
    requires sequent { IsSequent (declarations_of world.old) (sequent_of world.old goal.now) }
    ensures asked { IfOk result (AsksApply (declarations_of world.old) (label_of label.now) name.now (map argument_of arguments.now) (map instance_of given.now) (sequent_of world.old goal.now) world.new) }
    ensures refused { (fault : AFault) → result ≡ Err fault →
        RefusedBy (effect (declarations_of world.old) (label_of label.now) (told.apply name.now (map argument_of arguments.now) (map instance_of given.now)) (sequent_of world.old goal.now)) fault }
    ensures grows { Grows world.old world.new }
    ensures declared { declarations_of world.new ≡ declarations_of world.old }
    ensures steps { steps.old ≤ steps.new }
{
    let formula = look_up(alloc, world, goal, label, name, arguments)?;
    let count = arguments.len();
    let antecedents = antecedent_count(world, formula)?;
    let too_many = antecedents < count;
    let terms = read_given(alloc, world, goal, formula, count, given, too_many, steps)?;
    let aim = aim_at(alloc, goal, arguments)?;
    if !all_serve(world, formula, count, aim.hypotheses.as_slice()) {
        return Err(ProofCommandFault::Mark);
    }
    let found = use_of(
        alloc,
        world,
        goal,
        formula,
        count,
        terms.as_slice(),
        &aim,
        steps,
    )?;
    Ok(Asked {
        formula,
        given: terms,
        found,
    })
}

/// Makes a goal of each formula that is awaited, and opens what the formula leads to in the first goal.
fn carry_out<L>(
    alloc: Global,
    world: &mut World,
    proof: &mut Proof,
    label: &Label,
    name: &Name,
    arguments: &[Argument],
    asked: &Asked,
    steps: &mut Steps<L>,
) -> Result<(), Stop>
    requires world { IsWorld world.old }
    requires proof { IsProof world.old proof.old }
    requires open { goals_of world.old proof.old ≢ [] }
    requires asked { HoldsAsked world.old asked.now }
    ensures follows { Advances world.old proof.old world.new proof.new }
    ensures owes { OnOk result (OwesUse name.now world.old proof.old world.new proof.new) }
    ensures left { OnOk result (LeavesOpened world.old proof.old world.new proof.new (label_of label.now) (map (given_of world.old) asked.now.given.items) (map (read world.old) asked.now.found.awaited.items) (read world.old asked.now.found.result)) }
    ensures stopped { result ≡ Err AStop.NamesSpent → CantOpenResult world.old proof.old (label_of label.now) (map (given_of world.old) asked.now.given.items) (read world.old asked.now.found.result) }
    ensures steps { steps.old ≤ steps.new }
{
    let own = own_name(alloc, world, first_goal(world, proof), label)?;
    let named = own.copy(alloc)?;
    let result = asked.found.result;
    step_into(
        world,
        proof,
        0,
        Step::CutFormula(result, Label::Given(named)),
        2,
        steps,
    )?;
    show(
        alloc,
        world,
        proof,
        name,
        asked.formula,
        &asked.found,
        arguments,
        steps,
    )?;
    let place = asked.found.awaited.len();
    open_beside(
        alloc,
        world,
        proof,
        place,
        label,
        own,
        result,
        asked.given.as_slice(),
        steps,
    )
}

/// Applies a hypothesis or a theorem to hypotheses, with these terms for names of its `forall`. Each hole among the arguments
/// becomes a goal, and what the formula leads to is opened in the first goal, with the label for its first hypothesis. It is
/// refused, and leaves the proof as it was, where the label is in use, a hypothesis isn't there, a term is given for a name
/// that no `forall` has which is taken off, or twice, or means nothing, there are too many arguments, a mark doesn't serve, the
/// sides can't be made equal, or not by patterns, a variable stays open, or a new hypothesis gets no name.
pub fn apply<L>(
    alloc: Global,
    world: &mut World,
    proof: &mut Proof,
    label: &Label,
    name: &Name,
    arguments: &[Argument],
    given: &[Instance],
    steps: &mut Steps<L>,
) -> Result<(), ProofCommandFault>
    requires world { IsWorld world.old }
    requires proof { IsProof world.old proof.old }
    requires open { goals_of world.old proof.old ≢ [] }
    ensures follows { Advances world.old proof.old world.new proof.new }
    ensures owes { OnOk result (OwesFor (told.apply name.now (map argument_of arguments.now) (map instance_of given.now)) world.old proof.old world.new proof.new) }
    ensures applied { IfOk result (λ u. IsApplied (label_of label.now) (told.apply name.now (map argument_of arguments.now) (map instance_of given.now)) world.old proof.old world.new proof.new) }
    ensures refused { (fault : AFault) → result ≡ Err fault → IsRefused (label_of label.now) (told.apply name.now (map argument_of arguments.now) (map instance_of given.now)) world.old proof.old fault }
    ensures unchanged { OnErr result (history_of world.new proof.new ≡ history_of world.old proof.old) }
    ensures steps { steps.old ≤ steps.new }
{
    let goal = first_goal(world, proof);
    let asked = ask(alloc, world, goal, label, name, arguments, given, steps)?;
    let count = proof.steps();
    match carry_out(alloc, world, proof, label, name, arguments, &asked, steps) {
        Ok(()) => Ok(()),
        Err(stop) => {
            take_back(world, proof, count, steps);
            Err(fault_of(stop))
        }
    }
}

/// Why the command is refused that stops so.
fn fault_of(stop: Stop) -> ProofCommandFault
    ensures { ((stop ≡ AStop.NamesSpent) × (result ≡ AFault.NamesSpent)) ⊎ ((m : AMemory) × (result ≡ AFault.Memory m)) }
{
    match stop {
        Stop::NamesSpent => ProofCommandFault::NamesSpent,
        Stop::Memory(fault) => ProofCommandFault::Memory(fault),
    }
}
