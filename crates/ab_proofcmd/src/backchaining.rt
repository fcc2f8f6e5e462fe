//! A goal's conclusion is what a hypothesis or a theorem leads to.
ghost use Rattle.std.specs.Prelude.{◌≤◌, ◌≡◌, ◌≢◌, [], map, Some, Err, IfOk, OnOk, OnErr, All};
ghost use Rattle.ab_grammar.specs.CommandTrees as told;
ghost use Rattle.ab_syntax.specs.Commands.{instance_of};
ghost use Rattle.ab_syntax.specs.ab_expressions.specs.SyntaxTrees.{tree_of};
ghost use Rattle.ab_logic.specs.WorldGrowth.{Grows};
ghost use Rattle.ab_formulas.specs.NewNames as plain;
ghost use Rattle.ab_logic.specs.SequentReadings.{sequent_of, HoldsSequent};
ghost use Rattle.ab_formulas.specs.Sequents.{IsSequent};
ghost use Rattle.ab_logic.specs.Worlds.{IsWorld, read, declarations_of};
ghost use Rattle.ab_logic.specs.declared.world.World.{World as AWorld};
ghost use Rattle.ab_uses.specs.GivenReadings.{HoldsIfAny};
ghost use Rattle.ab_uses.specs.UseReadings.{aim_of};
ghost use Rattle.ab_hypothesis.specs.ab_steps.specs.ab_kernel.specs.Layout.{history_of, IsProof, goals_of};
ghost use Rattle.ab_effects.specs.ProofCommands.{effect, repeated};
ghost use Rattle.ab_hypothesis.specs.ab_steps.specs.ProofEffects.{IsApplied, OwesFor, IsRefused, RefusedBy};
ghost use Rattle.ab_hypothesis.specs.ab_steps.specs.Progress.{Advances};
ghost use Rattle.ab_hypothesis.specs.ab_steps.specs.declared.fault.ProofCommandFault.{ProofCommandFault as AFault};
ghost use Rattle.ab_proofcmd.specs.Questions.{AsksBackchain};

use crate::awaited_formulas::show;
use crate::given_terms::read_given;
use crate::questions::{Asked, formula_named, use_of};
use ab_hypothesis::steps::kernel::Proof;
use ab_hypothesis::steps::{ProofCommandFault, first_goal, take_back};
use ab_logic::{Sequent, World};
use ab_norm::name::Name;
use ab_norm::store::TermId;
use ab_norm::types::Steps;
use ab_sequents::marks_serve_in;
use ab_syntax::Instance;
use ab_uses::{Aim, antecedent_count, formula_behind};
use std::alloc::{AllocError, Global};

/// Nothing meets the antecedents, of which there are so many, and the result is to be the conclusion.
fn aim_at(alloc: Global, conclusion: TermId, count: usize) -> Result<Aim, AllocError>
    ensures aim { IfOk result (λ a. (w : AWorld) → aim_of w a ≡ record { hypotheses = repeated count; conclusion = Some (read w conclusion) }) }
    ensures held { IfOk result (λ a. (w : AWorld) → All (HoldsIfAny w) a.hypotheses.items) }
    ensures conclusion { IfOk result (λ a. a.conclusion ≡ Some conclusion) }
{
    let mut hypotheses = Vec::new(alloc);
    for _ in 0..count {
        hypotheses.push(None)?;
    }
    Ok(Aim {
        hypotheses,
        conclusion: Some(conclusion),
    })
}

/// All that is asked.
fn ask<L>(
    alloc: Global,
    world: &mut World,
    goal: &Sequent,
    name: &Name,
    given: &[Instance],
    steps: &mut Steps<L>,
) -> Result<Asked, ProofCommandFault>
    requires world { IsWorld world.old }
    requires goal { HoldsSequent world.old goal.now }
    requires sequent { IsSequent (declarations_of world.old) (sequent_of world.old goal.now) }
    ensures asked { IfOk result (AsksBackchain (declarations_of world.old) name.now (map instance_of given.now) (sequent_of world.old goal.now) world.new) }
    ensures refused { (fault : AFault) → result ≡ Err fault → (l : plain.Label) →
        RefusedBy (effect (declarations_of world.old) l (told.backchain name.now (map instance_of given.now)) (sequent_of world.old goal.now)) fault }
    ensures grows { Grows world.old world.new }
    ensures declared { declarations_of world.new ≡ declarations_of world.old }
    ensures steps { steps.old ≤ steps.new }
{
    let Some(formula) = formula_named(world, goal, name) else {
        return Err(ProofCommandFault::NoHypothesis(name.copy(alloc)?));
    };
    let count = antecedent_count(world, formula)?;
    let terms = read_given(alloc, world, goal, formula, count, given, false, steps)?;
    if !marks_serve_in(
        world,
        goal.conclusion,
        formula_behind(world, formula, count),
    ) {
        return Err(ProofCommandFault::Mark);
    }
    let aim = aim_at(alloc, goal.conclusion, count)?;
    let found = use_of(
        alloc,
        world,
        goal,
        formula,
        count,
        terms.as_slice(),
        &aim,
        steps,
    )?;
    Ok(Asked {
        formula,
        given: terms,
        found,
    })
}

/// Uses a hypothesis or a theorem whose result is the conclusion, with these terms for names of its `forall`: each antecedent
/// becomes a goal. It is refused, and leaves the proof as it was, where there is no such hypothesis or theorem, a term is given
/// for a name that no `forall` has which is taken off, or twice, or means nothing, a mark doesn't serve, the two can't be made
/// equal, or not by patterns, or a variable stays open.
pub fn backchain<L>(
    alloc: Global,
    world: &mut World,
    proof: &mut Proof,
    name: &Name,
    given: &[Instance],
    steps: &mut Steps<L>,
) -> Result<(), ProofCommandFault>
    requires world { IsWorld world.old }
    requires proof { IsProof world.old proof.old }
    requires open { goals_of world.old proof.old ≢ [] }
    ensures follows { Advances world.old proof.old world.new proof.new }
    ensures owes { OnOk result (OwesFor (told.backchain name.now (map instance_of given.now)) world.old proof.old world.new proof.new) }
    ensures applied { IfOk result (λ u. (l : plain.Label) → IsApplied l (told.backchain name.now (map instance_of given.now)) world.old proof.old world.new proof.new) }
    ensures refused { (fault : AFault) → result ≡ Err fault → (l : plain.Label) → IsRefused l (told.backchain name.now (map instance_of given.now)) world.old proof.old fault }
    ensures unchanged { OnErr result (history_of world.new proof.new ≡ history_of world.old proof.old) }
    ensures steps { steps.old ≤ steps.new }
{
    let goal = first_goal(world, proof);
    let asked = ask(alloc, world, goal, name, given, steps)?;
    let count = proof.steps();
    match show(
        alloc,
        world,
        proof,
        name,
        asked.formula,
        &asked.found,
        &[],
        steps,
    ) {
        Ok(()) => Ok(()),
        Err(fault) => {
            take_back(world, proof, count, steps);
            Err(ProofCommandFault::Memory(fault))
        }
    }
}
