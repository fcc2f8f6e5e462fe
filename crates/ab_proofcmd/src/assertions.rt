//! A formula that is derived first, and then assumed.
ghost use Rattle.std.specs.Prelude.{◌≤◌, ◌≡◌, ◌≢◌, [], ◌∷◌, List, Err, IfOk, OnOk, OnErr};
ghost use Rattle.std.specs.Option.{option_map};
ghost use Rattle.ab_grammar.specs.CommandTrees as told;
ghost use Rattle.ab_grammar.specs.Tree as tree;
ghost use Rattle.ab_syntax.specs.ab_expressions.specs.SyntaxTrees.{tree_of};
ghost use Rattle.ab_logic.specs.SequentReadings.{sequent_of};
ghost use Rattle.ab_formulas.specs.Sequents.{Sequent as AGoal};
ghost use Rattle.ab_logic.specs.Worlds.{IsWorld, Holds, read, declarations_of};
ghost use Rattle.ab_logic.specs.declared.world.World.{World as AWorld};
ghost use Rattle.ab_equations.specs.Labels.{label_of};
ghost use Rattle.ab_theory.specs.Steps.{cut_formula};
ghost use Rattle.ab_hypothesis.specs.ab_steps.specs.ab_kernel.specs.Layout.{history_of, IsProof, goals_of};
ghost use Rattle.ab_effects.specs.ProofCommands.{clashing};
ghost use Rattle.ab_meaning.specs.Refusals.{clash};
ghost use Rattle.ab_hypothesis.specs.ab_steps.specs.ProofEffects.{IsApplied, IsRefused};
ghost use Rattle.ab_hypothesis.specs.ab_steps.specs.Progress.{Follows, Took};
ghost use Rattle.ab_hypothesis.specs.ab_steps.specs.declared.fault.ProofCommandFault.{ProofCommandFault as AFault};
ghost use Rattle.ab_proofcmd.specs.CutRefusals.{CutFails};

use crate::expressions::{fault_for, read_formula};
use ab_equations::Label;
use ab_hypothesis::steps::kernel::{KernelFault, Proof, Step};
use ab_hypothesis::steps::{ProofCommandFault, first_goal};
use ab_logic::{Sequent, World};
use ab_norm::name::Name;
use ab_norm::store::TermId;
use ab_norm::types::Steps;
use ab_syntax::Parse;
use std::alloc::{AllocError, Global};

/// The label's name, where a hypothesis of the goal has it already.
fn label_clash(alloc: Global, goal: &Sequent, label: &Label) -> Result<Option<Name>, AllocError>
    ensures { IfOk result (λ found. (w : AWorld) → option_map clash found ≡ clashing (label_of label.now) (sequent_of w goal.now)) }
{
    match label {
        Label::Auto => Ok(None),
        Label::Given(name) => {
            if goal.uses(name) {
                Ok(Some(name.copy(alloc)?))
            } else {
                Ok(None)
            }
        }
    }
}

/// The same label again.
fn again(alloc: Global, label: &Label) -> Result<Label, AllocError>
    ensures { IfOk result (λ copy. label_of copy ≡ label_of label.now) }
{
    match label {
        Label::Auto => Ok(Label::Auto),
        Label::Given(name) => Ok(Label::Given(name.copy(alloc)?)),
    }
}

/// Where an expression begins.
fn place_of(parse: &Parse) -> usize
    ensures { result ≡ tree.place_of (tree_of parse.now) }
{
    match parse {
        Parse::Name(_, place)
        | Parse::Apply(_, _, place)
        | Parse::Abs(_, _, place)
        | Parse::Join(_, _, _, place)
        | Parse::Bind(_, _, _, place)
        | Parse::Judge(_, _, _, place) => *place,
    }
}

/// Makes a goal of the formula, and assumes it in the first goal. `place` is where its expression begins.
fn cut<L>(
    world: &mut World,
    proof: &mut Proof,
    formula: TermId,
    label: Label,
    place: usize,
    steps: &mut Steps<L>,
) -> Result<(), ProofCommandFault>
    requires world { IsWorld world.old }
    requires proof { IsProof world.old proof.old }
    requires open { goals_of world.old proof.old ≢ [] }
    requires formula { Holds world.old formula }
    ensures follows { Follows world.old proof.old world.new proof.new }
    ensures took { OnOk result (Took world.old proof.old world.new proof.new 0 (cut_formula (read world.old formula) (label_of label))) }
    ensures refused { (fault : AFault) → result ≡ Err fault → (s : AGoal) (rest : List AGoal) → goals_of world.old proof.old ≡ s ∷ rest →
        CutFails (declarations_of world.old) (read world.old formula) (label_of label) place s fault }
    ensures unchanged { OnErr result (history_of world.new proof.new ≡ history_of world.old proof.old) }
    ensures steps { steps.old ≤ steps.new }
{
    match proof.refine(world, 0, Step::CutFormula(formula, label), steps) {
        Ok(_) => Ok(()),
        Err(KernelFault::RuleFails(condition)) => {
            if condition == 1 {
                Err(ProofCommandFault::TypeClash(place))
            } else {
                Err(ProofCommandFault::NamesSpent)
            }
        }
        Err(KernelFault::NotPattern(_)) => unreachable!(),
        Err(KernelFault::Memory(fault)) => Err(ProofCommandFault::Memory(fault)),
    }
}

/// The formula is to be derived first, and is a hypothesis of the goal then, with the label for its name. It is refused, and
/// leaves the proof as it was, where the label is in use, a name of the expression stands for nothing, it has no reading
/// as a formula, or several, or the hypothesis gets no name.
pub fn assert<L>(
    alloc: Global,
    world: &mut World,
    proof: &mut Proof,
    label: &Label,
    formula: &Parse,
    steps: &mut Steps<L>,
) -> Result<(), ProofCommandFault>
    requires world { IsWorld world.old }
    requires proof { IsProof world.old proof.old }
    requires open { goals_of world.old proof.old ≢ [] }
    ensures follows { Follows world.old proof.old world.new proof.new }
    ensures applied { IfOk result (λ u. IsApplied (label_of label.now) (told.assert (tree_of formula.now)) world.old proof.old world.new proof.new) }
    ensures refused { (fault : AFault) → result ≡ Err fault → IsRefused (label_of label.now) (told.assert (tree_of formula.now)) world.old proof.old fault }
    ensures unchanged { OnErr result (history_of world.new proof.new ≡ history_of world.old proof.old) }
    ensures steps { steps.old ≤ steps.new }
{
    let goal = first_goal(world, proof);
    let clash = label_clash(alloc, goal, label)?;
    if let Some(taken) = clash {
        return Err(ProofCommandFault::Clash(taken));
    }
    let given = again(alloc, label)?;
    match read_formula(alloc, world, goal, formula, steps) {
        Ok(stated) => cut(world, proof, stated, given, place_of(formula), steps),
        Err(fault) => Err(fault_for(fault)),
    }
}
