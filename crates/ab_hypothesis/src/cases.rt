//! A hypothesis is taken apart.
ghost use Rattle.std.specs.Prelude.{◌≤◌, ◌≡◌, ◌≢◌, ◌↔◌, ◌+◌, ℕ, [], ◌∷◌, List, Ok, Err, IfOk, OnOk, OnErr, IsTrue, IsFalse};
ghost use Rattle.std.specs.Option.{option_map};
ghost use Rattle.ab_grammar.specs.CommandTrees as told;
ghost use Rattle.ab_formulas.specs.Forms.{form_of, either, falsity};
ghost use Rattle.ab_logic.specs.Forms.{HoldsParts};
ghost use Rattle.ab_logic.specs.SequentReadings.{sequent_of};
ghost use Rattle.ab_formulas.specs.Sequents.{Sequent as AGoal, assuming, without};
ghost use Rattle.ab_logic.specs.declared.world.World.{World as AWorld};
ghost use Rattle.ab_effects.specs.ProofCommands.{clashing};
ghost use Rattle.ab_meaning.specs.Refusals.{clash, wrong_shape, mark, not_pattern, names_spent};
ghost use Rattle.ab_logic.specs.Worlds.{IsWorld, Holds, declarations_of, read};
ghost use Rattle.ab_equations.specs.Labels.{label_of};
ghost use Rattle.ab_unify.specs.Problem.{cells_read};
ghost use Rattle.ab_theory.specs.Equations.{AreCells};
ghost use Rattle.ab_steps.specs.ab_kernel.specs.Layout.{history_of, IsProof, goals_of};
ghost use Rattle.ab_effects.specs.Openings.{Nameless};
ghost use Rattle.ab_steps.specs.ProofEffects.{IsApplied, IsRefused};
ghost use Rattle.ab_steps.specs.Progress.{IsAt, Follows};
ghost use Rattle.ab_steps.specs.declared.fault.ProofCommandFault.{ProofCommandFault as AFault};
ghost use Rattle.ab_hypothesis.specs.OwnNames.{IsOwn};
ghost use Rattle.ab_hypothesis.specs.HypothesisProgress.{HasAt, OpenedTo};
ghost use Rattle.ab_hypothesis.specs.CaseAnswers.{HasCases, IsOpened, IsEquation, Begun, TakenApart, CantTake};
ghost use Rattle.ab_hypothesis.specs.declared.outcome.Outcome.{Outcome as AnOutcome};
ghost use Rattle.ab_hypothesis.specs.declared.stop.Stop.{Stop as AStop};

use crate::analysis::analyse;
use crate::beginnings::{begin, first_over_cells};
use crate::openings::open_one;
use crate::outcome::{Outcome, fault_of};
use crate::stop::Stop;
use ab_equations::Label;
use ab_logic::{Form, Sequent, World, shape};
use ab_norm::name::Name;
use ab_norm::store::TermId;
use ab_norm::types::Steps;
use ab_steps::kernel::{Proof, Step};
use ab_steps::{Attempted, ProofCommandFault, attempt_solving, first_goal, surely, take_back};
use std::alloc::{AllocError, Global};

/// Whether a hypothesis of a formula of that form may be taken apart.
fn has_cases(world: &World, formula: TermId) -> bool
    requires { Holds world.now formula }
    ensures { IsTrue result ↔ HasCases (form_of (read world.now formula)) }
{
    match shape(world, formula) {
        Form::True
        | Form::False
        | Form::And(_, _)
        | Form::Or(_, _)
        | Form::Equal(_, _, _)
        | Form::Exists(_, _)
        | Form::Nabla(_, _)
        | Form::Marked(_, _)
        | Form::Other => true,
        Form::Arrow(_, _) | Form::Forall(_, _) => false,
    }
}

/// Opens a hypothesis in its goal.
fn take_open<L>(
    alloc: Global,
    world: &mut World,
    proof: &mut Proof,
    label: &Label,
    name: &Name,
    formula: TermId,
    keep: bool,
    steps: &mut Steps<L>,
) -> Result<(), Stop>
    requires world { IsWorld world.old }
    requires proof { IsProof world.old proof.old }
    requires open { goals_of world.old proof.old ≢ [] }
    requires formula { Holds world.old formula }
    requires there { HasAt world.old proof.old 0 name.now (read world.old formula) }
    requires form { IsOpened (form_of (read world.old formula)) }
    ensures follows { Follows world.old proof.old world.new proof.new }
    ensures taken { OnOk result (TakenApart world.old proof.old world.new proof.new (label_of label.now) keep name.now (read world.old formula)) }
    ensures stopped { result ≡ Err AStop.NamesSpent → CantTake world.old proof.old (label_of label.now) keep name.now (read world.old formula) names_spent }
    ensures steps { steps.old ≤ steps.new }
{
    let own = begin(alloc, world, proof, label, name, formula, keep, steps)?;
    open_one(alloc, world, proof, 0, label, own, formula, steps)
}

/// Makes a goal of each part of a disjunction, and opens the part there.
fn take_or<L>(
    alloc: Global,
    world: &mut World,
    proof: &mut Proof,
    label: &Label,
    name: &Name,
    formula: TermId,
    parts: (TermId, TermId),
    keep: bool,
    steps: &mut Steps<L>,
) -> Result<(), Stop>
    requires world { IsWorld world.old }
    requires proof { IsProof world.old proof.old }
    requires open { goals_of world.old proof.old ≢ [] }
    requires formula { Holds world.old formula }
    requires there { HasAt world.old proof.old 0 name.now (read world.old formula) }
    requires parts { HoldsParts world.old parts }
    requires form { form_of (read world.old formula) ≡ either (read world.old parts.0) (read world.old parts.1) }
    ensures follows { Follows world.old proof.old world.new proof.new }
    ensures taken { OnOk result (TakenApart world.old proof.old world.new proof.new (label_of label.now) keep name.now (read world.old formula)) }
    ensures stopped { result ≡ Err AStop.NamesSpent → CantTake world.old proof.old (label_of label.now) keep name.now (read world.old formula) names_spent }
    ensures steps { steps.old ≤ steps.new }
{
    let own = begin(alloc, world, proof, label, name, formula, keep, steps)?;
    let other = own.copy(alloc)?;
    split_own(alloc, world, proof, &own, formula, parts, steps)?;
    open_one(alloc, world, proof, 0, label, own, parts.0, steps)?;
    open_one(alloc, world, proof, 1, label, other, parts.1, steps)
}

/// Makes a goal of each part of a disjunction that is a hypothesis of the command's own. The part has its name.
fn split_own<L>(
    alloc: Global,
    world: &mut World,
    proof: &mut Proof,
    name: &Name,
    formula: TermId,
    parts: (TermId, TermId),
    steps: &mut Steps<L>,
) -> Result<(), AllocError>
    requires world { IsWorld world.old }
    requires proof { IsProof world.old proof.old }
    requires there { HasAt world.old proof.old 0 name.now (read world.old formula) }
    requires form { form_of (read world.old formula) ≡ either (read world.old parts.0) (read world.old parts.1) }
    ensures follows { Follows world.old proof.old world.new proof.new }
    ensures parted { OnOk result ((s : AGoal) (rest : List AGoal) → goals_of world.old proof.old ≡ s ∷ rest →
        goals_of world.new proof.new ≡ assuming name.now (read world.old parts.0) (without name.now s) ∷ assuming name.now (read world.old parts.1) (without name.now s) ∷ rest) }
    ensures steps { steps.old ≤ steps.new }
{
    let _ = formula;
    let _ = parts;
    let own = name.copy(alloc)?;
    let given = name.copy(alloc)?;
    surely(
        world,
        proof,
        0,
        Step::OrLeft(own, Label::Given(given)),
        steps,
    )
}

/// Closes the first goal by a hypothesis that is `false`.
fn take_false<L>(
    alloc: Global,
    world: &mut World,
    proof: &mut Proof,
    label: &Label,
    name: &Name,
    formula: TermId,
    keep: bool,
    steps: &mut Steps<L>,
) -> Result<(), AllocError>
    requires world { IsWorld world.old }
    requires proof { IsProof world.old proof.old }
    requires there { HasAt world.old proof.old 0 name.now (read world.old formula) }
    requires form { form_of (read world.old formula) ≡ falsity }
    ensures follows { Follows world.old proof.old world.new proof.new }
    ensures taken { OnOk result (TakenApart world.old proof.old world.new proof.new (label_of label.now) keep name.now (read world.old formula)) }
    ensures steps { steps.old ≤ steps.new }
{
    let _ = label;
    let _ = formula;
    let _ = keep;
    let own = name.copy(alloc)?;
    surely(world, proof, 0, Step::FalseLeft(own), steps)
}

/// Solves a hypothesis that is an equation in its goal. It answers false where the equation is outside the patterns.
fn take_equal<L>(
    alloc: Global,
    world: &mut World,
    proof: &mut Proof,
    label: &Label,
    name: &Name,
    formula: TermId,
    keep: bool,
    steps: &mut Steps<L>,
) -> Result<bool, AllocError>
    requires world { IsWorld world.old }
    requires proof { IsProof world.old proof.old }
    requires open { goals_of world.old proof.old ≢ [] }
    requires formula { Holds world.old formula }
    requires there { HasAt world.old proof.old 0 name.now (read world.old formula) }
    requires form { IsEquation (form_of (read world.old formula)) }
    ensures follows { Follows world.old proof.old world.new proof.new }
    ensures taken { IfOk result (λ b. IsTrue b → TakenApart world.old proof.old world.new proof.new (label_of label.now) keep name.now (read world.old formula)) }
    ensures stuck { IfOk result (λ b. IsFalse b → CantTake world.old proof.old (label_of label.now) keep name.now (read world.old formula) (not_pattern 1)) }
    ensures steps { steps.old ≤ steps.new }
{
    let own = begin(alloc, world, proof, label, name, formula, keep, steps)?;
    first_over_cells(world, proof);
    match attempt_solving(world, proof, 0, Step::EqualLeft(own), steps)? {
        Attempted::Taken(_) => Ok(true),
        Attempted::Failed(_) => unreachable!(),
        Attempted::Stuck(_) => Ok(false),
    }
}

/// Takes a hypothesis of the first goal apart.
fn take_apart<L>(
    alloc: Global,
    world: &mut World,
    proof: &mut Proof,
    label: &Label,
    name: &Name,
    formula: TermId,
    keep: bool,
    steps: &mut Steps<L>,
) -> Result<Outcome, Stop>
    requires world { IsWorld world.old }
    requires proof { IsProof world.old proof.old }
    requires open { goals_of world.old proof.old ≢ [] }
    requires formula { Holds world.old formula }
    requires there { HasAt world.old proof.old 0 name.now (read world.old formula) }
    requires form { HasCases (form_of (read world.old formula)) }
    ensures follows { Follows world.old proof.old world.new proof.new }
    ensures taken { result ≡ Ok AnOutcome.Taken → TakenApart world.old proof.old world.new proof.new (label_of label.now) keep name.now (read world.old formula) }
    ensures shapeless { result ≡ Ok AnOutcome.Shapeless → CantTake world.old proof.old (label_of label.now) keep name.now (read world.old formula) wrong_shape }
    ensures marked { result ≡ Ok AnOutcome.Marked → CantTake world.old proof.old (label_of label.now) keep name.now (read world.old formula) mark }
    ensures stuck { (i : ℕ) → result ≡ Ok (AnOutcome.Stuck i) → CantTake world.old proof.old (label_of label.now) keep name.now (read world.old formula) (not_pattern (i + 1)) }
    ensures stopped { result ≡ Err AStop.NamesSpent → CantTake world.old proof.old (label_of label.now) keep name.now (read world.old formula) names_spent }
    ensures steps { steps.old ≤ steps.new }
{
    match shape(world, formula) {
        Form::False => {
            take_false(alloc, world, proof, label, name, formula, keep, steps)?;
            Ok(Outcome::Taken)
        }
        Form::Or(first, second) => {
            take_or(
                alloc,
                world,
                proof,
                label,
                name,
                formula,
                (first, second),
                keep,
                steps,
            )?;
            Ok(Outcome::Taken)
        }
        Form::True | Form::And(_, _) | Form::Exists(_, _) | Form::Nabla(_, _) => {
            take_open(alloc, world, proof, label, name, formula, keep, steps)?;
            Ok(Outcome::Taken)
        }
        Form::Equal(_, _, _) => {
            let solved = take_equal(alloc, world, proof, label, name, formula, keep, steps)?;
            if solved {
                Ok(Outcome::Taken)
            } else {
                Ok(Outcome::Stuck(0))
            }
        }
        Form::Marked(_, _) | Form::Other => {
            analyse(alloc, world, proof, label, name, formula, keep, steps)
        }
        Form::Arrow(_, _) | Form::Forall(_, _) => unreachable!(),
    }
}

/// The label's name, where a hypothesis of the goal has it already.
pub fn label_clash(
    alloc: Global,
    sequent: &Sequent,
    label: &Label,
) -> Result<Option<Name>, AllocError>
    ensures { IfOk result (λ found. (w : AWorld) → option_map clash found ≡ clashing (label_of label.now) (sequent_of w sequent.now)) }
{
    match label {
        Label::Auto => Ok(None),
        Label::Given(name) => {
            if sequent.uses(name) {
                Ok(Some(name.copy(alloc)?))
            } else {
                Ok(None)
            }
        }
    }
}

/// Takes a hypothesis of the first goal apart, with the label for the first new hypothesis of each goal. It is removed,
/// unless it is to be kept. An equation is solved in the goal, and a defined atom or a judgement splits the goal into its
/// cases. It is refused, and changes nothing, where the label is in use, no hypothesis has the name, the formula isn't of a
/// form that is taken apart, it is an atom whose predicate isn't defined or a judgement of which it isn't known by which rules
/// it may hold, a mark doesn't allow it, an equation is outside the patterns, or a new hypothesis gets no name.
pub fn case<L>(
    alloc: Global,
    world: &mut World,
    proof: &mut Proof,
    label: &Label,
    name: &Name,
    keep: bool,
    steps: &mut Steps<L>,
) -> Result<(), ProofCommandFault>
    requires world { IsWorld world.old }
    requires proof { IsProof world.old proof.old }
    requires open { goals_of world.old proof.old ≢ [] }
    ensures follows { Follows world.old proof.old world.new proof.new }
    ensures applied { IfOk result (λ u. IsApplied (label_of label.now) (told.case name.now keep) world.old proof.old world.new proof.new) }
    ensures refused { (fault : AFault) → result ≡ Err fault → IsRefused (label_of label.now) (told.case name.now keep) world.old proof.old fault }
    ensures unchanged { OnErr result (history_of world.new proof.new ≡ history_of world.old proof.old) }
    ensures steps { steps.old ≤ steps.new }
{
    let goal = first_goal(world, proof);
    let clash = label_clash(alloc, goal, label)?;
    if let Some(taken) = clash {
        return Err(ProofCommandFault::Clash(taken));
    }
    let Some(formula) = goal.look(name) else {
        return Err(ProofCommandFault::NoHypothesis(name.copy(alloc)?));
    };
    if !has_cases(world, formula) {
        return Err(ProofCommandFault::WrongShape);
    }
    let count = proof.steps();
    let came = take_apart(alloc, world, proof, label, name, formula, keep, steps);
    match fault_of(came) {
        None => Ok(()),
        Some(fault) => {
            take_back(world, proof, count, steps);
            Err(fault)
        }
    }
}
