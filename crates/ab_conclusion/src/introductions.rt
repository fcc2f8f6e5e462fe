//! How the conclusion's quantifiers and antecedents become variables, constants and hypotheses.
ghost use Rattle.std.specs.Prelude.{◌≡◌, ◌≢◌, ◌≤◌, ◌<◌, [], ◌∷◌, ◌++◌, ℕ, List, Err, IfOk, IfSome, OnErr, IsTrue, IsFalse, Some, None, length, take, drop, get_or, ◌||◌, bytes_eq};
ghost use Rattle.std.specs.List.{list_any};
ghost use Rattle.std.specs.Option.{option_map};
ghost use Rattle.ab_grammar.specs.CommandTrees as told;
ghost use Rattle.ab_logic.specs.Forms.{form_read};
ghost use Rattle.ab_logic.specs.SequentReadings.{sequent_of};
ghost use Rattle.ab_formulas.specs.Sequents.{Sequent as AGoal};
ghost use Rattle.ab_logic.specs.Worlds.{IsWorld, declarations_of};
ghost use Rattle.ab_formulas.specs.NewNames as plain;
ghost use Rattle.ab_logic.specs.declared.world.World.{World as AWorld};
ghost use Rattle.ab_steps.specs.ab_kernel.specs.Layout.{history_of, IsProof, goals_of};
ghost use Rattle.ab_steps.specs.ab_kernel.specs.ab_judgements.specs.ab_alternatives.specs.ab_equations.specs.Labels.{label_of};
ghost use Rattle.ab_effects.specs.ProofCommands.{clashing_names, introducing, is_used};
ghost use Rattle.ab_effects.specs.Introductions.{taken_off, first_label, others};
ghost use Rattle.ab_meaning.specs.Refusals.{clash};
ghost use Rattle.ab_effects.specs.Row.{Leads};
ghost use Rattle.ab_steps.specs.Progress.{Follows};
ghost use Rattle.ab_steps.specs.ProofEffects.{IsApplied, IsRefused, RefusedBy};
ghost use Rattle.ab_steps.specs.declared.fault.ProofCommandFault.{ProofCommandFault};
ghost use Rattle.ab_conclusion.specs.IntroductionSteps.{WasTaken};

use ab_logic::{Form, Sequent, World, shape};
use ab_steps::kernel::judgements::alternatives::equations::Label;
use ab_steps::kernel::{Proof, Step};
use ab_steps::{ProofCommandFault, attempt, first_goal, surely, take_back};
use ab_types::Steps;
use ab_types::name::Name;
use indexmap::IndexSet;
use std::alloc::{AllocError, Global};

/// As long as the conclusion begins with `forall`, `nabla` or an antecedent, that is taken off: it becomes a variable, a
/// nominal constant or a hypothesis. The names go to the first hypotheses.
pub fn intros<L>(
    alloc: Global,
    world: &mut World,
    proof: &mut Proof,
    names: &[Name],
    steps: &mut Steps<L>,
) -> Result<(), ProofCommandFault>
    requires world { IsWorld world.old }
    requires proof { IsProof world.old proof.old }
    requires open { goals_of world.old proof.old ≢ [] }
    ensures follows { Follows world.old proof.old world.new proof.new }
    ensures applied { IfOk result (λ u. (l : plain.Label) → IsApplied l (told.intros names.now) world.old proof.old world.new proof.new) }
    ensures refused { (fault : ProofCommandFault) → result ≡ Err fault → (l : plain.Label) → IsRefused l (told.intros names.now) world.old proof.old fault }
    ensures unchanged { OnErr result (history_of world.new proof.new ≡ history_of world.old proof.old) }
    ensures steps { steps.old ≤ steps.new }
{
    let goal = first_goal(world, proof);
    let conclusion = goal.conclusion;
    if let Some(place) = first_clash(alloc, names, goal)? {
        return Err(ProofCommandFault::Clash(names[place].copy(alloc)?));
    }
    if !begins(shape(world, conclusion)) {
        return Err(ProofCommandFault::WrongShape);
    }
    let count = proof.steps();
    match introduce(alloc, world, proof, names, steps) {
        Ok(()) => Ok(()),
        Err(fault) => {
            take_back(world, proof, count, steps);
            Err(fault)
        }
    }
}

/// Whether something can be taken off a formula of this form.
fn begins(form: Form) -> bool
    ensures yes { (w : AWorld) → IsTrue result → taken_off (form_read w form) ≡ Some tt }
    ensures no { (w : AWorld) → IsFalse result → taken_off (form_read w form) ≡ None }
{
    match form {
        Form::Forall(_, _) => true,
        Form::Nabla(_, _) => true,
        Form::Arrow(_, _) => true,
        _ => false,
    }
}

/// The place of the first of the names that a hypothesis has, or that is among those before it.
fn first_clash(alloc: Global, names: &[Name], goal: &Sequent) -> Result<Option<usize>, AllocError>
    ensures within { IfOk result (λ found. IfSome found (λ k. k < length names.now)) }
    ensures first { IfOk result (λ found. (w : AWorld) →
        option_map (λ k. clash (get_or names.now k [])) found ≡ clashing_names [] names.now (sequent_of w goal.now)) }
{
    let mut before = IndexSet::new(alloc);
    for place in 0..names.len() {
        if clashes(alloc, &names[place], goal, &mut before)? {
            return Ok(Some(place));
        }
    }
    Ok(None)
}

/// Whether a hypothesis has the name, or it is among those before it. If neither, it is behind them then.
fn clashes(
    alloc: Global,
    name: &Name,
    goal: &Sequent,
    before: &mut IndexSet<Name>,
) -> Result<bool, AllocError>
    ensures clashes { IfOk result (λ yes. (w : AWorld) → yes ≡ (is_used (sequent_of w goal.now) name.now
        || list_any (λ y. bytes_eq y name.now) before.old.keys)) }
    ensures noted { IfOk result (λ yes. IsFalse yes → before.new.keys ≡ before.old.keys ++ name.now ∷ []) }
{
    if goal.uses(name) {
        return Ok(true);
    }
    let copy = name.copy(alloc)?;
    let (_, added) = before.insert_full(copy)?;
    Ok(!added)
}

/// What was taken off a conclusion.
enum Taken {
    /// There is nothing that can be.
    Nothing,
    /// A quantifier or an antecedent. So many names are given then.
    Next(usize),
    /// Nothing, since a new hypothesis gets no name.
    Nameless,
}

/// Takes off the first goal's conclusion all that can be. A name that is left then is one too many. After a refusal the
/// steps that were taken stand.
fn introduce<L>(
    alloc: Global,
    world: &mut World,
    proof: &mut Proof,
    names: &[Name],
    steps: &mut Steps<L>,
) -> Result<(), ProofCommandFault>
    requires world { IsWorld world.old }
    requires proof { IsProof world.old proof.old }
    requires open { goals_of world.old proof.old ≢ [] }
    ensures follows { Follows world.old proof.old world.new proof.new }
    ensures applied { IfOk result (λ u. (s : AGoal) (rest : List AGoal) → goals_of world.old proof.old ≡ s ∷ rest →
        (ps : List AGoal) × Leads (introducing (declarations_of world.old) names.now s) ps × (goals_of world.new proof.new ≡ ps ++ rest)) }
    ensures refused { (fault : ProofCommandFault) → result ≡ Err fault → (s : AGoal) (rest : List AGoal) → goals_of world.old proof.old ≡ s ∷ rest →
        RefusedBy (introducing (declarations_of world.old) names.now s) fault }
    ensures steps { steps.old ≤ steps.new }
{
    let mut given = 0;
    'taking: loop {
        match introduce_one(alloc, world, proof, names, given, steps)? {
            Taken::Next(next) => given = next,
            Taken::Nothing => break 'taking,
            Taken::Nameless => return Err(ProofCommandFault::NamesSpent),
        }
    }
    if given < names.len() {
        return Err(ProofCommandFault::WrongShape);
    }
    Ok(())
}

/// Takes the outermost quantifier or antecedent off the first goal's conclusion, where it has one and so many of the
/// names are given.
fn introduce_one<L>(
    alloc: Global,
    world: &mut World,
    proof: &mut Proof,
    names: &[Name],
    given: usize,
    steps: &mut Steps<L>,
) -> Result<Taken, AllocError>
    requires world { IsWorld world.old }
    requires proof { IsProof world.old proof.old }
    requires open { goals_of world.old proof.old ≢ [] }
    requires given { given ≤ length names.now }
    ensures follows { Follows world.old proof.old world.new proof.new }
    ensures taken { IfOk result (WasTaken names.now given world.old proof.old world.new proof.new) }
    ensures steps { steps.old ≤ steps.new }
{
    match shape(world, first_goal(world, proof).conclusion) {
        Form::Forall(_, _) => {
            surely(world, proof, 0, Step::ForallRight, steps)?;
            Ok(Taken::Next(given))
        }
        Form::Nabla(_, _) => {
            surely(world, proof, 0, Step::NablaRight, steps)?;
            Ok(Taken::Next(given))
        }
        Form::Arrow(_, _) => {
            let label = next_label(alloc, names, given)?;
            let taken = attempt(world, proof, 0, Step::ArrowRight(label), steps)?;
            if taken {
                Ok(Taken::Next(one_more(names, given)))
            } else {
                Ok(Taken::Nameless)
            }
        }
        _ => Ok(Taken::Nothing),
    }
}

/// The label of the next hypothesis, where so many of the names are given.
fn next_label(alloc: Global, names: &[Name], given: usize) -> Result<Label, AllocError>
    ensures { IfOk result (λ l. label_of l ≡ first_label (drop given names.now)) }
{
    match names.get(given) {
        Some(name) => Ok(Label::Given(name.copy(alloc)?)),
        None => Ok(Label::Auto),
    }
}

/// How many of the names are given, once the next hypothesis has its name.
fn one_more(names: &[Name], given: usize) -> usize
    requires { given ≤ length names.now }
    ensures within { result ≤ length names.now }
    ensures others { drop result names.now ≡ others (drop given names.now) }
{
    if given < names.len() {
        given + 1
    } else {
        given
    }
}
