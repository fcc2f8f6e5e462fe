//! A goal is closed by a hypothesis. A judgement of the one may be whole where the other's is opened. Then both are taken apart down to
//! where they are the same but for constants.
ghost use Rattle.std.specs.Prelude.{◌≡◌, ◌≢◌, ◌+◌, ◌≤◌, length, IsTrue, IsFalse, IfOk, OnOk};
ghost use Rattle.ab_logic.specs.Worlds.{IsWorld, Holds};
ghost use Rattle.ab_steps.specs.ab_kernel.specs.Layout.{IsProof};
ghost use Rattle.ab_steps.specs.Progress.{Follows};
ghost use Rattle.ab_norm.specs.ab_store.specs.declared.node.TermId.{TermId as AnId};
ghost use Rattle.ab_search.specs.GoalCounts.{GaveWayTo, GaveWayFor};
ghost use Rattle.ab_search.specs.declared.opened_hypotheses.Apart.TheVariants.{Terms};
ghost use Rattle.ab_search_paths.specs.Likenesses.{IsLikeness};
ghost use Rattle.ab_search_paths.specs.MoreTerms.{GotTerms};

use crate::kernel_steps::{
    conclusion_at, goal_at, hypothesis_at, label_at, last_name, last_variable, name_at, take,
    try_step,
};
use crate::own_labels::own_labels;
use ab_logic::{Form, World, shape};
use ab_norm::name::Name;
use ab_norm::store::TermId;
use ab_norm::types::Steps;
use ab_search_paths::{Likeness, cell_given, compare_unmarked, permuted_term};
use ab_steps::kernel::judgements::alternatives::instances::constants_of;
use ab_steps::kernel::judgements::{Kind, as_judgement, kind_of};
use ab_steps::kernel::{Proof, Step};
use std::alloc::{AllocError, Global};

/// How a hypothesis and the conclusion that it is to serve are taken apart.
#[derive(Clone, Copy)]
enum Apart {
    /// Both are conjunctions.
    Parts,
    /// Both begin with `nabla`.
    Names,
    /// Both begin with `exists`, of this hypothesis.
    Terms(TermId),
    /// The hypothesis is a judgement whose goal is made of others.
    Hypothesis,
    /// The conclusion is one.
    Conclusion,
    /// They aren't.
    Never,
}

/// Whether the formula is a judgement whose goal is made of others, with nothing in focus.
pub(crate) fn is_compound(world: &World, formula: TermId) -> bool
    requires { Holds world.now formula }
{
    let Some(judgement) = as_judgement(world, formula) else {
        return false;
    };
    if judgement.focus.is_some() {
        return false;
    }
    matches!(kind_of(&world.store, judgement.goal), Kind::Compound)
}

/// Which of the two is a judgement whose goal is made of others.
fn look_at_goals(world: &World, hypothesis: TermId, conclusion: TermId) -> Apart
    requires hypothesis { Holds world.now hypothesis }
    requires conclusion { Holds world.now conclusion }
    ensures { (t : AnId) → result ≢ Terms t }
{
    if is_compound(world, hypothesis) {
        Apart::Hypothesis
    } else if is_compound(world, conclusion) {
        Apart::Conclusion
    } else {
        Apart::Never
    }
}

/// How the hypothesis and the conclusion are taken apart.
fn look_apart(world: &World, hypothesis: TermId, conclusion: TermId) -> Apart
    requires hypothesis { Holds world.now hypothesis }
    requires conclusion { Holds world.now conclusion }
    ensures { (t : AnId) → result ≡ Terms t → t ≡ hypothesis }
{
    match (shape(world, hypothesis), shape(world, conclusion)) {
        (Form::And(_, _), Form::And(_, _)) => Apart::Parts,
        (Form::Nabla(_, _), Form::Nabla(_, _)) => Apart::Names,
        (Form::Exists(_, _), Form::Exists(_, _)) => Apart::Terms(hypothesis),
        _ => look_at_goals(world, hypothesis, conclusion),
    }
}

/// How the hypothesis of the name and the conclusion of the goal of this place are taken apart.
fn look_apart_at(
    world: &World,
    proof: &Proof,
    place: usize,
    name: &Name,
) -> Result<Apart, AllocError>
    requires proof { IsProof world.now proof.now }
    ensures { IfOk result (λ apart. (t : AnId) → apart ≡ Terms t → Holds world.now t) }
{
    let hypothesis = hypothesis_at(proof, place, name)?;
    let conclusion = conclusion_at(proof, place)?;
    Ok(look_apart(world, hypothesis, conclusion))
}

/// Closes the goal of this place by the hypothesis, if they are the same but for constants and marks, and the marks serve.
fn is_closed_by<L>(
    alloc: Global,
    world: &mut World,
    proof: &mut Proof,
    place: usize,
    name: &Name,
    steps: &mut Steps<L>,
) -> Result<bool, AllocError>
    requires world { IsWorld world.old }
    requires proof { IsProof world.old proof.old }
    ensures follows { Follows world.old proof.old world.new proof.new }
    ensures closed { IfOk result (λ closed. IsTrue closed → GaveWayTo world.old proof.old world.new proof.new place 0) }
    ensures kept { IfOk result (λ closed. IsFalse closed → proof.new ≡ proof.old) }
    ensures steps { steps.old ≤ steps.new }
{
    let step = Step::Initial(name.copy(alloc)?);
    let taken = try_step(world, proof, place, step, steps)?;
    match taken {
        Some(count) if count == 0 => Ok(true),
        Some(_) => Err(AllocError),
        None => Ok(false),
    }
}

/// The last variable of the goal of this place, given the constants of the formula as they are by the likeness.
pub(crate) fn last_variable_given(
    alloc: Global,
    world: &mut World,
    proof: &Proof,
    place: usize,
    formula: TermId,
    like: &Likeness,
) -> Result<TermId, AllocError>
    requires world { IsWorld world.old }
    requires proof { IsProof world.old proof.now }
    requires formula { Holds world.old formula }
    requires like { IsLikeness world.old.types like.now }
    ensures held { IfOk result (Holds world.new) }
    ensures got { GotTerms world.old world.new }
{
    let constants = constants_of(alloc, &world.types, &world.store, &[formula])?;
    let cell = last_variable(proof, place)?;
    let (types, store) = (&world.types, &mut world.store);
    let term = cell_given(alloc, types, store, cell, &constants)?;
    permuted_term(alloc, world, like, term)
}

/// Takes the conjunctions apart that the hypothesis and the conclusion are: two goals are in this place then.
fn take_parts<L>(
    alloc: Global,
    world: &mut World,
    proof: &mut Proof,
    place: usize,
    name: Name,
    steps: &mut Steps<L>,
) -> Result<(), AllocError>
    requires world { IsWorld world.old }
    requires proof { IsProof world.old proof.old }
    ensures follows { Follows world.old proof.old world.new proof.new }
    ensures gave_way { OnOk result (GaveWayTo world.old proof.old world.new proof.new place 2) }
    ensures steps { steps.old ≤ steps.new }
{
    let (left, right) = own_labels(alloc, world, goal_at(proof, place)?)?;
    let step = Step::AndLeft(name, left, right);
    take(world, proof, place, step, 1, steps)?;
    take(world, proof, place, Step::AndRight, 2, steps)
}

/// Puts a constant for the name of the `nabla` that the hypothesis begins with, and one for that of the conclusion.
fn take_names<L>(
    alloc: Global,
    world: &mut World,
    proof: &mut Proof,
    place: usize,
    name: Name,
    steps: &mut Steps<L>,
) -> Result<(), AllocError>
    requires world { IsWorld world.old }
    requires proof { IsProof world.old proof.old }
    ensures follows { Follows world.old proof.old world.new proof.new }
    ensures gave_way { OnOk result (GaveWayTo world.old proof.old world.new proof.new place 1) }
    ensures steps { steps.old ≤ steps.new }
{
    let label = label_at(alloc, world, proof, place)?;
    take(world, proof, place, Step::NablaLeft(name, label), 1, steps)?;
    take(world, proof, place, Step::NablaRight, 1, steps)
}

/// Opens the `exists` of the hypothesis, which is the formula, and puts the new variable into that of the conclusion, with the constants
/// that those of the hypothesis are there.
fn take_terms<L>(
    alloc: Global,
    world: &mut World,
    proof: &mut Proof,
    place: usize,
    name: Name,
    hypothesis: TermId,
    steps: &mut Steps<L>,
) -> Result<(), AllocError>
    requires world { IsWorld world.old }
    requires proof { IsProof world.old proof.old }
    requires hypothesis { Holds world.old hypothesis }
    ensures follows { Follows world.old proof.old world.new proof.new }
    ensures gave_way { OnOk result (GaveWayTo world.old proof.old world.new proof.new place 1) }
    ensures steps { steps.old ≤ steps.new }
{
    let label = label_at(alloc, world, proof, place)?;
    let conclusion = conclusion_at(proof, place)?;
    let like = compare_unmarked(alloc, world, hypothesis, conclusion)?;
    take(world, proof, place, Step::ExistsLeft(name, label), 1, steps)?;
    let term = last_variable_given(alloc, world, proof, place, hypothesis, &like)?;
    take(world, proof, place, Step::ExistsRight(term), 1, steps)
}

/// So many of the last hypotheses of the goal of this place wait, the first of them on top.
fn wait_for(
    alloc: Global,
    proof: &Proof,
    place: usize,
    count: usize,
    waiting: &mut Vec<Name>,
) -> Result<(), AllocError>
    ensures { OnOk result (length waiting.new.items ≡ length waiting.old.items + count) }
{
    for behind in 0..count {
        waiting.push(last_name(alloc, proof, place, behind)?)?;
    }
    Ok(())
}

/// Takes the hypothesis and the conclusion of the goal of this place apart. The hypotheses that are to close the goals in its place wait
/// then, the first one on top.
fn take_apart<L>(
    alloc: Global,
    world: &mut World,
    proof: &mut Proof,
    place: usize,
    name: Name,
    apart: Apart,
    waiting: &mut Vec<Name>,
    steps: &mut Steps<L>,
) -> Result<(), AllocError>
    requires world { IsWorld world.old }
    requires proof { IsProof world.old proof.old }
    requires apart { (t : AnId) → apart ≡ Terms t → Holds world.old t }
    ensures follows { Follows world.old proof.old world.new proof.new }
    ensures gave_way { OnOk result (GaveWayFor world.old proof.old world.new proof.new place waiting.old.items waiting.new.items) }
    ensures steps { steps.old ≤ steps.new }
{
    match apart {
        Apart::Parts => {
            take_parts(alloc, world, proof, place, name, steps)?;
            wait_for(alloc, proof, place, 2, waiting)
        }
        Apart::Names => {
            take_names(alloc, world, proof, place, name, steps)?;
            wait_for(alloc, proof, place, 1, waiting)
        }
        Apart::Terms(hypothesis) => {
            take_terms(alloc, world, proof, place, name, hypothesis, steps)?;
            wait_for(alloc, proof, place, 1, waiting)
        }
        Apart::Hypothesis => {
            let label = label_at(alloc, world, proof, place)?;
            take(world, proof, place, Step::DefLeft(name, label), 1, steps)?;
            wait_for(alloc, proof, place, 1, waiting)
        }
        Apart::Conclusion => {
            take(world, proof, place, Step::DefRight(0), 1, steps)?;
            waiting.push(name)?;
            Ok(())
        }
        Apart::Never => Err(AllocError),
    }
}

/// Closes the goal of this place by the hypothesis, if they are the same; else takes both apart.
fn close_or_take_apart<L>(
    alloc: Global,
    world: &mut World,
    proof: &mut Proof,
    place: usize,
    name: Name,
    waiting: &mut Vec<Name>,
    steps: &mut Steps<L>,
) -> Result<(), AllocError>
    requires world { IsWorld world.old }
    requires proof { IsProof world.old proof.old }
    ensures follows { Follows world.old proof.old world.new proof.new }
    ensures gave_way { OnOk result (GaveWayFor world.old proof.old world.new proof.new place waiting.old.items waiting.new.items) }
    ensures steps { steps.old ≤ steps.new }
{
    if is_closed_by(alloc, world, proof, place, &name, steps)? {
        return Ok(());
    }
    let apart = look_apart_at(world, proof, place, &name)?;
    take_apart(alloc, world, proof, place, name, apart, waiting, steps)
}

/// Closes the goal of this place by the hypothesis: where they aren't the same yet, both are taken apart, and the goals that come of it
/// wait for their hypotheses. More turns than there are numbers of 64 bits are answered by want of memory.
pub(crate) fn close_apart<L>(
    alloc: Global,
    world: &mut World,
    proof: &mut Proof,
    place: usize,
    name: Name,
    steps: &mut Steps<L>,
) -> Result<(), AllocError>
    requires world { IsWorld world.old }
    requires proof { IsProof world.old proof.old }
    ensures follows { Follows world.old proof.old world.new proof.new }
    ensures gave_way { OnOk result (GaveWayTo world.old proof.old world.new proof.new place 0) }
    ensures steps { steps.old ≤ steps.new }
{
    let mut waiting = Vec::new(alloc);
    waiting.push(name)?;
    for _ in 0..usize::MAX {
        let Some(first) = waiting.pop() else {
            return Ok(());
        };
        close_or_take_apart(alloc, world, proof, place, first, &mut waiting, steps)?;
    }
    Err(AllocError)
}

/// Closes the goal of this place by the hypothesis of this number, which serves it but for judgements that are opened.
pub(crate) fn close_by<L>(
    alloc: Global,
    world: &mut World,
    proof: &mut Proof,
    place: usize,
    number: usize,
    steps: &mut Steps<L>,
) -> Result<(), AllocError>
    requires world { IsWorld world.old }
    requires proof { IsProof world.old proof.old }
    ensures follows { Follows world.old proof.old world.new proof.new }
    ensures gave_way { OnOk result (GaveWayTo world.old proof.old world.new proof.new place 0) }
    ensures steps { steps.old ≤ steps.new }
{
    let name = name_at(alloc, proof, place, number)?;
    close_apart(alloc, world, proof, place, name, steps)
}
