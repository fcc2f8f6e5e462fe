//! A formula is derived from a hypothesis or a theorem, stage by stage.
ghost use Rattle.std.specs.Prelude.{◌≤◌, [], ◌∷◌, OnOk, All};
ghost use Rattle.ab_logic.specs.Worlds.{IsWorld, Holds};
ghost use Rattle.ab_hypothesis.specs.ab_steps.specs.ab_kernel.specs.Layout.{IsProof};
ghost use Rattle.ab_uses.specs.UseReadings.{HoldsStage};
ghost use Rattle.ab_theory.specs.Derivations.{theorem_taken};
ghost use Rattle.ab_effects.specs.Debts.{taken_unless};
ghost use Rattle.ab_hypothesis.specs.ab_steps.specs.Progress.{Advances, Follows, Owes};
ghost use Rattle.ab_proofcmd.specs.GoalCounts.{Gives};

use crate::many_goals::step_into;
use ab_equations::Label;
use ab_hypothesis::own_name;
use ab_hypothesis::steps::kernel::{Proof, Step};
use ab_logic::World;
use ab_norm::name::Name;
use ab_norm::store::TermId;
use ab_norm::types::Steps;
use ab_uses::Stage;
use std::alloc::{AllocError, Global};

/// A name of the command's own that no hypothesis of the goal of this place has.
pub(crate) fn own_at(
    alloc: Global,
    world: &World,
    proof: &Proof,
    place: usize,
) -> Result<Name, AllocError> {
    match proof.goal(place) {
        Some(goal) => own_name(alloc, world, goal, &Label::Auto),
        None => Err(AllocError),
    }
}

/// The formula of a hypothesis becomes one of the command's own, whose name is the answer.
fn take_hypothesis<L>(
    alloc: Global,
    world: &mut World,
    proof: &mut Proof,
    place: usize,
    source: &Name,
    formula: TermId,
    steps: &mut Steps<L>,
) -> Result<Name, AllocError>
    requires world { IsWorld world.old }
    requires proof { IsProof world.old proof.old }
    requires formula { Holds world.old formula }
    ensures follows { Follows world.old proof.old world.new proof.new }
    ensures gives { OnOk result (Gives world.old proof.old world.new proof.new place 1) }
    ensures steps { steps.old ≤ steps.new }
{
    let own = own_at(alloc, world, proof, place)?;
    let name = own.copy(alloc)?;
    let used = source.copy(alloc)?;
    step_into(
        world,
        proof,
        place,
        Step::CutFormula(formula, Label::Given(name)),
        2,
        steps,
    )?;
    step_into(world, proof, place, Step::Initial(used), 0, steps)?;
    Ok(own)
}

/// A theorem becomes a hypothesis of the command's own, whose name is the answer.
fn take_theorem<L>(
    alloc: Global,
    world: &mut World,
    proof: &mut Proof,
    place: usize,
    source: &Name,
    steps: &mut Steps<L>,
) -> Result<Name, AllocError>
    requires world { IsWorld world.old }
    requires proof { IsProof world.old proof.old }
    ensures follows { Advances world.old proof.old world.new proof.new }
    ensures owes { OnOk result (Owes (theorem_taken source.now ∷ []) world.old proof.old world.new proof.new) }
    ensures gives { OnOk result (Gives world.old proof.old world.new proof.new place 1) }
    ensures steps { steps.old ≤ steps.new }
{
    let own = own_at(alloc, world, proof, place)?;
    let name = own.copy(alloc)?;
    let used = source.copy(alloc)?;
    step_into(
        world,
        proof,
        place,
        Step::UseTheorem(used, Label::Given(name)),
        1,
        steps,
    )?;
    Ok(own)
}

/// The formula that is used, that of a hypothesis or a theorem, becomes a hypothesis of the command's own, whose name is the
/// answer.
pub(crate) fn take_up<L>(
    alloc: Global,
    world: &mut World,
    proof: &mut Proof,
    place: usize,
    source: &Name,
    formula: TermId,
    is_hypothesis: bool,
    steps: &mut Steps<L>,
) -> Result<Name, AllocError>
    requires world { IsWorld world.old }
    requires proof { IsProof world.old proof.old }
    requires formula { Holds world.old formula }
    ensures follows { Advances world.old proof.old world.new proof.new }
    ensures owes { OnOk result (Owes (taken_unless is_hypothesis source.now) world.old proof.old world.new proof.new) }
    ensures gives { OnOk result (Gives world.old proof.old world.new proof.new place 1) }
    ensures steps { steps.old ≤ steps.new }
{
    if is_hypothesis {
        take_hypothesis(alloc, world, proof, place, source, formula, steps)
    } else {
        take_theorem(alloc, world, proof, place, source, steps)
    }
}

/// A term is put for the name of a `forall`. The answer is the name of the instance.
fn put_term<L>(
    alloc: Global,
    world: &mut World,
    proof: &mut Proof,
    place: usize,
    current: Name,
    term: TermId,
    steps: &mut Steps<L>,
) -> Result<Name, AllocError>
    requires world { IsWorld world.old }
    requires proof { IsProof world.old proof.old }
    requires term { Holds world.old term }
    ensures follows { Follows world.old proof.old world.new proof.new }
    ensures gives { OnOk result (Gives world.old proof.old world.new proof.new place 1) }
    ensures steps { steps.old ≤ steps.new }
{
    let own = own_at(alloc, world, proof, place)?;
    let name = own.copy(alloc)?;
    let former = current.copy(alloc)?;
    step_into(
        world,
        proof,
        place,
        Step::ForallLeft(current, term, Label::Given(name)),
        1,
        steps,
    )?;
    step_into(world, proof, place, Step::Weaken(former), 1, steps)?;
    Ok(own)
}

/// A constant is put for the name of a `nabla`, by which the rest is this formula. The answer is its name.
fn put_constant<L>(
    alloc: Global,
    world: &mut World,
    proof: &mut Proof,
    place: usize,
    current: Name,
    formula: TermId,
    steps: &mut Steps<L>,
) -> Result<Name, AllocError>
    requires world { IsWorld world.old }
    requires proof { IsProof world.old proof.old }
    requires formula { Holds world.old formula }
    ensures follows { Follows world.old proof.old world.new proof.new }
    ensures gives { OnOk result (Gives world.old proof.old world.new proof.new place 1) }
    ensures steps { steps.old ≤ steps.new }
{
    let own = own_at(alloc, world, proof, place)?;
    let name = own.copy(alloc)?;
    let opened = current.copy(alloc)?;
    let body = current.copy(alloc)?;
    let closing = current.copy(alloc)?;
    step_into(
        world,
        proof,
        place,
        Step::CutFormula(formula, Label::Given(name)),
        2,
        steps,
    )?;
    step_into(
        world,
        proof,
        place,
        Step::NablaLeft(opened, Label::Given(body)),
        1,
        steps,
    )?;
    step_into(world, proof, place, Step::Initial(closing), 0, steps)?;
    step_into(world, proof, place, Step::Weaken(current), 1, steps)?;
    Ok(own)
}

/// The antecedent of the hypothesis of this name is asked for, before what stands behind it, whose name is the answer.
fn ask_antecedent<L>(
    alloc: Global,
    world: &mut World,
    proof: &mut Proof,
    place: usize,
    current: Name,
    steps: &mut Steps<L>,
) -> Result<Name, AllocError>
    requires world { IsWorld world.old }
    requires proof { IsProof world.old proof.old }
    ensures follows { Follows world.old proof.old world.new proof.new }
    ensures gives { OnOk result (Gives world.old proof.old world.new proof.new place 2) }
    ensures steps { steps.old ≤ steps.new }
{
    let own = own_at(alloc, world, proof, place)?;
    let name = own.copy(alloc)?;
    step_into(
        world,
        proof,
        place,
        Step::ArrowLeft(current, Label::Given(name)),
        2,
        steps,
    )?;
    Ok(own)
}

/// An antecedent is met by the hypothesis of this name. The answer is the name of what stands behind it.
fn meet_by<L>(
    alloc: Global,
    world: &mut World,
    proof: &mut Proof,
    place: usize,
    current: Name,
    by: &Name,
    steps: &mut Steps<L>,
) -> Result<Name, AllocError>
    requires world { IsWorld world.old }
    requires proof { IsProof world.old proof.old }
    ensures follows { Follows world.old proof.old world.new proof.new }
    ensures gives { OnOk result (Gives world.old proof.old world.new proof.new place 1) }
    ensures steps { steps.old ≤ steps.new }
{
    let closing = by.copy(alloc)?;
    let former = current.copy(alloc)?;
    let own = ask_antecedent(alloc, world, proof, place, current, steps)?;
    step_into(world, proof, place, Step::Initial(closing), 0, steps)?;
    step_into(world, proof, place, Step::Weaken(former), 1, steps)?;
    Ok(own)
}

/// An antecedent that equates a term with itself is met. The answer is the name of what stands behind it.
pub(crate) fn meet_equation<L>(
    alloc: Global,
    world: &mut World,
    proof: &mut Proof,
    place: usize,
    current: Name,
    steps: &mut Steps<L>,
) -> Result<Name, AllocError>
    requires world { IsWorld world.old }
    requires proof { IsProof world.old proof.old }
    ensures follows { Follows world.old proof.old world.new proof.new }
    ensures gives { OnOk result (Gives world.old proof.old world.new proof.new place 1) }
    ensures steps { steps.old ≤ steps.new }
{
    let former = current.copy(alloc)?;
    let own = ask_antecedent(alloc, world, proof, place, current, steps)?;
    step_into(world, proof, place, Step::EqualRight, 0, steps)?;
    step_into(world, proof, place, Step::Weaken(former), 1, steps)?;
    Ok(own)
}

/// A stage is taken from the hypothesis of this name. The answer is the name of what stands behind it. The names are those of
/// the hypotheses that meet the antecedents from here on.
fn take_stage<L>(
    alloc: Global,
    world: &mut World,
    proof: &mut Proof,
    place: usize,
    current: Name,
    stage: &Stage,
    names: &[Name],
    steps: &mut Steps<L>,
) -> Result<Name, AllocError>
    requires world { IsWorld world.old }
    requires proof { IsProof world.old proof.old }
    requires stage { HoldsStage world.old stage.now }
    ensures follows { Follows world.old proof.old world.new proof.new }
    ensures gives { OnOk result (Gives world.old proof.old world.new proof.new place 1) }
    ensures steps { steps.old ≤ steps.new }
{
    match stage {
        Stage::Instance(term) => put_term(alloc, world, proof, place, current, *term, steps),
        Stage::Chosen(_, formula) => put_constant(
            alloc, world, proof, place, current, *formula, steps,
        ),
        Stage::Antecedent => match names.first() {
            Some(by) => meet_by(alloc, world, proof, place, current, by, steps),
            None => Err(AllocError),
        },
    }
}

/// The names that are left behind the stage.
fn behind<'a>(stage: &Stage, names: &'a [Name]) -> &'a [Name] {
    match (stage, names) {
        (Stage::Antecedent, [_, others @ ..]) => others,
        _ => names,
    }
}

/// The stages are taken one after another from the hypothesis of the command's own, which closes the goal then. The names
/// are those of the hypotheses that meet the antecedents.
pub(crate) fn take_stages<L>(
    alloc: Global,
    world: &mut World,
    proof: &mut Proof,
    place: usize,
    current: Name,
    stages: &[Stage],
    names: &[Name],
    steps: &mut Steps<L>,
) -> Result<(), AllocError>
    requires world { IsWorld world.old }
    requires proof { IsProof world.old proof.old }
    requires stages { All (HoldsStage world.old) stages.now }
    ensures follows { Follows world.old proof.old world.new proof.new }
    ensures gives { OnOk result (Gives world.old proof.old world.new proof.new place 0) }
    ensures steps { steps.old ≤ steps.new }
{
    match stages {
        [] => step_into(world, proof, place, Step::Initial(current), 0, steps),
        [stage, others @ ..] => {
            let next = take_stage(alloc, world, proof, place, current, stage, names, steps)?;
            take_stages(
                alloc,
                world,
                proof,
                place,
                next,
                others,
                behind(stage, names),
                steps,
            )
        }
    }
}
