//! The conclusion of a goal is changed to one that says the same, and holds the constants of terms that are given.
ghost use Rattle.std.specs.Prelude.{◌≤◌, ◌≡◌, map, OnOk, IfOk, All};
ghost use Rattle.ab_norm.specs.ab_types.specs.Ids.{HoldsType};
ghost use Rattle.ab_logic.specs.WorldGrowth.{Grows};
ghost use Rattle.ab_logic.specs.Worlds.{IsWorld, Holds, read, declarations_of};
ghost use Rattle.ab_hypothesis.specs.ab_steps.specs.ab_kernel.specs.Layout.{IsProof};
ghost use Rattle.ab_uses.specs.GivenReadings.{given_of};
ghost use Rattle.ab_theory.specs.Uses as uses;
ghost use Rattle.ab_effects.specs.FormulaUses as spec;
ghost use Rattle.ab_hypothesis.specs.ab_steps.specs.Progress.{Follows};
ghost use Rattle.ab_proofcmd.specs.GoalCounts.{Gives, Turns};

use crate::many_goals::step_into;
use crate::stages::{meet_equation, own_at};
use ab_equations::Label;
use ab_hypothesis::steps::kernel::{Proof, Step};
use ab_logic::World;
use ab_norm::name::Name;
use ab_norm::store::{Head, Logical, TermId};
use ab_norm::types::Steps;
use ab_uses::GivenTerm;
use std::alloc::{AllocError, Global};

/// The implication between the formulas.
fn implication(
    alloc: Global,
    world: &mut World,
    left: TermId,
    right: TermId,
) -> Result<TermId, AllocError>
    requires world { IsWorld world.old }
    requires left { Holds world.old left }
    requires right { Holds world.old right }
    ensures held { IfOk result (Holds world.new) }
    ensures reads { IfOk result (λ t. read world.new t ≡ uses.implied (read world.old left) (read world.old right)) }
    ensures grows { Grows world.old world.new }
    ensures types { world.new.types ≡ world.old.types }
    ensures additions { world.new.additions ≡ world.old.additions }
{
    let sides = Vec::from_array(alloc, [left, right])?;
    world.store.spine(Head::Logic(Logical::Arrow), sides)
}

/// The equation of the term with itself.
fn itself(alloc: Global, world: &mut World, given: &GivenTerm) -> Result<TermId, AllocError>
    requires world { IsWorld world.old }
    requires value { Holds world.old given.now.value }
    requires ty { HoldsType world.old.types given.now.ty }
    ensures held { IfOk result (Holds world.new) }
    ensures reads { IfOk result (λ t. read world.new t ≡ spec.itself (given_of world.old given.now)) }
    ensures grows { Grows world.old world.new }
    ensures types { world.new.types ≡ world.old.types }
    ensures additions { world.new.additions ≡ world.old.additions }
{
    let sides = Vec::from_array(alloc, [given.value, given.value])?;
    world
        .store
        .spine(Head::Logic(Logical::Equal(given.ty)), sides)
}

/// The formula, where each term that is given equals itself.
pub(crate) fn given_that(
    alloc: Global,
    world: &mut World,
    given: &[GivenTerm],
    formula: TermId,
) -> Result<TermId, AllocError>
    requires world { IsWorld world.old }
    requires given { All (λ g. Holds world.old g.value × HoldsType world.old.types g.ty) given.now }
    requires formula { Holds world.old formula }
    ensures held { IfOk result (Holds world.new) }
    ensures reads { IfOk result (λ t. read world.new t ≡ spec.given_that (map (given_of world.old) given.now) (read world.old formula)) }
    ensures grows { Grows world.old world.new }
    ensures declared { declarations_of world.new ≡ declarations_of world.old }
{
    match given {
        [] => Ok(formula),
        [first, others @ ..] => {
            let rest = given_that(alloc, world, others, formula)?;
            let equation = itself(alloc, world, first)?;
            implication(alloc, world, equation, rest)
        }
    }
}

/// Closes the goal of this place by the hypothesis of the command's own of that name, once so many equations of terms with
/// themselves are taken off it.
fn leave_off<L>(
    alloc: Global,
    world: &mut World,
    proof: &mut Proof,
    place: usize,
    current: Name,
    given: &[GivenTerm],
    steps: &mut Steps<L>,
) -> Result<(), AllocError>
    requires world { IsWorld world.old }
    requires proof { IsProof world.old proof.old }
    ensures follows { Follows world.old proof.old world.new proof.new }
    ensures gives { OnOk result (Gives world.old proof.old world.new proof.new place 0) }
    ensures steps { steps.old ≤ steps.new }
{
    match given {
        [] => step_into(world, proof, place, Step::Initial(current), 0, steps),
        [_, others @ ..] => {
            let next = meet_equation(alloc, world, proof, place, current, steps)?;
            leave_off(alloc, world, proof, place, next, others, steps)
        }
    }
}

/// Closes the goal of this place by the hypothesis of that name, once so many antecedents of the conclusion are assumed.
fn take_on<L>(
    alloc: Global,
    world: &mut World,
    proof: &mut Proof,
    place: usize,
    current: Name,
    given: &[GivenTerm],
    steps: &mut Steps<L>,
) -> Result<(), AllocError>
    requires world { IsWorld world.old }
    requires proof { IsProof world.old proof.old }
    ensures follows { Follows world.old proof.old world.new proof.new }
    ensures gives { OnOk result (Gives world.old proof.old world.new proof.new place 0) }
    ensures steps { steps.old ≤ steps.new }
{
    match given {
        [] => step_into(world, proof, place, Step::Initial(current), 0, steps),
        [_, others @ ..] => {
            let own = own_at(alloc, world, proof, place)?;
            step_into(
                world,
                proof,
                place,
                Step::ArrowRight(Label::Given(own)),
                1,
                steps,
            )?;
            take_on(alloc, world, proof, place, current, others, steps)
        }
    }
}

/// Closes the goal of this place, in which one of the two formulas is assumed.
fn close_turned<L>(
    alloc: Global,
    world: &mut World,
    proof: &mut Proof,
    place: usize,
    current: Name,
    given: &[GivenTerm],
    on: bool,
    steps: &mut Steps<L>,
) -> Result<(), AllocError>
    requires world { IsWorld world.old }
    requires proof { IsProof world.old proof.old }
    ensures follows { Follows world.old proof.old world.new proof.new }
    ensures gives { OnOk result (Gives world.old proof.old world.new proof.new place 0) }
    ensures steps { steps.old ≤ steps.new }
{
    if on {
        leave_off(alloc, world, proof, place, current, given, steps)
    } else {
        take_on(alloc, world, proof, place, current, given, steps)
    }
}

/// The goal of this place has the formula for its conclusion then: the one that says that each term that is given equals
/// itself, or that without it.
pub(crate) fn turn<L>(
    alloc: Global,
    world: &mut World,
    proof: &mut Proof,
    place: usize,
    formula: TermId,
    given: &[GivenTerm],
    on: bool,
    steps: &mut Steps<L>,
) -> Result<(), AllocError>
    requires world { IsWorld world.old }
    requires proof { IsProof world.old proof.old }
    requires formula { Holds world.old formula }
    ensures follows { Follows world.old proof.old world.new proof.new }
    ensures turns { OnOk result (Turns world.old proof.old world.new proof.new place (read world.old formula)) }
    ensures steps { steps.old ≤ steps.new }
{
    let own = own_at(alloc, world, proof, place)?;
    let name = own.copy(alloc)?;
    step_into(
        world,
        proof,
        place,
        Step::CutFormula(formula, Label::Given(name)),
        2,
        steps,
    )?;
    match place.checked_add(1) {
        Some(next) => close_turned(alloc, world, proof, next, own, given, on, steps),
        None => Err(AllocError),
    }
}
