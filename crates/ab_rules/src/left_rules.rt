//! The rules that take a connective of a hypothesis apart, and those that make a hypothesis or drop one.
ghost use Rattle.std.specs.Prelude.{◌≡◌};
ghost use Rattle.ab_logic.specs.SequentReadings.{HoldsSequent};
ghost use Rattle.ab_logic.specs.Worlds.{IsWorld};
ghost use Rattle.ab_theory.specs.Steps as plain;
ghost use Rattle.ab_rules.specs.RuleAnswers.{Answers, label_of, row_at};

use crate::premise_lists::{one, two};
use crate::step::KernelFault;
use ab_equations::{Label, name_by};
use ab_logic::{Sequent, World, as_and, as_arrow, as_or};
use ab_norm::name::Name;
use std::alloc::Global;

/// The left part of an implication becomes a hypothesis.
pub fn arrow_right(
    alloc: Global,
    world: &World,
    given: &Label,
    sequent: &Sequent,
) -> Result<Vec<Sequent>, KernelFault>
    requires held { HoldsSequent world.now sequent.now }
    ensures { Answers world.now (row_at world.now (plain.arrow_right (label_of given.now)) sequent.now) result }
{
    let Some((left, right)) = as_arrow(world, sequent.conclusion) else {
        return Err(KernelFault::RuleFails(1));
    };
    let Some(named) = name_by(alloc, given, sequent.copy(alloc)?)? else {
        return Err(KernelFault::RuleFails(2));
    };
    let premise = named
        .sequent
        .with_hypothesis(named.name, left)?
        .with_conclusion(right);
    Ok(one(alloc, premise)?)
}

/// Both parts of a conjunction become hypotheses in its place.
pub fn and_left(
    alloc: Global,
    world: &World,
    name: &Name,
    first: &Label,
    second: &Label,
    sequent: &Sequent,
) -> Result<Vec<Sequent>, KernelFault>
    requires held { HoldsSequent world.now sequent.now }
    ensures { Answers world.now (row_at world.now (plain.and_left name.now (label_of first.now) (label_of second.now)) sequent.now) result }
{
    let Some(formula) = sequent.look(name) else {
        return Err(KernelFault::RuleFails(1));
    };
    let Some((left, right)) = as_and(world, formula) else {
        return Err(KernelFault::RuleFails(2));
    };
    let Some(named) = name_by(alloc, first, sequent.copy_without(alloc, name)?)? else {
        return Err(KernelFault::RuleFails(3));
    };
    let with_left = named.sequent.with_hypothesis(named.name, left)?;
    let Some(named) = name_by(alloc, second, with_left)? else {
        return Err(KernelFault::RuleFails(3));
    };
    let premise = named.sequent.with_hypothesis(named.name, right)?;
    Ok(one(alloc, premise)?)
}

/// A goal for each part of a disjunction.
pub fn or_left(
    alloc: Global,
    world: &World,
    name: &Name,
    given: &Label,
    sequent: &Sequent,
) -> Result<Vec<Sequent>, KernelFault>
    requires held { HoldsSequent world.now sequent.now }
    ensures { Answers world.now (row_at world.now (plain.or_left name.now (label_of given.now)) sequent.now) result }
{
    let Some(formula) = sequent.look(name) else {
        return Err(KernelFault::RuleFails(1));
    };
    let Some((left, right)) = as_or(world, formula) else {
        return Err(KernelFault::RuleFails(2));
    };
    let Some(named) = name_by(alloc, given, sequent.copy_without(alloc, name)?)? else {
        return Err(KernelFault::RuleFails(3));
    };
    let other = named.sequent.copy(alloc)?;
    let other_name = named.name.copy(alloc)?;
    let first = named.sequent.with_hypothesis(named.name, left)?;
    let second = other.with_hypothesis(other_name, right)?;
    Ok(two(alloc, first, second)?)
}

/// A goal for the left part of an implication, and one that assumes its right part.
pub fn arrow_left(
    alloc: Global,
    world: &World,
    name: &Name,
    given: &Label,
    sequent: &Sequent,
) -> Result<Vec<Sequent>, KernelFault>
    requires held { HoldsSequent world.now sequent.now }
    ensures { Answers world.now (row_at world.now (plain.arrow_left name.now (label_of given.now)) sequent.now) result }
{
    let Some(formula) = sequent.look(name) else {
        return Err(KernelFault::RuleFails(1));
    };
    let Some((left, right)) = as_arrow(world, formula) else {
        return Err(KernelFault::RuleFails(2));
    };
    let Some(named) = name_by(alloc, given, sequent.copy(alloc)?)? else {
        return Err(KernelFault::RuleFails(3));
    };
    let first = sequent.copy(alloc)?.with_conclusion(left);
    let second = named.sequent.with_hypothesis(named.name, right)?;
    Ok(two(alloc, first, second)?)
}

/// A hypothesis is dropped.
pub fn weaken(
    alloc: Global,
    world: &World,
    name: &Name,
    sequent: &Sequent,
) -> Result<Vec<Sequent>, KernelFault>
    requires held { HoldsSequent world.now sequent.now }
    ensures { Answers world.now (row_at world.now (plain.weaken name.now) sequent.now) result }
{
    let _ = world;
    let Some(_) = sequent.look(name) else {
        return Err(KernelFault::RuleFails(1));
    };
    let premise = sequent.copy_without(alloc, name)?;
    Ok(one(alloc, premise)?)
}

/// A theorem becomes a hypothesis.
pub fn use_theorem(
    alloc: Global,
    world: &World,
    name: &Name,
    given: &Label,
    sequent: &Sequent,
) -> Result<Vec<Sequent>, KernelFault>
    requires world { IsWorld world.now }
    requires held { HoldsSequent world.now sequent.now }
    ensures { Answers world.now (row_at world.now (plain.use_theorem name.now (label_of given.now)) sequent.now) result }
{
    let Some(formula) = world.theorem(name) else {
        return Err(KernelFault::RuleFails(1));
    };
    let Some(named) = name_by(alloc, given, sequent.copy(alloc)?)? else {
        return Err(KernelFault::RuleFails(2));
    };
    let premise = named.sequent.with_hypothesis(named.name, formula)?;
    Ok(one(alloc, premise)?)
}
