//! The rules that take a connective of the conclusion apart.
ghost use Rattle.std.specs.Prelude.{◌≡◌};
ghost use Rattle.ab_logic.specs.SequentReadings.{HoldsSequent};
ghost use Rattle.ab_theory.specs.Steps as plain;
ghost use Rattle.ab_rules.specs.RuleAnswers.{Answers, row_at};

use crate::premise_lists::{one, two};
use crate::step::KernelFault;
use ab_logic::{Sequent, World, as_and, as_or};
use std::alloc::Global;

/// Both parts of a conjunction.
pub fn and_right(
    alloc: Global,
    world: &World,
    sequent: &Sequent,
) -> Result<Vec<Sequent>, KernelFault>
    requires held { HoldsSequent world.now sequent.now }
    ensures { Answers world.now (row_at world.now plain.and_right sequent.now) result }
{
    let Some((left, right)) = as_and(world, sequent.conclusion) else {
        return Err(KernelFault::RuleFails(1));
    };
    let first = sequent.copy(alloc)?.with_conclusion(left);
    let second = sequent.copy(alloc)?.with_conclusion(right);
    Ok(two(alloc, first, second)?)
}

/// One part of a disjunction.
pub fn or_right(
    alloc: Global,
    world: &World,
    left: bool,
    sequent: &Sequent,
) -> Result<Vec<Sequent>, KernelFault>
    requires held { HoldsSequent world.now sequent.now }
    ensures { Answers world.now (row_at world.now (plain.or_right left) sequent.now) result }
{
    let Some((first, second)) = as_or(world, sequent.conclusion) else {
        return Err(KernelFault::RuleFails(1));
    };
    let part = if left { first } else { second };
    let premise = sequent.copy(alloc)?.with_conclusion(part);
    Ok(one(alloc, premise)?)
}
