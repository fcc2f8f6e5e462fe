//! The rule that solves an equation.
ghost use Rattle.std.specs.Prelude.{◌≡◌, ◌≤◌};
ghost use Rattle.ab_logic.specs.WorldGrowth.{Grows};
ghost use Rattle.ab_logic.specs.SequentReadings.{sequent_of, HoldsSequent};
ghost use Rattle.ab_formulas.specs.Sequents.{IsSequent};
ghost use Rattle.ab_logic.specs.Worlds.{IsWorld, declarations_of};
ghost use Rattle.ab_theory.specs.Steps as plain;
ghost use Rattle.ab_rules.specs.RuleAnswers.{Answers, row_at};

use ab_judgements::alternatives::equations::{Solution, solve_in};
use ab_logic::{Sequent, World, as_equal};
use ab_norm::name::Name;
use ab_norm::types::Steps;
use ab_rules::{KernelFault, one};
use std::alloc::Global;

/// The sides of an equation are made equal throughout the goal, or nothing makes them equal.
pub(crate) fn equal_left<L>(
    alloc: Global,
    world: &mut World,
    name: &Name,
    sequent: &Sequent,
    steps: &mut Steps<L>,
) -> Result<Vec<Sequent>, KernelFault>
    requires world { IsWorld world.old }
    requires held { HoldsSequent world.old sequent.now }
    requires sequent { IsSequent (declarations_of world.old) (sequent_of world.old sequent.now) }
    ensures answers { Answers world.new (row_at world.old (plain.equal_left name.now) sequent.now) result }
    ensures grows { Grows world.old world.new }
    ensures declared { declarations_of world.new ≡ declarations_of world.old }
    ensures steps { steps.old ≤ steps.new }
{
    let Some(formula) = sequent.look(name) else {
        return Err(KernelFault::RuleFails(1));
    };
    let Some((left, right)) = as_equal(world, formula) else {
        return Err(KernelFault::RuleFails(2));
    };
    let goal = sequent.copy_without(alloc, name)?;
    match solve_in(alloc, world, left, right, goal, steps)? {
        Solution::Unified(premise) => Ok(one(alloc, premise)?),
        Solution::Apart => Ok(Vec::new(alloc)),
        Solution::Stuck => Err(KernelFault::NotPattern(0)),
    }
}
