//! The rules that put a new variable for the name of a quantifier, or a nominal constant for that of a `nabla`.
ghost use Rattle.std.specs.Prelude.{◌≡◌, ◌≤◌};
ghost use Rattle.ab_logic.specs.SequentReadings.{HoldsSequent};
ghost use Rattle.ab_logic.specs.Worlds.{IsWorld, declarations_of};
ghost use Rattle.ab_logic.specs.WorldGrowth.{Grows};
ghost use Rattle.ab_theory.specs.Steps as plain;
ghost use Rattle.ab_rules.specs.RuleAnswers.{Answers, label_of, row_at};

use crate::nabla_constants::{least_name, with_name};
use crate::premise_lists::one;
use crate::questions::support_in;
use crate::rule_terms::{hint, raise};
use crate::step::KernelFault;
use ab_equations::{Label, name_by, variable_name};
use ab_logic::{Sequent, World, as_exists, as_forall, as_nabla};
use ab_norm::Nominal;
use ab_norm::name::Name;
use ab_norm::types::Steps;
use std::alloc::Global;

/// A new variable for the name of a `forall`, that may depend on the conclusion's nominal constants.
pub fn for_all_right<L>(
    alloc: Global,
    world: &mut World,
    sequent: &Sequent,
    steps: &mut Steps<L>,
) -> Result<Vec<Sequent>, KernelFault>
    requires world { IsWorld world.old }
    requires held { HoldsSequent world.old sequent.now }
    ensures answers { Answers world.new (row_at world.old plain.for_all_right sequent.now) result }
    ensures grows { Grows world.old world.new }
    ensures declared { declarations_of world.new ≡ declarations_of world.old }
    ensures steps { steps.old ≤ steps.new }
{
    let Some((ty, body)) = as_forall(world, sequent.conclusion) else {
        return Err(KernelFault::RuleFails(1));
    };
    let premise = sequent.copy(alloc)?;
    let asked = hint(alloc, world, body)?;
    let name = variable_name(alloc, world, sequent, &asked)?;
    let names = support_in(alloc, world, sequent.conclusion)?;
    let made = raise(alloc, world, name, body, ty, &names, steps)?;
    let premise = premise.over(made.cell)?.with_conclusion(made.formula);
    Ok(one(alloc, premise)?)
}

/// A new variable for the name of an `exists`, that may depend on the hypothesis's nominal constants.
pub fn exists_left<L>(
    alloc: Global,
    world: &mut World,
    hypothesis: &Name,
    given: &Label,
    sequent: &Sequent,
    steps: &mut Steps<L>,
) -> Result<Vec<Sequent>, KernelFault>
    requires world { IsWorld world.old }
    requires held { HoldsSequent world.old sequent.now }
    ensures answers { Answers world.new (row_at world.old (plain.exists_left hypothesis.now (label_of given.now)) sequent.now) result }
    ensures grows { Grows world.old world.new }
    ensures declared { declarations_of world.new ≡ declarations_of world.old }
    ensures steps { steps.old ≤ steps.new }
{
    let Some(formula) = sequent.look(hypothesis) else {
        return Err(KernelFault::RuleFails(1));
    };
    let Some((ty, body)) = as_exists(world, formula) else {
        return Err(KernelFault::RuleFails(2));
    };
    let Some(named) = name_by(alloc, given, sequent.copy_without(alloc, hypothesis)?)? else {
        return Err(KernelFault::RuleFails(3));
    };
    let asked = hint(alloc, world, body)?;
    let name = variable_name(alloc, world, sequent, &asked)?;
    let names = support_in(alloc, world, formula)?;
    let made = raise(alloc, world, name, body, ty, &names, steps)?;
    let premise = named
        .sequent
        .over(made.cell)?
        .with_hypothesis(named.name, made.formula)?;
    Ok(one(alloc, premise)?)
}

/// A nominal constant that the conclusion doesn't hold, for the name of a `nabla`.
pub fn nabla_right<L>(
    alloc: Global,
    world: &mut World,
    sequent: &Sequent,
    steps: &mut Steps<L>,
) -> Result<Vec<Sequent>, KernelFault>
    requires world { IsWorld world.old }
    requires held { HoldsSequent world.old sequent.now }
    ensures answers { Answers world.new (row_at world.old plain.nabla_right sequent.now) result }
    ensures grows { Grows world.old world.new }
    ensures declared { declarations_of world.new ≡ declarations_of world.old }
    ensures steps { steps.old ≤ steps.new }
{
    let Some((ty, body)) = as_nabla(world, sequent.conclusion) else {
        return Err(KernelFault::RuleFails(1));
    };
    let premise = sequent.copy(alloc)?;
    let number = least_name(alloc, world, sequent, sequent.conclusion, ty)?;
    let formula = with_name(alloc, world, body, Nominal { number, ty }, steps)?;
    let premise = premise.with_conclusion(formula);
    Ok(one(alloc, premise)?)
}

/// A nominal constant that the hypothesis doesn't hold, for the name of a `nabla`.
pub fn nabla_left<L>(
    alloc: Global,
    world: &mut World,
    hypothesis: &Name,
    given: &Label,
    sequent: &Sequent,
    steps: &mut Steps<L>,
) -> Result<Vec<Sequent>, KernelFault>
    requires world { IsWorld world.old }
    requires held { HoldsSequent world.old sequent.now }
    ensures answers { Answers world.new (row_at world.old (plain.nabla_left hypothesis.now (label_of given.now)) sequent.now) result }
    ensures grows { Grows world.old world.new }
    ensures declared { declarations_of world.new ≡ declarations_of world.old }
    ensures steps { steps.old ≤ steps.new }
{
    let Some(formula) = sequent.look(hypothesis) else {
        return Err(KernelFault::RuleFails(1));
    };
    let Some((ty, body)) = as_nabla(world, formula) else {
        return Err(KernelFault::RuleFails(2));
    };
    let Some(named) = name_by(alloc, given, sequent.copy_without(alloc, hypothesis)?)? else {
        return Err(KernelFault::RuleFails(3));
    };
    let number = least_name(alloc, world, sequent, formula, ty)?;
    let made = with_name(alloc, world, body, Nominal { number, ty }, steps)?;
    let premise = named.sequent.with_hypothesis(named.name, made)?;
    Ok(one(alloc, premise)?)
}
