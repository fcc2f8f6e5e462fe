//! The rules that are told a term: what is put for the name of a quantifier, and the formula of a cut.
ghost use Rattle.std.specs.Prelude.{◌≡◌, ◌≤◌};
ghost use Rattle.ab_logic.specs.SequentReadings.{HoldsSequent};
ghost use Rattle.ab_logic.specs.Worlds.{IsWorld, Holds, declarations_of, read};
ghost use Rattle.ab_logic.specs.WorldGrowth.{Grows};
ghost use Rattle.ab_theory.specs.Steps as plain;
ghost use Rattle.ab_rules.specs.RuleAnswers.{Answers, label_of, row_at};

use crate::premise_lists::{one, two};
use crate::rule_terms::instance_of;
use crate::step::KernelFault;
use crate::term_fit::{fits_in, formula_fits_in};
use ab_equations::{Label, name_by};
use ab_logic::{Sequent, World, as_exists, as_forall};
use ab_norm::name::Name;
use ab_norm::store::TermId;
use ab_norm::types::Steps;
use std::alloc::Global;

/// The body of a `forall` with the term becomes a hypothesis.
pub fn for_all_left<L>(
    alloc: Global,
    world: &mut World,
    hypothesis: &Name,
    term: TermId,
    given: &Label,
    sequent: &Sequent,
    steps: &mut Steps<L>,
) -> Result<Vec<Sequent>, KernelFault>
    requires world { IsWorld world.old }
    requires held { HoldsSequent world.old sequent.now }
    requires term { Holds world.old term }
    ensures answers { Answers world.new (row_at world.old (plain.for_all_left hypothesis.now (read world.old term) (label_of given.now)) sequent.now) result }
    ensures grows { Grows world.old world.new }
    ensures declared { declarations_of world.new ≡ declarations_of world.old }
    ensures steps { steps.old ≤ steps.new }
{
    let Some(formula) = sequent.look(hypothesis) else {
        return Err(KernelFault::RuleFails(1));
    };
    let Some((ty, body)) = as_forall(world, formula) else {
        return Err(KernelFault::RuleFails(2));
    };
    let fits = fits_in(alloc, world, sequent, term, ty)?;
    if !fits {
        return Err(KernelFault::RuleFails(3));
    }
    let Some(named) = name_by(alloc, given, sequent.copy(alloc)?)? else {
        return Err(KernelFault::RuleFails(4));
    };
    let made = instance_of(alloc, world, body, &[term], steps)?;
    let premise = named.sequent.with_hypothesis(named.name, made)?;
    Ok(one(alloc, premise)?)
}

/// The body of an `exists` with the term is to be derived.
pub fn exists_right<L>(
    alloc: Global,
    world: &mut World,
    term: TermId,
    sequent: &Sequent,
    steps: &mut Steps<L>,
) -> Result<Vec<Sequent>, KernelFault>
    requires world { IsWorld world.old }
    requires held { HoldsSequent world.old sequent.now }
    requires term { Holds world.old term }
    ensures answers { Answers world.new (row_at world.old (plain.exists_right (read world.old term)) sequent.now) result }
    ensures grows { Grows world.old world.new }
    ensures declared { declarations_of world.new ≡ declarations_of world.old }
    ensures steps { steps.old ≤ steps.new }
{
    let Some((ty, body)) = as_exists(world, sequent.conclusion) else {
        return Err(KernelFault::RuleFails(1));
    };
    let fits = fits_in(alloc, world, sequent, term, ty)?;
    if !fits {
        return Err(KernelFault::RuleFails(2));
    }
    let premise = sequent.copy(alloc)?;
    let made = instance_of(alloc, world, body, &[term], steps)?;
    let premise = premise.with_conclusion(made);
    Ok(one(alloc, premise)?)
}

/// A formula is derived, and then assumed.
pub fn cut_formula(
    alloc: Global,
    world: &World,
    formula: TermId,
    given: &Label,
    sequent: &Sequent,
) -> Result<Vec<Sequent>, KernelFault>
    requires world { IsWorld world.now }
    requires held { HoldsSequent world.now sequent.now }
    requires formula { Holds world.now formula }
    ensures { Answers world.now (row_at world.now (plain.cut_formula (read world.now formula) (label_of given.now)) sequent.now) result }
{
    let fits = formula_fits_in(alloc, world, sequent, formula)?;
    if !fits {
        return Err(KernelFault::RuleFails(1));
    }
    let Some(named) = name_by(alloc, given, sequent.copy(alloc)?)? else {
        return Err(KernelFault::RuleFails(2));
    };
    let first = sequent.copy(alloc)?.with_conclusion(formula);
    let second = named.sequent.with_hypothesis(named.name, formula)?;
    Ok(two(alloc, first, second)?)
}
