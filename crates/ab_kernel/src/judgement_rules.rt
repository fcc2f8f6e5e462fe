//! The rules of judgements of the specification logic: cut, instance and monotonicity.
ghost use Rattle.std.specs.Prelude.{◌≡◌, ◌≤◌, ◌∷◌, [], All};
ghost use Rattle.ab_norm.specs.Nominals.{HoldsNominal};
ghost use Rattle.ab_logic.specs.SequentReadings.{HoldsSequent, sequent_of};
ghost use Rattle.ab_logic.specs.Worlds.{IsWorld, Holds, declarations_of, read};
ghost use Rattle.ab_logic.specs.WorldGrowth.{Grows};
ghost use Rattle.ab_formulas.specs.Sequents.{assuming, proving};
ghost use Rattle.ab_theory.specs.Row.{labelled, leads};
ghost use Rattle.ab_theory.specs.Steps as plain;
ghost use Rattle.ab_rules.specs.RuleAnswers.{Answers, label_of, row_at, replacements, HoldsReplace};

use crate::replaced_constants::{all_fit, may_be_replaced, with_terms};
use ab_judgements::alternatives::equations::{Label, name_by};
use ab_judgements::{as_unfocused, cut_list, is_within, judgement_of, list_type};
use ab_logic::{Sequent, World};
use ab_norm::name::Name;
use ab_norm::store::TermId;
use ab_norm::types::Steps;
use ab_rules::{KernelFault, Replace, fits_in, one, two};
use std::alloc::Global;

/// The goal with the formula as one more hypothesis. That this gets a name is the condition of that number.
fn goals_assuming(
    alloc: Global,
    world: &World,
    condition: usize,
    given: &Label,
    sequent: &Sequent,
    formula: TermId,
) -> Result<Vec<Sequent>, KernelFault>
    requires held { HoldsSequent world.now sequent.now }
    requires formula { Holds world.now formula }
    ensures { Answers world.now (labelled condition (label_of given.now) (sequent_of world.now sequent.now)
        (λ N s. leads (assuming N (read world.now formula) s ∷ []))) result }
{
    let _ = world;
    let Some(named) = name_by(alloc, given, sequent.copy(alloc)?)? else {
        return Err(KernelFault::RuleFails(condition));
    };
    let premise = named.sequent.with_hypothesis(named.name, formula)?;
    Ok(one(alloc, premise)?)
}

/// A goal for the first formula, and one with the second as one more hypothesis. That this gets a name is the condition of that
/// number.
fn proving_and_assuming(
    alloc: Global,
    world: &World,
    condition: usize,
    given: &Label,
    sequent: &Sequent,
    first: TermId,
    second: TermId,
) -> Result<Vec<Sequent>, KernelFault>
    requires held { HoldsSequent world.now sequent.now }
    requires first { Holds world.now first }
    requires second { Holds world.now second }
    ensures { Answers world.now (labelled condition (label_of given.now) (sequent_of world.now sequent.now)
        (λ N s. leads (proving (read world.now first) (sequent_of world.now sequent.now) ∷ assuming N (read world.now second) s ∷ []))) result }
{
    let _ = world;
    let Some(named) = name_by(alloc, given, sequent.copy(alloc)?)? else {
        return Err(KernelFault::RuleFails(condition));
    };
    let proved = sequent.copy(alloc)?.with_conclusion(first);
    let assumed = named.sequent.with_hypothesis(named.name, second)?;
    Ok(two(alloc, proved, assumed)?)
}

/// The first judgement's list has the second one's goal, and is the second one's list but for that: so the first one's goal
/// follows from the second one's list.
pub(crate) fn spec_cut(
    alloc: Global,
    world: &mut World,
    name: &Name,
    other: &Name,
    given: &Label,
    sequent: &Sequent,
) -> Result<Vec<Sequent>, KernelFault>
    requires world { IsWorld world.old }
    requires held { HoldsSequent world.old sequent.now }
    ensures answers { Answers world.new (row_at world.old (plain.spec_cut name.now other.now (label_of given.now)) sequent.now) result }
    ensures grows { Grows world.old world.new }
    ensures declared { declarations_of world.new ≡ declarations_of world.old }
{
    let Some(formula) = sequent.look(name) else {
        return Err(KernelFault::RuleFails(1));
    };
    let Some(cutting) = sequent.look(other) else {
        return Err(KernelFault::RuleFails(1));
    };
    let Some((list, goal)) = as_unfocused(world, formula) else {
        return Err(KernelFault::RuleFails(2));
    };
    let Some((rest, item)) = as_unfocused(world, cutting) else {
        return Err(KernelFault::RuleFails(2));
    };
    let Some(left) = cut_list(alloc, world, list, item, rest)? else {
        return Err(KernelFault::RuleFails(3));
    };
    let made = judgement_of(alloc, world, left, goal)?;
    goals_assuming(alloc, world, 4, given, sequent, made)
}

/// A judgement holds with terms in the places of nominal constants.
pub(crate) fn spec_instance<L>(
    alloc: Global,
    world: &mut World,
    name: &Name,
    replaces: &[Replace],
    given: &Label,
    sequent: &Sequent,
    steps: &mut Steps<L>,
) -> Result<Vec<Sequent>, KernelFault>
    requires world { IsWorld world.old }
    requires held { HoldsSequent world.old sequent.now }
    requires replaces { All (HoldsReplace world.old) replaces.now }
    ensures answers { Answers world.new (row_at world.old (plain.spec_instance name.now (replacements world.old replaces.now) (label_of given.now)) sequent.now) result }
    ensures grows { Grows world.old world.new }
    ensures declared { declarations_of world.new ≡ declarations_of world.old }
    ensures steps { steps.old ≤ steps.new }
{
    let Some(formula) = sequent.look(name) else {
        return Err(KernelFault::RuleFails(1));
    };
    let Some((list, goal)) = as_unfocused(world, formula) else {
        return Err(KernelFault::RuleFails(2));
    };
    let judgement = judgement_of(alloc, world, list, goal)?;
    if !may_be_replaced(alloc, world, judgement, replaces)? {
        return Err(KernelFault::RuleFails(3));
    }
    if !all_fit(alloc, world, sequent, replaces)? {
        return Err(KernelFault::RuleFails(4));
    }
    let made = with_terms(alloc, world, replaces, judgement, steps)?;
    goals_assuming(alloc, world, 5, given, sequent, made)
}

/// A judgement holds with a list that has each item of its own.
pub(crate) fn spec_monotone(
    alloc: Global,
    world: &mut World,
    name: &Name,
    wider: TermId,
    given: &Label,
    sequent: &Sequent,
) -> Result<Vec<Sequent>, KernelFault>
    requires world { IsWorld world.old }
    requires held { HoldsSequent world.old sequent.now }
    requires wider { Holds world.old wider }
    ensures answers { Answers world.new (row_at world.old (plain.spec_monotone name.now (read world.old wider) (label_of given.now)) sequent.now) result }
    ensures grows { Grows world.old world.new }
    ensures declared { declarations_of world.new ≡ declarations_of world.old }
{
    let Some(formula) = sequent.look(name) else {
        return Err(KernelFault::RuleFails(1));
    };
    let Some((list, goal)) = as_unfocused(world, formula) else {
        return Err(KernelFault::RuleFails(2));
    };
    let ty = list_type(alloc, world)?;
    if !fits_in(alloc, world, sequent, wider, ty)? {
        return Err(KernelFault::RuleFails(3));
    }
    let within = is_within(alloc, world, list, wider)?;
    let made = judgement_of(alloc, world, wider, goal)?;
    proving_and_assuming(alloc, world, 4, given, sequent, within, made)
}
