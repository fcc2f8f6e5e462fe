//! The rules of defined atoms, and of judgements of the specification logic.
ghost use Rattle.std.specs.Prelude.{◌≡◌, ◌≤◌};
ghost use Rattle.ab_logic.specs.WorldGrowth.{Grows};
ghost use Rattle.ab_logic.specs.SequentReadings.{sequent_of, HoldsSequent};
ghost use Rattle.ab_formulas.specs.Sequents.{IsSequent};
ghost use Rattle.ab_logic.specs.Worlds.{IsWorld, declarations_of};
ghost use Rattle.ab_theory.specs.Steps as plain;
ghost use Rattle.ab_rules.specs.RuleAnswers.{Answers, label_of, row_at};

use ab_judgements::alternatives::equations::{CaseSolution, Label, name_by};
use ab_judgements::alternatives::{Splitting, may_be_analysed, may_be_unfolded};
use ab_judgements::{sign_of, split_subject, subject_of, unfold_subject_at};
use ab_logic::{Sequent, World};
use ab_norm::name::Name;
use ab_norm::types::Steps;
use ab_rules::{KernelFault, one};
use std::alloc::{AllocError, Global};

/// The conclusion is unfolded in the way of this place.
pub(crate) fn definition_right<L>(
    alloc: Global,
    world: &mut World,
    place: usize,
    sequent: &Sequent,
    steps: &mut Steps<L>,
) -> Result<Vec<Sequent>, KernelFault>
    requires world { IsWorld world.old }
    requires held { HoldsSequent world.old sequent.now }
    requires sequent { IsSequent (declarations_of world.old) (sequent_of world.old sequent.now) }
    ensures answers { Answers world.new (row_at world.old (plain.definition_right place) sequent.now) result }
    ensures grows { Grows world.old world.new }
    ensures declared { declarations_of world.new ≡ declarations_of world.old }
    ensures steps { steps.old ≤ steps.new }
{
    let Some(subject) = subject_of(alloc, world, sequent.conclusion)? else {
        return Err(KernelFault::RuleFails(1));
    };
    if !may_be_unfolded(sign_of(&subject)) {
        return Err(KernelFault::RuleFails(2));
    }
    let Some(solved) = unfold_subject_at(alloc, world, &subject, sequent, place, steps)? else {
        return Err(KernelFault::RuleFails(3));
    };
    match solved {
        CaseSolution::Unified(premise) => Ok(one(alloc, premise)?),
        CaseSolution::Apart => Err(KernelFault::RuleFails(4)),
        CaseSolution::Stuck(equation) => Err(KernelFault::NotPattern(equation)),
    }
}

/// A goal for each way in which a hypothesis may hold.
pub(crate) fn definition_left<L>(
    alloc: Global,
    world: &mut World,
    name: &Name,
    given: &Label,
    sequent: &Sequent,
    steps: &mut Steps<L>,
) -> Result<Vec<Sequent>, KernelFault>
    requires world { IsWorld world.old }
    requires held { HoldsSequent world.old sequent.now }
    requires sequent { IsSequent (declarations_of world.old) (sequent_of world.old sequent.now) }
    ensures answers { Answers world.new (row_at world.old (plain.definition_left name.now (label_of given.now)) sequent.now) result }
    ensures grows { Grows world.old world.new }
    ensures declared { declarations_of world.new ≡ declarations_of world.old }
    ensures steps { steps.old ≤ steps.new }
{
    let Some(formula) = sequent.look(name) else {
        return Err(KernelFault::RuleFails(1));
    };
    let Some(subject) = subject_of(alloc, world, formula)? else {
        return Err(KernelFault::RuleFails(2));
    };
    if !may_be_analysed(sign_of(&subject)) {
        return Err(KernelFault::RuleFails(3));
    }
    let Some(named) = name_by(alloc, given, sequent.copy_without(alloc, name)?)? else {
        return Err(KernelFault::RuleFails(4));
    };
    let rest = &named.sequent;
    match split_subject(alloc, world, &subject, sequent, rest, &named.name, steps)? {
        Splitting::Goals(premises) => Ok(premises),
        Splitting::Stuck(place) => Err(KernelFault::NotPattern(place)),
    }
}
