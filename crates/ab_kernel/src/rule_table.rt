//! The premises of a step: one function for each rule.
ghost use Rattle.std.specs.Prelude.{◌≡◌, ◌≤◌};
ghost use Rattle.ab_logic.specs.Worlds.{IsWorld, declarations_of};
ghost use Rattle.ab_logic.specs.WorldGrowth.{Grows};
ghost use Rattle.ab_logic.specs.SequentReadings.{sequent_of, HoldsSequent};
ghost use Rattle.ab_formulas.specs.Sequents.{IsSequent};
ghost use Rattle.ab_rules.specs.RuleAnswers.{Answers, row_at, step_of, HoldsStep};

use crate::definition_rules::{definition_left, definition_right};
use crate::equality_rules::equal_left;
use crate::judgement_rules::{spec_cut, spec_instance, spec_monotone};
use ab_judgements::alternatives::sequents::Kind;
use ab_logic::{Sequent, World};
use ab_norm::types::Steps;
use ab_rules::{
    KernelFault, Step, and_left, and_right, arrow_left, arrow_right, cut_formula, equal_right,
    exists_left, exists_right, false_left, for_all_left, for_all_right, give_sizes, initial,
    nabla_left, nabla_right, or_left, or_right, true_right, use_theorem, weaken,
};
use std::alloc::Global;

/// The premises that the step leads to from the goal, or why it leads to none.
pub fn premises<L>(
    alloc: Global,
    world: &mut World,
    step: &Step,
    sequent: &Sequent,
    steps: &mut Steps<L>,
) -> Result<Vec<Sequent>, KernelFault>
    requires world { IsWorld world.old }
    requires step { HoldsStep world.old step.now }
    requires held { HoldsSequent world.old sequent.now }
    requires sequent { IsSequent (declarations_of world.old) (sequent_of world.old sequent.now) }
    ensures answers { Answers world.new (row_at world.old (step_of world.old step.now) sequent.now) result }
    ensures grows { Grows world.old world.new }
    ensures declared { declarations_of world.new ≡ declarations_of world.old }
    ensures steps { steps.old ≤ steps.new }
{
    match step {
        Step::TrueRight => true_right(alloc, world, sequent),
        Step::FalseLeft(name) => false_left(alloc, world, name, sequent),
        Step::AndRight => and_right(alloc, world, sequent),
        Step::AndLeft(name, first, second) => and_left(alloc, world, name, first, second, sequent),
        Step::OrRight(left) => or_right(alloc, world, *left, sequent),
        Step::OrLeft(name, given) => or_left(alloc, world, name, given, sequent),
        Step::ArrowRight(given) => arrow_right(alloc, world, given, sequent),
        Step::ArrowLeft(name, given) => arrow_left(alloc, world, name, given, sequent),
        Step::ForallRight => for_all_right(alloc, world, sequent, steps),
        Step::ExistsLeft(name, given) => exists_left(alloc, world, name, given, sequent, steps),
        Step::NablaRight => nabla_right(alloc, world, sequent, steps),
        Step::NablaLeft(name, given) => nabla_left(alloc, world, name, given, sequent, steps),
        Step::EqualRight => equal_right(alloc, world, sequent),
        Step::UseTheorem(name, given) => use_theorem(alloc, world, name, given, sequent),
        Step::Weaken(name) => weaken(alloc, world, name, sequent),
        Step::Initial(name) => initial(alloc, world, name, sequent),
        Step::EqualLeft(name) => equal_left(alloc, world, name, sequent, steps),
        Step::ForallLeft(name, term, given) => {
            for_all_left(alloc, world, name, *term, given, sequent, steps)
        }
        Step::ExistsRight(term) => exists_right(alloc, world, *term, sequent, steps),
        Step::CutFormula(formula, given) => cut_formula(alloc, world, *formula, given, sequent),
        Step::DefRight(place) => definition_right(alloc, world, *place, sequent, steps),
        Step::DefLeft(name, given) => definition_left(alloc, world, name, given, sequent, steps),
        Step::Induction(places, given) => {
            let places = places.as_slice();
            let given = given.as_slice();
            give_sizes(alloc, world, Kind::Induction, places, given, sequent)
        }
        Step::Coinduction(given) => {
            let given = given.as_slice();
            give_sizes(alloc, world, Kind::Coinduction, &[], given, sequent)
        }
        Step::SpecCut(name, other, given) => spec_cut(alloc, world, name, other, given, sequent),
        Step::SpecInst(name, replaces, given) => {
            let replaces = replaces.as_slice();
            spec_instance(alloc, world, name, replaces, given, sequent, steps)
        }
        Step::SpecMonotone(name, list, given) => {
            spec_monotone(alloc, world, name, *list, given, sequent)
        }
        Step::Skip => Ok(Vec::new(alloc)),
    }
}
