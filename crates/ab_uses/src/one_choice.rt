//! One choice of constants is tried.
ghost use Rattle.std.specs.Prelude.{◌≡◌, ◌≤◌, map, All, IfOk, Ok};
ghost use Rattle.ab_norm.specs.Nominals.{HoldsNominal};
ghost use Rattle.ab_unify.specs.Problem.{cells_read};
ghost use Rattle.ab_alternatives.specs.ab_instances.specs.ListReadings.{names_read};
ghost use Rattle.ab_logic.specs.WorldGrowth.{Grows};
ghost use Rattle.ab_logic.specs.SequentReadings.{sequent_of};
ghost use Rattle.ab_logic.specs.Worlds.{declarations_of};
ghost use Rattle.ab_theory.specs.Uses.{types_chosen};
ghost use Rattle.ab_uses.specs.UseCells.{parts_read};
ghost use Rattle.ab_uses.specs.ChoiceAnswers.{ComesOut};
ghost use Rattle.ab_uses.specs.Questions.{IsPosed, using_at};
ghost use Rattle.ab_uses.specs.declared.outcome.Outcome.TheVariants.{PassedOver, Apart};

use crate::aim::Aim;
use crate::outcome::Outcome;
use crate::question::Question;
use crate::use_solutions::use_choice;
use ab_logic::{Sequent, World};
use ab_norm::Nominal;
use ab_norm::types::Steps;
use std::alloc::{AllocError, Global};

/// What comes of the chosen constants. No cell is bound in the end, and cells are added only where the formula is used.
pub(crate) fn try_choice<L>(
    alloc: Global,
    world: &mut World,
    goal: &Sequent,
    question: &Question,
    aim: &Aim,
    names: &[Nominal],
    steps: &mut Steps<L>,
) -> Result<Outcome, AllocError>
    requires posed { IsPosed world.old (sequent_of world.old goal.now) question.now aim.now }
    requires names { All (HoldsNominal world.old.types) names.now }
    requires fit { map (λ a. a.type) (names_read world.old.types names.now) ≡ types_chosen (parts_read world.old.types world.old.store question.now.parts.items) }
    ensures comes_out { IfOk result (λ o. ComesOut (cells_read world.old.types world.old.store) (using_at world.old (sequent_of world.old goal.now) question.now aim.now)
        (names_read world.old.types names.now) world.new.types world.new.store o) }
    ensures passed_over { result ≡ Ok PassedOver → cells_read world.new.types world.new.store ≡ cells_read world.old.types world.old.store }
    ensures apart { result ≡ Ok Apart → cells_read world.new.types world.new.store ≡ cells_read world.old.types world.old.store }
    ensures grows { Grows world.old world.new }
    ensures declared { declarations_of world.new ≡ declarations_of world.old }
    ensures steps { steps.old ≤ steps.new }
{
    let _ = goal;
    let mark = world.store.mark();
    match use_choice(
        alloc,
        &mut world.types,
        &mut world.store,
        &question.held,
        &question.known,
        &question.parts,
        names,
        question.formula,
        aim,
        steps,
    ) {
        Ok(Outcome::PassedOver) => {
            world.store.cut_to(&mark, steps);
            Ok(Outcome::PassedOver)
        }
        Ok(Outcome::Apart) => {
            world.store.cut_to(&mark, steps);
            Ok(Outcome::Apart)
        }
        other => {
            world.store.rewind(&mark, steps);
            other
        }
    }
}
