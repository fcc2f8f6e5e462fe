//! Choices of constants are made and tried one after another.
ghost use Rattle.std.specs.Prelude.{◌≡◌, ◌≤◌, ◌++◌, false, map, All, IfOk};
ghost use Rattle.ab_norm.specs.Nominals.{HoldsNominal};
ghost use Rattle.ab_norm.specs.ab_types.specs.Ids.{HoldsType, type_of};
ghost use Rattle.ab_unify.specs.Problem.{cells_read};
ghost use Rattle.ab_alternatives.specs.ab_instances.specs.ListReadings.{names_read};
ghost use Rattle.ab_logic.specs.WorldGrowth.{Grows};
ghost use Rattle.ab_logic.specs.SequentReadings.{HoldsSequent, sequent_of};
ghost use Rattle.ab_logic.specs.Worlds.{declarations_of};
ghost use Rattle.ab_theory.specs.Uses.{types_chosen};
ghost use Rattle.ab_uses.specs.UseCells.{parts_read};
ghost use Rattle.ab_uses.specs.Questions.{IsPosed, using_at};
ghost use Rattle.ab_uses.specs.ChoiceTrials.{decides, IsBegun, choices_behind, FirstComesOut};

use crate::aim::Aim;
use crate::begun_choices::{Begun, candidates, with_next};
use crate::one_choice::try_choice;
use crate::outcome::Outcome;
use crate::question::Question;
use ab_logic::{Sequent, World};
use ab_norm::types::{Steps, TypeId};
use std::alloc::{AllocError, Global};

/// What comes of the choices that begin so, for further names of these types: of the first that isn't passed over or apart,
/// where there is one. The next choice is made only once the one before it was tried. No cell is bound in the end.
pub(crate) fn try_from<L>(
    alloc: Global,
    world: &mut World,
    goal: &Sequent,
    question: &Question,
    aim: &Aim,
    types: &[TypeId],
    begun: &Begun,
    steps: &mut Steps<L>,
) -> Result<Outcome, AllocError>
    requires goal { HoldsSequent world.old goal.now }
    requires posed { IsPosed world.old (sequent_of world.old goal.now) question.now aim.now }
    requires types { All (HoldsType world.old.types) types.now }
    requires begun { IsBegun world.old.types begun.now }
    requires fit { map (λ a. a.type) (names_read world.old.types begun.now.chosen.items) ++ map (type_of world.old.types) types.now ≡ types_chosen (parts_read world.old.types world.old.store question.now.parts.items) }
    ensures comes_out { IfOk result (FirstComesOut (cells_read world.old.types world.old.store) (using_at world.old (sequent_of world.old goal.now) question.now aim.now)
        (choices_behind world.old.types types.now begun.now) world.new.types world.new.store) }
    ensures cells { IfOk result (λ o. decides o ≡ false → cells_read world.new.types world.new.store ≡ cells_read world.old.types world.old.store) }
    ensures grows { Grows world.old world.new }
    ensures declared { declarations_of world.new ≡ declarations_of world.old }
    ensures steps { steps.old ≤ steps.new }
{
    match types {
        [] => try_choice(alloc, world, goal, question, aim, &begun.chosen, steps),
        [first, rest @ ..] => {
            let list = candidates(alloc, &world.types, *first, begun)?;
            for a in &list {
                let more = with_next(alloc, &world.types, begun, *a)?;
                let outcome = try_from(alloc, world, goal, question, aim, rest, &more, steps)?;
                if outcome.decides() {
                    return Ok(outcome);
                }
            }
            Ok(Outcome::Apart)
        }
    }
}
