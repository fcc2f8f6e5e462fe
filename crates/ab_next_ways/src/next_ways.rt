//! The next way of a goal: one turn on its row of ways.
ghost use Rattle.std.specs.Prelude.{◌≡◌, ◌<◌, ◌≤◌, ◌∷◌, ◌++◌, ◌+◌, List, length, All, IfOk, IfSome, Some, slice_get};
ghost use Rattle.std.specs.Option.{option_map};
ghost use Rattle.ab_term.specs.Terms.{Read, Nominal as ANominal};
ghost use Rattle.ab_term.specs.Names.{support};
ghost use Rattle.ab_unifiers.specs.Choices.{in_order};
ghost use Rattle.ab_judgements.specs.ab_alternatives.specs.ab_instances.specs.ListReadings.{names_read};
ghost use Rattle.ab_logic.specs.WorldGrowth.{Grows};
ghost use Rattle.ab_logic.specs.Worlds.{IsWorld, read, declarations_of};
ghost use Rattle.ab_logic.specs.declared.world.World.{World as AWorld};
ghost use Rattle.ab_search_trees.specs.Goals.{Now};
ghost use Rattle.ab_search_trees.specs.Ways.{Way as AWay};
ghost use Rattle.ab_search_trees.specs.Maps.{targets};
ghost use Rattle.ab_search_ways.specs.GoalReadings.{goal_read, HoldsGoal, IsTypedGoal, IsFormulaIn, IsAside, StandsFor};
ghost use Rattle.ab_next_ways.specs.Cursors.{by_hypotheses_from, by_maps, AreLeft, HoldsMap, HoldsCursor};
ghost use Rattle.ab_next_ways.specs.Stages.{at_hypothesis, at_maps, stage, LedOnward};
ghost use Rattle.ab_next_ways.specs.Steps.{IsPassed, IsNextWay, IsStep, step_of, behind_choice, behind_rule};

use crate::clause_ways::way_by_choice;
use crate::cursor::Cursor;
use crate::rule_ways::way_by_rule;
use ab_judgements::alternatives::instances::constants_of;
use ab_logic::World;
use ab_norm::Nominal;
use ab_norm::store::{CellId, TermId};
use ab_norm::types::Steps;
use ab_search_ways::{
    Goal, Way, different_heads_are_apart, have_different_heads, is_blind, next_map,
    second_way_by_form, way_by_form, way_by_hypothesis, way_by_truth,
};
use std::alloc::{AllocError, Global};
use std::mem;

/// What comes of one turn on the row of ways.
#[derive(Drop)]
pub enum Step {
    /// The next way.
    Made(Way),
    /// No way stood there, or some that are apart.
    Passed,
    /// There is none left.
    Ended,
}

/// The way, or that none stood there.
fn made_or_passed(way: Option<Way>) -> Step
    ensures { result ≡ step_of way }
{
    match way {
        Some(way) => Step::Made(way),
        None => Step::Passed,
    }
}

/// The hypothesis of this number, those of the base first.
fn hypothesis_at(base: &[TermId], goal: &Goal, number: usize) -> Option<TermId>
    ensures reads { (w : AWorld) → option_map (read w) result ≡ slice_get (goal_read w base.now goal.now).hypotheses number }
    ensures formula { (w : AWorld) → All (IsFormulaIn w) base.now → All (IsFormulaIn w) goal.now.added.items → IfSome result (IsFormulaIn w) }
{
    if number < base.len() {
        Some(base[number])
    } else {
        goal.added.get(number - base.len()).copied()
    }
}

/// Goes to the hypothesis of this number; to the next one where its head is another than the conclusion's; or, where there are not
/// so many, to the ways by the form, if the search isn't blind.
fn go_to_hypothesis(
    alloc: Global,
    world: &World,
    base: &[TermId],
    flexible: &[CellId],
    goal: &Goal,
    number: usize,
) -> Result<Cursor, AllocError>
    requires world { IsWorld world.now }
    requires goal { HoldsGoal world.now goal.now }
    requires typed { IsTypedGoal world.now.types world.now.store goal.now }
    requires aside { All (IsAside world.now flexible.now) base.now }
    ensures passed { IfOk result (λ cursor. (now : Now) (ws : List AWay) → StandsFor world.now flexible.now now →
        let D = declarations_of world.now in let g = goal_read world.now base.now goal.now in
        ws ≡ by_hypotheses_from D now g number → IsPassed world.now base.now now g ws cursor D world.now.types) }
    ensures held { IfOk result (HoldsCursor world.now base.now goal.now) }
    ensures onward { let n = length (goal_read world.now base.now goal.now).hypotheses in IfOk result (λ cursor. stage n cursor < at_hypothesis n number) }
{
    different_heads_are_apart();
    let Some(hypothesis) = hypothesis_at(base, goal, number) else {
        if is_blind(&world.store, flexible, goal.conclusion) {
            return Ok(Cursor::End);
        }
        return Ok(Cursor::Form);
    };
    if have_different_heads(world, hypothesis, goal.conclusion) {
        return Ok(Cursor::Hypothesis(next(number)?));
    }
    let names = constants_of(alloc, &world.types, &world.store, &[hypothesis])?;
    let first = Vec::from_slice(alloc, &names)?;
    Ok(Cursor::Map(number, names, first))
}

/// The way by the hypothesis of this number and the map of its constants to the list; and where to go then.
fn way_by_map<L>(
    alloc: Global,
    world: &mut World,
    base: &[TermId],
    flexible: &[CellId],
    goal: &Goal,
    number: usize,
    names: Vec<Nominal>,
    list: &[Nominal],
    cursor: &mut Cursor,
    steps: &mut Steps<L>,
) -> Result<Way, AllocError>
    requires world { IsWorld world.old }
    requires goal { HoldsGoal world.old goal.now }
    requires typed { IsTypedGoal world.old.types world.old.store goal.now }
    requires aside { All (IsAside world.old flexible.now) base.now }
    requires map { HoldsMap world.old base.now goal.now number names.items list.now }
    ensures made { IfOk result (λ made. (now : Now) (before after : List (List ANominal)) (ws : List AWay) → StandsFor world.old flexible.now now →
        let g = goal_read world.old base.now goal.now in let D = declarations_of world.old in
        (B : Read) → slice_get g.hypotheses number ≡ Some B → names_read world.old.types names.items ≡ in_order (support B) →
        targets (in_order (support B)) g.constants ≡ before ++ names_read world.old.types list.now ∷ after →
        ws ≡ by_maps D now g B (names_read world.old.types list.now ∷ after) ++ by_hypotheses_from D now g (number + 1) →
        IsNextWay world.new base.now now g ws cursor.new D made) }
    ensures held { IfOk result (λ made. HoldsCursor world.new base.now goal.now cursor.new) }
    ensures onward { let n = length (goal_read world.old base.now goal.now).hypotheses in IfOk result (λ made. stage n cursor.new ≤ at_maps n number) }
    ensures grows { Grows world.old world.new }
    ensures declared { declarations_of world.new ≡ declarations_of world.old }
    ensures steps { steps.old ≤ steps.new }
{
    let Some(hypothesis) = hypothesis_at(base, goal, number) else {
        unreachable!();
    };
    let way = way_by_hypothesis(
        alloc, world, flexible, goal, hypothesis, &names, list, steps,
    )?;
    let behind = next_map(alloc, &world.types, &names, &goal.constants, list)?;
    match behind {
        Some(more) => {
            *cursor = Cursor::Map(number, names, more);
            Ok(way)
        }
        None => {
            *cursor = Cursor::Hypothesis(next(number)?);
            Ok(way)
        }
    }
}

/// One more.
fn next(number: usize) -> Result<usize, AllocError>
    ensures { IfOk result (λ n. n ≡ number + 1) }
{
    match number.checked_add(1) {
        Some(next) => Ok(next),
        None => Err(AllocError),
    }
}

/// Where to go from the choice of this number, by which this way was made, or none is.
fn behind_choice(way: &Option<Way>, number: usize) -> Result<Cursor, AllocError>
    ensures { IfOk result (λ cursor. cursor ≡ behind_choice way.now number) }
{
    match way {
        Some(_) => Ok(Cursor::Choice(next(number)?)),
        None => Ok(Cursor::Rule(0)),
    }
}

/// Where to go from the rule of this number, by which this way was made, or none is.
fn behind_rule(way: &Option<Way>, number: usize) -> Result<Cursor, AllocError>
    ensures { IfOk result (λ cursor. cursor ≡ behind_rule way.now number) }
{
    match way {
        Some(_) => Ok(Cursor::Rule(next(number)?)),
        None => Ok(Cursor::End),
    }
}

/// One turn on the row of ways from the goal: the next way is made, or some are passed, and the cursor goes behind them.
pub fn next_way<L>(
    alloc: Global,
    world: &mut World,
    base: &[TermId],
    flexible: &[CellId],
    goal: &Goal,
    cursor: &mut Cursor,
    steps: &mut Steps<L>,
) -> Result<Step, AllocError>
    requires world { IsWorld world.old }
    requires goal { HoldsGoal world.old goal.now }
    requires typed { IsTypedGoal world.old.types world.old.store goal.now }
    requires aside { All (IsAside world.old flexible.now) base.now }
    requires cursor { HoldsCursor world.old base.now goal.now cursor.old }
    ensures step { IfOk result (λ step. (now : Now) (ws : List AWay) → StandsFor world.old flexible.now now →
        let g = goal_read world.old base.now goal.now in
        AreLeft (declarations_of world.old) now g world.old.types cursor.old ws → IsStep world.new base.now now g ws cursor.new step) }
    ensures held { IfOk result (λ step. HoldsCursor world.new base.now goal.now cursor.new) }
    ensures onward { let n = length (goal_read world.old base.now goal.now).hypotheses in IfOk result (LedOnward n cursor.old cursor.new) }
    ensures grows { Grows world.old world.new }
    ensures declared { declarations_of world.new ≡ declarations_of world.old }
    ensures steps { steps.old ≤ steps.new }
{
    match mem::replace(cursor, Cursor::End) {
        Cursor::Start => {
            *cursor = Cursor::Hypothesis(0);
            Ok(made_or_passed(way_by_truth(alloc, world, flexible, goal)?))
        }
        Cursor::Hypothesis(number) => {
            *cursor = go_to_hypothesis(alloc, world, base, flexible, goal, number)?;
            Ok(Step::Passed)
        }
        Cursor::Map(number, names, targets) => Ok(Step::Made(way_by_map(
            alloc, world, base, flexible, goal, number, names, &targets, cursor, steps,
        )?)),
        Cursor::Form => {
            *cursor = Cursor::Second;
            Ok(made_or_passed(way_by_form(alloc, world, flexible, goal, steps)?))
        }
        Cursor::Second => {
            *cursor = Cursor::Choice(0);
            Ok(made_or_passed(second_way_by_form(alloc, world, flexible, goal)?))
        }
        Cursor::Choice(number) => {
            let way = way_by_choice(alloc, world, flexible, goal, number, steps)?;
            *cursor = behind_choice(&way, number)?;
            Ok(made_or_passed(way))
        }
        Cursor::Rule(number) => {
            let way = way_by_rule(alloc, world, flexible, goal, number, steps)?;
            *cursor = behind_rule(&way, number)?;
            Ok(made_or_passed(way))
        }
        Cursor::End => Ok(Step::Ended),
    }
}
