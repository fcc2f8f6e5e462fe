//! Which way a search took from a goal, read off its row of ways.
ghost use Rattle.std.specs.Prelude.{◌≤◌, All, IfOk, IfSome};
ghost use Rattle.ab_norm.specs.ab_types.specs.Entries.{Table};
ghost use Rattle.ab_norm.specs.ab_store.specs.Trees.{Contents, Holds, HoldsCell};
ghost use Rattle.ab_logic.specs.Worlds.{IsWorld};
ghost use Rattle.ab_logic.specs.declared.world.World.{World as AWorld};
ghost use Rattle.ab_walk.specs.ab_next_ways.specs.ab_judgements.specs.DemandReadings.{IsTypedJudgement};
ghost use Rattle.ab_walk.specs.ab_next_ways.specs.ab_judgements.specs.ab_judgement_forms.specs.JudgementReadings.{HoldsJudgement};
ghost use Rattle.ab_walk.specs.ab_next_ways.specs.ab_judgements.specs.SubjectReadings.{HasRules};
ghost use Rattle.ab_walk.specs.ab_next_ways.specs.ab_judgements.specs.declared.subjects.Subject.TheVariants.{Judgement as AJudgement};
ghost use Rattle.ab_walk.specs.ab_next_ways.specs.ab_search_ways.specs.Answers.{HoldsValue, IsNamedGoal, HoldsPlace};
ghost use Rattle.ab_walk.specs.ab_next_ways.specs.ab_search_ways.specs.GoalReadings.{IsFormulaIn};
ghost use Rattle.ab_search_paths.specs.Paths.{HoldsTaken};
ghost use Rattle.ab_search_paths.specs.Frames.{IsLater};

use crate::cell_terms::{cell_given, cells_given};
use crate::entries::{ClauseTaken, RuleTaken, Taken};
use crate::first_cells::cell_for_name;
use crate::part_names::closed_names;
use ab_logic::{Form, World, shape};
use ab_norm::store::{CellId, TermId};
use ab_norm::types::Steps;
use ab_walk::Frame;
use ab_walk::next_ways::Cursor;
use ab_walk::next_ways::judgements::alternatives::instances::{constants_of, outside};
use ab_walk::next_ways::judgements::alternatives::{choice_at, defined_atom};
use ab_walk::next_ways::judgements::{Judgement, as_judgement, knows_rules, rule_at, with_rules};
use ab_walk::next_ways::ways::{Goal, Place};
use std::alloc::{AllocError, Global};

/// The cells that the way between the places brought.
fn cells_brought(alloc: Global, before: &Place, after: &Place) -> Result<Vec<CellId>, AllocError>
    ensures { IfOk result (λ list. (types : Table) (store : Contents) → All (HoldsValue types store) after.now.answer.items → All (HoldsCell store) list.items) }
{
    let mut list = Vec::new(alloc);
    for place in before.flexible.len()..after.answer.len() {
        list.push(after.answer[place].cell)?;
    }
    Ok(list)
}

/// A term for `exists`: the variable that was made for its name, given the constants of the branch.
fn by_term(
    alloc: Global,
    world: &mut World,
    goal: &Goal,
    before: &Place,
    after: &Place,
) -> Result<Taken, AllocError>
    requires world { IsWorld world.old }
    requires goal { IsNamedGoal world.old.types world.old.store goal.now }
    requires after { HoldsPlace world.old.types world.old.store after.now }
    ensures taken { IfOk result (HoldsTaken world.new) }
    ensures later { IsLater world.old world.new }
{
    let cells = cells_brought(alloc, before, after)?;
    let Some(cell) = cells.first() else {
        return Err(AllocError);
    };
    let (types, store) = (&world.types, &mut world.store);
    let term = cell_given(alloc, types, store, *cell, &goal.constants)?;
    Ok(Taken::Term(term))
}

/// A variable for `forall`.
fn by_variable(
    alloc: Global,
    world: &World,
    goal: &Goal,
    body: TermId,
    after: &Place,
) -> Result<Taken, AllocError>
    requires world { IsWorld world.now }
    requires goal { IsNamedGoal world.now.types world.now.store goal.now }
    requires body { Holds world.now.store body }
    requires after { HoldsPlace world.now.types world.now.store after.now }
    ensures { IfOk result (HoldsTaken world.now) }
{
    let constants = constants_of(alloc, &world.types, &world.store, &[goal.conclusion])?;
    let Some(next) = after.goals.first() else {
        return Err(AllocError);
    };
    let cell = cell_for_name(&world.store, body, next.conclusion);
    Ok(Taken::Variable(cell, constants))
}

/// The first way by the form, of those that bring no variable.
fn by_plain_form(form: &Form, member_first: bool) -> Result<Taken, AllocError>
    ensures { IfOk result (λ taken. (w : AWorld) → HoldsTaken w taken) }
{
    match form {
        Form::Equal(_, _, _) => Ok(Taken::Equality),
        Form::And(_, _) => Ok(Taken::Both(member_first)),
        Form::Or(_, _) => Ok(Taken::Left),
        Form::Arrow(_, _) => Ok(Taken::Assuming),
        Form::Nabla(_, _) => Ok(Taken::Constant),
        Form::Other => Ok(Taken::Layer),
        _ => Err(AllocError),
    }
}

/// The first way by the form of the conclusion.
fn by_form(
    alloc: Global,
    world: &mut World,
    goal: &Goal,
    before: &Place,
    after: &Place,
) -> Result<Taken, AllocError>
    requires world { IsWorld world.old }
    requires goal { IsNamedGoal world.old.types world.old.store goal.now }
    requires after { HoldsPlace world.old.types world.old.store after.now }
    ensures taken { IfOk result (HoldsTaken world.new) }
    ensures later { IsLater world.old world.new }
{
    match shape(world, goal.conclusion) {
        Form::Exists(_, _) => by_term(alloc, world, goal, before, after),
        Form::Forall(_, body) => by_variable(alloc, world, goal, body, after),
        form => by_plain_form(&form, goal.member_first),
    }
}

/// The choice of this number of the conclusion's definition.
fn by_choice(
    alloc: Global,
    world: &mut World,
    goal: &Goal,
    number: usize,
    own: &[CellId],
) -> Result<Taken, AllocError>
    requires world { IsWorld world.old }
    requires goal { IsNamedGoal world.old.types world.old.store goal.now }
    requires own { All (HoldsCell world.old.store) own.now }
    ensures taken { IfOk result (HoldsTaken world.new) }
    ensures later { IsLater world.old world.new }
{
    let Some(atom) = defined_atom(alloc, world, goal.conclusion)? else {
        return Err(AllocError);
    };
    let constants = constants_of(alloc, &world.types, &world.store, &atom.arguments)?;
    let held = &goal.constants;
    let Some(choice) = choice_at(alloc, world, &atom, &constants, held, number)? else {
        return Err(AllocError);
    };
    let unchosen = outside(alloc, &world.types, &constants, &choice.names)?;
    let values = cells_given(alloc, &world.types, &mut world.store, own, &unchosen)?;
    Ok(Taken::Clause(ClauseTaken {
        head: choice.clause.head,
        body: choice.clause.body,
        names: choice.names,
        values,
    }))
}

/// The judgement that the formula is, where it is known by which rules it may hold.
pub fn ruled_judgement(world: &World, formula: TermId) -> Option<Judgement>
    requires world { IsWorld world.now }
    requires formula { IsFormulaIn world.now formula }
    ensures held { IfSome result (HoldsJudgement world.now) }
    ensures typed { IfSome result (IsTypedJudgement world.now) }
    ensures known { IfSome result (λ j. HasRules world.now (AJudgement j)) }
{
    let judgement = as_judgement(world, formula)?;
    if knows_rules(world, &judgement) {
        Some(judgement)
    } else {
        None
    }
}

/// The rule of this number of the judgement that the conclusion is.
fn by_rule<L>(
    alloc: Global,
    world: &mut World,
    goal: &Goal,
    number: usize,
    own: &[CellId],
    steps: &mut Steps<L>,
) -> Result<Taken, AllocError>
    requires world { IsWorld world.old }
    requires goal { IsNamedGoal world.old.types world.old.store goal.now }
    requires own { All (HoldsCell world.old.store) own.now }
    ensures taken { IfOk result (HoldsTaken world.new) }
    ensures later { IsLater world.old world.new }
    ensures steps { steps.old ≤ steps.new }
{
    let Some(judgement) = ruled_judgement(world, goal.conclusion) else {
        return Err(AllocError);
    };
    let ruled = with_rules(alloc, world, &judgement)?;
    let Some(rule) = rule_at(alloc, world, &ruled, number)? else {
        return Err(AllocError);
    };
    let closed = closed_names(alloc, world, &rule, own.len(), steps)?;
    let constants = &ruled.constants;
    let values = cells_given(alloc, &world.types, &mut world.store, own, constants)?;
    Ok(Taken::Rule(RuleTaken {
        number,
        values,
        closed,
    }))
}

/// The way that the cursor stands behind, of those that bring no variable and go by no form.
fn by_plain_cursor(cursor: &Cursor) -> Result<Taken, AllocError>
    ensures { IfOk result (λ taken. (w : AWorld) → HoldsTaken w taken) }
{
    match cursor {
        Cursor::Hypothesis(0) => Ok(Taken::Truth),
        Cursor::Hypothesis(number) => Ok(Taken::Hypothesis(*number - 1)),
        Cursor::Map(number, _, _) => Ok(Taken::Hypothesis(*number)),
        Cursor::Choice(0) => Ok(Taken::Right),
        _ => Err(AllocError),
    }
}

/// The way that was taken from the goal, the first one of the first place, to the second place. What it puts in are cells still.
pub(crate) fn way_taken<L>(
    alloc: Global,
    world: &mut World,
    goal: &Goal,
    before: &Frame,
    after: &Place,
    steps: &mut Steps<L>,
) -> Result<Taken, AllocError>
    requires world { IsWorld world.old }
    requires goal { IsNamedGoal world.old.types world.old.store goal.now }
    requires after { HoldsPlace world.old.types world.old.store after.now }
    ensures taken { IfOk result (HoldsTaken world.new) }
    ensures later { IsLater world.old world.new }
    ensures steps { steps.old ≤ steps.new }
{
    match &before.cursor {
        Cursor::Second => by_form(alloc, world, goal, &before.place, after),
        Cursor::Choice(number) if *number > 0 => {
            let own = cells_brought(alloc, &before.place, after)?;
            by_choice(alloc, world, goal, *number - 1, &own)
        }
        Cursor::Rule(number) if *number > 0 => {
            let own = cells_brought(alloc, &before.place, after)?;
            by_rule(alloc, world, goal, *number - 1, &own, steps)
        }
        cursor => by_plain_cursor(cursor),
    }
}
