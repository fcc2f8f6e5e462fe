//! A way is tried by itself.
ghost use Rattle.std.specs.Prelude.{◌≡◌, ◌≤◌, ◌++◌, List, map, All, IfOk};
ghost use Rattle.ab_norm.specs.ab_store.specs.declared.node.TermId.{TermId as AnId};
ghost use Rattle.ab_norm.specs.ab_store.specs.Trees.{HoldsCell};
ghost use Rattle.ab_norm.specs.ab_store.specs.Naming.{IsTypedBy};
ghost use Rattle.ab_norm.specs.NodeGrowth.{AddsTypedTerms};
ghost use Rattle.ab_unify.specs.StoreChanges as changed;
ghost use Rattle.ab_logic.specs.WorldGrowth.{Grows};
ghost use Rattle.ab_logic.specs.Worlds.{IsWorld, declarations_of};
ghost use Rattle.ab_search_trees.specs.Goals.{Now};
ghost use Rattle.ab_search_trees.specs.Ways.{Way as AWay};
ghost use Rattle.ab_search_ways.specs.Answers.{IsAnswerFor, IsAnswered};
ghost use Rattle.ab_search_ways.specs.GoalReadings.{goal_read, HoldsGoal, IsTypedGoal};
ghost use Rattle.ab_search_ways.specs.MadeWays.{HoldsWay, IsTypedWay, IsMade, IsTried};
ghost use Rattle.ab_search_ways.specs.GoalsLeft.{IsLeft};

use crate::goal_lists::Goals;
use crate::goals_left::{add_resolved, add_touched, add_unbound, values_of};
use crate::way::{Place, Tried, Way};
use ab_logic::World;
use ab_norm::store::{CellId, Store};
use ab_norm::types::{Steps, TypeTable};
use ab_unify::{Solved, unify};
use std::alloc::{AllocError, Global};

/// What is left of the way, once its sides are made equal, and of the goals behind it. These cells were made then.
fn place_ahead<L>(
    alloc: Global,
    types: &TypeTable,
    store: &mut Store,
    way: &Way,
    made: &[CellId],
    rest: &Goals,
    steps: &mut Steps<L>,
) -> Result<Place, AllocError>
    requires store { IsTypedBy types.now store.old }
    requires flexible { All (HoldsCell store.old) way.now.flexible.items }
    requires made { All (HoldsCell store.old) made.now }
    requires goals { All (IsTypedGoal types.now store.old) way.now.goals.items }
    requires rest { All (IsTypedGoal types.now store.old) rest.now }
    ensures left { IfOk result (IsLeft types.now store.old store.new (way.now.flexible.items ++ made.now) (way.now.goals.items ++ rest.now)) }
    ensures answer { IfOk result (λ place. IsAnswerFor types.now store.new way.now.flexible.items place.answer.items) }
    ensures adds { AddsTypedTerms types.now store.old store.new }
    ensures steps { steps.old ≤ steps.new }
{
    let mut flexible = Vec::new(alloc);
    add_unbound(store, &way.flexible, &mut flexible)?;
    add_unbound(store, made, &mut flexible)?;
    let mut list = Vec::new(alloc);
    add_resolved(alloc, types, store, &way.goals, &mut list, steps)?;
    let kept = add_touched(alloc, types, store, rest, &mut list, steps)?;
    let goals = kept.with_all(alloc, list)?;
    let answer = values_of(alloc, types, store, &way.flexible, steps)?;
    Ok(Place {
        flexible,
        goals,
        answer,
    })
}

/// Tries the way. Cells are bound then where its sides are made equal.
fn solve_way<L>(
    alloc: Global,
    world: &mut World,
    way: &Way,
    rest: &Goals,
    steps: &mut Steps<L>,
) -> Result<Tried, AllocError>
    requires world { IsWorld world.old }
    requires way { HoldsWay world.old way.now }
    requires typed { IsTypedWay world.old way.now }
    requires rest { All (HoldsGoal world.old) rest.now }
    requires rest_typed { All (IsTypedGoal world.old.types world.old.store) rest.now }
    ensures tried { IfOk result (λ tried. (base : List AnId) (now : Now) (w : AWay) → IsMade world.old base w way.now →
        IsTried world.new base now w (map (goal_read world.old base) rest.now) tried) }
    ensures answer { IfOk result (IsAnswered world.new.types world.new.store way.now.flexible.items) }
    ensures grows { changed.Grows world.old.types world.old.store world.new.types world.new.store }
    ensures additions { world.new.additions ≡ world.old.additions }
    ensures steps { steps.old ≤ steps.new }
{
    match unify(
        alloc,
        &mut world.types,
        &mut world.store,
        &way.equations,
        &way.flexible,
        steps,
    )? {
        Solved::Apart => Ok(Tried::Apart),
        Solved::Stuck(place) => Ok(Tried::Stuck(place)),
        Solved::Unified(made) => {
            if !way.serves {
                return Ok(Tried::Refused);
            }
            let place = place_ahead(
                alloc,
                &world.types,
                &mut world.store,
                way,
                made.as_slice(),
                rest,
                steps,
            )?;
            Ok(Tried::Ahead(place))
        }
    }
}

/// Tries the way by itself: its sides are made equal, and where its marks serve, what is put in goes to the goals to which it
/// leads, and to those behind. What no binding touches is shared with them. The base, the first hypotheses of all goals, no answer
/// changes. Cells are bound meanwhile, and none is in the end.
pub fn try_way<L>(
    alloc: Global,
    world: &mut World,
    way: &Way,
    rest: &Goals,
    steps: &mut Steps<L>,
) -> Result<Tried, AllocError>
    requires world { IsWorld world.old }
    requires way { HoldsWay world.old way.now }
    requires typed { IsTypedWay world.old way.now }
    requires rest { All (HoldsGoal world.old) rest.now }
    requires rest_typed { All (IsTypedGoal world.old.types world.old.store) rest.now }
    ensures tried { IfOk result (λ tried. (base : List AnId) (now : Now) (w : AWay) → IsMade world.old base w way.now →
        IsTried world.new base now w (map (goal_read world.old base) rest.now) tried) }
    ensures answer { IfOk result (IsAnswered world.new.types world.new.store way.now.flexible.items) }
    ensures grows { Grows world.old world.new }
    ensures declared { declarations_of world.new ≡ declarations_of world.old }
    ensures steps { steps.old ≤ steps.new }
{
    let mark = world.store.mark();
    let tried = solve_way(alloc, world, way, rest, steps);
    world.store.rewind(&mark, steps);
    tried
}
