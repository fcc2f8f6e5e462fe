//! The walk of a search tree.
ghost use Rattle.std.specs.Prelude.{◌≡◌, ℕ, ◌≤◌, [], List, IfOk};
ghost use Rattle.ab_logic.specs.WorldGrowth.{Grows};
ghost use Rattle.ab_logic.specs.Worlds.{IsWorld, declarations_of};
ghost use Rattle.ab_search_trees.specs.Tree.{Leaf};
ghost use Rattle.ab_walk.specs.Places.{goals_read, HasLeaves};
ghost use Rattle.ab_walk.specs.Paths.{HoldsPath, WhereFound, LeadToAnswer};
ghost use Rattle.ab_walk.specs.Told.{Tells, UnlessFound, IsAsBefore};

use crate::frames::{Frame, take_step};
use crate::seen_leaves::Seen;
use ab_logic::World;
use ab_next_ways::Cursor;
use ab_next_ways::ways::Place;
use ab_norm::store::TermId;
use ab_norm::types::Steps;
use std::alloc::{AllocError, Global};

/// What a walk tells.
#[derive(Clone, Copy)]
pub enum Told {
    /// Every goal was closed.
    Found,
    /// They weren't: the first equation outside the patterns, if there is one, and whether the search was blind somewhere.
    Not(Option<usize>, bool),
}

/// Goes on from the place until every goal is closed, or no place is left. The stack is empty before; where every goal was closed, it
/// holds the places on the way, which lead to an answer. No more turns are taken than lead through the leaves.
fn walk_on<L>(
    alloc: Global,
    world: &mut World,
    base: &[TermId],
    place: Place,
    stack: &mut Vec<Frame>,
    steps: &mut Steps<L>,
) -> Result<Told, AllocError>
    ghost turns: { ℕ }
    requires world { IsWorld world.old }
    requires place { (ls : List Leaf) × HasLeaves world.old base.now place ls turns }
    requires empty { stack.old.items ≡ [] }
    ensures told { IfOk result (λ told. (ls : List Leaf) → HasLeaves world.old base.now place ls turns → Tells ls told) }
    ensures as_before { IfOk result (λ told. UnlessFound told (IsAsBefore world.old world.new)) }
    ensures path { IfOk result (λ told. WhereFound told (HoldsPath world.new.types world.new.store stack.new.items)) }
    ensures leads { IfOk result (λ told. (ls : List Leaf) (at : HasLeaves world.old base.now place ls turns) →
        WhereFound told (LeadToAnswer world.new base.now at.0 (goals_read world.old base.now place.goals) stack.new.items)) }
    ensures grows { Grows world.old world.new }
    ensures declared { declarations_of world.new ≡ declarations_of world.old }
    ensures steps { steps.old ≤ steps.new }
{
    let mark = world.store.mark();
    let cursor = Cursor::Start;
    stack.push(Frame {
        place,
        cursor,
        mark,
    })?;
    let mut seen = Seen {
        stuck: None,
        blind: false,
    };
    let mut taken = Steps::<()>::new();
    'turns: loop {
        taken.tick();
        if let Some(told) = take_step(alloc, world, base, stack, &mut seen, steps)? {
            return Ok(told);
        }
    }
}

/// THE WALK from a place of the tree, whose goals these are: each way of the first is tried, one after another, and where it leads
/// to another place, that is gone through first. What was made on a way is taken back behind it. The base are the first
/// hypotheses of all goals. Unless the goals are closed, and where memory runs out, the store is as it was, but for room; and where
/// they are, the places from this one on stand on the path, which was empty, and lead to an answer.
pub(crate) fn walk<L>(
    alloc: Global,
    world: &mut World,
    base: &[TermId],
    place: Place,
    path: &mut Vec<Frame>,
    steps: &mut Steps<L>,
) -> Result<Told, AllocError>
    ghost turns: { ℕ }
    requires world { IsWorld world.old }
    requires place { (ls : List Leaf) × HasLeaves world.old base.now place ls turns }
    requires empty { path.old.items ≡ [] }
    ensures told { IfOk result (λ told. (ls : List Leaf) → HasLeaves world.old base.now place ls turns → Tells ls told) }
    ensures as_before { IfOk result (λ told. UnlessFound told (IsAsBefore world.old world.new)) }
    ensures path { IfOk result (λ told. WhereFound told (HoldsPath world.new.types world.new.store path.new.items)) }
    ensures leads { IfOk result (λ told. (ls : List Leaf) (at : HasLeaves world.old base.now place ls turns) →
        WhereFound told (LeadToAnswer world.new base.now at.0 (goals_read world.old base.now place.goals) path.new.items)) }
    ensures grows { Grows world.old world.new }
    ensures declared { declarations_of world.new ≡ declarations_of world.old }
    ensures steps { steps.old ≤ steps.new }
{
    let mark = world.store.mark();
    match walk_on(alloc, world, base, place, path, steps) {
        Ok(told) => Ok(told),
        Err(error) => {
            world.store.cut_to(&mark, steps);
            Err(error)
        }
    }
}
