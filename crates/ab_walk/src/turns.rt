//! One turn at a place of a search tree.
ghost use Rattle.std.specs.Prelude.{◌≡◌, ℕ, ◌≤◌, List, IfOk};
ghost use Rattle.ab_logic.specs.WorldGrowth.{Grows};
ghost use Rattle.ab_logic.specs.Worlds.{IsWorld, declarations_of};
ghost use Rattle.ab_search_trees.specs.Goals.{Now};
ghost use Rattle.ab_search_trees.specs.Tree.{Leaf};
ghost use Rattle.ab_walk.specs.Standing.{IsOpen, IsTurn};

use ab_logic::World;
use ab_next_ways::ways::{Place, Tried, is_blind, try_way};
use ab_next_ways::{Cursor, Step, next_way};
use ab_norm::store::TermId;
use ab_norm::types::Steps;
use std::alloc::{AllocError, Global};

/// What comes of one turn at a place.
#[derive(Drop)]
pub(crate) enum Turn {
    /// No goal is left.
    Closed,
    /// No way is left; and whether the search is blind here.
    Ended(bool),
    /// A way ended, or none was gone.
    Nothing,
    /// A way ended at this equation, which is outside the patterns.
    Stuck(usize),
    /// A way leads to this place.
    Ahead(Place),
}

/// One turn at the place: the next way of its first goal is tried, and the cursor goes behind it.
pub(crate) fn take_turn<L>(
    alloc: Global,
    world: &mut World,
    base: &[TermId],
    place: &Place,
    cursor: &mut Cursor,
    steps: &mut Steps<L>,
) -> Result<Turn, AllocError>
    requires world { IsWorld world.old }
    requires open { (at : Now) × (ls : List Leaf) × (n : ℕ) × IsOpen world.old base.now at place.now cursor.old ls n }
    ensures turn { IfOk result (λ turn. (at : Now) (ls : List Leaf) (n : ℕ) → IsOpen world.old base.now at place.now cursor.old ls n →
        IsTurn world.old base.now at place.now cursor.new world.new ls n turn) }
    ensures grows { Grows world.old world.new }
    ensures declared { declarations_of world.new ≡ declarations_of world.old }
    ensures steps { steps.old ≤ steps.new }
{
    let Some((goal, rest)) = place.goals.split_first() else {
        return Ok(Turn::Closed);
    };
    let flexible = place.flexible.as_slice();
    match next_way(alloc, world, base, flexible, goal, cursor, steps)? {
        Step::Passed => Ok(Turn::Nothing),
        Step::Ended => Ok(Turn::Ended(is_blind(&world.store, flexible, goal.conclusion))),
        Step::Made(way) => match try_way(alloc, world, &way, rest, steps)? {
            Tried::Apart => Ok(Turn::Nothing),
            Tried::Refused => Ok(Turn::Nothing),
            Tried::Stuck(equation) => Ok(Turn::Stuck(equation)),
            Tried::Ahead(ahead) => Ok(Turn::Ahead(ahead)),
        },
    }
}
