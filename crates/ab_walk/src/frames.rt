//! The places on the way to where a walk stands, the last one last.
ghost use Rattle.std.specs.Prelude.{◌≡◌, ℕ, ◌≤◌, ◌++◌, ◌∷◌, [], List, IfOk};
ghost use Rattle.ab_norm.specs.ab_store.specs.declared.node.TermId.{TermId as AnId};
ghost use Rattle.ab_logic.specs.Worlds.{IsWorld};
ghost use Rattle.ab_logic.specs.declared.world.World.{World as AWorld};
ghost use Rattle.ab_search_trees.specs.Tree.{Leaf};
ghost use Rattle.ab_walk.specs.Standing.{IsLater};
ghost use Rattle.ab_walk.specs.Stacks.{Beginning, IsBefore, IsStack, IsUnderway, GoesOn};
ghost use Rattle.ab_walk.specs.declared.frames.Frame.{Frame as AFrame};

use crate::seen_leaves::Seen;
use crate::turns::{Turn, take_turn};
use crate::walk::Told;
use ab_logic::World;
use ab_next_ways::Cursor;
use ab_next_ways::ways::Place;
use ab_norm::store::{Mark, TermId};
use ab_norm::types::Steps;
use std::alloc::{AllocError, Global};

/// A place whose ways are being gone: behind the cursor they are still to be gone. The mark is that of the world before the way
/// was made that led there.
#[derive(Drop)]
pub struct Frame {
    pub place: Place,
    pub cursor: Cursor,
    pub mark: Mark,
}

/// Leaves the last place, and takes back what was made on the way to it.
fn leave<L>(world: &mut World, stack: &mut Vec<Frame>, steps: &mut Steps<L>)
    requires before { (fs : List AFrame) × (f : AFrame) × (u : AWorld) × (stack.old.items ≡ fs ++ f ∷ []) × IsBefore u f.mark world.old }
    ensures left { (first : Beginning) (base : List AnId) (fs : List AFrame) (f : AFrame) (u : AWorld) (ls : List Leaf) (n : ℕ) → stack.old.items ≡ fs ++ f ∷ [] →
        IsBefore u f.mark world.old → IsStack first base u fs ls n → IsStack first base world.new stack.new.items ls n }
    ensures steps { steps.old ≤ steps.new }
{
    if let Some(frame) = stack.pop() {
        world.store.cut_to(&frame.mark, steps);
    }
}

/// One turn at the last place: behind it the walk goes on, or it tells what it found.
pub(crate) fn take_step<L>(
    alloc: Global,
    world: &mut World,
    base: &[TermId],
    stack: &mut Vec<Frame>,
    seen: &mut Seen,
    steps: &mut Steps<L>,
) -> Result<Option<Told>, AllocError>
    requires world { IsWorld world.old }
    requires underway { (first : Beginning) × (ls : List Leaf) × (n : ℕ) × IsUnderway first base.now ls n world.old stack.old.items seen.old }
    ensures goes_on { IfOk result (λ told. (first : Beginning) (ls : List Leaf) (n : ℕ) → IsUnderway first base.now ls n world.old stack.old.items seen.old →
        GoesOn first base.now ls n world.new stack.new.items seen.new told) }
    ensures later { (first : Beginning) (ls : List Leaf) (n : ℕ) → IsUnderway first base.now ls n world.old stack.old.items seen.old → IsLater first.world world.new }
    ensures steps { steps.old ≤ steps.new }
{
    let mark = world.store.mark();
    let Some(frame) = stack.last_mut() else {
        return Ok(Some(Told::Not(seen.stuck, seen.blind)));
    };
    match take_turn(alloc, world, base, &frame.place, &mut frame.cursor, steps)? {
        Turn::Closed => Ok(Some(Told::Found)),
        Turn::Ended(here) => {
            seen.note_blind(here);
            leave(world, stack, steps);
            Ok(None)
        }
        Turn::Nothing => {
            world.store.cut_to(&mark, steps);
            Ok(None)
        }
        Turn::Stuck(equation) => {
            seen.note_stuck(equation);
            world.store.cut_to(&mark, steps);
            Ok(None)
        }
        Turn::Ahead(place) => {
            let cursor = Cursor::Start;
            stack.push(Frame {
                place,
                cursor,
                mark,
            })?;
            Ok(None)
        }
    }
}
