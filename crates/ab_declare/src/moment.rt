//! How much a world held, so that what came since can be dropped.
ghost use Rattle.std.specs.Prelude.{◌≡◌, ◌≤◌, ◌+◌, [], length};
ghost use Rattle.ab_logic.specs.Worlds.{IsWorld};
ghost use Rattle.ab_logic.specs.declared.world.World.{World as AWorld};
ghost use Rattle.ab_declare.specs.Moments.{IsMoment, HasMore, IsRestored};

use ab_logic::World;
use ab_norm::store::Mark;
use ab_norm::types::Steps;

/// How many types, terms, cells and declarations a world held.
#[derive(Clone, Copy)]
pub struct Moment {
    pub types: usize,
    pub mark: Mark,
    pub additions: usize,
}

impl Moment {
    /// How many there are.
    pub fn of(world: &World) -> Moment
        requires { IsWorld world.now }
        ensures { IsMoment world.now result }
    {
        Moment {
            types: world.types.len(),
            mark: world.store.mark(),
            additions: world.len(),
        }
    }

    /// Drops what the world got since, and counts a step for each entry of the table and each declaration that is dropped,
    /// where no cell is bound.
    pub fn cut_back<L>(&self, world: &mut World, steps: &mut Steps<L>)
        requires { (w : AWorld) × IsWorld w × IsMoment w self.now × HasMore w world.old }
        ensures restored { (w : AWorld) → IsWorld w → IsMoment w self.now → HasMore w world.old → IsRestored w world.new }
        ensures counted { steps.old ≤ steps.new }
        ensures steps { world.old.store.bindings ≡ [] →
            steps.new + length world.new.types + length world.new.additions ≡ steps.old + length world.old.types + length world.old.additions }
    {
        world.cut_to(self.additions, steps);
        world.store.cut_to(&self.mark, steps);
        world.types.cut_to(self.types, steps);
    }
}
