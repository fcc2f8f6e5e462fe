//! What a proof command works on.
ghost use Rattle.std.specs.Prelude.{◌≡◌, ◌≢◌, [], ◌∷◌, List};
ghost use Rattle.ab_logic.specs.SequentReadings.{sequent_of, HoldsSequent};
ghost use Rattle.ab_formulas.specs.Sequents.{Sequent as AGoal};
ghost use Rattle.ab_kernel.specs.Layout.{IsProof, goals_of};

use ab_kernel::Proof;
use ab_logic::{Sequent, World};

/// The first open goal, where one is open.
pub fn first_goal<'a>(world: &World, proof: &'a Proof) -> &'a Sequent
    requires proof { IsProof world.now proof.now }
    requires open { goals_of world.now proof.now ≢ [] }
    ensures reads { (s : AGoal) (rest : List AGoal) → goals_of world.now proof.now ≡ s ∷ rest → sequent_of world.now result.now ≡ s }
    ensures held { HoldsSequent world.now result.now }
{
    let _ = world;
    let Some(goal) = proof.current() else {
        unreachable!();
    };
    goal
}
