//! Laws of answers, and of the goals that they lead to.
ghost use Rattle.ab_logic.specs.Worlds.{IsWorld};
ghost use Rattle.ab_logic.specs.WorldGrowth.{Grows};
ghost use Rattle.ab_logic.specs.declared.world.World.{World};
ghost use Rattle.ab_equations.specs.Meanwhile.{IsMeanwhile, ComesBack};

/// What a call leaves that comes back is a world again, where no cell was bound in the beginning.
pub fn calls_that_come_back_leave_worlds()
    ensures world { (w v : World) → IsWorld w → ComesBack w v → Grows w v }
    ensures meanwhile { (w v : World) → IsMeanwhile w → ComesBack w v → IsMeanwhile v }
{}
