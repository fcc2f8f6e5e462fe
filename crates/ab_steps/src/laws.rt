//! Laws of what is taken and taken back.
ghost use Rattle.std.specs.Prelude.{◌≡◌};
ghost use Rattle.ab_logic.specs.declared.world.World.{World as AWorld};
ghost use Rattle.ab_kernel.specs.Layout.{Held, history_of};
ghost use Rattle.ab_steps.specs.Progress.{Advances};

/// A proof that stands where it stood before is the same proof, to each node, its step and the numbers of its children.
pub fn nothing_is_left_of_steps_taken_back()
    ensures { (w v : AWorld) (p q : Held) → Advances w p v q → history_of v q ≡ history_of w p → q ≡ p }
{}
