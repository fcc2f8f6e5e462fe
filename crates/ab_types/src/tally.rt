//! A count that takes no bytes.
ghost use Rattle.std.specs.Prelude.{◌≡◌, ℕ, ◌+◌};

use std::marker::Model;

/// A number that proofs know and no byte holds. Who has the tally owns the one place at which the number
/// stands.
#[derive(Drop)]
pub struct Tally {
    pub ghost name: { ℕ },
    pub ghost count: { ℕ },
}

impl Model for Tally {
    ghost use Rattle.ab_types.specs.Tally.{tally_owns};

    ghost also_owns = { λ t. tally_owns t.name t.count };
}

impl Tally {
    /// A count of 0.
    pub fn new() -> Tally
        ensures { result.count ≡ 0 }
    {
        Tally {}
    }

    /// One more.
    pub fn add_one(&mut self)
        ensures { self.new.count ≡ self.old.count + 1 }
    {}
}
