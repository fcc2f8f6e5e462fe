//! Steps, counted at no cost.
ghost use Rattle.std.specs.Prelude.{◌≡◌, ◌+◌};

use crate::tally::Tally;
use std::marker::{Model, PhantomData};

/// How many steps were taken. It takes no bytes, and only `tick` changes it. `L` keeps counts apart: what is
/// counted for one `L` isn't taken for what is counted for another.
#[derive(Drop)]
pub struct Steps<L> {
    tally: Tally,
    ledger: PhantomData<L>,
}

impl<L> Model for Steps<L> {
    ghost use Rattle.std.specs.Prelude.{ℕ};

    ghost Value = { ℕ };

    ghost view = { λ s. s.tally.count };
}

impl<L> Steps<L> {
    /// No step yet.
    pub fn new() -> Steps<L>
        ensures { result ≡ 0 }
    {
        Steps {
            tally: Tally::new(),
            ledger: PhantomData,
        }
    }

    /// One step more.
    pub fn tick(&mut self)
        ensures { self.new ≡ self.old + 1 }
    {
        self.tally.add_one();
    }
}
