//! Why a command stops on its way.

use ab_steps::ProofCommandFault;
use std::alloc::AllocError;

/// Why a command stops on its way.
#[derive(Drop)]
pub enum Stop {
    /// A new hypothesis gets no name.
    NamesSpent,
    /// There was no memory.
    Memory(AllocError),
}

impl From<AllocError> for Stop {
    ghost use Rattle.std.specs.Prelude.{◌≡◌};
    ghost use Rattle.ab_hypothesis.specs.declared.stop.Stop.{Stop};

    ghost from_gives = { λ a f. f ≡ Stop.Memory a };

    fn from(fault: AllocError) -> Stop {
        Stop::Memory(fault)
    }
}
