//! Why a search closed no goal.

use std::alloc::AllocError;
use thiserror::Error;

/// Why a search closed no goal.
#[derive(Debug, Drop, Error)]
pub enum SearchFault {
    /// No way closes the goal, and of the equations that are outside the patterns the first has this number, counted from 1.
    #[error("NotPattern")]
    NotPattern(usize),
    /// No way closes the goal.
    #[error("NotFound")]
    NotFound,
    /// There was no memory.
    #[error("Memory")]
    Memory(AllocError),
}

impl From<AllocError> for SearchFault {
    ghost use Rattle.std.specs.Prelude.{◌≡◌};
    ghost use Rattle.ab_search.specs.declared.fault.SearchFault.{SearchFault};

    ghost from_gives = { λ a f. f ≡ SearchFault.Memory a };

    fn from(fault: AllocError) -> SearchFault {
        SearchFault::Memory(fault)
    }
}
