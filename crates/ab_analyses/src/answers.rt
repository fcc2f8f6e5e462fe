//! What is answered of an atom or a judgement.

use ab_norm::Nominal;
use ab_norm::store::{CellId, Equation, TermId};
use std::alloc::AllocError;
use thiserror::Error;

/// A variable of a goal, and the term that it becomes.
#[derive(Clone, Copy)]
pub struct Raise {
    pub cell: CellId,
    pub to: TermId,
}

/// An alternative: the new constants that were chosen, what the goal's variables become for their sake, the alternative's own
/// variables, what must be equal then, and what holds.
#[derive(Drop)]
pub struct Alternative {
    pub fresh: Vec<Nominal>,
    pub raised: Vec<Raise>,
    pub made: Vec<CellId>,
    pub equations: Vec<Equation>,
    pub body: TermId,
}

/// Why there are no alternatives.
#[derive(Debug, Drop, Error)]
pub enum AtomFault {
    /// The formula is no defined atom and no judgement, or by which rules the judgement may hold isn't known.
    #[error("NoAtom")]
    NoAtom,
    /// There was no memory.
    #[error("Memory")]
    Memory(AllocError),
}

impl From<AllocError> for AtomFault {
    ghost use Rattle.std.specs.Prelude.{◌≡◌};
    ghost use Rattle.ab_analyses.specs.declared.answers.AtomFault.{AtomFault};

    ghost from_gives = { λ a f. f ≡ AtomFault.Memory a };

    fn from(fault: AllocError) -> AtomFault {
        AtomFault::Memory(fault)
    }
}
