//! Why a proof command is refused.
ghost use Rattle.std.specs.Prelude.{◌≡◌, ◌⊎◌, ◌+◌};
ghost use Rattle.std.specs.declared.alloc.AllocError.{AllocError as AFault};
ghost use Rattle.ab_steps.specs.declared.fault.ProofCommandFault.TheVariants.{NotPattern, Memory};

use ab_types::name::Name;
use std::alloc::AllocError;
use thiserror::Error;

/// Why a proof command is refused.
#[derive(Debug, Drop, Error)]
pub enum ProofCommandFault {
    /// The name stands for nothing.
    #[error("Unknown")]
    Unknown(Name),
    /// The name is in use, or is given twice.
    #[error("Clash")]
    Clash(Name),
    /// The term that begins at this byte of the command has no reading.
    #[error("TypeClash")]
    TypeClash(usize),
    /// A term has several readings, which differ first in the type of the name at this byte of the command.
    #[error("Untyped")]
    Untyped(usize),
    /// The goal has no hypothesis of that name.
    #[error("NoHypothesis")]
    NoHypothesis(Name),
    /// The form that the command asks for isn't there.
    #[error("WrongShape")]
    WrongShape,
    /// A mark doesn't serve, or isn't allowed there.
    #[error("Mark")]
    Mark,
    /// Two sides that are to be made equal can't be.
    #[error("NoMatch")]
    NoMatch,
    /// The equation of this number, from 1, is outside the patterns.
    #[error("NotPattern")]
    NotPattern(usize),
    /// A variable that came from the name stays open.
    #[error("Unresolved")]
    Unresolved(Name),
    /// No name is left for a hypothesis that is to be named by itself.
    #[error("NamesSpent")]
    NamesSpent,
    /// There was no memory.
    #[error("Memory")]
    Memory(AllocError),
}

/// The refusal by the equation of this place, counted from 0. A place that no number is behind is want of memory.
pub fn not_pattern(place: usize) -> ProofCommandFault
    ensures { (result ≡ NotPattern (place + 1)) ⊎ ((fault : AFault) × (result ≡ Memory fault)) }
{
    match place.checked_add(1) {
        Some(number) => ProofCommandFault::NotPattern(number),
        None => ProofCommandFault::Memory(AllocError),
    }
}

impl From<AllocError> for ProofCommandFault {
    ghost use Rattle.std.specs.Prelude.{◌≡◌};
    ghost use Rattle.ab_steps.specs.declared.fault.ProofCommandFault.{ProofCommandFault};

    ghost from_gives = { λ a f. f ≡ ProofCommandFault.Memory a };

    fn from(fault: AllocError) -> ProofCommandFault {
        ProofCommandFault::Memory(fault)
    }
}
