//! Why a command doesn't come to its end.
use crate::refusal::{Place, Refusal};
use ab_inference::InferFault;
use std::alloc::AllocError;

/// Why a command doesn't come to its end.
#[derive(Drop)]
pub(crate) enum Halt {
    Refused(Refusal),
    /// There was no memory.
    Memory(AllocError),
}

impl From<AllocError> for Halt {
    ghost use Rattle.std.specs.Prelude.{◌≡◌};
    ghost use Rattle.ab_declare.specs.declared.halt.Halt.{Halt};

    ghost from_gives = { λ fault halt. halt ≡ Halt.Memory fault };

    fn from(fault: AllocError) -> Halt {
        Halt::Memory(fault)
    }
}

impl From<InferFault> for Halt {
    ghost use Rattle.std.specs.Prelude.{◌≡◌};
    ghost use Rattle.ab_declare.specs.Halts.{halt_for};

    ghost from_gives = { λ fault halt. halt ≡ halt_for fault };

    fn from(fault: InferFault) -> Halt {
        match fault {
            InferFault::Unknown(name) => Halt::Refused(Refusal::Unknown(name, None)),
            InferFault::TypeClash(place) => Halt::Refused(Refusal::TypeClash(Place::here(place))),
            InferFault::Untyped(place) => Halt::Refused(Refusal::Untyped(Place::here(place))),
            InferFault::Memory(error) => Halt::Memory(error),
        }
    }
}
