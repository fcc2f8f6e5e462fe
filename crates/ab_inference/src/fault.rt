//! Why an expression isn't read.
use ab_store::name::Name;
use std::alloc::AllocError;

/// Why an expression or a type isn't read. Places are in bytes.
#[derive(Drop)]
pub enum InferFault {
    /// The name stands for nothing.
    Unknown(Name),
    /// What begins at the place has no reading.
    TypeClash(usize),
    /// There are several readings, and the name at the place is the first to which two of them give different types.
    Untyped(usize),
    /// There was no memory.
    Memory(AllocError),
}

impl From<AllocError> for InferFault {
    ghost use Rattle.std.specs.Prelude.{◌≡◌};
    ghost use Rattle.ab_inference.specs.declared.fault.InferFault.{InferFault};

    ghost from_gives = { λ given fault. fault ≡ InferFault.Memory given };

    fn from(given: AllocError) -> InferFault {
        InferFault::Memory(given)
    }
}
