//! Why a table refuses.
use std::alloc::AllocError;

/// Why a table didn't take a name, or knows no kind of it.
#[derive(Clone, Copy, Drop)]
pub enum TableFault {
    /// No kind has the name.
    UnknownKind,
    /// What was to be declared is there: a kind, or a constant, of that name.
    Clash,
    /// There was no memory.
    Memory(AllocError),
}

impl From<AllocError> for TableFault {
    ghost use Rattle.std.specs.Prelude.{◌≡◌};
    ghost use Rattle.ab_types.specs.declared.fault.TableFault.{TableFault};

    ghost from_gives = { λ given fault. fault ≡ TableFault.Memory given };

    fn from(given: AllocError) -> TableFault {
        TableFault::Memory(given)
    }
}
