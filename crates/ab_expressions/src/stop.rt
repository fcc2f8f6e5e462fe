//! Why a part of a text is not read.

use std::alloc::AllocError;

/// Why a reader stops. The next token is then the one at fault.
#[derive(Clone, Copy, Drop)]
pub enum Stop {
    /// No text goes on with the next token.
    Syntax,
    /// The next token is nested too deeply.
    TooNested,
    /// There was no memory for what was read.
    Memory(AllocError),
}

impl From<AllocError> for Stop {
    ghost use Rattle.std.specs.Prelude.{◌≡◌};
    ghost use Rattle.ab_expressions.specs.declared.stop.Stop.TheVariants.{Memory};

    ghost from_gives = { λ fault stop. stop ≡ Memory fault };

    fn from(fault: AllocError) -> Stop {
        Stop::Memory(fault)
    }
}
