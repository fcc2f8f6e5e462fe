//! Why a text has no tree.

use std::alloc::AllocError;
use thiserror::Error;

/// Why tokens aren't read as a tree. A place is a number of bytes from the first byte of the first token.
#[derive(Clone, Copy, Debug, Drop, Error)]
pub enum ParseFault {
    /// The place of the first token that no text goes on with, or the number of the bytes where the tokens end too early.
    #[error("Syntax")]
    Syntax(usize),
    /// The place of the first token that is nested too deeply.
    #[error("TooNested")]
    TooNested(usize),
    /// There was no memory for the tree.
    #[error("Memory")]
    Memory(AllocError),
}

impl From<AllocError> for ParseFault {
    ghost use Rattle.std.specs.Prelude.{◌≡◌};
    ghost use Rattle.ab_expressions.specs.declared.fault.ParseFault.TheVariants.{Memory};

    ghost from_gives = { λ error fault. fault ≡ Memory error };

    fn from(error: AllocError) -> ParseFault {
        ParseFault::Memory(error)
    }
}
