//! Why no command was read.

use std::alloc::AllocError;

/// Why the bytes say no command that stands here. A place is a number of bytes from where the command begins.
#[derive(Clone, Copy)]
pub enum Cause {
    /// The grammar has no command that goes on by the token at this place, or a byte there begins no token.
    Syntax(usize),
    /// The command doesn't stand where a proof is open, or where none is.
    WrongPlace,
    /// The command is nested too deep from the token at this place on.
    TooNested(usize),
    /// The grammar has the command, but it isn't built.
    NotBuilt,
}

/// Why no command was read.
#[derive(Drop)]
pub enum Unread {
    Refused(Cause),
    /// There was no memory for it.
    Memory(AllocError),
}

impl From<AllocError> for Unread {
    ghost use Rattle.std.specs.Prelude.{◌≡◌};
    ghost use Rattle.ab_command.specs.declared.fault.Unread.{Unread};

    ghost from_gives = { λ fault given. given ≡ Unread.Memory fault };

    fn from(fault: AllocError) -> Unread {
        Unread::Memory(fault)
    }
}
