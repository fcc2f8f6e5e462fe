//! Why a command is refused.
ghost use Rattle.std.specs.Prelude.{◌≡◌, IfOk};
ghost use Rattle.ab_declare.specs.Refusals.{here, RefusedFor};

use crate::chain::Chain;
use ab_inference::InferFault;
use ab_norm::name::Name;
use std::alloc::AllocError;

/// Where a fault stands: so many bytes from where the command begins, or the file.
#[derive(Drop)]
pub struct Place {
    pub at: usize,
    /// The file, where the fault isn't in the command itself.
    pub file: Option<Name>,
}

impl Place {
    /// A place in the command itself.
    pub fn here(at: usize) -> Place
        ensures { result ≡ here at }
    {
        Place { at, file: None }
    }
}

/// Why a command is refused. A name stands with the file that it stands in, where it isn't in the command itself.
#[derive(Drop)]
pub enum Refusal {
    /// The grammar has no command that goes on by the token at this place, or a byte there begins no token.
    Syntax(Place),
    /// The command has more bytes than a command may have.
    TooLong,
    /// The name stands for nothing.
    Unknown(Name, Option<Name>),
    /// The name is in use, or is given twice.
    Clash(Name, Option<Name>),
    /// What begins at the place has no reading.
    TypeClash(Place),
    /// There are several readings, and the name at the place is the first to which two of them give different types.
    Untyped(Place),
    /// The predicate stands to the left of an arrow in the body of its own definition.
    NotStratified(Name),
    /// The clause of this number, from 1, has a head that a clause may not have.
    BadHead(usize, Option<Name>),
    /// The command doesn't stand where a proof is open, or where none is.
    WrongPlace,
    /// The current goal has no hypothesis of that name.
    NoHypothesis(Name),
    /// The form that the command asks for isn't there.
    WrongShape,
    /// Two sides that are to be made equal can't be.
    NoMatch,
    /// The equation of this number, from 1, is outside the patterns.
    NotPattern(usize),
    /// A variable that came from the name stays open.
    Unresolved(Name),
    /// A mark doesn't serve, or isn't allowed there.
    Mark,
    /// The search has no answer.
    NotFound,
    /// There is no command to take back.
    NothingToUndo,
    /// There is no such file.
    FileMissing(Name),
    /// The file couldn't be read.
    FileFault(Name),
    /// The file has more bytes than a file may have.
    FileTooLong(Name),
    /// The title of the file isn't its name.
    WrongTitle(Name),
    /// The file accumulates itself; the names of the chain, from the file to itself.
    Circular(Chain),
    /// The command is nested too deep from the token at this place on.
    TooNested(Place),
    /// No name is left for a hypothesis that is to be named by itself.
    NamesSpent,
    /// The file would be one more than may be loaded.
    TooManyFiles(Name),
    /// The grammar has the command, but it isn't built.
    NotBuilt,
}

/// The refusal of an expression or a type that isn't read.
pub(crate) fn refusal_for(fault: InferFault) -> Result<Refusal, AllocError>
    ensures { IfOk result (RefusedFor fault) }
{
    match fault {
        InferFault::Unknown(name) => Ok(Refusal::Unknown(name, None)),
        InferFault::TypeClash(place) => Ok(Refusal::TypeClash(Place::here(place))),
        InferFault::Untyped(place) => Ok(Refusal::Untyped(Place::here(place))),
        InferFault::Memory(error) => Err(error),
    }
}
