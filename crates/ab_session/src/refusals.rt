//! Refusals of commands that aren't read, and of proof commands.
ghost use Rattle.std.specs.Prelude.{◌≡◌, Some, IfOk};
ghost use Rattle.ab_sigmod.specs.FileOrder.{Fault};
ghost use Rattle.ab_sigmod.specs.Outcomes.{fault_of};
ghost use Rattle.ab_states.specs.Reply.{unread_for, files_unread_for};
ghost use Rattle.ab_states.specs.ab_specification.specs.ab_declare.specs.Refusals.{here};
ghost use Rattle.ab_states.specs.ab_specification.specs.FileDeclarations.{place_in};
ghost use Rattle.ab_session.specs.ProofAttempts.{TellsOf};

use ab_command::Cause;
use ab_proofcmd::hypothesis::steps::ProofCommandFault;
use ab_sigmod::SpecFault;
use ab_states::specification::declare::{Chain, Place, Refusal};
use ab_store::name::Name;
use std::alloc::AllocError;

/// The refusal of bytes that say no command.
pub(crate) fn refusal_of_cause(cause: Cause) -> Refusal
    ensures { result ≡ unread_for cause }
{
    match cause {
        Cause::Syntax(place) => Refusal::Syntax(Place::here(place)),
        Cause::WrongPlace => Refusal::WrongPlace,
        Cause::TooNested(place) => Refusal::TooNested(Place::here(place)),
        Cause::NotBuilt => Refusal::NotBuilt,
    }
}

/// The place in the file.
fn place_in(file: Name, at: usize) -> Place
    ensures { result ≡ place_in file (here at) }
{
    Place {
        at,
        file: Some(file),
    }
}

/// The refusal of files that can't be read.
pub(crate) fn files_unread(fault: SpecFault) -> Result<Refusal, AllocError>
    ensures { IfOk result (λ r. (f : Fault) × (fault_of fault ≡ Some f) × (r ≡ files_unread_for f)) }
{
    match fault {
        SpecFault::FileMissing(name) => Ok(Refusal::FileMissing(name)),
        SpecFault::FileFault(name) => Ok(Refusal::FileFault(name)),
        SpecFault::FileTooLong(name) => Ok(Refusal::FileTooLong(name)),
        SpecFault::Syntax(name, place) => Ok(Refusal::Syntax(place_in(name, place))),
        SpecFault::TooNested(name, place) => Ok(Refusal::TooNested(place_in(name, place))),
        SpecFault::WrongTitle(name) => Ok(Refusal::WrongTitle(name)),
        SpecFault::Circular(names) => Ok(Refusal::Circular(Chain::from_names(names))),
        SpecFault::TooManyFiles(name) => Ok(Refusal::TooManyFiles(name)),
        SpecFault::Memory(error) => Err(error),
    }
}

/// The refusal that the fault of a proof command is.
pub(crate) fn refusal_of_fault(fault: ProofCommandFault) -> Result<Refusal, AllocError>
    ensures { IfOk result (TellsOf fault) }
{
    match fault {
        ProofCommandFault::Unknown(name) => Ok(Refusal::Unknown(name, None)),
        ProofCommandFault::Clash(name) => Ok(Refusal::Clash(name, None)),
        ProofCommandFault::TypeClash(place) => Ok(Refusal::TypeClash(Place::here(place))),
        ProofCommandFault::Untyped(place) => Ok(Refusal::Untyped(Place::here(place))),
        ProofCommandFault::NoHypothesis(name) => Ok(Refusal::NoHypothesis(name)),
        ProofCommandFault::WrongShape => Ok(Refusal::WrongShape),
        ProofCommandFault::Mark => Ok(Refusal::Mark),
        ProofCommandFault::NoMatch => Ok(Refusal::NoMatch),
        ProofCommandFault::NotPattern(number) => Ok(Refusal::NotPattern(number)),
        ProofCommandFault::Unresolved(name) => Ok(Refusal::Unresolved(name)),
        ProofCommandFault::NamesSpent => Ok(Refusal::NamesSpent),
        ProofCommandFault::Memory(error) => Err(error),
    }
}
