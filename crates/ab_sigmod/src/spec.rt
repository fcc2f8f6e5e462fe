//! Specifications, as they are read.
ghost use Rattle.std.specs.Prelude.{◌≡◌};

use ab_name::Name;
use ab_syntax::{Items, SpecItem};
use std::alloc::AllocError;

/// A file of a specification.
#[derive(Drop)]
pub struct SpecFile {
    /// Its name, with the ending.
    pub name: Name,
    /// What it declares itself, in order.
    pub items: Items<SpecItem>,
}

/// A specification.
#[derive(Drop)]
pub struct Spec {
    /// Its files, in the order in which their items take effect, each once.
    pub files: Items<SpecFile>,
}

/// Why a specification can't be read. A name is that of the file at fault, and a place in it is counted in bytes.
#[derive(Drop)]
pub enum SpecFault {
    FileMissing(Name),
    FileFault(Name),
    FileTooLong(Name),
    Syntax(Name, usize),
    TooNested(Name, usize),
    /// The title is not the file's name without folder and ending.
    WrongTitle(Name),
    /// A file accumulates itself: the names from it to it, without endings.
    Circular(Items<Name>),
    /// One file more would be loaded than a specification may have.
    TooManyFiles(Name),
    Memory(AllocError),
}

impl From<AllocError> for SpecFault {
    ghost use Rattle.ab_sigmod.specs.declared.spec.SpecFault.TheVariants.{Memory};

    ghost from_gives = { λ fault answer. answer ≡ Memory fault };

    fn from(fault: AllocError) -> SpecFault {
        SpecFault::Memory(fault)
    }
}
