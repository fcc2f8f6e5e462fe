//! How far the reading of files has come.
ghost use Rattle.std.specs.Prelude.{◌≤◌};

use crate::spec::SpecFile;
use ab_grammar::FileKind;
use ab_name::Name;
use std::alloc::Global;

/// A file that is being read.
#[derive(Drop)]
pub(crate) struct OpenFile {
    pub(crate) base: Name,
    pub(crate) kind: FileKind,
}

/// How far reading has come.
#[derive(Drop)]
pub(crate) struct Reading {
    pub(crate) alloc: Global,
    /// The files that are being read, the outermost first.
    pub(crate) open: Vec<OpenFile>,
    /// How many files were loaded.
    pub(crate) loads: usize,
    /// The files that were read, in the order in which their items take effect.
    pub(crate) files: Vec<SpecFile>,
    ghost within: { loads ≤ 1000 },
}
