//! Specification files: the files of a specification are read in the order in which their items take effect, each once, or the first fault is told.
#![tactic(auto)]

mod file_text;
pub mod laws;
mod progress;
mod spec;
mod spec_files;
mod text;

pub use spec::{Spec, SpecFault, SpecFile};
pub use spec_files::{MAX_FILES, read_spec};
