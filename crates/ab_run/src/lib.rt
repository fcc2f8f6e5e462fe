//! A run over a script, from the bytes in to the bytes out: what the program promises is said by the clauses of [`run`].
#![tactic(auto)]

mod input;
pub mod laws;
mod output;
mod run_endings;
mod scripts;
mod status;
mod way;
mod whole_runs;

pub use whole_runs::{Ended, run};
