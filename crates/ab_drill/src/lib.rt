//! The drill: a generated script of so many theorems, and the line that sums up how it went.
#![tactic(auto)]

mod script;
mod summary;

pub use script::drill_script;
pub use summary::{Tallies, write_summary};
