//! The table of kinds, constants and types, and counts of steps; with names, from the crate below.
#![tactic(auto)]

mod builtin;
mod columns;
mod fault;
mod ids;
pub mod laws;
mod steps;
mod table;
mod tally;

pub use ab_name as name;
pub use fault::TableFault;
pub use ids::{ConstId, KindId, TypeId, TypeView, later};
pub use steps::Steps;
pub use table::TypeTable;
