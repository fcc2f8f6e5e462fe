//! What is left in a world of what a command made: nodes and cells at its ends that nothing names are dropped.
#![tactic(auto)]

mod addition_marks;
mod remains;
mod sequent_marks;

pub use remains::drop_unnamed;
pub use sequent_marks::mark_to_sequent;
