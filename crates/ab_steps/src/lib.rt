//! What all proof commands share: steps that are taken at a goal, and taken back.
#![tactic(auto)]

mod fault;
mod goal_parts;
mod goal_steps;
pub mod laws;

pub use ab_kernel as kernel;
pub use fault::{ProofCommandFault, not_pattern};
pub use goal_parts::first_goal;
pub use goal_steps::{Attempted, attempt, attempt_solving, surely, take_back};
