//! A session over the logic: what the commands so far have led to, and what the next command does.
#![tactic(auto)]

mod assumptions;
mod attempt;
mod attempt_steps;
mod command_history;
mod latest_marks;
pub mod laws;
mod past_proofs;
mod place_marks;
mod proof_steps;
mod refusals;
mod session;

pub use ab_states as states;
pub use session::{BackFault, Session};
