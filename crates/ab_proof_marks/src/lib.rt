//! Marks that are raised for what a proof names behind the steps that stood before, and the last type that it names there.
#![tactic(auto)]

mod proof_marks;
mod step_marks;
mod step_types;

pub use ab_remains as remains;
pub use proof_marks::{mark_to_proof, mark_to_steps_behind};
pub use step_types::last_type_behind;
