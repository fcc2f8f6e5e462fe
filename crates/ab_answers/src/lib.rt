//! Answers exist: each expression has a meaning or a cause, and each proof command leads or is refused.
#![tactic(auto)]

pub mod command_laws;
pub mod instance_laws;
pub mod reading_laws;
