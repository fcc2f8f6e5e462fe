//! What proof commands do to a goal is derived: laws.
#![tactic(auto)]

pub mod laws;
