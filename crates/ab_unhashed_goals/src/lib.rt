//! No judgement of a goal is marked as coinduction marks: laws.
#![tactic(auto)]

pub mod goal_laws;
