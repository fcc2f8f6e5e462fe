//! What follows from a formula: what stands for it, and what a use of it leads to.
#![tactic(auto)]

pub mod laws;
