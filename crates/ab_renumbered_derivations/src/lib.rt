//! Derivations by other numbers for variables: laws.
#![tactic(auto)]

pub mod laws;
