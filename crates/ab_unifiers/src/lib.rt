//! Unification and case analysis on plain trees: definitions and laws.
#![tactic(auto)]

pub mod case_examples;
pub mod case_laws;
pub mod renumbering_laws;
pub mod unification_examples;
pub mod unification_laws;
