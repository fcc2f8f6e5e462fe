//! From what a search shows to a derivation by the rules.
#![tactic(auto)]

pub mod laws;
