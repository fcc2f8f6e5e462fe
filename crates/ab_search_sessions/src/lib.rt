//! What is asked of declarations where an answer of a search is a proof, of what a session declares.
#![tactic(auto)]

pub mod laws;
