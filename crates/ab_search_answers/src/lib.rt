//! From an answer of the search tree, with what it leaves open filled, to a proof of the search.
#![tactic(auto)]

pub mod laws;
