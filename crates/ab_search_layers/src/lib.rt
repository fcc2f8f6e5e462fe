//! Layers of judgements that a search opens one by one: what it proves so is derived.
#![tactic(auto)]

pub mod laws;
