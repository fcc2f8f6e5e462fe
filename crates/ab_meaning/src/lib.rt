//! What an expression means, as a typed term.
#![tactic(auto)]

pub mod reading_laws;
pub mod sentence_laws;
