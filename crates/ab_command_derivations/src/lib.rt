//! What proof commands do is derived: laws.
#![tactic(auto)]

pub mod effect_laws;
pub mod proof_laws;
pub mod search_laws;
