//! Each proof command has one answer, and each command one effect on a state.
#![tactic(auto)]

pub mod answer_laws;
pub mod effect_laws;
