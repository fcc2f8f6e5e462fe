//! Answers exist: each list of files is read or can't be, and each command has an effect on each whole state.
#![tactic(auto)]

pub mod declaration_laws;
pub mod effect_laws;
pub mod file_laws;
