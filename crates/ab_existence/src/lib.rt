//! Answers exist: each kernel step is taken, refused or stuck, and new variables find names.
#![tactic(auto)]

pub mod name_laws;
pub mod rule_laws;
