//! Answers exist: each text says a command, or there is a cause why it says none.
#![tactic(auto)]

pub mod says_laws;
