//! Laws of the language: each text has an answer, the first token that is too deep is blamed, and what is printed reads back.
#![tactic(auto)]

pub mod depths;
pub mod readback;
pub mod totality;
