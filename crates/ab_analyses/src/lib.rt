//! All alternatives of a defined atom or a judgement, as one list: what must be equal for it to hold by one of its clauses or rules,
//! and what holds then. `specs/Lib.antt` is the table of contents.
#![tactic(auto)]

mod answers;
mod atoms;
mod judgements;
pub mod laws;
mod subjects;

pub use answers::{Alternative, AtomFault, Raise};
pub use subjects::alternatives;
