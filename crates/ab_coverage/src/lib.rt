//! THAT CASE ANALYSIS LOSES NOTHING, as laws: each instance of what is analysed, under a clean substitution, is met by one of the goals that come
//! of it (`specs/Lib.antt` is the table of contents). Defined atoms, judgements of the specification logic and equations are met by the
//! premises of the rules that take them apart. Each public function has an empty body, and its contract is a law.
//!
//! - A goal that is a variable may open once it is replaced, so bodies are compared with all judgements opened.
//! - A name of the formula in focus may leave the atom, and then the instance's body closes it by `exists`: it is taken off, for any term.
//! - It may leave the goals, and then it isn't closed: an `exists` whose name doesn't stand in its body doesn't count.
//! - Proofs speak of names of a clause as indices; they are tied to the rules' own words in `proofs/Demands.antt`.
#![tactic(auto)]

pub mod hypotheses;
pub mod laws;
