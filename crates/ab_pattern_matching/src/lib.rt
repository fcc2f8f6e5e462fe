//! WHAT UNIFIES, MATCHES: equations between a goal and a clause that are solved with the variables of both flexible are solved
//! again, once terms are put in for the goal's variables, with the clause's variables alone. Each public function has an empty
//! body, and its contract is a law (`specs/Lib.antt` is the table of contents).
#![tactic(auto)]

pub mod laws;
