//! A CLAUSE THAT A SEARCH TOOK IS SOLVED WHEREVER its atom comes to stand: evidence for the rules' step by it. Each public function has an empty
//! body, and its contract is a law (`specs/Lib.antt` is the table of contents).
#![tactic(auto)]

pub mod laws;
