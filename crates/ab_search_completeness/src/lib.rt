//! THE SEARCH IS COMPLETE TO ITS DEPTH, judgements included: where it finds nothing and sees all, no derivation by guesses of that depth is
//! there (`specs/Lib.antt` is the table of contents). Each public function has an empty body, and its contract is a law.
#![tactic(auto)]

pub mod examples;
pub mod laws;
