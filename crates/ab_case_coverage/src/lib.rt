//! That the proof command `case` loses nothing: each instance of the hypothesis that it takes apart is met by one of the goals that it leaves.
#![tactic(auto)]

pub mod laws;
