//! A JUDGEMENT THAT A SEARCH TOOK BY A CLAUSE OF THE PROGRAM HAS THAT RULE WHEREVER it comes to stand: evidence for the rules' step by it. The public
//! function has an empty body, and its contract is the law.
#![tactic(auto)]

pub mod laws;
