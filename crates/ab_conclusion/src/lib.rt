//! Proof commands on the conclusion.
#![tactic(auto)]

mod conjunctions;
mod induction_names;
mod inductions;
mod introductions;
mod single;
mod unfoldings;

pub use conjunctions::split_all;
pub use inductions::{coinduction, induction};
pub use introductions::intros;
pub use single::{left, right, skip, split};
pub use unfoldings::unfold;
