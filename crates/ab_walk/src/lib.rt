//! The walk of the search tree of a goal on shared terms: its ways are made and tried one after another, and no list of ways or
//! of leaves is kept.
#![tactic(auto)]

mod frames;
mod goal_search;
mod seen_leaves;
mod turns;
mod walk;

pub use ab_next_ways as next_ways;
pub use frames::Frame;
pub use goal_search::search;
pub use walk::Told;
