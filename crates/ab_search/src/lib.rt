//! The search of a goal, carried out: its answer is found by the walk of the search tree, and then the goal is closed by steps of
//! the kernel, one or a few for each way of the path that led to the answer.
#![tactic(auto)]

mod assumed_rows;
mod carried_paths;
mod empty_lists;
mod fault;
mod kernel_steps;
mod opened_hypotheses;
mod own_labels;
mod quantifier_steps;
mod rule_plans;
mod rule_steps;
mod search_calls;
mod unfolding_steps;

pub use fault::SearchFault;
pub use search_calls::search;
