//! The ways from a goal of a search, on shared terms: they are made one after another, and no list of them is kept.
#![tactic(auto)]

mod clause_ways;
mod cursor;
mod next_ways;
mod rule_ways;

pub use ab_judgements as judgements;
pub use ab_search_ways as ways;
pub use clause_ways::way_by_choice;
pub use cursor::Cursor;
pub use next_ways::{Step, next_way};
pub use rule_ways::way_by_rule;
