//! Terms, goals and replies as bytes.
#![tactic(auto)]

mod bound_names;
mod drawings;
mod eta;
pub mod examples;
pub mod goal_laws;
mod levels;
mod logic;
mod name_assignment;
pub mod naming_laws;
mod output;
mod places;
mod plain_terms;
pub mod reading_laws;
mod shape;
mod shape_bytes;
pub mod shape_examples;
mod shape_parts;

pub use output::{show_goal, show_other, show_reply, show_term};
