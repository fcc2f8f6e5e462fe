//! Proof commands on a hypothesis.
#![tactic(auto)]

mod analysis;
mod beginnings;
mod cases;
mod exchange_steps;
mod exchanges;
mod goal_moves;
mod judgement_cuts;
mod judgement_steps;
mod new_names;
mod openings;
mod outcome;
mod own_names;
mod removals;
mod replacements;
mod stop;

pub use ab_steps as steps;
pub use cases::{case, label_clash};
pub use exchanges::permute;
pub use judgement_cuts::cut;
pub use judgement_steps::{again, take_judgement_step};
pub use new_names::rename;
pub use openings::open_one;
pub use own_names::own_name;
pub use removals::clear;
pub use stop::Stop;
