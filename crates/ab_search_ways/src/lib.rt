//! The ways to go on from a goal of a search, on shared terms: each is made and tried by itself, and no list of ways is kept.
#![tactic(auto)]

mod blindness;
mod branch_constants;
mod constant_maps;
mod form_ways;
mod goal;
mod goal_lists;
mod goals_left;
mod hypothesis_sides;
mod hypothesis_ways;
mod layers;
mod permutations;
mod raised_bodies;
mod rigid_heads;
mod way;
mod way_trials;

pub use blindness::is_blind;
pub use branch_constants::{new_constant, with_placed};
pub use constant_maps::next_map;
pub use form_ways::{second_way_by_form, way_by_form, way_by_truth};
pub use goal::Goal;
pub use goal_lists::Goals;
pub use hypothesis_sides::sides;
pub use hypothesis_ways::way_by_hypothesis;
pub use permutations::permutation_of;
pub use rigid_heads::{different_heads_are_apart, have_different_heads};
pub use way::{Place, Tried, Value, Way};
pub use way_trials::try_way;
