//! Parts of sequents: size marks, permutations of names, the level of a size.
#![tactic(auto)]

mod body_marks;
mod conjunctions;
mod cycles;
mod formula_views;
mod head_marks;
mod levels;
mod mark_order;
mod name_types;
mod places;
mod size_marks;
mod unmarked_formulas;

pub use body_marks::mark_atoms;
pub use conjunctions::{conjuncts, with_parts};
pub use cycles::cycle;
pub use levels::{Kind, next_level};
pub use mark_order::marks_serve_in;
pub use name_types::{Standing, common_type};
pub use places::are_unmarked;
pub use size_marks::marked_parts;
pub use unmarked_formulas::{erase, without_marks};
