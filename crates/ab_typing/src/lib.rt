//! Which ids are terms of a type or formulas, and which definitions may be kept.
#![tactic(auto)]

mod built_in;
mod closed_types;
mod definitions;
mod faults;
mod formulas;
mod goal_terms;
mod head_arguments;
mod heads;
mod judged_terms;
mod nominal_types;
mod stratification;
mod typing;
mod variables;
mod visited_terms;

pub use definitions::{Block, ClauseCells, ClauseTerm, ClauseTerms, Predicates};
pub use faults::{ClauseFault, first_fault};
pub use goal_terms::{fits, fits_as_formula};
