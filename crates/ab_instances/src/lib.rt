//! What an alternative of a defined atom is made of, on shared terms: the constants that may be chosen for the `nabla`
//! names of a clause, variables over constants, and the clause with these for its own.
#![tactic(auto)]

mod cell_bindings;
mod clause_heads;
mod constant_choices;
mod constants;
mod instances;
mod names;
mod raised_variables;
mod replacements;

pub use constant_choices::choices;
pub use constants::constants_of;
pub use instances::{Instance, instance_of};
pub use names::{Choices, Names, outside};
pub use raised_variables::{Over, as_terms, make_over};
pub use replacements::bind_to;
