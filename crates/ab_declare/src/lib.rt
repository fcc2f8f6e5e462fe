//! Kinds, constants, definitions and statements of theorems are declared over a world, or refused.
#![tactic(auto)]

mod cells;
mod chain;
mod clause_elaboration;
pub mod clause_laws;
mod clause_rows;
mod clauses;
mod constants;
mod definitions;
mod existentials;
mod halt;
mod joined_rows;
mod kept_clauses;
mod kinds;
mod list_growth;
mod moment;
mod predicates;
mod refusal;
mod stated_formulas;
mod term_parts;
mod types;

pub use chain::Chain;
pub use clause_elaboration::{elaborate_clause, look_at_names};
pub use constants::declare_constants;
pub use definitions::declare_definition;
pub use kinds::declare_kinds;
pub use moment::Moment;
pub use refusal::{Place, Refusal};
pub use stated_formulas::{Statement, state_formula};
pub use types::formula_type;
