//! From a parsed expression to a term: `elaborate`.
#![tactic(auto)]

mod answers;
mod elaboration;
mod expression_walk;
mod ids;
mod judgement_parts;
pub mod meaning_laws;
mod name_meanings;
mod names;
mod normal_terms;
pub mod reading_laws;
mod readings;
mod row;
mod scope;
pub mod scopes;
mod signs;
mod value;

pub use elaboration::elaborate;
pub use expression_walk::walk;
pub use ids::formulas;
pub use name_meanings::nominal_number;
pub use normal_terms::build;
pub use row::Row;
pub use scope::{Place, Scope};
