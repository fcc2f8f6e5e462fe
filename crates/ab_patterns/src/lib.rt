//! The rules of pattern unification on shared terms.
#![tactic(auto)]

mod abstraction;
mod applied_cells;
mod bound_cells;
mod closed_cells;
mod equality;
mod equation;
mod existentials;
mod flags;
mod flexible_cells;
mod foreign_names;
mod names;
mod narrow_cells;
mod narrow_types;
mod occurrences;
mod pattern_checks;
mod renewed_cells;
mod replacement_cells;
mod rigid_rules;
mod visited_nodes;

pub use abstraction::{close, close_names, shift_head};
pub use applied_cells::{apply_cell, keep_heads, value};
pub use bound_cells::put;
pub use equation::Numbered;
pub use existentials::exists_over;
pub use flags::{agreement_flags, common, keeps_all};
pub use flexible_cells::{FlexibleCells, is_flexible};
pub use foreign_names::has_no_foreign;
pub use names::pattern;
pub use narrow_types::kept_type;
pub use occurrences::occurs;
pub use pattern_checks::has_patterns;
pub use renewed_cells::renew;
pub use rigid_rules::{Simple, try_simple_rules};
pub use visited_nodes::Seen;
