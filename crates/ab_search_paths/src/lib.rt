//! The path to an answer of a search: it is read off what the walk leaves, filled, and its terms and formulas are carried to the
//! variables and constants of the kernel's goals.
#![tactic(auto)]

mod answer_paths;
mod bound_cells;
mod carried_terms;
mod cell_terms;
mod clause_places;
mod entries;
mod final_values;
mod first_cells;
mod likeness;
mod open_parts;
mod opened_formulas;
mod part_names;
mod raising;
mod terms_of_rules;
mod ways_taken;

pub use ab_walk as walk;
pub use answer_paths::final_path;
pub use carried_terms::{carry_terms, permuted_term};
pub use cell_terms::{cell_for, cell_given, over_constants};
pub use clause_places::place_of_clause;
pub use entries::{ClauseTaken, Entry, RuleTaken, Taken};
pub use likeness::{Likeness, StandIn, add_stand_in, compare, compare_unmarked};
pub use open_parts::{left_by_choice, left_by_rule};
pub use part_names::closed_names;
pub use raising::{raised_term, raised_terms};
pub use terms_of_rules::{Assumed, NameTerm, OpenName, RuleTerms, open_names, rule_terms};
pub use ways_taken::ruled_judgement;
