//! The rules of the logic that look at one formula, or at the goal alone: on connectives and quantifiers, on hypotheses that close a
//! goal, and on induction. Each makes the premises of a step, or says why it may not be taken.
#![tactic(auto)]

mod closing_rules;
mod eigenvariables;
mod items;
mod left_rules;
mod nabla_constants;
mod premise_lists;
mod questions;
mod replaces;
mod right_rules;
mod rule_terms;
mod size_rules;
mod step;
mod term_fit;
mod witness_rules;

pub use closing_rules::{equal_right, false_left, initial, true_right};
pub use eigenvariables::{exists_left, for_all_right, nabla_left, nabla_right};
pub use items::Items;
pub use left_rules::{and_left, arrow_left, arrow_right, or_left, use_theorem, weaken};
pub use premise_lists::{one, two};
pub use questions::support_in;
pub use replaces::{Replace, Replaces};
pub use right_rules::{and_right, or_right};
pub use size_rules::give_sizes;
pub use step::{KernelFault, Step};
pub use term_fit::{fits_in, formulas_of};
pub use witness_rules::{cut_formula, exists_right, for_all_left};
