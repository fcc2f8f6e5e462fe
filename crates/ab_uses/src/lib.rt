//! What comes of using a hypothesis or a theorem.
#![tactic(auto)]

mod aim;
mod begun_choices;
mod choice_trials;
mod closed_parts;
mod first_choice;
mod formula_parts;
mod formulas;
mod given_terms;
mod made_uses;
mod new_cells;
mod next_parts;
mod one_choice;
mod one_part;
mod outcome;
mod part;
mod pieces;
mod question;
mod remainders;
mod stage;
mod use_answers;
mod use_equations;
mod use_solutions;
mod variables;

pub use aim::Aim;
pub use first_choice::find_use;
pub use given_terms::GivenTerm;
pub use pieces::{all_serve, antecedent_count, formula_behind, type_named};
pub use stage::Stage;
pub use use_answers::{Found, Use};
