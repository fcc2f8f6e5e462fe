//! Alternatives of a defined atom on shared terms: what one is made of, how one is solved in a goal, and the conclusion that
//! a choice unfolds to. A goal is split by an atom into its cases, a goal for each that arises; and a conclusion is unfolded
//! by the choice of a place, the first of which is found. What the cases of a goal and the choices are is told by
//! `ab_theory`.
#![tactic(auto)]

mod all_cases;
mod alternatives;
mod atoms;
mod choice_counts;
mod choice_matches;
mod choice_places;
mod clause_bodies;
mod clause_cases;
mod conclusions;
mod constants;
mod first_choice;
mod heads;
mod hints;
mod mark_rules;
mod one_alternative;
mod one_choice;
mod quantifiers;

pub use ab_equations as equations;
pub use ab_instances as instances;
pub use ab_sequents as sequents;
pub use all_cases::{Splitting, split};
pub use alternatives::{Alternative, equations_between, make_alternative};
pub use atoms::{DefinedAtom, copy_clause, defined_atom};
pub use choice_counts::{Choice, choice_at};
pub use choice_matches::{Match, match_choice, solve_match};
pub use choice_places::unfold_at;
pub use clause_bodies::{Unfolding, make_unfolding};
pub use conclusions::{Conclusion, solve_unfolding};
pub use constants::goal_constants;
pub use first_choice::{Found, first_unfolding};
pub use heads::{are_same, predicate_under, prefix_types};
pub use mark_rules::{mark_above, mark_below, may_be_analysed, may_be_unfolded};
pub use one_alternative::{both, goal_over, solve_alternative, try_case};
pub use one_choice::unfold;
