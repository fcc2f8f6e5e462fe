//! Pattern unification of shared terms: `unify`, and the steps by which it answers.
#![tactic(auto)]

mod all_rules;
mod answers;
mod cell_bindings;
mod first_rules;
mod flexible_rules;
mod inversion;
mod joined_patterns;
mod made_cells;
mod narrow_cells;
mod one_step;
mod pruning;
mod queues;
mod rule_choices;
mod runs;
mod unification;
mod verdict;

pub use answers::Solved;
pub use unification::unify;
