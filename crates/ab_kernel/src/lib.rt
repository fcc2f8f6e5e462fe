//! The kernel: the rules as functions, and derivations with open goals, which are made here and nowhere else.
#![tactic(auto)]

mod debt;
mod definition_rules;
mod equality_rules;
mod goal_numbers;
mod judgement_rules;
pub mod laws;
mod node;
mod proof;
mod replaced_constants;
mod rule_table;

pub use ab_judgements as judgements;
pub use ab_rules::{Items, KernelFault, Replace, Replaces, Step};
pub use debt::Debt;
pub use node::{Children, ProofNode};
pub use proof::{Proof, Refinement};
