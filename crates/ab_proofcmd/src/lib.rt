//! Proof commands that use a formula or are given one, and one call for all proof commands but `search`.
#![tactic(auto)]

mod application;
mod assertions;
mod awaited_formulas;
mod awaited_goals;
mod backchaining;
mod expressions;
mod given_terms;
mod goal_scopes;
mod judgement_commands;
mod many_goals;
mod new_conclusions;
mod proof_commands;
mod questions;
mod replaced_constants;
mod stages;
mod use_results;
mod witnesses;

pub use ab_hypothesis as hypothesis;
pub use proof_commands::apply_proof_command;
