//! Hereditary substitution on shared terms, their eta-long forms, and their nominal constants.
#![tactic(auto)]

mod bindings_put_in;
mod carried_terms;
mod equality;
mod equality_up_to_names;
mod eta_forms;
mod indices;
mod instantiation;
mod items;
mod memo;
mod nominal;
mod permutation_tables;
mod permutations;
mod plain_terms;
mod resolved_copies;
mod supports;
mod term_heads;
mod term_walks;
mod tree;

pub use ab_store as store;
pub use ab_store::{name, types};
pub use equality::equal;
pub use equality_up_to_names::equal_up_to_names;
pub use eta_forms::{eta, eta_given};
pub use instantiation::instantiate;
pub use items::Items;
pub use memo::Memo;
pub use nominal::{Nominal, Permutation, Swap, Swaps};
pub use permutations::permute;
pub use plain_terms::plain_term;
pub use resolved_copies::copy_resolved;
pub use supports::support;
pub use term_heads::look;
pub use tree::Tree;
