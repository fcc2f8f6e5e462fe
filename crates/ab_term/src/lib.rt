//! Simple types and canonical terms as plain trees, and their laws: the definitions on which every later
//! crate stands. All definitions are in `specs/`; each public function has an empty body, and its contract
//! is a law about them.
//!
//! - `Term Var Hint` is generic in what stands for a variable and in what stands for a binder's hint. Each
//!   operation is defined once for both, and `translating` says that other variables and hints go through
//!   each of them.
//! - Equality of terms is equality of trees, hints included, unless a law says otherwise: most operations
//!   keep hints exactly as the definitions say. The laws of eta-long forms hold of trees without hints, since
//!   such a form has hints of its own; on other trees they hold once hints are forgotten.
//! - Hereditary substitution is a total function, by recursion on the type of what is put in and then on the
//!   term. That what it gives for well-typed terms is well-typed, and so canonical, is the theorem that it
//!   ends: no other measure stands behind it.
//! - `binding` closes a head under a binder, `inverting` abstracts over names, `normal_forms` leads from terms
//!   with redexes to canonical ones. Lemmas that other crates cite by name are in `proofs/`, by subject.
#![tactic(auto)]

pub mod bound_heads;
pub mod eta_forms;
pub mod examples;
pub mod hereditary_substitution;
pub mod hints;
pub mod inversions;
pub mod normal_forms;
pub mod permutation_laws;
pub mod sizes;
pub mod substitution_laws;
pub mod translation_laws;
pub mod typing;
