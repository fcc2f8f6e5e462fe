//! What the logic speaks of: declarations, formulas and sequents over shared terms.
#![tactic(auto)]

mod additions;
mod form;
pub mod laws;
mod lists;
mod marks;
mod member;
mod sequent;
mod world;

pub use additions::{Addition, TheoremEntry};
pub use form::{
    Form, as_and, as_arrow, as_equal, as_exists, as_forall, as_nabla, as_or, is_false, is_true,
    shape,
};
pub use lists::{Hypotheses, Places, Variables};
pub use marks::{Sign, marks_serve};
pub use sequent::{Hypothesis, Sequent, SequentFault};
pub use world::{DefineFault, World};
