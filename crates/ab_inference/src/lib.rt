//! Type inference: equations between types, and the operators of an expression.
#![tactic(auto)]

mod assignments;
mod constraints;
mod decision;
mod equations;
mod fault;
mod links;
mod op;
mod prop_free;
mod shape;
mod type_unification;
mod type_variables;
mod work;
mod written_types;

pub use assignments::Settled;
pub use constraints::Formulas;
pub use decision::{Verdict, decide};
pub use fault::InferFault;
pub use op::{Binds, Mark, Op};
pub use written_types::{read_type, read_written};
