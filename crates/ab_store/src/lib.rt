//! Terms as shared nodes: each node is kept once, under a number, and names only earlier nodes. Cells stand in terms as
//! variables, and may be bound to terms; a mark takes bindings, and what was made since, back.
#![tactic(auto)]

mod facts;
pub mod laws;
mod list;
mod mark;
mod node;
mod store;

pub use ab_types as types;
pub use ab_types::name;
pub use list::Arguments;
pub use mark::Mark;
pub use node::{Binding, CellId, Equation, Head, Logical, Node, TermId};
pub use store::Store;
