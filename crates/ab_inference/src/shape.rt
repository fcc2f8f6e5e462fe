//! What is known of a type variable.
use ab_store::types::TypeId;

/// What is known of a type variable. The numbers are those of variables.
#[derive(Clone, Copy)]
pub enum Shape {
    /// Nothing.
    Open,
    /// It is the same as an earlier one.
    Link(usize),
    /// It is this type.
    Known(TypeId),
    /// It is the arrow from the one to the other.
    Arrow(usize, usize),
}
