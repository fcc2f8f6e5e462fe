//! Equations between type variables.
use ab_store::types::TypeId;

/// An equation that is to be met. The numbers are those of variables.
#[derive(Clone, Copy)]
pub enum Wanted {
    /// Both are the same.
    Equal(usize, usize),
    /// It is this type.
    Is(usize, TypeId),
}
