//! Equations between shared terms.
use ab_norm::store::TermId;

/// Two terms, and the number of the given equation that they came from.
#[derive(Clone, Copy)]
pub struct Numbered {
    /// The number of the given equation.
    pub place: usize,
    /// The left side.
    pub left: TermId,
    /// The right side.
    pub right: TermId,
}
