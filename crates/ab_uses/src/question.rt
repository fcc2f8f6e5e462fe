//! What is asked of each choice of constants.
use crate::part::Part;
use ab_norm::Nominal;
use ab_norm::store::TermId;

/// What is asked of each choice of constants.
#[derive(Drop)]
pub(crate) struct Question {
    /// The goal's constants, in order of number.
    pub(crate) held: Vec<Nominal>,
    /// All constants that aren't new.
    pub(crate) known: Vec<Nominal>,
    /// What becomes of what is taken off the formula.
    pub(crate) parts: Vec<Part>,
    /// The formula that is used.
    pub(crate) formula: TermId,
}
