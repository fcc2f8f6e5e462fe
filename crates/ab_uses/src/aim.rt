//! What a formula is used for.
use ab_norm::store::TermId;

/// What a formula is used for.
#[derive(Drop)]
pub struct Aim {
    /// For each antecedent that is taken off the formula that is to be it, if one is given.
    pub hypotheses: Vec<Option<TermId>>,
    /// The formula that the result is to be, if one is given.
    pub conclusion: Option<TermId>,
}
