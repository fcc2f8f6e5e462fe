//! A use of a formula, as it is made.
use crate::stage::Stage;
use ab_norm::store::{CellId, TermId};

/// A use of a formula, as it is made.
#[derive(Drop)]
pub struct Made {
    /// The new cells, in order of age.
    pub cells: Vec<CellId>,
    /// The antecedents, in order.
    pub antecedents: Vec<TermId>,
    /// What they lead to.
    pub result: TermId,
    /// What is taken off the formula, one after another.
    pub stages: Vec<Stage>,
}
