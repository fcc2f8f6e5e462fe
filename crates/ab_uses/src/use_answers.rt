//! What comes of using a formula.
use crate::stage::Stage;
use ab_norm::name::Name;
use ab_norm::store::TermId;

/// How a formula is used.
#[derive(Drop)]
pub struct Use {
    /// What is taken off it.
    pub stages: Vec<Stage>,
    /// The antecedents for which nothing is given, in order.
    pub awaited: Vec<TermId>,
    /// What stands behind the antecedents.
    pub result: TermId,
}

/// What is found of a use. Equations are counted from 0.
#[derive(Drop)]
pub enum Found {
    /// It stands, and nothing that is left to show is open.
    Used(Use),
    /// No choice makes the sides equal.
    NoMatch,
    /// In the first choice that isn't apart, the equation of this number is outside the patterns.
    NotPattern(usize),
    /// What is left to show holds a variable that is open; the oldest one has this name.
    Unresolved(Name),
}
