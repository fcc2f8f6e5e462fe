//! How a search went on from a goal, with the values of its answer.

use ab_norm::Nominal;
use ab_norm::store::{CellId, TermId};

/// A goal of the path to an answer: its conclusion, and the way that was taken from it.
#[derive(Drop)]
pub struct Entry {
    pub conclusion: TermId,
    pub taken: Taken,
}

/// The way that was taken from a goal.
#[derive(Drop)]
pub enum Taken {
    /// It is `true`.
    Truth,
    /// By the hypothesis of this number.
    Hypothesis(usize),
    /// Its sides are made equal.
    Equality,
    /// Both parts of a conjunction; the right one first, if this is so.
    Both(bool),
    /// The left part of a disjunction.
    Left,
    /// The right part of a disjunction.
    Right,
    /// What is given is assumed.
    Assuming,
    /// A new constant for the name of a `nabla`.
    Constant,
    /// This term for the name of an `exists`.
    Term(TermId),
    /// A new variable over these constants for the name of a `forall`, if that stands anywhere.
    Variable(Option<CellId>, Vec<Nominal>),
    /// A layer of a judgement is opened.
    Layer,
    /// A clause of a definition.
    Clause(ClauseTaken),
    /// A rule of a judgement.
    Rule(RuleTaken),
}

/// A clause that an atom was unfolded by: its terms, the constants that were chosen for its names, and the terms for its variables.
#[derive(Drop)]
pub struct ClauseTaken {
    pub head: TermId,
    pub body: TermId,
    pub names: Vec<Nominal>,
    pub values: Vec<TermId>,
}

/// A rule that a judgement was unfolded by: its number, the terms for its variables, and of each name of a part in focus whether
/// it is closed by an `exists` in what the rule leaves, since it stands in goals alone.
#[derive(Drop)]
pub struct RuleTaken {
    pub number: usize,
    pub values: Vec<TermId>,
    pub closed: Vec<bool>,
}
