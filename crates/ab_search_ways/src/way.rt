//! Ways to go on in a search, and what comes of one.

use crate::goal::Goal;
use crate::goal_lists::Goals;
use ab_norm::store::{CellId, Equation, TermId};

/// A way to go on from a goal: the cells that may be bound, the sides that are to be made equal, and the goals that take the
/// goal's place.
#[derive(Drop)]
pub struct Way {
    pub flexible: Vec<CellId>,
    pub equations: Vec<Equation>,
    /// The marks of what is given serve those of what is asked for.
    pub serves: bool,
    pub goals: Vec<Goal>,
}

/// A cell, and what was put in for it, if anything.
#[derive(Clone, Copy)]
pub struct Value {
    pub cell: CellId,
    pub term: Option<TermId>,
}

/// A place of the tree: the cells that may be bound, and the goals that are left, the first one first; and the answer of the way
/// that led to it, which has a value for each cell of the way, in order.
#[derive(Drop)]
pub struct Place {
    pub flexible: Vec<CellId>,
    pub goals: Goals,
    pub answer: Vec<Value>,
}

/// What comes of a way that is tried.
#[derive(Drop)]
pub enum Tried {
    /// Its sides are apart.
    Apart,
    /// The equation of this number, from 0, is outside the patterns.
    Stuck(usize),
    /// Its sides are made equal, and its marks don't serve.
    Refused,
    /// It leads to this place.
    Ahead(Place),
}
