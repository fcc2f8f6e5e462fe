//! Rows of steps, as a walk makes them.
ghost use Rattle.std.specs.Prelude.{◌≡◌, [], OnOk};
ghost use Rattle.ab_infer.specs.WalkMoves.{Puts};

use crate::scope::Bound;
use ab_inference::{Mark, Op};
use ab_norm::name::Name;
use std::alloc::{AllocError, Global};

/// What is made of an expression, as far as it is walked over.
#[derive(Drop)]
pub struct Row {
    /// The steps that make it.
    pub steps: Vec<Op>,
    /// Its binders and free names, in the order of the text.
    pub marks: Vec<Mark>,
    /// Its free names, each once.
    pub names: Vec<Name>,
    /// The places of the binders and equations that have type variables.
    pub variables: Vec<usize>,
    /// The names that are bound here, the innermost last.
    pub bound: Vec<Bound>,
}

impl Row {
    /// A row without steps.
    pub fn new(alloc: Global) -> Row
        ensures steps { result.steps.items ≡ [] }
        ensures marks { result.marks.items ≡ [] }
        ensures names { result.names.items ≡ [] }
        ensures variables { result.variables.items ≡ [] }
        ensures bound { result.bound.items ≡ [] }
    {
        Row {
            steps: Vec::new(alloc),
            marks: Vec::new(alloc),
            names: Vec::new(alloc),
            variables: Vec::new(alloc),
            bound: Vec::new(alloc),
        }
    }

    /// One step is put behind the row.
    pub fn put(&mut self, op: Op) -> Result<(), AllocError>
        ensures { OnOk result (Puts self.old self.new op) }
    {
        self.steps.push(op)?;
        Ok(())
    }
}
