//! The arguments that a head is given.
ghost use Rattle.std.specs.Prelude.{◌≡◌, IfOk};

use crate::node::TermId;
use std::alloc::{AllocError, Global};
use std::marker::Model;

/// A list of terms. Contracts see it as the list.
#[derive(Drop)]
pub struct Arguments {
    terms: Vec<TermId>,
}

impl Model for Arguments {
    ghost use Rattle.std.specs.Prelude.{List};
    ghost use Rattle.ab_store.specs.declared.node.TermId.{TermId};

    ghost Value = { List TermId };

    ghost view = { λ list. list.terms.items };
}

impl Arguments {
    /// The terms of a vector, in its memory.
    pub fn from_vec(terms: Vec<TermId>) -> Arguments
        ensures { result ≡ terms.items }
    {
        Arguments { terms }
    }

    /// The terms as a vector, in the memory of the list.
    pub fn into_vec(self) -> Vec<TermId>
        ensures { result.items ≡ self }
    {
        self.terms
    }

    /// The terms as a slice.
    pub fn as_slice(&self) -> &[TermId]
        ensures { result.now ≡ self.now }
    {
        &self.terms
    }

    /// The same list again.
    pub fn copy(&self, alloc: Global) -> Result<Arguments, AllocError>
        ensures { IfOk result (λ list. list ≡ self.now) }
    {
        Ok(Arguments {
            terms: self.terms.iter().copied().collect(alloc)?,
        })
    }
}
