//! Nominal constants and their permutations.
ghost use Rattle.std.specs.Prelude.{◌≡◌, IfOk};

use ab_store::types::TypeId;
use std::alloc::{AllocError, Global};
use std::marker::Model;

/// A nominal constant: one number at two types is two constants.
#[derive(Clone, Copy, PartialEq, Eq, PartialOrd, Ord)]
pub struct Nominal {
    pub number: u128,
    pub ty: TypeId,
}

/// A nominal constant, and what it becomes.
#[derive(Clone, Copy)]
pub struct Swap {
    pub from: Nominal,
    pub to: Nominal,
}

/// A list of pairs. Contracts see it as the list.
#[derive(Drop)]
pub struct Swaps {
    swaps: Vec<Swap>,
}

impl Model for Swaps {
    ghost use Rattle.std.specs.Prelude.{List};
    ghost use Rattle.ab_norm.specs.declared.nominal.Swap.{Swap};

    ghost Value = { List Swap };

    ghost view = { λ list. list.swaps.items };
}

impl Swaps {
    /// The pairs of a vector, in its memory.
    pub fn from_vec(swaps: Vec<Swap>) -> Swaps
        ensures { result ≡ swaps.items }
    {
        Swaps { swaps }
    }

    /// The pairs as a vector, in the memory of the list.
    pub fn into_vec(self) -> Vec<Swap>
        ensures { result.items ≡ self }
    {
        self.swaps
    }

    /// The same list again.
    pub(crate) fn copy(&self, alloc: Global) -> Result<Swaps, AllocError>
        ensures { IfOk result (λ list. list ≡ self.now) }
    {
        Ok(Swaps {
            swaps: self.swaps.iter().copied().collect(alloc)?,
        })
    }

    /// The pairs as a slice.
    pub fn as_slice(&self) -> &[Swap]
        ensures { result.now ≡ self.now }
    {
        &self.swaps
    }
}

/// A permutation of nominal constants: what is on the left of no pair stays.
#[derive(Drop)]
pub struct Permutation {
    pub pairs: Swaps,
}
