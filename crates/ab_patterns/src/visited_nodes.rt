//! What a walk through shared terms keeps, so that it visits each node once at each number of binders.
ghost use Rattle.std.specs.Prelude.{◌≡◌, ◌⊎◌, ℕ, false};
ghost use Rattle.ab_norm.specs.ab_store.specs.declared.node.TermId.{TermId};
ghost use Rattle.ab_patterns.specs.ReadingWalks.{has_been};

use ab_norm::store::TermId;
use std::alloc::{AllocError, Global};
use std::collections::HashSet;

/// How many terms of a walk aren't kept: a small term costs no memory.
const FREE: u8 = 32;

/// Terms that a walk has been through, each at the number of binders around it.
#[derive(Drop)]
pub struct Seen {
    skipped: u8,
    terms: HashSet<(TermId, usize)>,
}

impl Seen {
    /// Nothing is kept yet.
    pub fn new(alloc: Global) -> Seen
        ensures { (t : TermId) (k : ℕ) → has_been result t k ≡ false }
    {
        Seen {
            skipped: 0,
            terms: HashSet::new(alloc),
        }
    }

    /// Whether the term is kept.
    pub fn has(&self, term: TermId, depth: usize) -> bool
        ensures { result ≡ has_been self.now term depth }
    {
        self.terms.contains(&(term, depth))
    }

    /// Keeps the term, once the walk is no short one.
    pub fn keep(&mut self, term: TermId, depth: usize) -> Result<(), AllocError>
        ensures { (t : TermId) (k : ℕ) → (has_been self.new t k ≡ has_been self.old t k) ⊎ ((t ≡ term) × (k ≡ depth)) }
    {
        if self.skipped < FREE {
            self.skipped += 1;
            return Ok(());
        }
        self.terms.insert((term, depth))?;
        Ok(())
    }
}
