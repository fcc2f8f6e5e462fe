//! What walks through shared terms keep, so that they visit each node once.
ghost use Rattle.std.specs.Prelude.{◌≡◌, ◌⊎◌, ℕ, Some, None, false};
ghost use Rattle.ab_store.specs.declared.node.TermId.{TermId};
ghost use Rattle.ab_norm.specs.WalkMemory.{answer_of, has_been, has_agreed};

use ab_store::TermId;
use std::alloc::{AllocError, Global};
use std::collections::{HashMap, HashSet};

/// How many answers of a walk aren't kept: a small term costs no memory.
const FREE: u8 = 32;

/// What a walk made of terms, each at the number of binders around it.
#[derive(Drop)]
pub struct Memo {
    skipped: u8,
    answers: HashMap<(TermId, usize), TermId>,
}

impl Memo {
    /// Nothing is kept yet.
    pub fn new(alloc: Global) -> Memo
        ensures { (t : TermId) (k : ℕ) → answer_of result t k ≡ None }
    {
        Memo {
            skipped: 0,
            answers: HashMap::new(alloc),
        }
    }

    /// What is kept for the term.
    pub fn answer(&self, term: TermId, depth: usize) -> Option<TermId>
        ensures { result ≡ answer_of self.now term depth }
    {
        self.answers.get(&(term, depth)).copied()
    }

    /// Keeps an answer, once the walk is no short one.
    pub fn keep(&mut self, term: TermId, depth: usize, answer: TermId) -> Result<(), AllocError>
        ensures { (t : TermId) (k : ℕ) → (answer_of self.new t k ≡ answer_of self.old t k) ⊎ ((t ≡ term) × (k ≡ depth) × (answer_of self.new t k ≡ Some answer)) }
    {
        if self.skipped < FREE {
            self.skipped += 1;
            return Ok(());
        }
        self.answers.insert((term, depth), answer)?;
        Ok(())
    }
}

/// Pairs of terms that a walk has found to agree.
#[derive(Drop)]
pub(crate) struct Agreed {
    skipped: u8,
    pairs: HashSet<(TermId, TermId)>,
}

impl Agreed {
    /// Nothing is kept yet.
    pub(crate) fn new(alloc: Global) -> Agreed
        ensures { (x y : TermId) → has_agreed result x y ≡ false }
    {
        Agreed {
            skipped: 0,
            pairs: HashSet::new(alloc),
        }
    }

    /// Whether the pair is kept.
    pub(crate) fn has(&self, a: TermId, b: TermId) -> bool
        ensures { result ≡ has_agreed self.now a b }
    {
        self.pairs.contains(&(a, b))
    }

    /// Keeps the pair, once the walk is no short one.
    pub(crate) fn keep(&mut self, a: TermId, b: TermId) -> Result<(), AllocError>
        ensures { (x y : TermId) → (has_agreed self.new x y ≡ has_agreed self.old x y) ⊎ ((x ≡ a) × (y ≡ b)) }
    {
        if self.skipped < FREE {
            self.skipped += 1;
            return Ok(());
        }
        self.pairs.insert((a, b))?;
        Ok(())
    }
}

/// Terms that a walk has been through.
#[derive(Drop)]
pub(crate) struct Seen {
    skipped: u8,
    terms: HashSet<TermId>,
}

impl Seen {
    /// Nothing is kept yet.
    pub(crate) fn new(alloc: Global) -> Seen
        ensures { (t : TermId) → has_been result t ≡ false }
    {
        Seen {
            skipped: 0,
            terms: HashSet::new(alloc),
        }
    }

    /// Whether the term is kept.
    pub(crate) fn has(&self, term: TermId) -> bool
        ensures { result ≡ has_been self.now term }
    {
        self.terms.contains(&term)
    }

    /// Keeps the term, once the walk is no short one.
    pub(crate) fn keep(&mut self, term: TermId) -> Result<(), AllocError>
        ensures { (t : TermId) → (has_been self.new t ≡ has_been self.old t) ⊎ (t ≡ term) }
    {
        if self.skipped < FREE {
            self.skipped += 1;
            return Ok(());
        }
        self.terms.insert(term)?;
        Ok(())
    }
}
