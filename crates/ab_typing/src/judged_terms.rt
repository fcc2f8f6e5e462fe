//! Terms that were looked at, so that a part that is shared is looked at once.
ghost use Rattle.std.specs.Prelude.{◌≡◌, ◌≢◌, ℕ, List, [], true, Contains, OnOk};
ghost use Rattle.ab_store.specs.ab_types.specs.Entries.{Table};
ghost use Rattle.ab_store.specs.Trees.{Contents};
ghost use Rattle.ab_store.specs.declared.node.TermId.{TermId as AnId};
ghost use Rattle.ab_typing.specs.JudgedTerms.{AreClear, IsClear, AreKeeping, IsKeeping};
ghost use Rattle.ab_typing.specs.Parts.{part_of, place_of};

use crate::heads::Place;
use crate::stratification::Part;
use ab_store::TermId;
use std::alloc::{AllocError, Global};
use std::collections::BTreeSet;

/// Terms in which no predicate stands: nowhere, or not to the left of an arrow.
#[derive(Drop)]
pub struct Cleared {
    pub everywhere: BTreeSet<TermId>,
    pub left: BTreeSet<TermId>,
}

impl Cleared {
    /// No term.
    pub fn new(alloc: Global) -> Cleared
        ensures { (ps : List (List ℕ)) (types : Table) (store : Contents) → AreClear ps types store result }
    {
        Cleared {
            everywhere: BTreeSet::new(alloc),
            left: BTreeSet::new(alloc),
        }
    }

    /// Whether the term is known to have no predicate in that part.
    pub fn has(&self, part: Part, id: TermId) -> bool
        ensures { (ps : List (List ℕ)) (types : Table) (store : Contents) → AreClear ps types store self.now → result ≡ true → IsClear ps (part_of part) types store id }
    {
        match part {
            Part::Everywhere => self.everywhere.contains(&id),
            Part::LeftOfArrows => self.left.contains(&id),
        }
    }

    /// Keeps that the term has no predicate in that part.
    pub fn keep(&mut self, part: Part, id: TermId) -> Result<(), AllocError>
        ensures { OnOk result ((ps : List (List ℕ)) (types : Table) (store : Contents) → AreClear ps types store self.old → IsClear ps (part_of part) types store id → AreClear ps types store self.new) }
    {
        match part {
            Part::Everywhere => self.everywhere.insert(id)?,
            Part::LeftOfArrows => self.left.insert(id)?,
        };
        Ok(())
    }
}

/// A term under a number of binders.
#[derive(Clone, Copy, PartialEq, Eq, PartialOrd, Ord)]
pub struct Spot {
    pub id: TermId,
    pub inner: usize,
}

/// Terms in which no variable has a name of the prefix: as parts of the atom, or in the arguments of a variable.
#[derive(Drop)]
pub struct Spots {
    pub in_atom: BTreeSet<Spot>,
    pub under: BTreeSet<Spot>,
}

impl Spots {
    /// No term.
    pub fn new(alloc: Global) -> Spots
        ensures { (store : Contents) → AreKeeping store result }
    {
        Spots {
            in_atom: BTreeSet::new(alloc),
            under: BTreeSet::new(alloc),
        }
    }

    /// Whether the term is known to keep names in that place.
    pub fn has(&self, place: Place, spot: Spot) -> bool
        ensures { (store : Contents) → AreKeeping store self.now → result ≡ true → (types : Table) → IsKeeping (place_of place) types store spot }
    {
        match place {
            Place::InTheAtom => self.in_atom.contains(&spot),
            Place::UnderAVariable => self.under.contains(&spot),
        }
    }

    /// Keeps that the term keeps names in that place.
    pub fn keep(&mut self, place: Place, spot: Spot) -> Result<(), AllocError>
        ensures { OnOk result ((store : Contents) → AreKeeping store self.old → ((types : Table) → IsKeeping (place_of place) types store spot) → AreKeeping store self.new) }
    {
        match place {
            Place::InTheAtom => self.in_atom.insert(spot)?,
            Place::UnderAVariable => self.under.insert(spot)?,
        };
        Ok(())
    }
}
