//! What is known of a term without a walk.
ghost use Rattle.std.specs.Prelude.{◌≡◌, ℕ, [], ◌-◌, ◌++◌, List, max, IfOk};
ghost use Rattle.ab_term.specs.Terms.{Nominal, Variable};
ghost use Rattle.ab_term.specs.Reach.{head_reach};
ghost use Rattle.ab_term.specs.Names.{support_of_head};
ghost use Rattle.ab_term.specs.Variables.{variables_of_head};
ghost use Rattle.ab_types.specs.Entries.{Table};
ghost use Rattle.ab_store.specs.declared.node.CellEntry.{CellEntry};
ghost use Rattle.ab_store.specs.Trees.{head_in};
ghost use Rattle.ab_store.specs.Layout.{Covers};

use crate::node::Head;
use std::alloc::AllocError;

/// What a store knows of a term without a walk.
#[derive(Clone, Copy)]
pub(crate) struct Facts {
    /// Each free index is below this.
    pub(crate) reach: usize,
    /// False only where no nominal constant stands in the term.
    pub(crate) nominals: bool,
    /// False only where no cell stands in the term.
    pub(crate) cells: bool,
}

impl Facts {
    /// What is known of nothing.
    pub(crate) fn of_nothing() -> Facts
        ensures { Covers result 0 [] [] }
    {
        Facts {
            reach: 0,
            nominals: false,
            cells: false,
        }
    }

    /// What is known of a head. An index that no number of binders reaches is refused as want of memory.
    pub(crate) fn of_head(head: Head) -> Result<Facts, AllocError>
        ensures { IfOk result (λ facts. (types : Table) (cells : List CellEntry) →
            Covers facts (head_reach (head_in types cells head)) (support_of_head (head_in types cells head)) (variables_of_head (head_in types cells head))) }
    {
        let mut facts = Facts::of_nothing();
        match head {
            Head::Index(i) => match i.checked_add(1) {
                Some(n) => facts.reach = n,
                None => return Err(AllocError),
            },
            Head::Nominal(_, _) => facts.nominals = true,
            Head::Cell(_) => facts.cells = true,
            Head::Const(_) | Head::Logic(_) => {}
        }
        Ok(facts)
    }

    /// What is known of two together.
    pub(crate) fn and(self, other: Facts) -> Facts
        ensures { (n m : ℕ) (names others : List Nominal) (xs ys : List (Variable ℕ)) →
            Covers self n names xs → Covers other m others ys → Covers result (max n m) (names ++ others) (xs ++ ys) }
    {
        Facts {
            reach: if self.reach < other.reach {
                other.reach
            } else {
                self.reach
            },
            nominals: self.nominals || other.nominals,
            cells: self.cells || other.cells,
        }
    }

    /// What is known of a term under a binder for its first free index.
    pub(crate) fn under_binder(self) -> Facts
        ensures { (n : ℕ) (names : List Nominal) (xs : List (Variable ℕ)) → Covers self n names xs → Covers result (n - 1) names xs }
    {
        Facts {
            reach: self.reach.saturating_sub(1),
            nominals: self.nominals,
            cells: self.cells,
        }
    }
}
