//! Lists of goals whose ends are shared.
ghost use Rattle.std.specs.Prelude.{◌≡◌, [], ◌∷◌, ◌++◌, IfOk, MatchOption, slice_get};
ghost use Rattle.std.specs.Option.{option_copied};

use crate::goal::Goal;
use std::alloc::{AllocError, Global};
use std::marker::Model;
use std::rc::Rc;

/// Goals, one after another. What stands behind the first may stand behind others too.
#[cycle(goals)]
pub struct Goals {
    first: Option<Rc<Linked>>,
}

/// A goal, and those behind it.
#[cycle(goals)]
#[derive(Drop)]
struct Linked {
    goal: Goal,
    behind: Goals,
}

impl Model for Goals {
    ghost use Rattle.std.specs.Prelude.{List, length};
    ghost use Rattle.ab_search_ways.specs.declared.goal.Goal.{Goal};

    ghost Value = { List Goal };

    ghost use Rattle.ab_search_ways.specs.GoalLists.{listed};

    ghost view = { λ a. listed a.first };

    ghost size = { length };

    ghost use Rattle.std.proofs.Common.{arith};

    ghost size_decreases = { λ a h. Prim.grind (arith) };
}

impl Drop for Goals {
    /// A long list is let go one goal after another.
    fn drop(mut self) {
        loop {
            let Goals { first } = self;
            let Some(link) = first else {
                return;
            };
            let Some(Linked { goal: _, behind }) = Rc::into_inner(link) else {
                return;
            };
            self = behind;
        }
    }
}

impl Goals {
    /// No goal.
    pub fn none() -> Goals
        ensures { result ≡ [] }
    {
        Goals { first: None }
    }

    /// The goal, and these behind it.
    pub fn with_first(self, alloc: Global, goal: Goal) -> Result<Goals, AllocError>
        ensures { IfOk result (λ goals. goals ≡ goal ∷ self) }
    {
        let link = Rc::new(alloc, Linked { goal, behind: self })?;
        Ok(Goals { first: Some(link) })
    }

    /// Those of the list, and these behind them.
    pub(crate) fn with_all(self, alloc: Global, list: Vec<Goal>) -> Result<Goals, AllocError>
        ensures { IfOk result (λ goals. goals ≡ list.items ++ self) }
    {
        let mut front = list;
        let mut goals = self;
        while let Some(goal) = front.pop() {
            goals = goals.with_first(alloc, goal)?;
        }
        Ok(goals)
    }

    /// The same goals, shared.
    pub(crate) fn share(&self) -> Result<Goals, AllocError>
        ensures { IfOk result (λ goals. goals ≡ self.now) }
    {
        match &self.first {
            None => Ok(Goals { first: None }),
            Some(link) => Ok(Goals {
                first: Some(link.clone()?),
            }),
        }
    }

    /// The first goal.
    pub fn first(&self) -> Option<&Goal>
        ensures { option_copied result ≡ slice_get self.now 0 }
    {
        match &self.first {
            None => None,
            Some(link) => Some(&link.goal),
        }
    }

    /// The first goal, and those behind it.
    pub fn split_first(&self) -> Option<(&Goal, &Goals)>
        ensures { MatchOption result (self.now ≡ []) (λ p. self.now ≡ p.0.now ∷ p.1.now) }
    {
        match &self.first {
            None => None,
            Some(link) => Some((&link.goal, &link.behind)),
        }
    }
}
