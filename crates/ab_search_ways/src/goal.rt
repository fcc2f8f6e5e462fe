//! Goals of a search.
ghost use Rattle.std.specs.Prelude.{◌≡◌, [], ◌∷◌, ◌++◌, List, IfOk};
ghost use Rattle.ab_norm.specs.ab_store.specs.declared.node.TermId.{TermId as AnId};
ghost use Rattle.ab_logic.specs.Worlds.{read};
ghost use Rattle.ab_logic.specs.declared.world.World.{World};
ghost use Rattle.ab_search_trees.specs.Goals as tree;
ghost use Rattle.ab_search_ways.specs.GoalReadings.{goal_read};

use ab_norm::Nominal;
use ab_norm::store::TermId;
use std::alloc::{AllocError, Global};

/// A goal of a search: from the hypotheses of the sequent, and some more, a conclusion.
#[derive(Drop)]
pub struct Goal {
    /// What was assumed on the way.
    pub added: Vec<TermId>,
    pub conclusion: TermId,
    /// So many conclusions may still be unfolded, one after another.
    pub depth: usize,
    /// The nominal constants of the branch, in order of number.
    pub constants: Vec<Nominal>,
    /// Nothing was unfolded and no `exists` opened above it.
    pub untouched: bool,
    /// So many layers of a judgement may still be opened.
    pub layers: usize,
    /// The right part of a conjunction is taken first.
    pub member_first: bool,
}

impl Goal {
    /// The same goal with another conclusion.
    pub fn with_conclusion(&self, alloc: Global, conclusion: TermId) -> Result<Goal, AllocError>
        ensures reads { IfOk result (λ g. (w : World) (base : List AnId) →
            goal_read w base g ≡ tree.asking (read w conclusion) (goal_read w base self.now)) }
        ensures added { IfOk result (λ g. g.added.items ≡ self.now.added.items) }
        ensures constants { IfOk result (λ g. g.constants.items ≡ self.now.constants.items) }
        ensures conclusion { IfOk result (λ g. g.conclusion ≡ conclusion) }
    {
        Ok(Goal {
            added: Vec::from_slice(alloc, &self.added)?,
            conclusion,
            depth: self.depth,
            constants: Vec::from_slice(alloc, &self.constants)?,
            untouched: self.untouched,
            layers: self.layers,
            member_first: false,
        })
    }

    /// The goal with one hypothesis more, behind the others.
    pub fn with_hypothesis(self, formula: TermId) -> Result<Goal, AllocError>
        ensures reads { IfOk result (λ g. (w : World) (base : List AnId) →
            goal_read w base g ≡ tree.assuming (read w formula) (goal_read w base self)) }
        ensures added { IfOk result (λ g. g.added.items ≡ self.added.items ++ formula ∷ []) }
        ensures constants { IfOk result (λ g. g.constants.items ≡ self.constants.items) }
        ensures conclusion { IfOk result (λ g. g.conclusion ≡ self.conclusion) }
    {
        let mut goal = self;
        goal.added.push(formula)?;
        Ok(goal)
    }
}
