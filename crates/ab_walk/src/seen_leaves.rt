//! What is kept of the leaves of a search tree that were seen.
ghost use Rattle.std.specs.Prelude.{◌++◌, ◌∷◌, [], List};
ghost use Rattle.ab_search_trees.specs.Tree.{Leaf, stuck_at};
ghost use Rattle.ab_walk.specs.Standing.{blind_if};
ghost use Rattle.ab_walk.specs.Stacks.{IsTold};

/// What was seen on the way: the first equation outside the patterns, if there was one, and whether the search was blind somewhere.
#[derive(Clone, Copy)]
pub(crate) struct Seen {
    pub(crate) stuck: Option<usize>,
    pub(crate) blind: bool,
}

impl Seen {
    /// The equation is outside the patterns.
    pub(crate) fn note_stuck(&mut self, equation: usize)
        ensures { (done : List Leaf) → IsTold done self.old → IsTold (done ++ stuck_at equation ∷ []) self.new }
    {
        if self.stuck.is_none() {
            self.stuck = Some(equation);
        }
    }

    /// The ways of a place are over, and the search is blind there, or not.
    pub(crate) fn note_blind(&mut self, here: bool)
        ensures { (done : List Leaf) → IsTold done self.old → IsTold (done ++ blind_if here) self.new }
    {
        if here {
            self.blind = true;
        }
    }
}
