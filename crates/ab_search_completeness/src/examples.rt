//! Why the names of a formula in focus have to stay where they stand.

ghost use Rattle.std.specs.Prelude.{true};
ghost use Rattle.ab_search_trees.specs.Examples.{alone};
ghost use Rattle.ab_search_trees.specs.Goals.{first_goal};
ghost use Rattle.ab_search_trees.specs.Guesses.{Guessed};
ghost use Rattle.ab_search_trees.specs.Outcomes.{not_found, ComesTo};
ghost use Rattle.ab_search_completeness.specs.Examples.{one_constant, name_leaves};

/// A name that stands in goals alone may leave them once a term is put in, and then an instance doesn't close it by `exists`, where the
/// tree does. So a hypothesis may serve for what the instance leaves, and for nothing in the tree: the search finds nothing, is nowhere
/// blind, and misses a derivation.
pub fn names_have_to_stay()
    ensures searched { ComesTo one_constant 1 (alone name_leaves) not_found }
    ensures derived { Guessed one_constant true (first_goal 1 (alone name_leaves)) }
{}
