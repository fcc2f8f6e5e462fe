//! The leaves of some trees, and what some searches come to.

ghost use Rattle.std.specs.Prelude.{[], ◌∷◌, codes};
ghost use Rattle.ab_search_trees.specs.Tree.{stuck_at, found, blind};
ghost use Rattle.ab_search_trees.specs.Outcomes.{closed, not_pattern, not_found, Searched, ComesTo};
ghost use Rattle.ab_search_trees.specs.Examples.{alone, beyond_patterns, by_another_name, nothing_put_in, two_facts, which, put_in, const_of, given, numeral, natural_numbers, q_by_p, from_the_list, a_holds, of_nothing, some_goal, never, equal_streams, asked_of_smaller, smaller, as_large};

/// An equation outside the patterns is a leaf of its own. A hypothesis serves under another name of its constant: as it
/// stands it is apart from the conclusion, and renamed it gives the answer. A query has the answers of
/// a definition in the order of the clauses, and none where nothing may be unfolded.
pub fn leaves_compute()
    ensures stuck { Searched [] [] 5 (alone beyond_patterns) (stuck_at 0 ∷ []) }
    ensures renamed { Searched [] [] 0 by_another_name (found nothing_put_in ∷ []) }
    ensures both { Searched two_facts [] 1 (alone which) (found (put_in (codes "a")) ∷ found (put_in (codes "b")) ∷ []) }
    ensures shallow { Searched two_facts [] 0 (alone which) [] }
    ensures never { Searched [] [] 5 (alone never) [] }
    ensures hidden { Searched a_holds [] 5 (alone some_goal) (blind ∷ []) }
{}

/// What searches come to: a numeral is a number to the depth of its size and no less; a goal outside the patterns; `{a}` by a
/// clause of the program; `{L, p c |- q c}` by a clause and then by the list, of which a member is found before the formula in
/// focus is reached; and `eqs S S +` serves `eqs S S +`, and not `eqs S S #`.
pub fn searches_compute()
    ensures too_deep { ComesTo natural_numbers 5 (alone (given (codes "nat") (numeral 5))) not_found }
    ensures deep { ComesTo natural_numbers 6 (alone (given (codes "nat") (numeral 5))) closed }
    ensures outside { ComesTo [] 5 (alone beyond_patterns) (not_pattern 0) }
    ensures fact { ComesTo a_holds 5 (alone (of_nothing (const_of (codes "a")))) closed }
    ensures by_list { ComesTo q_by_p 5 from_the_list closed }
    ensures refused { ComesTo equal_streams 5 (asked_of_smaller as_large) not_found }
    ensures served { ComesTo equal_streams 5 (asked_of_smaller smaller) closed }
{}
