//! Laws of terms that are abstracted over names: the inversion of a variable that is given pairwise different
//! names.

ghost use Rattle.std.specs.Prelude.{ℕ, List, []};
ghost use Rattle.ab_term.specs.Types.{Ty, kind};
ghost use Rattle.ab_term.specs.Terms.{Head, Term};
ghost use Rattle.ab_term.specs.Typing.{Signature, HasType};
ghost use Rattle.ab_term.specs.Substitution.{reduce};
ghost use Rattle.ab_term.specs.Translation.{EqualPastHints};
ghost use Rattle.ab_term.specs.Abstraction.{Only, Distinct, Named, name_terms, abstracted};

/// The term abstracted over the names is well-typed, and given the names it is the term, past hints.
pub fn abstraction_gives_back<Hint>()
    ensures typed { (sg : Signature) (G : List Ty) (A B : Ty) (x : Hint) (hs : List (Head ℕ)) (t : Term ℕ Hint) →
        Named sg G hs A B → HasType sg G t B → HasType sg G (abstracted x A hs t) A }
    ensures back { (sg : Signature) (G : List Ty) (A B : Ty) (x : Hint) (hs : List (Head ℕ)) (t : Term ℕ Hint) →
        Named sg G hs A B → HasType sg G t B →
        EqualPastHints (reduce A (abstracted x A hs t) (name_terms x A hs)) t }
{}

/// THE INVERSE OF A PATTERN: a closed term without names that is the given term, once the names are given to it.
/// There is one exactly where no foreign name stands in the given term: then it is that term abstracted over the
/// names; and it is the only one, past hints, where the names are pairwise different.
pub fn patterns_are_inverted<Hint>()
    ensures exists { (sg : Signature) (G : List Ty) (A : Ty) (c : List ℕ) (x : Hint) (hs : List (Head ℕ))
        (t : Term ℕ Hint) → Named sg G hs A (kind c) → HasType sg G t (kind c) → Only hs t →
        HasType sg [] (abstracted x A hs t) A × Only [] (abstracted x A hs t) }
    ensures no_foreign_name { (A : Ty) (x : Hint) (hs : List (Head ℕ)) (v t : Term ℕ Hint) →
        Only [] v → EqualPastHints (reduce A v (name_terms x A hs)) t → Only hs t }
    ensures one { (sg : Signature) (G : List Ty) (A B : Ty) (x : Hint) (hs : List (Head ℕ)) (v t : Term ℕ Hint) →
        Named sg G hs A B → Distinct hs → HasType sg [] v A → Only [] v →
        EqualPastHints (reduce A v (name_terms x A hs)) t → EqualPastHints v (abstracted x A hs t) }
{}
