//! Laws of what a search that finds nothing rules out.

ghost use Rattle.std.specs.Prelude.{◌≡◌, ℕ, List, [], ◌∷◌, Contains, true};
ghost use Rattle.ab_unifiers.specs.Replacements.{Cell};
ghost use Rattle.ab_unifiers.specs.Member.{HasMember};
ghost use Rattle.ab_formulas.specs.Declarations.{Declarations, HaveDefinitions, signature_in};
ghost use Rattle.ab_formulas.specs.Programs.{HavePrograms};
ghost use Rattle.ab_formulas.specs.Sequents.{Sequent, IsSequent};
ghost use Rattle.ab_theory.specs.Equations.{AreCells};
ghost use Rattle.ab_search_trees.specs.Goals.{beginning, first_goal};
ghost use Rattle.ab_search_trees.specs.Guesses.{Guessed};
ghost use Rattle.ab_search_trees.specs.Outcomes.{not_found, outcome_of, Searched, ComesTo};
ghost use Rattle.ab_search_trees.specs.Tree.{Leaf, blind};
ghost use Rattle.ab_search_completeness.specs.Places.{FocusesAreFirm, SeesAll};

/// THE SEARCH IS COMPLETE to its depth, rules of judgements included: where the tree has neither an answer nor an equation outside the
/// patterns, is nowhere blind, and takes only formulas apart whose shape stays whatever is put in, no derivation by guesses of that
/// depth is there.
pub fn trees_are_complete()
    ensures { (D : Declarations) (cells : List (Cell (List ℕ))) (depth : ℕ) (s : Sequent) (ls : List Leaf) →
        HaveDefinitions D → HavePrograms D → HasMember (signature_in D) → IsSequent D s → AreCells cells s → Searched D cells depth s ls →
        outcome_of ls ≡ not_found → ¬ Contains ls blind → FocusesAreFirm D (beginning cells s) (first_goal depth s ∷ []) →
        ¬ Guessed D true (first_goal depth s) }
{}

/// The same of what a search comes to: where nothing is found by a search that sees all, no derivation by guesses of that depth is there.
pub fn searches_are_complete()
    ensures { (D : Declarations) (depth : ℕ) (s : Sequent) →
        HaveDefinitions D → HavePrograms D → HasMember (signature_in D) → IsSequent D s →
        ComesTo D depth s not_found → SeesAll D depth s → ¬ Guessed D true (first_goal depth s) }
{}
