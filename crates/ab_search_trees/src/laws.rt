//! Laws of the search tree: it is there, and is one; it comes to one outcome, whatever the numbers of variables; what its outcome tells, what
//! answers show, and which derivations the search does not miss.

ghost use Rattle.std.specs.Prelude.{◌≡◌, ◌⊎◌, ℕ, ◌<◌, ◌≤◌, List, [], ◌∷◌, ◌++◌, map, length, Contains, true, false};
ghost use Rattle.ab_term.specs.Types.{Ty};
ghost use Rattle.ab_term.specs.Terms.{Variable, Term, Read};
ghost use Rattle.ab_term.specs.Typing.{Signature, HasType};
ghost use Rattle.ab_term.specs.Translation.{forget};
ghost use Rattle.ab_term.specs.Variables.{Substitution, image, image_by};
ghost use Rattle.ab_term.specs.Sameness.{same_number};
ghost use Rattle.ab_unifiers.specs.Unification.{Equation, unified, apart, Solves};
ghost use Rattle.ab_unifiers.specs.Unifiers.{given, AreTyped, AreKnown, IsCell, HoldsCells, AllHoldCells};
ghost use Rattle.ab_unifiers.specs.Replacements.{Cell, holds};
ghost use Rattle.ab_unifiers.specs.Renumbering.{IsRenumbering};
ghost use Rattle.ab_unifiers.specs.Member.{HasMember};
ghost use Rattle.ab_formulas.specs.Declarations.{Declarations, HaveDefinitions, signature_in};
ghost use Rattle.ab_formulas.specs.Programs.{HavePrograms};
ghost use Rattle.ab_formulas.specs.Sequents.{Sequent, formulas, goal_names, IsSequent};
ghost use Rattle.ab_formulas.specs.NamedGoals.{named};
ghost use Rattle.ab_theory.specs.Equations.{AreCells};
ghost use Rattle.ab_search_trees.specs.Lifting.{left_of, Guess, IsGuessFor, MakesEqual};
ghost use Rattle.ab_search_trees.specs.Goals.{Goal, Now, first_goal};
ghost use Rattle.ab_search_trees.specs.Tree.{Leaf, found, stuck_at, blind, Leaves};
ghost use Rattle.ab_search_trees.specs.Outcomes.{Outcome, closed, not_pattern, not_found, outcome_of, Searched, ComesTo, these, but_for, first_answers, answers_in, NoneStuck, Asks};
ghost use Rattle.ab_search_trees.specs.Numberings.{renumbered_sequent, renumbered_leaf, AreOneSearch};
ghost use Rattle.ab_search_trees.specs.Guesses.{Guessed};
ghost use Rattle.ab_search_trees.specs.Shown.{Shown};

/// A GUESS IS LIFTED over unification: where it makes both sides of each equation the same, the answer isn't that they are
/// apart; and where there is an answer, the guess is the answer and then a guess for the variables that are left, on all
/// terms over the problem's cells.
pub fn guesses_lift<Hint>()
    ensures apart { (sg : Signature) (x : Hint) (es : List (Equation Hint)) (cells : List (Cell Hint)) (ys : List (Variable ℕ)) (f : Guess) →
        AreTyped sg es → AreKnown cells ys → ((y : Variable ℕ) → holds ys y ≡ true → IsCell cells y) → AllHoldCells cells es →
        IsGuessFor sg ys f → MakesEqual f es → ¬ (Solves x (given es cells ys) apart) }
    ensures unified { (sg : Signature) (x : Hint) (es : List (Equation Hint)) (cells more : List (Cell Hint)) (ys : List (Variable ℕ)) (q : Substitution ℕ Hint) (f : Guess) →
        AreTyped sg es → AreKnown cells ys → ((y : Variable ℕ) → holds ys y ≡ true → IsCell cells y) → AllHoldCells cells es →
        IsGuessFor sg ys f → MakesEqual f es → Solves x (given es cells ys) (unified more q) →
        (r : Guess) × IsGuessFor sg (left_of cells ys more q) r × ((G : List Ty) (t : Term ℕ Hint) (A : Ty) →
        HasType sg G t A → HoldsCells cells t → image_by r (forget (image same_number q t)) ≡ image_by f (forget t)) }
{}

/// A sequent has one list of leaves at each depth, over all variables that were ever made: there is one, and no other. So
/// the search comes to one outcome.
pub fn searches_have_one_tree()
    ensures some { (D : Declarations) (cells : List (Cell (List ℕ))) (depth : ℕ) (s : Sequent) →
        HaveDefinitions D → IsSequent D s → AreCells cells s → (ls : List Leaf) × Searched D cells depth s ls }
    ensures one { (D : Declarations) (now : Now) (gs : List Goal) (ls ms : List Leaf) →
        Leaves D now gs ls → Leaves D now gs ms → ls ≡ ms }
{}

/// ONE SEARCH, whatever the numbers of variables: a sequent with other numbers has the same leaves, with these numbers, so each
/// answer puts in the same. And of two sequents that are the same with names for numbers, each over whatever variables were ever
/// made, the leaves are the same but for the numbers.
pub fn other_numbers_have_the_same_leaves()
    ensures renumbered { (D : Declarations) (f : ℕ → ℕ) (cells others : List (Cell (List ℕ))) (depth : ℕ) (s : Sequent) (ls : List Leaf) →
        HaveDefinitions D → HavePrograms D → IsRenumbering f cells others → Searched D cells depth s ls →
        Searched D others depth (renumbered_sequent f s) (map (renumbered_leaf f cells others) ls) }
    ensures one { (D : Declarations) (s u : Sequent) (cells others : List (Cell (List ℕ))) (depth : ℕ) (ls ms : List Leaf) →
        HaveDefinitions D → HavePrograms D → IsSequent D s → IsSequent D u → named s ≡ named u → AreCells cells s → AreCells others u →
        Searched D cells depth s ls → Searched D others depth u ms → AreOneSearch s u cells others ls ms }
{}

/// ONE OUTCOME, whatever the numbers of variables: of two sequents that are the same with names for numbers, over whatever
/// variables were ever made, searches to one depth come to one outcome; and each comes to one.
pub fn searches_come_to_one_outcome()
    ensures some { (D : Declarations) (cells : List (Cell (List ℕ))) (depth : ℕ) (s : Sequent) →
        HaveDefinitions D → IsSequent D s → AreCells cells s → (o : Outcome) × ComesTo D depth s o }
    ensures one { (D : Declarations) (s u : Sequent) (depth : ℕ) (o p : Outcome) →
        HaveDefinitions D → HavePrograms D → IsSequent D s → IsSequent D u → named s ≡ named u →
        ComesTo D depth s o → ComesTo D depth u p → o ≡ p }
{}

/// A goal is closed exactly where the tree has an answer. Where nothing is found, there is neither an answer nor an
/// equation outside the patterns.
pub fn outcomes_tell_leaves()
    ensures closed { (ls : List Leaf) → outcome_of ls ≡ closed → (now : Now) × Contains ls (found now) }
    ensures answer { (ls : List Leaf) (now : Now) → Contains ls (found now) → outcome_of ls ≡ closed }
    ensures not_pattern { (ls : List Leaf) (i : ℕ) → outcome_of ls ≡ not_pattern i →
        ((before : List Leaf) × (after : List Leaf) × (ls ≡ before ++ stuck_at i ∷ after) × ((l : Leaf) → Contains before l → l ≡ blind)) × ((now : Now) → ¬ Contains ls (found now)) }
    ensures not_found { (ls : List Leaf) → outcome_of ls ≡ not_found → (l : Leaf) → Contains ls l → l ≡ blind }
{}

/// THE FIRST ANSWERS are those of the leaves before the first equation outside the patterns, in order: as many as are asked
/// for, or all that there are. They aren't told exactly where such an equation comes before the last of them.
pub fn first_answers_are_told()
    ensures these { (n : ℕ) (ls : List Leaf) (ns : List Now) → first_answers n ls ≡ these ns →
        (before : List Leaf) × (after : List Leaf) × (ls ≡ before ++ after) × NoneStuck before × (answers_in before ≡ ns) × (length ns ≤ n) × ((length ns ≡ n) ⊎ (after ≡ [])) }
    ensures but_for { (n : ℕ) (ls : List Leaf) (i : ℕ) → first_answers n ls ≡ but_for i →
        (before : List Leaf) × (after : List Leaf) × (ls ≡ before ++ stuck_at i ∷ after) × NoneStuck before × (length (answers_in before) < n) }
{}

/// THE SEARCH IS COMPLETE to its depth, but for the rules of judgements: where nothing is found and it was nowhere blind, no
/// derivation by guesses of that depth is there that takes no judgement by a rule.
pub fn search_is_complete()
    ensures { (D : Declarations) (cells : List (Cell (List ℕ))) (depth : ℕ) (s : Sequent) (ls : List Leaf) →
        HaveDefinitions D → HasMember (signature_in D) → IsSequent D s → AreCells cells s → Searched D cells depth s ls →
        outcome_of ls ≡ not_found → ¬ Contains ls blind → ¬ Guessed D false (first_goal depth s) }
{}

/// THE SEARCH IS SOUND: what it closes is shown, by the hypotheses and definitions, with terms for the variables that were
/// left open.
pub fn closed_is_shown()
    ensures { (D : Declarations) (cells : List (Cell (List ℕ))) (depth : ℕ) (s : Sequent) (ls : List Leaf) →
        HaveDefinitions D → HavePrograms D → HasMember (signature_in D) → IsSequent D s → AreCells cells s → Searched D cells depth s ls →
        outcome_of ls ≡ closed → Shown D (formulas s.hypotheses) s.conclusion }
{}

/// AN ANSWER OF A QUERY shows the query's formula, with what the answer puts in for the variables that the search made for the
/// quantifiers in front.
pub fn answers_show_queries()
    ensures { (D : Declarations) (cells : List (Cell (List ℕ))) (depth : ℕ) (s : Sequent) (E : Read) (ls : List Leaf) (last : Now) →
        HaveDefinitions D → HavePrograms D → HasMember (signature_in D) → IsSequent D s → AreCells cells s →
        formulas s.hypotheses ≡ [] → goal_names s ≡ [] → Asks (length cells) s.conclusion E →
        Searched D cells depth s ls → Contains ls (found last) → Shown D [] (image same_number last.answer E) }
{}
