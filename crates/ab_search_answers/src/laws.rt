//! From an answer of the search tree to a proof.

ghost use Rattle.std.specs.Prelude.{◌≡◌, ℕ, List, [], ◌∷◌, ◌++◌, map, length, All, Contains};
ghost use Rattle.ab_term.specs.Types.{Ty};
ghost use Rattle.ab_term.specs.Terms.{Read};
ghost use Rattle.ab_grammar.specs.Tree.{Tree};
ghost use Rattle.ab_term.specs.Variables.{Substitution, image};
ghost use Rattle.ab_term.specs.Sameness.{same_number};
ghost use Rattle.ab_unifiers.specs.Replacements.{Cell};
ghost use Rattle.ab_unifiers.specs.Member.{HasMember};
ghost use Rattle.ab_formulas.specs.Declarations.{Declarations, Block, a_block, HaveSentences, HaveDefinitions, signature_in};
ghost use Rattle.ab_formulas.specs.Formulas.{IsFormula};
ghost use Rattle.ab_formulas.specs.Programs.{HavePrograms};
ghost use Rattle.ab_formulas.specs.Sequents.{Sequent, IsSequent, formulas, goal_names, in_terms, proving};
ghost use Rattle.ab_meaning.specs.Scopes.{Scope};
ghost use Rattle.ab_meaning.specs.Terms.{MeansIn};
ghost use Rattle.ab_theory.specs.Derivations.{Derivation};
ghost use Rattle.ab_theory.specs.Equations.{AreCells};
ghost use Rattle.ab_search_trees.specs.Goals.{Goal, Now, beginning, first_goal};
ghost use Rattle.ab_search_trees.specs.Ways.{Way, ways};
ghost use Rattle.ab_search_trees.specs.Tree.{Leaf, found, Leaves};
ghost use Rattle.ab_search_trees.specs.Outcomes.{Searched, closed, outcome_of, Asks, whole_answer};
ghost use Rattle.ab_search_proofs.specs.Whole.{IsWhole};
ghost use Rattle.ab_search_layers.specs.Layered.{MemberIsDefined, Layered};
ghost use Rattle.ab_search_layers.specs.Closed.{to_show, Closes};
ghost use Rattle.ab_search_layers.specs.Taken.{Taking};
ghost use Rattle.ab_search_answers.specs.Followed.{Follows};
ghost use Rattle.ab_search_answers.specs.FromTexts.{IsFromText};
ghost use Rattle.ab_search_answers.specs.Unmarked.{HasNoHash, HaveNoHash};

/// NO JUDGEMENT COMES TO BE MARKED as coinduction marks: the ways of a goal whose conclusion has none leave such goals alone. So it is asked of the sequent
/// that is searched, and of the bodies of definitions, and of no goal on the way.
pub fn ways_bring_no_coinductive_judgement()
    ensures { (D : Declarations) (now : Now) (g : Goal) → HaveDefinitions D → HaveNoHash D → IsFormula (signature_in D) g.conclusion → HasNoHash g.conclusion →
        (w : Way) → Contains (ways D now g) w → (h : Goal) → Contains w.goals h → HasNoHash h.conclusion }
{}

/// NO TEXT SAYS IT: no judgement of what an expression means is marked so.
pub fn texts_mean_no_coinductive_judgement()
    ensures { (D : Declarations) (scope : Scope) (e : Tree) (A : Ty) (F : Read) → MeansIn D scope e A F → HasNoHash F }
{}

/// SO NO DEFINITION OF A TEXT DOES: where no judgement of a definition's body is marked so in what was declared, none is once a definition stands behind it whose
/// bodies come from texts.
pub fn definitions_from_texts_have_no_coinductive_judgement()
    ensures { (D : Declarations) (b : Block) → HaveNoHash D → All IsFromText b.clauses → HaveNoHash (D ++ a_block b ∷ []) }
{}

/// WHOEVER FOLLOWS A WAY OF THE TREE to an answer gets steps that close the sequent that was searched, over its own variables: with terms for the variables that
/// the search brought, and with constants for those that stayed open. No judgement is marked `#`.
pub fn ways_to_answers_close()
    ensures { (D : Declarations) (cells : List (Cell (List ℕ))) (depth : ℕ) (s : Sequent) (last : Now) (n : Substitution ℕ (List ℕ)) (es : List (Read × Taking)) →
        HaveDefinitions D → HavePrograms D → HasMember (signature_in D) → IsSequent D s → AreCells cells s →
        HasNoHash s.conclusion → HaveNoHash D →
        Follows D last (beginning cells s) (first_goal depth s ∷ []) n es → Closes D (to_show (map in_terms s.variables) (formulas s.hypotheses) s.conclusion ∷ []) es }
{}

/// EACH ANSWER HAS SUCH A WAY.
pub fn answers_are_reached()
    ensures { (D : Declarations) (now last : Now) (gs : List Goal) (ls : List Leaf) → Leaves D now gs ls → Contains ls (found last) →
        (n : Substitution ℕ (List ℕ)) × (es : List (Read × Taking)) × Follows D last now gs n es }
{}

/// SO AN ANSWER IS A PROOF of the sequent that was searched, over its own variables: with terms for the variables that the search brought, and with
/// constants for those that stayed open. No judgement is marked `#`.
pub fn answers_are_proofs()
    ensures { (D : Declarations) (cells : List (Cell (List ℕ))) (depth : ℕ) (s : Sequent) (ls : List Leaf) (last : Now) →
        HaveDefinitions D → HavePrograms D → HasMember (signature_in D) → IsSequent D s → AreCells cells s →
        HasNoHash s.conclusion → HaveNoHash D →
        Searched D cells depth s ls → Contains ls (found last) → Layered D (map in_terms s.variables) (formulas s.hypotheses) s.conclusion }
{}

/// AN ANSWER OF A QUERY IS A PROOF of the query's formula, with what the answer puts in for the variables that the search made for the quantifiers in front, and
/// with constants for those that stayed open: so each answer is true of what it prints.
pub fn answers_of_queries_are_proofs()
    ensures { (D : Declarations) (cells : List (Cell (List ℕ))) (depth : ℕ) (s : Sequent) (E : Read) (ls : List Leaf) (last : Now) →
        HaveDefinitions D → HavePrograms D → HasMember (signature_in D) → IsSequent D s → AreCells cells s → HasNoHash s.conclusion → HaveNoHash D →
        formulas s.hypotheses ≡ [] → goal_names s ≡ [] → Asks (length cells) s.conclusion E →
        Searched D cells depth s ls → Contains ls (found last) → Layered D (map in_terms s.variables) [] (image same_number (whole_answer last) E) }
{}

/// WHAT A SEARCH CLOSES IS DERIVED: the sequent has a whole derivation by the rules, which takes no theorem and admits nothing.
pub fn closed_goals_are_derived()
    ensures { (D : Declarations) (cells : List (Cell (List ℕ))) (depth : ℕ) (s : Sequent) (ls : List Leaf) →
        HaveSentences D → HaveDefinitions D → HavePrograms D → HasMember (signature_in D) → MemberIsDefined D → IsSequent D s → AreCells cells s → HasNoHash s.conclusion → HaveNoHash D →
        Searched D cells depth s ls → outcome_of ls ≡ closed → (d : Derivation) × IsWhole D s d }
{}

/// WHAT AN ANSWER OF A QUERY PRINTS IS DERIVED: asked by itself it is a sequent, which has a whole derivation by the rules.
pub fn printed_answers_are_derived()
    ensures { (D : Declarations) (cells : List (Cell (List ℕ))) (depth : ℕ) (s : Sequent) (E : Read) (ls : List Leaf) (last : Now) →
        HaveSentences D → HaveDefinitions D → HavePrograms D → HasMember (signature_in D) → MemberIsDefined D → IsSequent D s → AreCells cells s → HasNoHash s.conclusion → HaveNoHash D →
        formulas s.hypotheses ≡ [] → goal_names s ≡ [] → Asks (length cells) s.conclusion E → Searched D cells depth s ls → Contains ls (found last) →
        let printed = proving (image same_number (whole_answer last) E) s in IsSequent D printed × (d : Derivation) × IsWhole D printed d }
{}
