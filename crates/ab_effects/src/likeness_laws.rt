//! Laws of equations, and of defined atoms and judgements, of two goals that are the same with names for numbers.

ghost use Rattle.std.specs.Prelude.{◌≡◌, ◌≢◌, ℕ, List, [], map, All};
ghost use Rattle.ab_term.specs.Terms.{Read};
ghost use Rattle.ab_unifiers.specs.Replacements.{Cell};
ghost use Rattle.ab_unifiers.specs.Clauses.{Each};
ghost use Rattle.ab_formulas.specs.Declarations.{Declarations};
ghost use Rattle.ab_formulas.specs.Sequents.{Hypothesis, Sequent};
ghost use Rattle.ab_formulas.specs.NewNames.{IsNoVariable, IsNamedFor};
ghost use Rattle.ab_formulas.specs.NamedGoals.{named};
ghost use Rattle.ab_theory.specs.Equations.{AreCells, Becomes, AreApart, AreStuck};
ghost use Rattle.ab_theory.specs.Splits.{Split, IsUnsplit};
ghost use Rattle.ab_theory.specs.Subjects.{Subject, Way, cases_by, ways_of};
ghost use Rattle.ab_effects.specs.Likeness.{IsSameEquation, IsSameSubject, IsSameRest, HasItsOutcome, relabelled};

/// AN EQUATION HAS ONE OUTCOME, whatever the numbers: where the first goal becomes another one, so does the second, and
/// these are the same with names for numbers; one that is apart, or stuck, is so over other numbers too.
pub fn equations_have_one_outcome()
    ensures becomes { (D : Declarations) (s u : Sequent) (t r v w : Read) (cells others : List (Cell (List ℕ)))
        (g : Sequent) →
        IsSameEquation D s u t r v w → AreCells cells s → AreCells others u →
        Becomes (IsNamedFor D) cells s t r g →
        (h : Sequent) × Becomes (IsNamedFor D) others u v w h × (named g ≡ named h) }
    ensures one { (D : Declarations) (s u : Sequent) (t r v w : Read) (cells others : List (Cell (List ℕ)))
        (g h : Sequent) →
        IsSameEquation D s u t r v w → AreCells cells s → AreCells others u →
        Becomes (IsNamedFor D) cells s t r g → Becomes (IsNamedFor D) others u v w h → named g ≡ named h }
    ensures freely { (D : Declarations) (s u : Sequent) (t r v w : Read) (cells others : List (Cell (List ℕ)))
        (g : Sequent) →
        IsSameEquation D s u t r v w → AreCells cells s → AreCells others u →
        Becomes (λ k hint name. IsNoVariable k name) cells s t r g →
        (h : Sequent) × Becomes (λ k hint name. IsNoVariable k name) others u v w h × (named g ≡ named h) }
    ensures apart { (D : Declarations) (s u : Sequent) (t r v w : Read) (cells others : List (Cell (List ℕ))) →
        IsSameEquation D s u t r v w → AreCells cells s → AreCells others u →
        AreApart cells s t r → AreApart others u v w }
    ensures stuck { (D : Declarations) (s u : Sequent) (t r v w : Read) (cells others : List (Cell (List ℕ))) →
        IsSameEquation D s u t r v w → AreCells cells s → AreCells others u →
        AreStuck cells s t r → AreStuck others u v w }
{}

/// Two outcomes exclude each other, also over other numbers.
pub fn outcomes_exclude_each_other()
    ensures goal_or_apart { (D : Declarations) (s u : Sequent) (t r v w : Read) (cells others : List (Cell (List ℕ)))
        (g : Sequent) →
        IsSameEquation D s u t r v w → AreCells cells s → AreCells others u →
        Becomes (λ k hint name. IsNoVariable k name) cells s t r g → AreApart others u v w → ⊥ }
    ensures goal_or_stuck { (D : Declarations) (s u : Sequent) (t r v w : Read) (cells others : List (Cell (List ℕ)))
        (g : Sequent) →
        IsSameEquation D s u t r v w → AreCells cells s → AreCells others u →
        Becomes (λ k hint name. IsNoVariable k name) cells s t r g → AreStuck others u v w → ⊥ }
    ensures apart_or_stuck { (D : Declarations) (s u : Sequent) (t r v w : Read) (cells others : List (Cell (List ℕ))) →
        IsSameEquation D s u t r v w → AreCells cells s → AreCells others u →
        AreApart cells s t r → AreStuck others u v w → ⊥ }
{}

/// A SUBJECT SPLITS A GOAL IN ONE WAY, whatever the numbers: where a defined atom or a judgement splits the first goal, it splits
/// the second, and the lists are the same with names for numbers; where an equation is outside the patterns there, the one of the
/// same number is so here. And not both come.
pub fn subjects_split_goals_in_one_way()
    ensures split { (D : Declarations) (s u rest left : Sequent) (name : List ℕ) (x y : Subject) (cells others : List (Cell (List ℕ)))
        (gs : List Sequent) →
        IsSameSubject D s u x y → IsSameRest D s u rest left → AreCells cells s → AreCells others u →
        Split (IsNamedFor D) cells (cases_by s rest name x) gs →
        (hs : List Sequent) × Split (IsNamedFor D) others (cases_by u left name y) hs × (map named gs ≡ map named hs) }
    ensures one { (D : Declarations) (s u rest left : Sequent) (name : List ℕ) (x y : Subject) (cells others : List (Cell (List ℕ)))
        (gs hs : List Sequent) →
        IsSameSubject D s u x y → IsSameRest D s u rest left → AreCells cells s → AreCells others u →
        Split (IsNamedFor D) cells (cases_by s rest name x) gs → Split (IsNamedFor D) others (cases_by u left name y) hs →
        map named gs ≡ map named hs }
    ensures freely { (D : Declarations) (s u rest left : Sequent) (name : List ℕ) (x y : Subject) (cells others : List (Cell (List ℕ)))
        (gs : List Sequent) →
        IsSameSubject D s u x y → IsSameRest D s u rest left → AreCells cells s → AreCells others u →
        Split (λ k hint z. IsNoVariable k z) cells (cases_by s rest name x) gs →
        (hs : List Sequent) × Split (λ k hint z. IsNoVariable k z) others (cases_by u left name y) hs × (map named gs ≡ map named hs) }
    ensures unsplit { (D : Declarations) (s u rest left : Sequent) (name : List ℕ) (x y : Subject) (cells others : List (Cell (List ℕ)))
        (i : ℕ) →
        IsSameSubject D s u x y → IsSameRest D s u rest left → AreCells cells s → AreCells others u →
        IsUnsplit (IsNamedFor D) cells (cases_by s rest name x) i → IsUnsplit (IsNamedFor D) others (cases_by u left name y) i }
    ensures one_place { (D : Declarations) (s u rest left : Sequent) (name : List ℕ) (x y : Subject) (cells others : List (Cell (List ℕ)))
        (i j : ℕ) →
        IsSameSubject D s u x y → IsSameRest D s u rest left → AreCells cells s → AreCells others u →
        IsUnsplit (IsNamedFor D) cells (cases_by s rest name x) i → IsUnsplit (IsNamedFor D) others (cases_by u left name y) j →
        i ≡ j }
    ensures split_or_not { (D : Declarations) (s u rest left : Sequent) (name : List ℕ) (x y : Subject) (cells others : List (Cell (List ℕ)))
        (gs : List Sequent) (i : ℕ) →
        IsSameSubject D s u x y → IsSameRest D s u rest left → AreCells cells s → AreCells others u →
        Split (IsNamedFor D) cells (cases_by s rest name x) gs → IsUnsplit (IsNamedFor D) others (cases_by u left name y) i → ⊥ }
{}

/// The name under which bodies are assumed, which no hypothesis has that is left of the goal, changes nothing but that name.
pub fn names_of_bodies_change_nothing_else()
    ensures split { (D : Declarations) (s rest : Sequent) (x y : List ℕ) (z : Subject) (cells : List (Cell (List ℕ))) (gs : List Sequent) →
        All (λ (h : Hypothesis). h.name ≢ x) rest.hypotheses →
        Split (IsNamedFor D) cells (cases_by s rest x z) gs → Split (IsNamedFor D) cells (cases_by s rest y z) (map (relabelled x y) gs) }
    ensures unsplit { (D : Declarations) (s rest : Sequent) (x y : List ℕ) (z : Subject) (cells : List (Cell (List ℕ))) (i : ℕ) →
        All (λ (h : Hypothesis). h.name ≢ x) rest.hypotheses →
        IsUnsplit (IsNamedFor D) cells (cases_by s rest x z) i → IsUnsplit (IsNamedFor D) cells (cases_by s rest y z) i }
{}

/// A WAY UNFOLDS A CONCLUSION IN ONE WAY, whatever the numbers: a subject has as many ways in the second goal as in the first, and
/// each has the outcome there that it has here. Where it leaves no variable open the body takes the conclusion's place as it is.
pub fn subjects_unfold_in_one_way()
    ensures outcomes { (D : Declarations) (s u : Sequent) (x y : Subject) (cells others : List (Cell (List ℕ))) →
        IsSameSubject D s u x y → AreCells cells s → AreCells others u → Each (HasItsOutcome s u cells others) (ways_of s x) (ways_of u y) }
    ensures bodies { (s : Sequent) (x : Subject) → All (λ (w : Way). (F : Read) → w.closed [] F ≡ F) (ways_of s x) }
{}
