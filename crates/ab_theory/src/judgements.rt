//! Laws of judgements of the specification logic.

ghost use Rattle.std.specs.Prelude.{◌≡◌, ℕ, List, [], ◌∷◌, ◌++◌, Option, Some, codes, slice_get};
ghost use Rattle.ab_term.specs.Types.{Ty, arrows, o, olist};
ghost use Rattle.ab_term.specs.Terms.{Read};
ghost use Rattle.ab_term.specs.Typing.{Signature, HasType};
ghost use Rattle.ab_formulas.specs.Formulas.{IsFormulaUnder};
ghost use Rattle.ab_formulas.specs.Marks.{Sign};
ghost use Rattle.ab_formulas.specs.Declarations.{Declarations};
ghost use Rattle.ab_formulas.specs.Programs.{program_in};
ghost use Rattle.ab_formulas.specs.Sequents.{Sequent, goal_names};
ghost use Rattle.ab_theory.specs.Atoms.{Defined, Choice, defined_atom, choices_of};
ghost use Rattle.ab_theory.specs.Growth.{AddsNoClause};
ghost use Rattle.ab_theory.specs.Judgements.{Judgement};
ghost use Rattle.ab_theory.specs.Opening.{open_goal};
ghost use Rattle.ab_theory.specs.Subjects.{Subject, an_atom, Way, with_rules, subject_of, way_by_choice, ways_of};

/// A goal, opened in a list, is a formula of the reasoning logic.
pub fn opened_goals_are_formulas()
    ensures { (sg : Signature) → sg (codes "::") ≡ Some (arrows (o ∷ olist ∷ []) olist) → (m : Sign) (G : List Ty) (L g : Read) →
        HasType sg G L olist → HasType sg G g o → IsFormulaUnder sg G (open_goal m L g) }
{}

/// Where no clause is added, what may be analysed and unfolded stays so, with its rules.
pub fn subjects_outlive_declarations()
    ensures rules { (D E : Declarations) → AddsNoClause D E → (j : Option Judgement) → with_rules E j ≡ with_rules D j }
    ensures subjects { (D E : Declarations) → AddsNoClause D E → (F : Read) (x : Subject) → subject_of D F ≡ Some x → subject_of E F ≡ Some x }
{}

/// A defined atom is a subject; and the ways to unfold it are by its choices, place by place.
pub fn an_atom_is_a_subject()
    ensures subject { (D : Declarations) (F : Read) (d : Defined) → defined_atom D F ≡ Some d → subject_of D F ≡ Some (an_atom d) }
    ensures way { (s : Sequent) (d : Defined) (i : ℕ) (c : Choice) →
        slice_get (choices_of (goal_names s) d) i ≡ Some c → slice_get (ways_of s (an_atom d)) i ≡ Some (way_by_choice s d c) }
    ensures choice { (s : Sequent) (d : Defined) (i : ℕ) (w : Way) → slice_get (ways_of s (an_atom d)) i ≡ Some w →
        (c : Choice) × (slice_get (choices_of (goal_names s) d) i ≡ Some c) × (way_by_choice s d c ≡ w) }
{}

/// What adds no clause adds up; and declarations among which there is none add none.
pub fn growth_without_clauses_adds_up()
    ensures none { (D : Declarations) → AddsNoClause D D }
    ensures more { (C D E : Declarations) → AddsNoClause C D → AddsNoClause D E → AddsNoClause C E }
    ensures behind { (D more : Declarations) → program_in more ≡ [] → AddsNoClause D (D ++ more) }
{}
