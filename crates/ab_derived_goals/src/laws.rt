//! What proof commands do to a goal is derived from the goals that they leave.
ghost use Rattle.std.specs.Prelude.{◌≡◌, All, List, [], ◌∷◌, ◌++◌, ℕ, Some, None, Bool, map, if◌then◌else◌};
ghost use Rattle.ab_term.specs.Terms.{Read};
ghost use Rattle.ab_grammar.specs.CommandTrees.{Argument};
ghost use Rattle.ab_formulas.specs.Declarations.{Declarations};
ghost use Rattle.ab_formulas.specs.Forms.{form_of};
ghost use Rattle.ab_formulas.specs.NewNames.{Label};
ghost use Rattle.ab_formulas.specs.Sequents.{Sequent, IsSequent, IsUsed, formula_of, proving, assuming, without};
ghost use Rattle.ab_theory.specs.Conjuncts.{conjuncts};
ghost use Rattle.ab_theory.specs.Derivations.{Derivation, root, Valid, open_goals, Debt};
ghost use Rattle.ab_theory.specs.Pieces.{Given, pieces};
ghost use Rattle.ab_theory.specs.UseAnswers.{IsUsedFor, awaited, result_in};
ghost use Rattle.ab_effects.specs.Debts.{taken_unless};
ghost use Rattle.ab_effects.specs.FormulaUses.{formula_named, names_in, formulas_in, using, OpenedBeside};
ghost use Rattle.ab_effects.specs.Introductions.{Introduced};
ghost use Rattle.ab_effects.specs.ProofCommands.{is_used, missing, cleared, repeated, cases};
ghost use Rattle.ab_effects.specs.Row.{Leads};
ghost use Rattle.ab_consequences.specs.Standing.{StandsFor};
ghost use Rattle.ab_consequences.specs.UseRows.{AreFitting};
ghost use Rattle.ab_consequences.specs.UsesFollow.{MayUse};
ghost use Rattle.ab_derived_goals.specs.Derived.{AreSound, IsDerived, IsDerivedAlike};
ghost use Rattle.ab_derived_goals.specs.Extended.{IsExtended};
ghost use Rattle.ab_derived_goals.specs.GivenTerms.{AreApart};

/// HYPOTHESES are dropped and renamed, and a conjunction is split into all its parts.
pub fn hypotheses_are_dropped_and_renamed()
    ensures dropped { (D : Declarations) (s : Sequent) (Hs : List (List ℕ)) → AreSound D → IsSequent D s → IsDerived D s (cleared Hs s ∷ []) [] }
    ensures renamed { (D : Declarations) (s : Sequent) (H x : List ℕ) (F : Read) → AreSound D → IsSequent D s → formula_of s H ≡ Some F → ¬ IsUsed s x →
        IsDerived D s (assuming x F (without H s) ∷ []) [] }
    ensures split { (D : Declarations) (s : Sequent) → AreSound D → IsSequent D s → IsDerived D s (map (λ F. proving F s) (conjuncts s.conclusion)) [] }
{}

/// WHAT STANDS FOR A FORMULA takes its place: that of the conclusion, and that of a hypothesis, which stands last then.
pub fn what_stands_for_a_formula_takes_its_place()
    ensures conclusion { (D : Declarations) (s : Sequent) (F : Read) → AreSound D → IsSequent D s → StandsFor D s F s.conclusion → IsDerived D s (proving F s ∷ []) [] }
    ensures hypothesis { (D : Declarations) (s : Sequent) (H : List ℕ) (F G : Read) → AreSound D → IsSequent D s → formula_of s H ≡ Some G → StandsFor D s F G →
        IsDerived D s (assuming H F (without H s) ∷ []) [] }
{}

/// CONCLUSIONS AND HYPOTHESES ARE TAKEN APART: a goal is derived from what is left when all that can be was taken off its conclusion, and from what comes of
/// one of its hypotheses, which stays or doesn't. New variables have other numbers in the derivation.
pub fn formulas_are_taken_apart()
    ensures conclusion { (D : Declarations) (xs ys : List (List ℕ)) (s u : Sequent) → AreSound D → IsSequent D s → Introduced D xs s ys u → IsDerivedAlike D s (u ∷ []) [] }
    ensures hypothesis { (D : Declarations) (l : Label) (s : Sequent) (H : List ℕ) (F : Read) (keep : Bool) (ps : List Sequent) → AreSound D → IsSequent D s → formula_of s H ≡ Some F →
        Leads (cases D (form_of F) F l s (if keep then s else without H s)) ps → IsDerivedAlike D s ps [] }
{}

/// WHAT A USE OF A FORMULA LEADS TO IS DERIVED: of a hypothesis, or of a theorem, which is owed then. What is awaited is left to be shown, and the
/// result is opened where it isn't what the goal asks for.
pub fn uses_are_derived()
    ensures apply { (D : Declarations) (l : Label) (s t : Sequent) (H : List ℕ) (F K : Read) (n : ℕ) (vs : List Argument) (gs : List Given) →
        AreSound D → IsSequent D s → formula_named D s H ≡ Some F → missing (names_in vs) s ≡ None → AreFitting D s (pieces n F) gs → AreApart gs →
        MayUse D (using s gs (pieces n F) (record { hypotheses = formulas_in s vs; conclusion = None }) F) →
        IsUsedFor (using s gs (pieces n F) (record { hypotheses = formulas_in s vs; conclusion = None }) F) K →
        OpenedBeside D gs (result_in (formulas_in s vs) K) l s t →
        IsDerivedAlike D s (map (λ A. proving A s) (awaited (formulas_in s vs) K) ++ t ∷ []) (taken_unless (is_used s H) H) }
    ensures backchain { (D : Declarations) (s : Sequent) (H : List ℕ) (F K : Read) (n : ℕ) (gs : List Given) →
        AreSound D → IsSequent D s → formula_named D s H ≡ Some F →
        MayUse D (using s gs (pieces n F) (record { hypotheses = repeated n; conclusion = Some s.conclusion }) F) →
        IsUsedFor (using s gs (pieces n F) (record { hypotheses = repeated n; conclusion = Some s.conclusion }) F) K →
        IsDerivedAlike D s (map (λ A. proving A s) (awaited (repeated n) K)) (taken_unless (is_used s H) H) }
{}

/// DERIVATIONS GO ON: where the first open goal is derived from others, these take its place, and the derivation owes what that owes more. And
/// the open goals of a derivation of a sequent are sequents.
pub fn derivations_go_on()
    ensures extended { (D : Declarations) (d : Derivation) (s : Sequent) (ps rest : List Sequent) (owed : List Debt) → Valid D d → open_goals d ≡ s ∷ rest →
        IsDerived D s ps owed → (e : Derivation) × IsExtended D d ps rest owed e }
    ensures sequents { (D : Declarations) (d : Derivation) → AreSound D → Valid D d → IsSequent D (root d) → All (IsSequent D) (open_goals d) }
{}
