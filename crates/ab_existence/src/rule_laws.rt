//! A kernel step is taken, or a condition of it fails first, or its equation is outside the patterns. And what induction marks.
ghost use Rattle.std.specs.Prelude.{◌≡◌, ℕ, List, map, Some, All};
ghost use Rattle.ab_term.specs.Terms.{Read};
ghost use Rattle.ab_unifiers.specs.Replacements.{Cell};
ghost use Rattle.ab_formulas.specs.Declarations.{Declarations};
ghost use Rattle.ab_formulas.specs.Marks.{Sign, plain, erased};
ghost use Rattle.ab_formulas.specs.Sequents.{Sequent};
ghost use Rattle.ab_theory.specs.Equations.{AreCells};
ghost use Rattle.ab_theory.specs.Conjuncts.{conjuncts, with_parts};
ghost use Rattle.ab_theory.specs.Induction.{inductive_signs, coinductive_signs, marked_antecedents, marked_consequents};
ghost use Rattle.ab_theory.specs.Steps.{Step};
ghost use Rattle.ab_theory.specs.Row.{Takes, Sticks};
ghost use Rattle.ab_theory.specs.Rules.{row, any_name, NamedRule, Fails, Stuck};
ghost use Rattle.ab_existence.specs.Certainty.{OneOfThreeHolds};
ghost use Rattle.ab_existence.specs.FewNames.{StepFindsNames};

/// EACH STEP HAS AN ANSWER at each goal: its rule takes the goal to some premises, or one of its conditions is the first that fails,
/// or its equation is outside the patterns. Where new variables may have any names, without further ado; where they are named by
/// their hints, if names are found for them.
pub fn each_step_has_an_answer()
    ensures by_any_names { (D : Declarations) (cells : List (Cell (List ℕ))) (step : Step) (s : Sequent) →
        OneOfThreeHolds ((ps : List Sequent) × Takes (row D (any_name cells) step s) ps) ((i : ℕ) × Fails D cells step s i) ((j : ℕ) × Sticks (row D (any_name cells) step s) j) }
    ensures by_hints { (D : Declarations) (cells : List (Cell (List ℕ))) (step : Step) (s : Sequent) → AreCells cells s → StepFindsNames D step s →
        OneOfThreeHolds ((ps : List Sequent) × NamedRule D step s ps) ((i : ℕ) × Fails D cells step s i) ((j : ℕ) × Stuck D cells step s j) }
{}

/// ERASING THE MARKS THAT INDUCTION PUTS gives each part and the formula back, and so does erasing those that coinduction puts: past
/// their marks the marked formulas and the unmarked ones are the same.
pub fn induction_changes_marks_alone()
    ensures parts_of_induction { (D : Declarations) (ns : List ℕ) (m : Sign) (Fs : List Read) (ms : List Sign) →
        inductive_signs D ns Fs ≡ Some ms → All (λ k. k ≡ plain) ms → map erased (marked_antecedents ns m Fs) ≡ map erased Fs }
    ensures induction { (D : Declarations) (ns : List ℕ) (m : Sign) (F : Read) (ms : List Sign) →
        inductive_signs D ns (conjuncts F) ≡ Some ms → All (λ k. k ≡ plain) ms → erased (with_parts (marked_antecedents ns m (conjuncts F)) F) ≡ erased F }
    ensures parts_of_coinduction { (D : Declarations) (m : Sign) (Fs : List Read) (ms : List Sign) →
        coinductive_signs D Fs ≡ Some ms → All (λ k. k ≡ plain) ms → map erased (marked_consequents m Fs) ≡ map erased Fs }
    ensures coinduction { (D : Declarations) (m : Sign) (F : Read) (ms : List Sign) →
        coinductive_signs D (conjuncts F) ≡ Some ms → All (λ k. k ≡ plain) ms → erased (with_parts (marked_consequents m (conjuncts F)) F) ≡ erased F }
{}
