//! Proofs in progress are borne out by derivations.
ghost use Rattle.std.specs.Prelude.{◌≡◌, ℕ, List, [], ◌∷◌, ◌++◌, map, All};
ghost use Rattle.ab_term.specs.Terms.{Read};
ghost use Rattle.ab_grammar.specs.CommandTrees.{ProofCommand};
ghost use Rattle.ab_formulas.specs.Declarations.{Declarations, signature_in};
ghost use Rattle.ab_formulas.specs.Formulas.{IsSentence};
ghost use Rattle.ab_formulas.specs.NamedGoals.{Goal, named, IsNumbered};
ghost use Rattle.ab_formulas.specs.NewNames.{Label};
ghost use Rattle.ab_formulas.specs.Sequents.{Sequent};
ghost use Rattle.ab_theory.specs.Assumptions.{with_debts};
ghost use Rattle.ab_theory.specs.Derivations.{Derivation, proves, Debt, IsTreeOf};
ghost use Rattle.ab_effects.specs.Debts.{debts_at};
ghost use Rattle.ab_effects.specs.ProofCommands.{effect};
ghost use Rattle.ab_effects.specs.Row.{Leads};
ghost use Rattle.ab_derived_goals.specs.Derived.{AreSound, IsDerivedAlike};
ghost use Rattle.ab_command_derivations.specs.OpenProofs.{IsProofOf, HasProof};
ghost use Rattle.ab_command_derivations.specs.Readings.{ReadingsFit, NumbersHaveNames};

/// A PROOF IN PROGRESS HAS ITS DERIVATION: it begins with one, each proof command that leads to goals from the current goal, read with any
/// numbers for its variables, carries it on, and where no goal is left the derivation is a tree of the formula. So each goal that is left
/// is a sequent, with names for numbers.
pub fn proofs_in_progress_have_derivations()
    ensures begun { (D : Declarations) (F : Read) → IsSentence (signature_in D) F → HasProof D F (named (proves F 0) ∷ []) [] }
    ensures commands { (D : Declarations) (F : Read) (g : Goal) (gs : List Goal) (js : List ℕ) (t : Sequent) (l : Label) (command : ProofCommand) (ps : List Sequent) →
        AreSound D → ReadingsFit D → NumbersHaveNames → HasProof D F (g ∷ gs) js → IsNumbered D g t → Leads (effect D l command t) ps →
        HasProof D F (map named ps ++ gs) (with_debts D (debts_at t command) js) }
    ensures derived { (D : Declarations) (F : Read) (g : Goal) (gs : List Goal) (js : List ℕ) (t : Sequent) (ps : List Sequent) (owed : List Debt) →
        AreSound D → HasProof D F (g ∷ gs) js → IsNumbered D g t → IsDerivedAlike D t ps owed → HasProof D F (map named ps ++ gs) (with_debts D owed js) }
    ensures sequents { (D : Declarations) (F : Read) (gs : List Goal) (js : List ℕ) → AreSound D → HasProof D F gs js → All (λ (g : Goal). (t : Sequent) × IsNumbered D g t) gs }
    ensures ended { (D : Declarations) (F : Read) (js : List ℕ) (d : Derivation) → IsProofOf D F [] js d → IsTreeOf D F d }
{}
