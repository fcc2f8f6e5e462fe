//! Laws of `case`: that no instance is lost.

ghost use Rattle.std.specs.Prelude.{◌≡◌, ℕ, List, Bool, Some, if◌then◌else◌};
ghost use Rattle.ab_term.specs.Terms.{Read};
ghost use Rattle.ab_term.specs.Variables.{Substitution, IsTyped, IsClean};
ghost use Rattle.ab_unifiers.specs.Member.{HasMember};
ghost use Rattle.ab_grammar.specs.CommandTrees.{case};
ghost use Rattle.ab_formulas.specs.Declarations.{Declarations, HaveDefinitions, signature_in};
ghost use Rattle.ab_formulas.specs.Forms.{form_of};
ghost use Rattle.ab_formulas.specs.NewNames.{Label};
ghost use Rattle.ab_formulas.specs.Programs.{HavePrograms};
ghost use Rattle.ab_formulas.specs.Sequents.{Sequent, IsSequent, formula_of, formulas_of, without};
ghost use Rattle.ab_coverage.specs.HypothesisCover.{IsCovered};
ghost use Rattle.ab_effects.specs.Row.{Leads};
ghost use Rattle.ab_effects.specs.ProofCommands.{effect};
ghost use Rattle.ab_case_coverage.specs.CaseGoals.{ComeTo};

/// COVER, by the goals of `case`: where it takes a hypothesis apart, each instance of it under a clean substitution is met by one of the goals
/// that come, be the hypothesis a defined atom, a judgement or an equation, and whether it is kept or not. What a goal assumes last is
/// opened then, and that is a goal which the command leaves.
pub fn case_covers_hypotheses()
    ensures { (D : Declarations) → HaveDefinitions D → HavePrograms D → HasMember (signature_in D) →
        (l : Label) (H : List ℕ) (keep : Bool) (s : Sequent) (F : Read) (us : List Sequent) →
        IsSequent D s → formula_of s H ≡ Some F → Leads (effect D l (case H keep) s) us →
        (q : Substitution ℕ (List ℕ)) → IsTyped (signature_in D) q → IsClean q (formulas_of s) →
        (gs : List Sequent) × ComeTo D (form_of F) l gs us × IsCovered D s F q (if keep then s else without H s) gs }
{}
