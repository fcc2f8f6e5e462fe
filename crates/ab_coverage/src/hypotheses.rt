//! Laws of hypotheses that are taken apart by a rule: that no instance is lost, as it is met by the rule's premises.

ghost use Rattle.std.specs.Prelude.{◌≡◌, ℕ, List, Some};
ghost use Rattle.ab_term.specs.Terms.{Read};
ghost use Rattle.ab_term.specs.Variables.{Substitution, IsTyped, IsClean};
ghost use Rattle.ab_unifiers.specs.Member.{HasMember};
ghost use Rattle.ab_formulas.specs.Declarations.{Declarations, HaveDefinitions, signature_in};
ghost use Rattle.ab_formulas.specs.NewNames.{Label};
ghost use Rattle.ab_formulas.specs.Programs.{HavePrograms};
ghost use Rattle.ab_formulas.specs.Sequents.{Sequent, IsSequent, formula_of, formulas_of, without};
ghost use Rattle.ab_theory.specs.Derivations.{Derivation, Valid, goal_at, refined};
ghost use Rattle.ab_theory.specs.Rules.{Rule};
ghost use Rattle.ab_theory.specs.Steps.{Step, definition_left, equal_left};
ghost use Rattle.ab_coverage.specs.HypothesisCover.{IsCovered};
ghost use Rattle.ab_coverage.specs.Nodes.{HasNode};

/// COVER, by the premises of a rule: where a hypothesis is taken apart by its definition, by the rules of its judgement, or as an equation, each
/// instance of it under a clean substitution is met by one of the premises, formula by formula, as they stand there.
pub fn rules_cover_hypotheses()
    ensures definitions { (D : Declarations) → HaveDefinitions D → HavePrograms D → HasMember (signature_in D) → (s : Sequent) (H : List ℕ) (l : Label) (F : Read) (ps : List Sequent) →
        IsSequent D s → formula_of s H ≡ Some F → Rule D (definition_left H l) s ps →
        (q : Substitution ℕ (List ℕ)) → IsTyped (signature_in D) q → IsClean q (formulas_of s) → IsCovered D s F q (without H s) ps }
    ensures equations { (D : Declarations) (s : Sequent) (H : List ℕ) (F : Read) (ps : List Sequent) →
        IsSequent D s → formula_of s H ≡ Some F → Rule D (equal_left H) s ps →
        (q : Substitution ℕ (List ℕ)) → IsTyped (signature_in D) q → IsClean q (formulas_of s) → IsCovered D s F q (without H s) ps }
{}

/// So it is at each node of a valid derivation that has such a step: the goals of its children are these premises.
pub fn nodes_cover_hypotheses()
    ensures definitions { (D : Declarations) → HaveDefinitions D → HavePrograms D → HasMember (signature_in D) →
        (d : Derivation) (s : Sequent) (H : List ℕ) (l : Label) (F : Read) (ps : List Sequent) → Valid D d → HasNode d s (definition_left H l) ps →
        IsSequent D s → formula_of s H ≡ Some F → (q : Substitution ℕ (List ℕ)) → IsTyped (signature_in D) q → IsClean q (formulas_of s) → IsCovered D s F q (without H s) ps }
    ensures equations { (D : Declarations) (d : Derivation) (s : Sequent) (H : List ℕ) (F : Read) (ps : List Sequent) → Valid D d → HasNode d s (equal_left H) ps →
        IsSequent D s → formula_of s H ≡ Some F → (q : Substitution ℕ (List ℕ)) → IsTyped (signature_in D) q → IsClean q (formulas_of s) → IsCovered D s F q (without H s) ps }
{}

/// A step that is taken at an open goal of a derivation is a node of it then, and what was one is one still.
pub fn steps_give_nodes()
    ensures given { (place : ℕ) (step : Step) (s : Sequent) (ps : List Sequent) (d : Derivation) → goal_at d place ≡ Some s → HasNode (refined place step ps d) s step ps }
    ensures kept { (place : ℕ) (other : Step) (qs : List Sequent) (d : Derivation) (s : Sequent) (step : Step) (ps : List Sequent) → HasNode d s step ps → HasNode (refined place other qs d) s step ps }
{}
