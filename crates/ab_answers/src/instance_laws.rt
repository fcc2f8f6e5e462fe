//! What a conclusion unfolds to is an instance of its definition.
ghost use Rattle.std.specs.Prelude.{◌≡◌, ℕ, List, Some, None, Contains, codes};
ghost use Rattle.ab_term.specs.Terms as tree;
ghost use Rattle.ab_term.specs.Terms.{constant, spine, Read};
ghost use Rattle.ab_term.specs.Variables.{Substitution, value_in, image, IsTyped};
ghost use Rattle.ab_term.specs.Sameness.{same_number};
ghost use Rattle.ab_unifiers.specs.Replacements.{Cell};
ghost use Rattle.ab_unifiers.specs.Unification.{unified, Solves};
ghost use Rattle.ab_unifiers.specs.Clauses.{HoldsNone, Instance};
ghost use Rattle.ab_unifiers.specs.Alternatives.{alternative, on_right};
ghost use Rattle.ab_formulas.specs.Declarations.{Declarations, HaveDefinitions, signature_in};
ghost use Rattle.ab_formulas.specs.Sequents.{Variable, Sequent, IsSequent, goal_names, in_terms};
ghost use Rattle.ab_theory.specs.Equations.{AreCells};
ghost use Rattle.ab_theory.specs.Splits.{problem_of};
ghost use Rattle.ab_theory.specs.Atoms.{Defined, Choice, defined_atom, choices_of};
ghost use Rattle.ab_theory.specs.Analysis.{scope_of};
ghost use Rattle.ab_theory.specs.Unfolding.{unfolding_case};

/// AN UNFOLDED CONCLUSION GIVES AN INSTANCE of the definition. Where a choice's equations are solved, what the answer makes of the
/// clause's body is a body that the definition gives for the conclusion's atom, whatever terms are put for the variables that are left
/// open, as their `exists` asks, if these hold none of the constants that were chosen for the clause's names, as the order of `exists`
/// and `nabla` asks, and the goal's own variables stay. The body is told here without the marks that it gets.
pub fn unfolded_conclusions_give_instances()
    ensures { (D : Declarations) → HaveDefinitions D → (s : Sequent) → IsSequent D s → (d : Defined) → defined_atom D s.conclusion ≡ Some d → (cells : List (Cell (List ℕ))) → AreCells cells s →
        (c : Choice) → Contains (choices_of (goal_names s) d) c →
        (more : List (Cell (List ℕ))) (answer : Substitution ℕ (List ℕ)) → Solves (codes "x") (problem_of (unfolding_case cells s d c)) (unified more answer) →
        (r : Substitution ℕ (List ℕ)) → IsTyped (signature_in D) r → ((y : tree.Variable ℕ) (t : Read) → value_in same_number r y ≡ Some t → HoldsNone (signature_in D) c.names t) →
        ((x : Variable) → Contains s.variables x → value_in same_number r (in_terms x) ≡ None) →
        Instance (signature_in D) (codes "x") d.block.clauses (spine (constant d.predicate) d.arguments)
        (image same_number r (image same_number answer (alternative (codes "x") (scope_of cells s) d.arguments c.clause c.names on_right).body)) }
{}
