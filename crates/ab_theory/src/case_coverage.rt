//! Laws of case analysis: that no case is lost.

ghost use Rattle.std.specs.Prelude.{◌≡◌, ℕ, List, [], codes, All};
ghost use Rattle.ab_term.specs.Types.{prop};
ghost use Rattle.ab_term.specs.Terms.{constant, Term, spine, Terms};
ghost use Rattle.ab_term.specs.Typing.{Signature};
ghost use Rattle.ab_term.specs.Translation.{EqualPastHints};
ghost use Rattle.ab_term.specs.Names.{EqualUpToNames};
ghost use Rattle.ab_term.specs.Variables.{Substitution, image, IsTyped};
ghost use Rattle.ab_term.specs.Sameness.{same_number};
ghost use Rattle.ab_unifiers.specs.Clauses.{Clause, IsClause, Instance};
ghost use Rattle.ab_unifiers.specs.Alternatives.{Scope};
ghost use Rattle.ab_unifiers.specs.InstanceCover.{IsScope, IsOf, IsCleanFor};
ghost use Rattle.ab_formulas.specs.Sequents.{Sequent, goal_names};
ghost use Rattle.ab_formulas.specs.NewNames.{IsNoVariable};
ghost use Rattle.ab_theory.specs.Splits.{Split};
ghost use Rattle.ab_theory.specs.Atoms.{Defined, choices_of};
ghost use Rattle.ab_theory.specs.Analysis.{scope_of, case_of, cases_of};
ghost use Rattle.ab_unifiers.specs.Replacements.{Cell};
ghost use Rattle.ab_unifiers.specs.CaseCoverage.{HasCover};
ghost use Rattle.ab_theory.specs.InstanceCoverage.{AddsBehind, IsMetByOne};

/// COVER, by one choice: each instance of the atom under a clean substitution is met by one choice, whose alternative covers it
/// over whatever cells there are when it is made. Where no clause has `nabla` names, up to hints alone; else up to
/// permutations of constants, which may differ from formula to formula.
pub fn choices_cover<Hint>()
    ensures without_names { (sg : Signature) (x : Hint) (sequent : Scope Hint) (clauses : List (Clause Hint)) (p : List ℕ) (ts : Terms ℕ Hint) →
        All (IsClause sg) clauses → All (λ c. c.names ≡ []) clauses → IsScope sequent → IsOf sg sequent (spine (constant p) ts) prop →
        (s : Substitution ℕ Hint) → IsTyped sg s → IsCleanFor sequent s →
        (B : Term ℕ Hint) → Instance sg x clauses (image same_number s (spine (constant p) ts)) B →
        HasCover EqualPastHints sg x sequent s B clauses p ts }
    ensures with_names { (sg : Signature) (x : Hint) (sequent : Scope Hint) (clauses : List (Clause Hint)) (p : List ℕ) (ts : Terms ℕ Hint) →
        All (IsClause sg) clauses → IsScope sequent → IsOf sg sequent (spine (constant p) ts) prop →
        (s : Substitution ℕ Hint) → IsTyped sg s → IsCleanFor sequent s →
        (B : Term ℕ Hint) → Instance sg x clauses (image same_number s (spine (constant p) ts)) B →
        HasCover EqualUpToNames sg x sequent s B clauses p ts }
{}

/// COVER, by goals: where a goal is split by an atom of it, each instance of the atom under a clean substitution is met by one
/// of the goals, whatever new variables are called, if cases add their cells behind the others.
pub fn goals_cover()
    ensures without_names { (sg : Signature) (cells : List (Cell (List ℕ))) (s t : Sequent) (name : List ℕ) (d : Defined) (gs : List Sequent) →
        All (IsClause sg) d.block.clauses → All (λ c. c.names ≡ []) d.block.clauses → IsScope (scope_of cells s) →
        IsOf sg (scope_of cells s) (spine (constant d.predicate) d.arguments) prop →
        All (λ c. AddsBehind (λ k hint x. IsNoVariable k x) cells (case_of s t name d c)) (choices_of (goal_names s) d) →
        Split (λ k hint x. IsNoVariable k x) cells (cases_of s t name d) gs →
        (q : Substitution ℕ (List ℕ)) → IsTyped sg q → IsCleanFor (scope_of cells s) q →
        (B : Term ℕ (List ℕ)) → Instance sg (codes "x") d.block.clauses (image same_number q (spine (constant d.predicate) d.arguments)) B →
        IsMetByOne EqualPastHints sg (λ k hint x. IsNoVariable k x) s t name d gs q B }
    ensures with_names { (sg : Signature) (cells : List (Cell (List ℕ))) (s t : Sequent) (name : List ℕ) (d : Defined) (gs : List Sequent) →
        All (IsClause sg) d.block.clauses → IsScope (scope_of cells s) →
        IsOf sg (scope_of cells s) (spine (constant d.predicate) d.arguments) prop →
        All (λ c. AddsBehind (λ k hint x. IsNoVariable k x) cells (case_of s t name d c)) (choices_of (goal_names s) d) →
        Split (λ k hint x. IsNoVariable k x) cells (cases_of s t name d) gs →
        (q : Substitution ℕ (List ℕ)) → IsTyped sg q → IsCleanFor (scope_of cells s) q →
        (B : Term ℕ (List ℕ)) → Instance sg (codes "x") d.block.clauses (image same_number q (spine (constant d.predicate) d.arguments)) B →
        IsMetByOne EqualUpToNames sg (λ k hint x. IsNoVariable k x) s t name d gs q B }
{}
