//! What a command declares, or why it is declined.
ghost use Rattle.std.specs.Prelude.{◌≡◌, ℕ, Bool, List, None};
ghost use Rattle.ab_term.specs.Terms.{Read};
ghost use Rattle.ab_grammar.specs.Tree.{Ty, Tree};
ghost use Rattle.ab_grammar.specs.CommandTrees.{Defined, Clause, kinds, constants, define, theorem};
ghost use Rattle.ab_formulas.specs.Declarations.{Declarations, theorem_in};
ghost use Rattle.ab_declare.specs.declared.refusal.Refusal.{Refusal};
ghost use Rattle.ab_declare.specs.DeclarationCommands.{States, Declares, Declines};
ghost use Rattle.ab_existence.specs.Certainty.{OneHolds};

/// EACH DECLARATION IS MADE, or a condition of it is the first that fails: of kinds, of constants, and of predicates with their
/// clauses.
pub fn each_declaration_is_made_or_declined()
    ensures of_kinds { (D : Declarations) (xs : List (List ℕ)) → OneHolds ((more : Declarations) × Declares D (kinds xs) more) ((r : Refusal) × Declines D (kinds xs) r) }
    ensures of_constants { (D : Declarations) (xs : List (List ℕ)) (w : Ty) → OneHolds ((more : Declarations) × Declares D (constants xs w) more) ((r : Refusal) × Declines D (constants xs w) r) }
    ensures of_predicates { (D : Declarations) (inductive : Bool) (ds : List Defined) (cs : List Clause) →
        OneHolds ((more : Declarations) × Declares D (define inductive ds cs) more) ((r : Refusal) × Declines D (define inductive ds cs) r) }
{}

/// EACH THEOREM IS STATED, or declined, by its name or by its expression.
pub fn each_theorem_is_stated_or_declined()
    ensures { (D : Declarations) (x : List ℕ) (e : Tree) →
        OneHolds ((F : Read) × (theorem_in D x ≡ None) × States D e F) ((r : Refusal) × Declines D (theorem x e) r) }
{}
