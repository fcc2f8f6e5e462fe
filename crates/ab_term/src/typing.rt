//! Laws of types and of the typing of terms.

ghost use Rattle.std.specs.Prelude.{◌≡◌, ◌↔◌, ◌≤◌, ℕ, List, ◌∷◌, ◌++◌, length, true, Some};
ghost use Rattle.ab_term.specs.Types.{Ty, same_type};
ghost use Rattle.ab_term.specs.Logical.{Logical};
ghost use Rattle.ab_term.specs.Terms.{Nominal, Variable, Head, Term};
ghost use Rattle.ab_term.specs.Translation.{EqualPastHints};
ghost use Rattle.ab_term.specs.Sameness.{same_logical, same_numbered, same_head, same_term};
ghost use Rattle.ab_term.specs.Typing.{Signature, IsExtendedBy, head_type, HasType};
ghost use Rattle.ab_term.specs.Substitution.{shift};
ghost use Rattle.ab_term.specs.Expansion.{expansion};
ghost use Rattle.ab_term.specs.Reach.{reach};
ghost use Rattle.ab_term.specs.Names.{same_nominal};

/// The tests answer whether two are the same.
pub fn comparisons_decide()
    ensures types { (A B : Ty) → (same_type A B ≡ true) ↔ (A ≡ B) }
    ensures names { (a b : Nominal) → (same_nominal a b ≡ true) ↔ (a ≡ b) }
    ensures logical_constants { (l m : Logical) → (same_logical l m ≡ true) ↔ (l ≡ m) }
    ensures variables { (y z : Variable ℕ) → (same_numbered y z ≡ true) ↔ (y ≡ z) }
    ensures heads { (g h : Head ℕ) → (same_head g h ≡ true) ↔ (g ≡ h) }
{}

/// So does the test of terms, past their hints.
pub fn terms_are_compared_past_hints<Hint>()
    ensures { (t u : Term ℕ Hint) → (same_term t u ≡ true) ↔ EqualPastHints t u }
{}

/// A term has one type at most.
pub fn types_are_unique<Var, Hint>()
    ensures { (sg : Signature) (G : List Ty) (A B : Ty) (t : Term Var Hint) →
        HasType sg G t A → HasType sg G t B → A ≡ B }
{}

/// A term stays well-typed when constants are added.
pub fn more_constants_keep_types<Var, Hint>()
    ensures { (sg more : Signature) → IsExtendedBy sg more →
        (G : List Ty) (A : Ty) (t : Term Var Hint) → HasType sg G t A → HasType more G t A }
{}

/// A term stays well-typed when bound names are added behind the others, or one between them; and when those
/// go that don't stand in it. Where the eta-long form of a head has a type, so has the head.
pub fn bound_names_come_and_go<Var, Hint>()
    ensures more { (sg : Signature) (G more : List Ty) (A : Ty) (t : Term Var Hint) →
        HasType sg G t A → HasType sg (G ++ more) t A }
    ensures one_more { (sg : Signature) (Ds G : List Ty) (A B : Ty) (t : Term Var Hint) →
        HasType sg (Ds ++ G) t B → HasType sg (Ds ++ A ∷ G) (shift (length Ds) t) B }
    ensures one_less { (sg : Signature) (Ds G : List Ty) (A B : Ty) (t : Term Var Hint) →
        HasType sg (Ds ++ A ∷ G) (shift (length Ds) t) B → HasType sg (Ds ++ G) t B }
    ensures less { (sg : Signature) (Ds G : List Ty) (A : Ty) (t : Term Var Hint) →
        reach t ≤ length Ds → HasType sg (Ds ++ G) t A → HasType sg Ds t A }
    ensures heads { (sg : Signature) (G : List Ty) (A : Ty) (x : Hint) (h : Head Var) →
        HasType sg G (expansion x A h) A → head_type sg G h ≡ Some A }
    ensures within { (sg : Signature) (G : List Ty) (A : Ty) (t : Term Var Hint) → HasType sg G t A → reach t ≤ length G }
{}
