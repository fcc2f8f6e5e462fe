//! Laws of substitutions for variables.

ghost use Rattle.std.specs.Prelude.{◌≡◌, ◌⊎◌, ℕ, ◌≤◌, List, [], ◌++◌, map, Bool, Some, None, Contains};
ghost use Rattle.ab_term.specs.Types.{Ty, arrow};
ghost use Rattle.ab_term.specs.Terms.{Nominal, Variable, Term, Terms, terms_of};
ghost use Rattle.ab_term.specs.Typing.{Signature, HasType, TakeType};
ghost use Rattle.ab_term.specs.Substitution.{shift, reduce, instance, instance_by_all};
ghost use Rattle.ab_term.specs.Names.{support};
ghost use Rattle.ab_term.specs.Reach.{reach, raise};
ghost use Rattle.ab_term.specs.Variables.{
  variables,
  Substitution,
  value_in,
  image,
  image_all,
  composition,
  one_by_one,
  at_once,
  IsTyped,
};

/// The image of a well-typed term has the same type, and is canonical again.
pub fn image_is_canonical<Var, Hint>()
    ensures { (sg : Signature) (same : Var → Var → Bool) (s : Substitution Var Hint) → IsTyped sg s →
        (G : List Ty) (A : Ty) (t : Term Var Hint) → HasType sg G t A → HasType sg G (image same s t) A }
{}

/// A substitution for variables goes through an instance.
pub fn image_goes_through_instance<Var, Hint>()
    ensures { (sg : Signature) (same : Var → Var → Bool) (s : Substitution Var Hint) → IsTyped sg s →
        (G : List Ty) (A B : Ty) (t u : Term Var Hint) →
        HasType sg G t (arrow A B) → HasType sg G u A →
        image same s (instance t u) ≡ instance (image same s t) (image same s u) }
{}

/// The composition does what the first substitution and then the second do, and is well-typed where both are.
pub fn composition_is_one_after_the_other<Var, Hint>()
    ensures image { (sg : Signature) (same : Var → Var → Bool) (s r : Substitution Var Hint) →
        IsTyped sg s → IsTyped sg r → (G : List Ty) (A : Ty) (t : Term Var Hint) → HasType sg G t A →
        image same (composition same s r) t ≡ image same r (image same s t) }
    ensures typed { (sg : Signature) (same : Var → Var → Bool) (s r : Substitution Var Hint) →
        IsTyped sg s → IsTyped sg r → IsTyped sg (composition same s r) }
{}

/// Pairs that are put in one after another are one substitution, which is well-typed where each pair is.
pub fn one_by_one_is_at_once<Var, Hint>()
    ensures image { (sg : Signature) (same : Var → Var → Bool) (s : Substitution Var Hint) → IsTyped sg s →
        (G : List Ty) (A : Ty) (t : Term Var Hint) → HasType sg G t A →
        one_by_one same s t ≡ image same (at_once same s) t }
    ensures typed { (sg : Signature) (same : Var → Var → Bool) (s : Substitution Var Hint) → IsTyped sg s →
        IsTyped sg (at_once same s) }
    ensures more { (same : Var → Var → Bool) (s r : Substitution Var Hint) (t : Term Var Hint) →
        one_by_one same (s ++ r) t ≡ one_by_one same r (one_by_one same s t) }
{}

/// An image depends only on what is put in for the variables that stand in the term. One of whose variables
/// none is replaced, as a term without variables, is its own image.
pub fn image_depends_on_standing_variables<Var, Hint>()
    ensures agree { (same : Var → Var → Bool) (s r : Substitution Var Hint) (t : Term Var Hint) →
        ((y : Variable Var) → Contains (variables t) y → value_in same s y ≡ value_in same r y) →
        image same s t ≡ image same r t }
    ensures unmoved { (same : Var → Var → Bool) (s : Substitution Var Hint) (t : Term Var Hint) →
        ((y : Variable Var) → Contains (variables t) y → value_in same s y ≡ None) → image same s t ≡ t }
    ensures rigid { (same : Var → Var → Bool) (s : Substitution Var Hint) (t : Term Var Hint) →
        variables t ≡ [] → image same s t ≡ t }
{}

/// A substitution for variables goes through shifts, and through a term that is given arguments.
pub fn image_goes_through_operations<Var, Hint>()
    ensures shifts { (sg : Signature) (same : Var → Var → Bool) (s : Substitution Var Hint) → IsTyped sg s →
        (k : ℕ) (t : Term Var Hint) → image same s (shift k t) ≡ shift k (image same s t) }
    ensures raises { (sg : Signature) (same : Var → Var → Bool) (s : Substitution Var Hint) → IsTyped sg s →
        (d k : ℕ) (t : Term Var Hint) → image same s (raise d k t) ≡ raise d k (image same s t) }
    ensures arguments { (sg : Signature) (same : Var → Var → Bool) (s : Substitution Var Hint) → IsTyped sg s →
        (G : List Ty) (A B : Ty) (u : Term Var Hint) (ts : Terms Var Hint) →
        HasType sg G u A → TakeType sg G ts A B →
        image same s (reduce A u ts) ≡ reduce A (image same s u) (image_all same s ts) }
    ensures several { (sg : Signature) (same : Var → Var → Bool) (s : Substitution Var Hint) → IsTyped sg s →
        (G : List Ty) (A B : Ty) (t : Term Var Hint) (us : List (Term Var Hint)) →
        HasType sg G t A → TakeType sg G (terms_of us) A B →
        image same s (instance_by_all t us) ≡ instance_by_all (image same s t) (map (image same s) us) }
{}

/// An image reaches no further than the term. What stands in it stands in the term, or in what is put in for
/// one of the term's variables.
pub fn image_has_no_more<Var, Hint>()
    ensures reach { (sg : Signature) (same : Var → Var → Bool) (s : Substitution Var Hint) → IsTyped sg s →
        (t : Term Var Hint) → reach (image same s t) ≤ reach t }
    ensures names { (same : Var → Var → Bool) (s : Substitution Var Hint) (t : Term Var Hint) (a : Nominal) →
        Contains (support (image same s t)) a →
        Contains (support t) a ⊎ ((y : Variable Var) × (u : Term Var Hint) ×
        (Contains (variables t) y × (value_in same s y ≡ Some u)) × Contains (support u) a) }
    ensures free_variables { (same : Var → Var → Bool) (s : Substitution Var Hint) (t : Term Var Hint)
        (x : Variable Var) → Contains (variables (image same s t)) x →
        (Contains (variables t) x × (value_in same s x ≡ None)) ⊎ ((y : Variable Var) × (u : Term Var Hint) ×
        (Contains (variables t) y × (value_in same s y ≡ Some u)) × Contains (variables u) x) }
{}
