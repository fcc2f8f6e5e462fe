//! Laws of a head that is closed under a binder: a nominal constant, a variable or a bound name.

ghost use Rattle.std.specs.Prelude.{◌≡◌, ◌≢◌, ℕ, List, [], ◌∷◌, ◌++◌, map, length, Bool, false, Some, Contains};
ghost use Rattle.ab_term.specs.Types.{Ty, IsFirstOrder};
ghost use Rattle.ab_term.specs.Terms.{Nominal, Variable, Head, nominal, variable, Term};
ghost use Rattle.ab_term.specs.Typing.{Signature, head_type, HasType};
ghost use Rattle.ab_term.specs.Substitution.{substitute, instance, instance_by_all};
ghost use Rattle.ab_term.specs.Expansion.{expansion};
ghost use Rattle.ab_term.specs.Translation.{EqualPastHints};
ghost use Rattle.ab_term.specs.Names.{support};
ghost use Rattle.ab_term.specs.Variables.{variables, Substitution, value_in, image, IsTyped};
ghost use Rattle.ab_term.specs.Sameness.{same_number, same_head};
ghost use Rattle.ab_term.specs.Abstraction.{IsAbsent, close, abstracted, over, given_names};

/// The term keeps its type, with one bound name more; the head, put in for that name, gives the term again:
/// past hints, and with hints where the head takes arguments of kinds alone.
pub fn closing_is_undone<Hint>()
    ensures typed { (sg : Signature) (Ds G : List Ty) (A B : Ty) (h : Head ℕ) (t : Term ℕ Hint) →
        head_type sg (Ds ++ G) h ≡ Some A → HasType sg (Ds ++ G) t B →
        HasType sg (Ds ++ A ∷ G) (close (length Ds) h t) B }
    ensures undone { (sg : Signature) (G : List Ty) (A B : Ty) (k : ℕ) (x : Hint) (h : Head ℕ) (t : Term ℕ Hint) →
        head_type sg G h ≡ Some A → HasType sg G t B →
        EqualPastHints (substitute A (expansion x A h) k (close k h t)) t }
    ensures with_hints { (sg : Signature) (G : List Ty) (A B : Ty) (k : ℕ) (x : Hint) (h : Head ℕ) (t : Term ℕ Hint) →
        IsFirstOrder A → head_type sg G h ≡ Some A → HasType sg G t B →
        substitute A (expansion x A h) k (close k h t) ≡ t }
{}

/// It goes through instances, and through a substitution that puts in no such head, and nothing for it.
pub fn closing_goes_through<Hint>()
    ensures instances { (k : ℕ) (h : Head ℕ) (t u : Term ℕ Hint) →
        close k h (instance t u) ≡ instance (close k h t) (close k h u) }
    ensures images { (sg : Signature) (s : Substitution ℕ Hint) → IsTyped sg s → (k : ℕ) (h : Head ℕ) →
        ((y : Variable ℕ) (u : Term ℕ Hint) → value_in same_number s y ≡ Some u →
        (same_head (variable y) h ≡ false) × IsAbsent h u) →
        (t : Term ℕ Hint) → close k h (image same_number s t) ≡ image same_number s (close k h t) }
{}

/// What stands in the term afterwards stood there before, and is another head.
pub fn closing_takes_away<Hint>()
    ensures names { (k : ℕ) (h : Head ℕ) (t : Term ℕ Hint) (a : Nominal) →
        Contains (support (close k h t)) a → Contains (support t) a × (nominal a ≢ h) }
    ensures free_variables { (k : ℕ) (h : Head ℕ) (t : Term ℕ Hint) (y : Variable ℕ) →
        Contains (variables (close k h t)) y → Contains (variables t) y × (variable y ≢ h) }
{}

/// RAISING: a variable over nominal constants, given them, has the type that is left, and is its own eta-long
/// form, applied to the constants one after another. With a term abstracted over them put in for it, it is
/// that term.
pub fn variables_are_raised<Hint>()
    ensures typed { (sg : Signature) (G : List Ty) (A : Ty) (x : Hint) (y : Variable ℕ) (ns : List Nominal) →
        y.type ≡ over ns A → HasType sg G (given_names x y ns A) A }
    ensures applied { (sg : Signature) (A : Ty) (x : Hint) (n : ℕ) (ns : List Nominal) →
        instance_by_all (expansion x (over ns A) (variable (record { name = n; type = over ns A })))
        (map (λ a. expansion x a.type (nominal a)) ns) ≡
        given_names x (record { name = n; type = over ns A }) ns A }
    ensures put_in { (sg : Signature) (A : Ty) (x : Hint) (y : Variable ℕ) (ns : List Nominal)
        (s : Substitution ℕ Hint) (u : Term ℕ Hint) → IsTyped sg s → y.type ≡ over ns A → HasType sg [] u A →
        value_in same_number s y ≡ Some (abstracted x (over ns A) (map nominal ns) u) →
        EqualPastHints (image same_number s (given_names x y ns A)) u }
{}
