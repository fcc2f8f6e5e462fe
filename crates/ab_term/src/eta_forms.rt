//! Laws of the eta-long form of a head.

ghost use Rattle.std.specs.Prelude.{◌≡◌, ◌↔◌, ℕ, zero, List, [], ◌∷◌, ◌++◌, Bool, true, Some};
ghost use Rattle.ab_term.specs.Types.{Ty, kind, IsFirstOrder};
ghost use Rattle.ab_term.specs.Terms.{Variable, Head, variable, index, Term, spine, Terms};
ghost use Rattle.ab_term.specs.Typing.{Signature, head_type, HasType, TakeType};
ghost use Rattle.ab_term.specs.Substitution.{reduce, substitute};
ghost use Rattle.ab_term.specs.Expansion.{expansion_of, expansion};
ghost use Rattle.ab_term.specs.Translation.{EqualPastHints};
ghost use Rattle.ab_term.specs.Names.{support_of_head, support, support_of_all};
ghost use Rattle.ab_term.specs.Variables.{variables_of_head, variables, variables_of_all, image};
ghost use Rattle.ab_term.specs.EtaHeads.{inner_head, expands};
ghost use Rattle.ab_term.specs.Abstraction.{Named, name_terms};

/// The eta-long form of a head has the head's type; of a head with arguments, the type that they leave.
pub fn expansion_is_canonical<Var, Hint>()
    ensures whole { (sg : Signature) (G : List Ty) (A : Ty) (x : Hint) (h : Head Var) →
        head_type sg G h ≡ Some A → HasType sg G (expansion x A h) A }
    ensures given { (sg : Signature) (G : List Ty) (A B : Ty) (x : Hint) (h : Head Var) (ts : Terms Var Hint) →
        head_type sg G h ≡ Some A → TakeType sg G ts A B → HasType sg G (expansion_of x B h ts) B }
{}

/// On terms without hints: given arguments, the form is the head with them; in the form of a bound name
/// or a variable, what is put in for that name or variable is the result.
pub fn expansion_is_neutral<Var>()
    ensures arguments { (sg : Signature) (G : List Ty) (A : Ty) (h : Head Var) (ts : Terms Var (Unit {0})) →
        (c : List ℕ) → TakeType sg G ts A (kind c) → reduce A (expansion tt A h) ts ≡ spine h ts }
    ensures bound_name { (sg : Signature) (G : List Ty) (A : Ty) (t : Term Var (Unit {0})) →
        HasType sg G t A → substitute A t zero (expansion tt A (index zero)) ≡ t }
    ensures free_variable { (sg : Signature) (same : Var → Var → Bool) (x : Variable Var) (t : Term Var (Unit {0})) →
        same x.name x.name ≡ true → HasType sg [] t x.type →
        image same ((x, t) ∷ []) (expansion tt x.type (variable x)) ≡ t }
{}

/// Given some of its arguments, the form is that of the head with them: past hints; with hints, where the
/// arguments are names' forms; and where all arguments are of kinds, as the head with all of them.
pub fn expansion_takes_arguments<Hint>()
    ensures some { (sg : Signature) (G : List Ty) (A B : Ty) (h : Head ℕ) (ts : Terms ℕ (Unit {0})) →
        TakeType sg G ts A B → reduce A (expansion tt A h) ts ≡ expansion_of tt B h ts }
    ensures names { (sg : Signature) (G : List Ty) (A B : Ty) (x : Hint) (h : Head ℕ) (hs : List (Head ℕ)) →
        Named sg G hs A B → reduce A (expansion x A h) (name_terms x A hs) ≡ expansion_of x B h (name_terms x A hs) }
    ensures first_order { (sg : Signature) (G : List Ty) (A : Ty) (x : Hint) (h : Head ℕ) (ts : Terms ℕ Hint) →
        (c : List ℕ) → IsFirstOrder A → TakeType sg G ts A (kind c) → reduce A (expansion x A h) ts ≡ spine h ts }
{}

/// A head's form is recognised, whatever its hints, and its head is found. So it is the form of one head.
pub fn expansion_is_recognised<Hint>()
    ensures found { (A : Ty) (x : Hint) (t : Term ℕ Hint) (h : Head ℕ) →
        EqualPastHints t (expansion x A h) → inner_head t ≡ Some h }
    ensures tested { (A : Ty) (x : Hint) (t : Term ℕ Hint) (h : Head ℕ) →
        (expands A t h ≡ true) ↔ EqualPastHints t (expansion x A h) }
    ensures one { (A B : Ty) (x y : Hint) (g h : Head ℕ) (ts us : Terms ℕ Hint) →
        EqualPastHints (expansion_of x A g ts) (expansion_of y B h us) → g ≡ h }
{}

/// What stands in it are the head and what stands in its arguments.
pub fn expansion_has_no_more<Var, Hint>()
    ensures names { (A : Ty) (x : Hint) (h : Head Var) (ts : Terms Var Hint) →
        support (expansion_of x A h ts) ≡ support_of_head h ++ support_of_all ts }
    ensures free_variables { (A : Ty) (x : Hint) (h : Head Var) (ts : Terms Var Hint) →
        variables (expansion_of x A h ts) ≡ variables_of_head h ++ variables_of_all ts }
{}
