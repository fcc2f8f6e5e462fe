//! Laws of hereditary substitution: it gives canonical terms, two of them commute, and it does nothing that
//! single beta steps don't.

ghost use Rattle.std.specs.Prelude.{◌≡◌, ◌⊎◌, ◌+◌, ◌≤◌, ℕ, suc, List, ◌∷◌, ◌++◌, length, Contains};
ghost use Rattle.ab_term.specs.Types.{Ty, arrow};
ghost use Rattle.ab_term.specs.Terms.{Nominal, Variable, Term, terms_of};
ghost use Rattle.ab_term.specs.Typing.{Signature, HasType, TakeType};
ghost use Rattle.ab_term.specs.Substitution.{shift, reduce, substitute, instance, instance_by_all};
ghost use Rattle.ab_term.specs.Names.{support};
ghost use Rattle.ab_term.specs.Variables.{variables};
ghost use Rattle.ab_term.specs.Reach.{reach};
ghost use Rattle.ab_term.specs.Beta.{BetaSteps, application, plain};

/// What is put in for a bound name of a well-typed term gives a term of the same type, which is beta-normal
/// and eta-long again: so hereditary substitution is defined, and ends, on all well-typed terms.
pub fn instance_is_canonical<Var, Hint>()
    ensures one { (sg : Signature) (G : List Ty) (A B : Ty) (t u : Term Var Hint) →
        HasType sg G t (arrow A B) → HasType sg G u A → HasType sg G (instance t u) B }
    ensures several { (sg : Signature) (G : List Ty) (A B : Ty) (t : Term Var Hint) (us : List (Term Var Hint)) →
        HasType sg G t A → TakeType sg G (terms_of us) A B →
        HasType sg G (instance_by_all t us) B }
    ensures under_binders { (sg : Signature) (Ds G : List Ty) (A B : Ty) (t u : Term Var Hint) →
        HasType sg (Ds ++ G) u A → HasType sg (Ds ++ A ∷ G) t B →
        HasType sg (Ds ++ G) (substitute A u (length Ds) t) B }
{}

/// Two bound names may go in either order: the first, with u, and then the second, with v; or the second
/// and then the first, with what the second makes of u.
pub fn substitutions_commute<Var, Hint>()
    ensures { (sg : Signature) (Ds Es G : List Ty) (A B C : Ty) (t u v : Term Var Hint) →
        HasType sg (Ds ++ (Es ++ G)) v B → HasType sg (Ds ++ (Es ++ B ∷ G)) u A →
        HasType sg (Ds ++ A ∷ (Es ++ B ∷ G)) t C →
        substitute B v (length Ds + length Es) (substitute A u (length Ds) t) ≡
        substitute A (substitute B v (length Ds + length Es) u) (length Ds)
        (substitute B (shift (length Ds) v) (suc (length Ds + length Es)) t) }
{}

/// The result is reached from the plain application by single beta steps.
pub fn instance_follows_beta_steps<Var, Hint>()
    ensures { (sg : Signature) (G : List Ty) (A B : Ty) (t u : Term Var Hint) →
        HasType sg G t (arrow A B) → HasType sg G u A →
        BetaSteps (application (plain t) (plain u)) (plain (instance t u)) }
{}

/// A term that is given arguments is the instance by them, one after another.
pub fn arguments_are_instances<Var, Hint>()
    ensures { (sg : Signature) (G : List Ty) (A B : Ty) (t : Term Var Hint) (us : List (Term Var Hint)) →
        HasType sg G t A → TakeType sg G (terms_of us) A B → reduce A t (terms_of us) ≡ instance_by_all t us }
{}

/// A shift holds what the term holds, an instance no more than its parts, and it reaches no further.
pub fn instance_has_no_more<Var, Hint>()
    ensures shifted_names { (k : ℕ) (t : Term Var Hint) → support (shift k t) ≡ support t }
    ensures shifted_variables { (k : ℕ) (t : Term Var Hint) → variables (shift k t) ≡ variables t }
    ensures names { (t u : Term Var Hint) (a : Nominal) →
        Contains (support (instance t u)) a → Contains (support t) a ⊎ Contains (support u) a }
    ensures free_variables { (t u : Term Var Hint) (y : Variable Var) →
        Contains (variables (instance t u)) y → Contains (variables t) y ⊎ Contains (variables u) y }
    ensures reach { (t u : Term Var Hint) (n : ℕ) → reach t ≤ n → reach u ≤ n → reach (instance t u) ≤ n }
{}
