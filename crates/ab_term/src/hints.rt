//! Every operation respects equality past hints, and looks at nothing else.

ghost use Rattle.std.specs.Prelude.{◌≡◌, ℕ, List, Bool};
ghost use Rattle.std.specs.Option.{option_map};
ghost use Rattle.ab_term.specs.Types.{Ty};
ghost use Rattle.ab_term.specs.Terms.{Nominal, Variable, Head, Term};
ghost use Rattle.ab_term.specs.Typing.{Signature, HasType};
ghost use Rattle.ab_term.specs.Substitution.{shift, instance};
ghost use Rattle.ab_term.specs.Translation.{forget, EqualPastHints};
ghost use Rattle.ab_term.specs.Names.{support, permute};
ghost use Rattle.ab_term.specs.Variables.{variables, Substitution, value_in, image};
ghost use Rattle.ab_term.specs.Abstraction.{close, abstracted};

/// Shifts, instances, images, permutations, and names closed under binders.
pub fn operations_respect_equality_past_hints<Var, Hint>()
    ensures shifts { (k : ℕ) (t u : Term Var Hint) → EqualPastHints t u → EqualPastHints (shift k t) (shift k u) }
    ensures instances { (t u v w : Term Var Hint) → EqualPastHints t v → EqualPastHints u w →
        EqualPastHints (instance t u) (instance v w) }
    ensures images { (same : Var → Var → Bool) (s r : Substitution Var Hint) (t u : Term Var Hint) →
        ((y : Variable Var) → option_map forget (value_in same s y) ≡ option_map forget (value_in same r y)) →
        EqualPastHints t u → EqualPastHints (image same s t) (image same r u) }
    ensures permutations { (ps : List (Nominal × Nominal)) (t u : Term Var Hint) → EqualPastHints t u →
        EqualPastHints (permute ps t) (permute ps u) }
    ensures closing { (k : ℕ) (h : Head ℕ) (t u : Term ℕ Hint) → EqualPastHints t u →
        EqualPastHints (close k h t) (close k h u) }
    ensures abstracting { (x : Hint) (A : Ty) (hs : List (Head ℕ)) (t u : Term ℕ Hint) → EqualPastHints t u →
        EqualPastHints (abstracted x A hs t) (abstracted x A hs u) }
{}

/// Types, nominal constants and variables.
pub fn facts_respect_equality_past_hints<Var, Hint>()
    ensures types { (sg : Signature) (G : List Ty) (A : Ty) (t u : Term Var Hint) → EqualPastHints t u →
        HasType sg G t A → HasType sg G u A }
    ensures names { (t u : Term Var Hint) → EqualPastHints t u → support t ≡ support u }
    ensures free_variables { (t u : Term Var Hint) → EqualPastHints t u → variables t ≡ variables u }
{}
