//! Other variables and other hints go through every operation on terms: so what is proved of terms without
//! hints, or over numbered variables, serves for terms with hints, or over names.

ghost use Rattle.std.specs.Prelude.{◌≡◌, ℕ, List, Bool, map};
ghost use Rattle.ab_term.specs.Types.{Ty};
ghost use Rattle.ab_term.specs.Terms.{Nominal, Variable, Head, Term};
ghost use Rattle.ab_term.specs.Typing.{Signature, HasType};
ghost use Rattle.ab_term.specs.Substitution.{shift, substitute, instance, instance_by_all};
ghost use Rattle.ab_term.specs.Expansion.{expansion};
ghost use Rattle.ab_term.specs.Translation.{translate_variable, translate_head, translate};
ghost use Rattle.ab_term.specs.Names.{support, permute};
ghost use Rattle.ab_term.specs.Variables.{variables, Substitution, image};

/// Hereditary substitution, instances and eta-long forms.
pub fn translation_goes_through_substitution<Var, Hint, New, NewHint>()
    ensures shifts { (f : Var → New) (g : Hint → NewHint) (k : ℕ) (t : Term Var Hint) →
        translate f g (shift k t) ≡ shift k (translate f g t) }
    ensures substitutions { (f : Var → New) (g : Hint → NewHint) (A : Ty) (k : ℕ) (t u : Term Var Hint) →
        translate f g (substitute A u k t) ≡ substitute A (translate f g u) k (translate f g t) }
    ensures instances { (f : Var → New) (g : Hint → NewHint) (t u : Term Var Hint) →
        translate f g (instance t u) ≡ instance (translate f g t) (translate f g u) }
    ensures several { (f : Var → New) (g : Hint → NewHint) (t : Term Var Hint) (us : List (Term Var Hint)) →
        translate f g (instance_by_all t us) ≡
        instance_by_all (translate f g t) (map (translate f g) us) }
    ensures expansions { (f : Var → New) (g : Hint → NewHint) (A : Ty) (x : Hint) (h : Head Var) →
        translate f g (expansion x A h) ≡ expansion (g x) A (translate_head f h) }
{}

/// Types, the nominal constants and the variables of a term.
pub fn translation_keeps_types_and_names<Var, Hint, New, NewHint>()
    ensures types { (f : Var → New) (g : Hint → NewHint) (sg : Signature) (G : List Ty) (A : Ty)
        (t : Term Var Hint) →
        HasType sg G t A → HasType sg G (translate f g t) A }
    ensures back { (f : Var → New) (g : Hint → NewHint) (sg : Signature) (G : List Ty) (A : Ty)
        (t : Term Var Hint) →
        HasType sg G (translate f g t) A → HasType sg G t A }
    ensures names { (f : Var → New) (g : Hint → NewHint) (t : Term Var Hint) →
        support (translate f g t) ≡ support t }
    ensures permutations { (f : Var → New) (g : Hint → NewHint) (ps : List (Nominal × Nominal)) (t : Term Var Hint) →
        translate f g (permute ps t) ≡ permute ps (translate f g t) }
    ensures free_variables { (f : Var → New) (g : Hint → NewHint) (t : Term Var Hint) →
        variables (translate f g t) ≡ map (translate_variable f) (variables t) }
{}

/// Substitutions for variables, where the tests of old and new variables agree.
pub fn translation_goes_through_images<Var, Hint, New, NewHint>()
    ensures { (f : Var → New) (g : Hint → NewHint) (same : Var → Var → Bool) (same_new : New → New → Bool) →
        ((v w : Var) → same_new (f v) (f w) ≡ same v w) →
        (s : Substitution Var Hint) (t : Term Var Hint) →
        translate f g (image same s t) ≡
        image same_new (map (λ p. (translate_variable f p.0, translate f g p.1)) s) (translate f g t) }
{}
