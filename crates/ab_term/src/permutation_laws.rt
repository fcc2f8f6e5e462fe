//! Laws of permutations of nominal constants, and of equality up to them.

ghost use Rattle.std.specs.Prelude.{◌≡◌, List, Bool, map, Contains};
ghost use Rattle.ab_term.specs.Types.{Ty};
ghost use Rattle.ab_term.specs.Terms.{Nominal, Term};
ghost use Rattle.ab_term.specs.Typing.{Signature, HasType};
ghost use Rattle.ab_term.specs.Substitution.{instance};
ghost use Rattle.ab_term.specs.Translation.{EqualPastHints};
ghost use Rattle.ab_term.specs.Names.{
  support,
  rename,
  permute,
  moved_by,
  IsPermutationTable,
  HasOneTypeEach,
  IsSupport,
  EqualUpToNames,
};
ghost use Rattle.ab_term.specs.Variables.{Substitution, image};

/// A permutation keeps types, goes through instances and substitutions, and moves the support.
pub fn permutation_respects_terms<Var, Hint>()
    ensures types { (sg : Signature) (ps : List (Nominal × Nominal)) → IsPermutationTable ps →
        (G : List Ty) (A : Ty) (t : Term Var Hint) → HasType sg G t A → HasType sg G (permute ps t) A }
    ensures instances { (ps : List (Nominal × Nominal)) (t u : Term Var Hint) →
        permute ps (instance t u) ≡ instance (permute ps t) (permute ps u) }
    ensures images { (ps : List (Nominal × Nominal)) (same : Var → Var → Bool) (s : Substitution Var Hint)
        (t : Term Var Hint) →
        permute ps (image same s t) ≡ image same (map (λ p. (p.0, permute ps p.1)) s) (permute ps t) }
    ensures names { (ps : List (Nominal × Nominal)) (t : Term Var Hint) →
        support (permute ps t) ≡ map (moved_by ps) (support t) }
{}

/// A permutation moves no two constants to one, and the pairs the other way round undo it.
pub fn permutation_is_undone<Var, Hint>()
    ensures table { (ps : List (Nominal × Nominal)) → IsPermutationTable ps →
        IsPermutationTable (map (λ p. (p.1, p.0)) ps) }
    ensures undone { (ps : List (Nominal × Nominal)) → IsPermutationTable ps → (t : Term Var Hint) →
        permute (map (λ p. (p.1, p.0)) ps) (permute ps t) ≡ t }
{}

/// To be equal up to names is an equivalence.
pub fn equality_up_to_names<Var, Hint>()
    ensures reflexive { (t : Term Var Hint) → EqualUpToNames t t }
    ensures symmetric { (t u : Term Var Hint) → EqualUpToNames t u → EqualUpToNames u t }
    ensures transitive { (t u v : Term Var Hint) → EqualUpToNames t u → EqualUpToNames u v → EqualUpToNames t v }
{}

/// Each term has its nominal constants as a list, each once and in order of number, and but one such list
/// where each number stands at one type.
pub fn support_is_a_list<Var, Hint>()
    ensures some { (t : Term Var Hint) → (list : List Nominal) × IsSupport t list }
    ensures one { (t : Term Var Hint) (list more : List Nominal) → HasOneTypeEach (support t) →
        IsSupport t list → IsSupport t more → list ≡ more }
{}

/// A map of a term's constants extends to a permutation where it is one-to-one and keeps types.
pub fn maps_extend_to_permutations<Var, Hint>()
    ensures constants { (f : Nominal → Nominal) (standing : List Nominal) →
        ((a b : Nominal) → Contains standing a → Contains standing b → f a ≡ f b → a ≡ b) →
        ((a : Nominal) → Contains standing a → (f a).type ≡ a.type) →
        (ps : List (Nominal × Nominal)) × IsPermutationTable ps ×
        ((a : Nominal) → Contains standing a → moved_by ps a ≡ f a) }
    ensures terms { (f g : Nominal → Nominal) (t : Term Var Hint) →
        ((a : Nominal) → Contains (support t) a → f a ≡ g a) → rename f t ≡ rename g t }
{}

/// Under one permutation, instances of what it makes equal are equal.
pub fn equality_up_to_names_respects_instances<Var, Hint>()
    ensures { (ps : List (Nominal × Nominal)) (t u v w : Term Var Hint) →
        EqualPastHints (permute ps t) v → EqualPastHints (permute ps u) w →
        EqualPastHints (permute ps (instance t u)) (instance v w) }
{}
