//! Laws of the size of a term: what keeps it.

ghost use Rattle.std.specs.Prelude.{◌≡◌, ◌+◌, ◌≤◌, ℕ, List, length};
ghost use Rattle.ab_term.specs.Types.{Ty, arity};
ghost use Rattle.ab_term.specs.Terms.{Nominal, Head, Term};
ghost use Rattle.ab_term.specs.Typing.{Signature, HasType};
ghost use Rattle.ab_term.specs.Substitution.{shift, reduce};
ghost use Rattle.ab_term.specs.Translation.{forget};
ghost use Rattle.ab_term.specs.Names.{permute};
ghost use Rattle.ab_term.specs.Sizes.{size};
ghost use Rattle.ab_term.specs.Abstraction.{Named, name_terms, close, abstracted};

/// Shifts, permutations, forgotten hints and closing keep it.
pub fn size_is_kept<Hint>()
    ensures shifts { (k : ℕ) (t : Term ℕ Hint) → size (shift k t) ≡ size t }
    ensures permutations { (ps : List (Nominal × Nominal)) (t : Term ℕ Hint) → size (permute ps t) ≡ size t }
    ensures hints { (t : Term ℕ Hint) → size (forget t) ≡ size t }
    ensures closing { (k : ℕ) (h : Head ℕ) (t : Term ℕ Hint) → size (close k h t) ≡ size t }
{}

/// Abstracted over names a term is larger by their number, and given names it is smaller by their number: so
/// whatever names a term is given, it is of one size.
pub fn size_counts_names<Hint>()
    ensures abstracted { (A : Ty) (x : Hint) (hs : List (Head ℕ)) (t : Term ℕ Hint) → length hs ≤ arity A →
        size (abstracted x A hs t) ≡ length hs + size t }
    ensures given { (sg : Signature) (G : List Ty) (A B : Ty) (x : Hint) (hs : List (Head ℕ)) (v : Term ℕ Hint) →
        Named sg G hs A B → HasType sg G v A → size (reduce A v (name_terms x A hs)) + length hs ≡ size v }
{}
