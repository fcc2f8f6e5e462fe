//! Laws of problems with other numbers.

ghost use Rattle.std.specs.Prelude.{◌≡◌, ℕ, List};
ghost use Rattle.ab_unifiers.specs.Replacements.{Cell};
ghost use Rattle.ab_unifiers.specs.Unification.{State, Answer, Solves};
ghost use Rattle.ab_unifiers.specs.Renumbering.{renumbered_state, renumbered_answer, IsRenumbering};

/// UNIFICATION DOESN'T DEPEND ON NUMBERS: with other numbers a problem has the same answer, with these numbers. So two
/// problems that are the same with other numbers have answers that are.
pub fn other_numbers_have_the_same_answer<Hint>()
    ensures renumbered { (x : Hint) (f : ℕ → ℕ) (s : State Hint) (others : List (Cell Hint)) (a : Answer Hint) →
        IsRenumbering f s.cells others → Solves x s a →
        Solves x (renumbered_state f others s) (renumbered_answer f s.cells others a) }
    ensures alike { (x : Hint) (f g : ℕ → ℕ) (s r : State Hint) (others : List (Cell Hint)) (a b : Answer Hint) →
        IsRenumbering f s.cells others → IsRenumbering g r.cells others →
        renumbered_state f others s ≡ renumbered_state g others r → Solves x s a → Solves x r b →
        renumbered_answer f s.cells others a ≡ renumbered_answer g r.cells others b }
{}
