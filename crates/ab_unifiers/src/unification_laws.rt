//! Laws of the rules: one answer to each problem, types kept, and the answer a most general unifier.

ghost use Rattle.std.specs.Prelude.{◌≡◌, ℕ, List, [], ◌++◌, Some, All, length, true};
ghost use Rattle.ab_term.specs.Terms.{Variable, Term};
ghost use Rattle.ab_term.specs.Typing.{Signature};
ghost use Rattle.ab_term.specs.Names.{support};
ghost use Rattle.ab_term.specs.Variables.{Substitution, IsTyped, value_in, image};
ghost use Rattle.ab_term.specs.Sameness.{same_number};
ghost use Rattle.ab_unifiers.specs.Replacements.{Cell, holds};
ghost use Rattle.ab_unifiers.specs.Unification.{Equation, State, Answer, unified, apart, goes_on, next, Solves};
ghost use Rattle.ab_unifiers.specs.Unifiers.{
  given,
  AreTyped,
  AreKnown,
  IsOver,
  AreOver,
  IsCell,
  HoldsCells,
  AllHoldCells,
  Unifies,
  keys,
  AreDifferent,
  Comes,
  restricted,
  IsTypedState,
  IsUnifier,
  IsInstance,
  IsMostGeneral,
};

/// Every problem has exactly one answer: each row of steps ends, and two rows lead to one answer. Nothing is
/// asked of types.
pub fn every_problem_has_one_answer<Hint>()
    ensures some { (x : Hint) (s : State Hint) → (a : Answer Hint) × Solves x s a }
    ensures one { (x : Hint) (s : State Hint) (a b : Answer Hint) → Solves x s a → Solves x s b → a ≡ b }
{}

/// Each step keeps types: the equations stay typed, what is flexible has the number of a cell, and what is put
/// in is closed, of its variable's type and without nominal constants.
pub fn a_step_keeps_types<Hint>()
    ensures { (sg : Signature) (x : Hint) (s r : State Hint) →
        IsTypedState sg s → next x s ≡ goes_on r → IsTypedState sg r }
{}

/// What is answered unifies: each variable that is replaced stands for a closed term of its type without
/// nominal constants, and with these terms both sides of each given equation are the same past hints.
pub fn answers_unify<Hint>()
    ensures typed { (sg : Signature) (x : Hint) (es : List (Equation Hint)) (cells more : List (Cell Hint))
        (ys : List (Variable ℕ)) (s : Substitution ℕ Hint) →
        AreTyped sg es → AreKnown cells ys → Solves x (given es cells ys) (unified more s) → IsTyped sg s }
    ensures clean { (sg : Signature) (x : Hint) (es : List (Equation Hint)) (cells more : List (Cell Hint))
        (ys : List (Variable ℕ)) (s : Substitution ℕ Hint) →
        AreTyped sg es → AreKnown cells ys → Solves x (given es cells ys) (unified more s) →
        (y : Variable ℕ) (u : Term ℕ Hint) → value_in same_number s y ≡ Some u → support u ≡ [] }
    ensures unifies { (sg : Signature) (x : Hint) (es : List (Equation Hint)) (cells more : List (Cell Hint))
        (ys : List (Variable ℕ)) (s : Substitution ℕ Hint) →
        AreTyped sg es → AreKnown cells ys → Solves x (given es cells ys) (unified more s) → Unifies s es }
{}

/// Each variable is replaced once, and is a flexible one of the problem or one that was made: those have the
/// numbers behind the problem's cells.
pub fn each_variable_is_replaced_once<Hint>()
    ensures once { (x : Hint) (es : List (Equation Hint)) (cells more : List (Cell Hint)) (ys : List (Variable ℕ))
        (s : Substitution ℕ Hint) →
        AreKnown cells ys → Solves x (given es cells ys) (unified more s) → AreDifferent (keys s) }
    ensures which { (x : Hint) (es : List (Equation Hint)) (cells more : List (Cell Hint)) (ys : List (Variable ℕ))
        (s : Substitution ℕ Hint) →
        AreKnown cells ys → Solves x (given es cells ys) (unified more s) →
        (y : Variable ℕ) → holds (keys s) y ≡ true → Comes (length cells) ys (length more) y }
{}

/// The problem's cells stay, and those of the variables that were made follow them. Each variable of the answer,
/// replaced or standing in what is put in, has its cell's type, where those of the problem have.
pub fn made_variables_are_cells<Hint>()
    ensures kept { (x : Hint) (es : List (Equation Hint)) (cells more : List (Cell Hint)) (ys : List (Variable ℕ))
        (s : Substitution ℕ Hint) →
        ((y : Variable ℕ) → holds ys y ≡ true → IsCell cells y) → AllHoldCells cells es →
        Solves x (given es cells ys) (unified more s) → (made : List (Cell Hint)) × (more ≡ cells ++ made) }
    ensures typed { (x : Hint) (es : List (Equation Hint)) (cells more : List (Cell Hint)) (ys : List (Variable ℕ))
        (s : Substitution ℕ Hint) →
        ((y : Variable ℕ) → holds ys y ≡ true → IsCell cells y) → AllHoldCells cells es →
        Solves x (given es cells ys) (unified more s) → All (λ p. IsCell more p.0 × HoldsCells more p.1) s }
{}

/// THE ANSWER IS MOST GENERAL: cut down to the problem's flexible variables it is a most general unifier of the
/// given equations, and on terms over the problem's cells it does the same; so each unifier is the answer and
/// then another substitution. Apart is answered only where there is no unifier.
pub fn answers_are_most_general<Hint>()
    ensures most_general { (sg : Signature) (x : Hint) (es : List (Equation Hint)) (cells more : List (Cell Hint))
        (ys : List (Variable ℕ)) (s : Substitution ℕ Hint) →
        AreTyped sg es → AreKnown cells ys → AreOver cells es → Solves x (given es cells ys) (unified more s) →
        IsMostGeneral sg cells ys es (restricted ys s) }
    ensures restricted_alike { (sg : Signature) (x : Hint) (es : List (Equation Hint)) (cells more : List (Cell Hint))
        (ys : List (Variable ℕ)) (s : Substitution ℕ Hint) →
        AreTyped sg es → AreKnown cells ys → AreOver cells es → Solves x (given es cells ys) (unified more s) →
        (t : Term ℕ Hint) → IsOver cells t → image same_number (restricted ys s) t ≡ image same_number s t }
    ensures unified { (sg : Signature) (x : Hint) (es : List (Equation Hint)) (cells more : List (Cell Hint))
        (ys : List (Variable ℕ)) (s : Substitution ℕ Hint) →
        AreTyped sg es → AreKnown cells ys → AreOver cells es → Solves x (given es cells ys) (unified more s) →
        (u : Substitution ℕ Hint) → IsUnifier sg ys es u → IsInstance sg cells s u }
    ensures apart { (sg : Signature) (x : Hint) (es : List (Equation Hint)) (cells : List (Cell Hint))
        (ys : List (Variable ℕ)) →
        AreTyped sg es → AreKnown cells ys → AreOver cells es → Solves x (given es cells ys) apart →
        (u : Substitution ℕ Hint) → ¬ (IsUnifier sg ys es u) }
{}
