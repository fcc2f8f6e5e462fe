//! Laws of goals whose variables go by their names.
ghost use Rattle.std.specs.Prelude.{◌≡◌, ℕ, List, All, Contains};
ghost use Rattle.ab_term.specs.Terms.{Read};
ghost use Rattle.ab_term.specs.Translation.{translate};
ghost use Rattle.ab_print.specs.NameAssignment.{printed};
ghost use Rattle.ab_formulas.specs.Sequents.{Sequent, Variable, HoldsOnly, formulas_of};
ghost use Rattle.ab_print.specs.GoalText as numbered;
ghost use Rattle.ab_formulas.specs.NamedGoals.{named};
ghost use Rattle.ab_print.specs.NamedGoalText.{goal_lines, other_goal};

/// What is printed of a term, where each variable is called by a name, is what is printed of the term with these names for its variables.
pub fn names_are_printed_for_variables()
    ensures { (name : ℕ → List ℕ) (t : Read) → printed (λ x. x) (translate name (λ x. x) t) ≡ printed name t }
{}

/// What is printed of a sequent, whose variables are called by their names, is what is printed of the goal that it is.
pub fn goals_are_printed_for_sequents()
    ensures first { (name : ℕ → List ℕ) (s : Sequent) → ((x : Variable) → Contains s.variables x → name x.number ≡ x.name) →
        All (HoldsOnly s.variables) (formulas_of s) → goal_lines (named s) ≡ numbered.goal_lines name s }
    ensures others { (name : ℕ → List ℕ) (s : Sequent) (number : ℕ) → ((x : Variable) → Contains s.variables x → name x.number ≡ x.name) →
        All (HoldsOnly s.variables) (formulas_of s) → other_goal number (named s) ≡ numbered.other_goal name number s.conclusion }
{}
