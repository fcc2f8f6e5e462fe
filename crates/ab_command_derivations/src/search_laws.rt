//! What a search closes is derived.
ghost use Rattle.std.specs.Prelude.{ℕ, []};
ghost use Rattle.ab_grammar.specs.CommandTrees.{search};
ghost use Rattle.ab_formulas.specs.Declarations.{Declarations};
ghost use Rattle.ab_formulas.specs.Sequents.{Sequent, IsSequent};
ghost use Rattle.ab_search_trees.specs.Outcomes.{ComesTo, closed};
ghost use Rattle.ab_search_layers.specs.Layered.{MemberIsDefined};
ghost use Rattle.ab_search_answers.specs.Unmarked.{HasNoHash, HaveNoHash};
ghost use Rattle.ab_effects.specs.Debts.{debts_at};
ghost use Rattle.ab_derived_goals.specs.Derived.{AreSound, IsDerivedAlike};

/// WHAT A SEARCH CLOSES IS DERIVED from no goals, and owes nothing, where no judgement of the goal or of a definition's body is marked as coinduction
/// marks.
pub fn what_a_search_closes_is_derived()
    ensures { (D : Declarations) (depth : ℕ) (s : Sequent) → AreSound D → MemberIsDefined D → HaveNoHash D → IsSequent D s → HasNoHash s.conclusion →
        ComesTo D depth s closed → IsDerivedAlike D s [] (debts_at s (search depth)) }
{}
