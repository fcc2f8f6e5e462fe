//! What the alternatives are, as laws: each public function has an empty body, and its contract is a law.
ghost use Rattle.std.specs.Prelude.{◌≡◌, ℕ, List, length};
ghost use Rattle.ab_unifiers.specs.Alternatives.{Side, on_left, on_right};
ghost use Rattle.ab_unifiers.specs.Clauses.{Each};
ghost use Rattle.ab_unifiers.specs.Replacements.{Cell};
ghost use Rattle.ab_formulas.specs.Sequents.{Sequent, goal_names};
ghost use Rattle.ab_theory.specs.Atoms.{Defined, choices_of};
ghost use Rattle.ab_theory.specs.Judgements.{Judgement};
ghost use Rattle.ab_theory.specs.SpecRules.{SpecRule};
ghost use Rattle.ab_theory.specs.Subjects.{Subject, Way, an_atom, a_judgement, cases_by, ways_of};
ghost use Rattle.ab_analyses.specs.Alternatives.{AlternativeOver, alternatives_of, made_in_turn};
ghost use Rattle.ab_analyses.specs.CaseAlternatives.{IsAlwaysBy};

/// THE CASES into which a goal is split are by its alternatives on the left, one by one and in order; and so are the ways in which a
/// conclusion is unfolded by its alternatives on the right.
pub fn cases_are_by_alternatives()
    ensures cases { (s rest : Sequent) (name : List ℕ) (x : Subject) → Each IsAlwaysBy (cases_by s rest name x) (alternatives_of on_left s x) }
    ensures ways { (s : Sequent) (x : Subject) → Each (λ (y : Way) (a : AlternativeOver). IsAlwaysBy y.case a) (ways_of s x) (alternatives_of on_right s x) }
{}

/// AN ATOM HAS AN ALTERNATIVE FOR EACH CHOICE, and a judgement for each rule, whatever variables there are.
pub fn each_choice_and_rule_has_an_alternative()
    ensures choices { (side : Side) (s : Sequent) (d : Defined) (cells : List (Cell (List ℕ))) →
        length (made_in_turn (alternatives_of side s (an_atom d)) cells) ≡ length (choices_of (goal_names s) d) }
    ensures rules { (side : Side) (s : Sequent) (j : Judgement) (rs : List SpecRule) (cells : List (Cell (List ℕ))) →
        length (made_in_turn (alternatives_of side s (a_judgement j rs)) cells) ≡ length rs }
{}
