//! Laws of judgements by other numbers for variables.

ghost use Rattle.std.specs.Prelude.{◌≡◌, ℕ, ◌+◌, map, IfSome, All};
ghost use Rattle.std.specs.Option.{option_map};
ghost use Rattle.ab_term.specs.Typing.{Signature};
ghost use Rattle.ab_term.specs.Sameness.{same_number};
ghost use Rattle.ab_formulas.specs.Marks.{Sign};
ghost use Rattle.ab_formulas.specs.Programs.{Program, IsProgramClause};
ghost use Rattle.ab_theory.specs.Judgements.{Judgement};
ghost use Rattle.ab_theory.specs.SpecRules.{SpecRule, rules_of, demand_of};
ghost use Rattle.ab_effects.specs.Judgements.{renumbered_judgement, renumbered_rule, DemandsTheSame, IsClosedRule};

/// A RULE DEMANDS THE SAME of a judgement, whatever numbers its variables have, where numbers that are told apart stay so, and
/// those of new variables follow.
pub fn rules_demand_the_same_by_other_numbers()
    ensures { (f : ℕ → ℕ) → ((i j : ℕ) → same_number (f i) (f j) ≡ same_number i j) → (n k : ℕ) → ((i : ℕ) → f (n + i) ≡ k + i) →
        (m : Sign) (j : Judgement) (r : SpecRule) → IsClosedRule r →
        DemandsTheSame f (demand_of n m j r) (demand_of k m (renumbered_judgement f j) (renumbered_rule f r)) }
{}

/// A JUDGEMENT HAS THE SAME RULES by other numbers. They are closed where the clauses are a program's.
pub fn judgements_have_the_same_rules_by_other_numbers()
    ensures rules { (f : ℕ → ℕ) (cs : Program) (j : Judgement) → rules_of cs (renumbered_judgement f j) ≡ option_map (map (renumbered_rule f)) (rules_of cs j) }
    ensures closed { (sg : Signature) (cs : Program) → All (IsProgramClause sg) cs → (j : Judgement) → IfSome (rules_of cs j) (All IsClosedRule) }
{}
