//! A conclusion that is a judgement is unfolded by a rule.
ghost use Rattle.std.specs.Prelude.{◌≡◌, ◌≤◌, ℕ, List, slice_get, Ok, Some, None, IfOk};
ghost use Rattle.ab_norm.specs.ab_store.specs.declared.node.TermId.{TermId as ATerm};
ghost use Rattle.ab_unify.specs.Problem.{cells_read};
ghost use Rattle.ab_formulas.specs.Sequents.{Sequent as APlainGoal};
ghost use Rattle.ab_logic.specs.Worlds.{IsWorld, Holds};
ghost use Rattle.ab_logic.specs.SequentReadings.{HoldsSequent, sequent_of};
ghost use Rattle.ab_logic.specs.declared.sequent.Sequent.{Sequent as AGoal};
ghost use Rattle.ab_theory.specs.SpecRules.{SpecRule as ARule};
ghost use Rattle.ab_theory.specs.Splits.{NeverArises, IsOpen};
ghost use Rattle.ab_theory.specs.Subjects.{way_by_rule};
ghost use Rattle.ab_alternatives.specs.ab_equations.specs.declared.cases.CaseSolution.TheVariants as case;
ghost use Rattle.ab_alternatives.specs.CaseSteps.{IsLater};
ghost use Rattle.ab_alternatives.specs.declared.conclusions.Conclusion.TheVariants.{Formula, Apart, Stuck};
ghost use Rattle.ab_judgements.specs.DemandReadings.{rule_read, IsTypedJudgement, IsRuleFor, IsDemanded};
ghost use Rattle.ab_judgement_forms.specs.JudgementReadings.{judgement_read, HoldsJudgement};
ghost use Rattle.ab_judgements.specs.RuleWalks.{HasListed, IsRuled};
ghost use Rattle.ab_judgements.specs.RuleSteps.{demand_above, as_demand, UnfoldsBy, IsAdded};
ghost use Rattle.ab_judgements.specs.SubjectAnswers.{IsUnfoldedBy};
ghost use Rattle.ab_judgements.specs.SubjectReadings.{HasRules};
ghost use Rattle.ab_judgements.specs.declared.subjects.Subject.TheVariants.{Judgement as AJudgement};

use crate::demands::{Rule, make_demand};
use crate::rule_places::{Ruled, rule_at, with_rules};
use ab_alternatives::equations::CaseSolution;
use ab_alternatives::{Conclusion, Unfolding, mark_above, solve_unfolding};
use ab_judgement_forms::Judgement;
use ab_logic::{Sequent, World};
use ab_norm::types::Steps;
use std::alloc::{AllocError, Global};

/// What the conclusion may become by the rule. No cell is bound.
pub(crate) fn unfolding_by<L>(
    alloc: Global,
    world: &mut World,
    ruled: &Ruled,
    rule: &Rule,
    steps: &mut Steps<L>,
) -> Result<Unfolding, AllocError>
    requires ruled { IsRuled world.old ruled.now }
    requires rule { IsRuleFor world.old ruled.now.judgement rule.now }
    ensures made { IfOk result (λ u. IsDemanded world.old (demand_above world.old (judgement_read world.old ruled.now.judgement) (rule_read world.old rule.now)) world.new (as_demand u)) }
    ensures later { IsLater world.old world.new }
    ensures steps { steps.old ≤ steps.new }
{
    let mark = mark_above(ruled.judgement.sign);
    let made = make_demand(
        alloc,
        world,
        &ruled.judgement,
        mark,
        rule,
        &ruled.constants,
        steps,
    )?;
    Ok(Unfolding {
        own: made.own,
        equations: made.equations,
        body: made.body,
    })
}

/// What the conclusion becomes by the rule. Cells are bound then where there is a formula.
fn conclusion_by<L>(
    alloc: Global,
    world: &mut World,
    ruled: &Ruled,
    rule: &Rule,
    steps: &mut Steps<L>,
) -> Result<Conclusion, AllocError>
    requires ruled { IsRuled world.old ruled.now }
    requires rule { IsRuleFor world.old ruled.now.judgement rule.now }
    ensures formula { (s : APlainGoal) (r : ATerm) → result ≡ Ok (Formula r) → UnfoldsBy (cells_read world.old.types world.old.store)
        (way_by_rule s (judgement_read world.old ruled.now.judgement) (rule_read world.old rule.now)) world.new.types world.new.store r }
    ensures held { (r : ATerm) → result ≡ Ok (Formula r) → Holds world.new r }
    ensures apart { (s : APlainGoal) → result ≡ Ok Apart →
        NeverArises ((way_by_rule s (judgement_read world.old ruled.now.judgement) (rule_read world.old rule.now)).case (cells_read world.old.types world.old.store)) }
    ensures stuck { (s : APlainGoal) (i : ℕ) → result ≡ Ok (Stuck i) →
        IsOpen ((way_by_rule s (judgement_read world.old ruled.now.judgement) (rule_read world.old rule.now)).case (cells_read world.old.types world.old.store)) i }
    ensures added { IsAdded world.old world.new }
    ensures steps { steps.old ≤ steps.new }
{
    let made = unfolding_by(alloc, world, ruled, rule, steps)?;
    solve_unfolding(
        alloc,
        &mut world.types,
        &mut world.store,
        &made,
        &[],
        &[],
        steps,
    )
}

/// The goal with its conclusion, which is the judgement, unfolded by the rule. No cell is bound.
fn unfold_rule<L>(
    alloc: Global,
    world: &mut World,
    ruled: &Ruled,
    rule: &Rule,
    goal: &Sequent,
    steps: &mut Steps<L>,
) -> Result<CaseSolution, AllocError>
    requires ruled { IsRuled world.old ruled.now }
    requires rule { IsRuleFor world.old ruled.now.judgement rule.now }
    requires goal { HoldsSequent world.old goal.now }
    ensures unified { (g : AGoal) → result ≡ Ok (case.Unified g) → IsUnfoldedBy (cells_read world.old.types world.old.store) (sequent_of world.old goal.now)
        (way_by_rule (sequent_of world.old goal.now) (judgement_read world.old ruled.now.judgement) (rule_read world.old rule.now)) (sequent_of world.new g) }
    ensures held { (g : AGoal) → result ≡ Ok (case.Unified g) → HoldsSequent world.new g }
    ensures apart { result ≡ Ok case.Apart → NeverArises
        ((way_by_rule (sequent_of world.old goal.now) (judgement_read world.old ruled.now.judgement) (rule_read world.old rule.now)).case (cells_read world.old.types world.old.store)) }
    ensures stuck { (i : ℕ) → result ≡ Ok (case.Stuck i) → IsOpen
        ((way_by_rule (sequent_of world.old goal.now) (judgement_read world.old ruled.now.judgement) (rule_read world.old rule.now)).case (cells_read world.old.types world.old.store)) i }
    ensures later { IsLater world.old world.new }
    ensures steps { steps.old ≤ steps.new }
{
    let mark = world.store.mark();
    let solved = conclusion_by(alloc, world, ruled, rule, steps);
    world.store.rewind(&mark, steps);
    match solved? {
        Conclusion::Formula(formula) => {
            let premise = goal.copy(alloc)?;
            Ok(CaseSolution::Unified(premise.with_conclusion(formula)))
        }
        Conclusion::Apart => Ok(CaseSolution::Apart),
        Conclusion::Stuck(place) => Ok(CaseSolution::Stuck(place)),
    }
}

/// The goal with its conclusion, which is the judgement, unfolded by the rule of this number, counted from 0, if there are so
/// many. No cell is bound.
pub(crate) fn unfold_judgement_at<L>(
    alloc: Global,
    world: &mut World,
    judgement: &Judgement,
    goal: &Sequent,
    number: usize,
    steps: &mut Steps<L>,
) -> Result<Option<CaseSolution>, AllocError>
    requires world { IsWorld world.old }
    requires judgement { HoldsJudgement world.old judgement.now }
    requires typed { IsTypedJudgement world.old judgement.now }
    requires rules { HasRules world.old (AJudgement judgement.now) }
    requires goal { HoldsSequent world.old goal.now }
    ensures none { (rs : List ARule) → HasListed world.old judgement.now rs → result ≡ Ok None → slice_get rs number ≡ None }
    ensures unified { (rs : List ARule) (g : AGoal) → HasListed world.old judgement.now rs → result ≡ Ok (Some (case.Unified g)) →
        (r : ARule) × (slice_get rs number ≡ Some r) × IsUnfoldedBy (cells_read world.old.types world.old.store) (sequent_of world.old goal.now)
        (way_by_rule (sequent_of world.old goal.now) (judgement_read world.old judgement.now) r) (sequent_of world.new g) }
    ensures held { (g : AGoal) → result ≡ Ok (Some (case.Unified g)) → HoldsSequent world.new g }
    ensures apart { (rs : List ARule) → HasListed world.old judgement.now rs → result ≡ Ok (Some case.Apart) →
        (r : ARule) × (slice_get rs number ≡ Some r)
        × NeverArises ((way_by_rule (sequent_of world.old goal.now) (judgement_read world.old judgement.now) r).case (cells_read world.old.types world.old.store)) }
    ensures stuck { (rs : List ARule) (i : ℕ) → HasListed world.old judgement.now rs → result ≡ Ok (Some (case.Stuck i)) →
        (r : ARule) × (slice_get rs number ≡ Some r)
        × IsOpen ((way_by_rule (sequent_of world.old goal.now) (judgement_read world.old judgement.now) r).case (cells_read world.old.types world.old.store)) i }
    ensures later { IsLater world.old world.new }
    ensures steps { steps.old ≤ steps.new }
{
    let ruled = with_rules(alloc, world, judgement)?;
    let Some(rule) = rule_at(alloc, world, &ruled, number)? else {
        return Ok(None);
    };
    let solved = unfold_rule(alloc, world, &ruled, &rule, goal, steps)?;
    Ok(Some(solved))
}
