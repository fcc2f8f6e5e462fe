//! The first rule by which a conclusion that is a judgement unfolds.
ghost use Rattle.std.specs.Prelude.{◌≡◌, ◌+◌, ◌^◌, ◌<◌, ◌≤◌, ◌∷◌, [], List, length, None, Some, Ok, IfOk};
ghost use Rattle.ab_unify.specs.Problem.{cells_read};
ghost use Rattle.ab_formulas.specs.Sequents.{Sequent as APlainGoal};
ghost use Rattle.ab_logic.specs.Worlds.{IsWorld};
ghost use Rattle.ab_theory.specs.SpecRules.{SpecRule as ARule};
ghost use Rattle.ab_theory.specs.Subjects.{a_judgement, way_by_rule};
ghost use Rattle.ab_alternatives.specs.CaseSteps.{IsLater};
ghost use Rattle.ab_alternatives.specs.declared.choice_matches.Match.{Match as AMatch};
ghost use Rattle.ab_alternatives.specs.declared.first_choice.Found.{Found as AFound};
ghost use Rattle.ab_judgements.specs.DemandReadings.{rule_read, IsTypedJudgement, IsRuleFor};
ghost use Rattle.ab_judgement_forms.specs.JudgementReadings.{judgement_read, HoldsJudgement};
ghost use Rattle.ab_judgements.specs.RuleWalks.{slots, rules_in, rule_in, HasListed, IsRuled};
ghost use Rattle.ab_judgements.specs.RuleSteps.{MatchesBy, IsAdded, IsFoundBy, NoneOf};
ghost use Rattle.ab_judgements.specs.SubjectAnswers.{FindsWay};
ghost use Rattle.ab_judgements.specs.SubjectReadings.{HasRules};
ghost use Rattle.ab_judgements.specs.declared.subjects.Subject.TheVariants.{Judgement as AJudgement};

use crate::demands::Rule;
use crate::rule_places::{Ruled, last_place, rule_at, with_rules};
use crate::rule_unfoldings::unfolding_by;
use ab_alternatives::{Found, Match, solve_match};
use ab_judgement_forms::Judgement;
use ab_logic::World;
use ab_norm::types::Steps;
use std::alloc::{AllocError, Global};

/// How the equations that the rule demands are solved. Nodes and cells are added then, and cells bound.
fn match_rule<L>(
    alloc: Global,
    world: &mut World,
    ruled: &Ruled,
    rule: &Rule,
    steps: &mut Steps<L>,
) -> Result<Match, AllocError>
    requires ruled { IsRuled world.old ruled.now }
    requires rule { IsRuleFor world.old ruled.now.judgement rule.now }
    ensures matched { IfOk result (λ m. (s : APlainGoal) → MatchesBy (cells_read world.old.types world.old.store)
        (way_by_rule s (judgement_read world.old ruled.now.judgement) (rule_read world.old rule.now)) m) }
    ensures added { IsAdded world.old world.new }
    ensures steps { steps.old ≤ steps.new }
{
    let made = unfolding_by(alloc, world, ruled, rule, steps)?;
    solve_match(alloc, &mut world.types, &mut world.store, &made, steps)
}

/// How the equations are solved that the rule at the place demands, if one stands there. The world's store is as it was then.
fn match_place<L>(
    alloc: Global,
    world: &mut World,
    ruled: &Ruled,
    place: usize,
    steps: &mut Steps<L>,
) -> Result<Option<Match>, AllocError>
    requires ruled { IsRuled world.old ruled.now }
    ensures none { result ≡ Ok None → rule_in (slots world.old ruled.now.judgement ruled.now.source) place ≡ None }
    ensures matched { (s : APlainGoal) (m : AMatch) → result ≡ Ok (Some m) →
        (r : ARule) × (rule_in (slots world.old ruled.now.judgement ruled.now.source) place ≡ Some r)
        × MatchesBy (cells_read world.old.types world.old.store) (way_by_rule s (judgement_read world.old ruled.now.judgement) r) m }
    ensures cells { cells_read world.new.types world.new.store ≡ cells_read world.old.types world.old.store }
    ensures later { IsLater world.old world.new }
    ensures steps { steps.old ≤ steps.new }
{
    let Some(rule) = rule_at(alloc, world, ruled, place)? else {
        return Ok(None);
    };
    let mark = world.store.mark();
    let matched = match_rule(alloc, world, ruled, &rule, steps);
    world.store.cut_to(&mark, steps);
    Ok(Some(matched?))
}

/// What is found by the rule at the place, if one stands there. So many rules before it can't unfold the conclusion; this one is
/// counted too where it can't.
fn find_at<L>(
    alloc: Global,
    world: &mut World,
    ruled: &Ruled,
    place: usize,
    number: &mut usize,
    steps: &mut Steps<L>,
) -> Result<Option<Found>, AllocError>
    requires ruled { IsRuled world.old ruled.now }
    ensures found { (s : APlainGoal) (f : AFound) → result ≡ Ok (Some f) →
        (r : ARule) × (rule_in (slots world.old ruled.now.judgement ruled.now.source) place ≡ Some r)
        × IsFoundBy (cells_read world.old.types world.old.store) (way_by_rule s (judgement_read world.old ruled.now.judgement) r) number.old f }
    ensures passed { (s : APlainGoal) → result ≡ Ok None →
        NoneOf (cells_read world.old.types world.old.store) s (judgement_read world.old ruled.now.judgement)
        (rules_in (rule_in (slots world.old ruled.now.judgement ruled.now.source) place ∷ [])) }
    ensures counted { result ≡ Ok None → number.old + 1 < 2 ^ 64 →
        number.new ≡ number.old + length (rules_in (rule_in (slots world.old ruled.now.judgement ruled.now.source) place ∷ [])) }
    ensures cells { cells_read world.new.types world.new.store ≡ cells_read world.old.types world.old.store }
    ensures later { IsLater world.old world.new }
    ensures steps { steps.old ≤ steps.new }
{
    match match_place(alloc, world, ruled, place, steps)? {
        None => Ok(None),
        Some(Match::Closed) => Ok(Some(Found::Closed(*number))),
        Some(Match::Open(name)) => Ok(Some(Found::Open(*number, name))),
        Some(Match::Stuck(equation)) => Ok(Some(Found::Stuck(*number, equation))),
        Some(Match::Apart) => {
            *number = number.saturating_add(1);
            Ok(None)
        }
    }
}

/// The first rule by which a conclusion that is the judgement may unfold, and whether it does. The world's cells are as they
/// were then.
pub(crate) fn first_rule<L>(
    alloc: Global,
    world: &mut World,
    judgement: &Judgement,
    steps: &mut Steps<L>,
) -> Result<Found, AllocError>
    requires world { IsWorld world.old }
    requires judgement { HoldsJudgement world.old judgement.now }
    requires typed { IsTypedJudgement world.old judgement.now }
    requires rules { HasRules world.old (AJudgement judgement.now) }
    ensures found { IfOk result (λ found. (s : APlainGoal) (rs : List ARule) → HasListed world.old judgement.now rs →
        FindsWay (cells_read world.old.types world.old.store) s (a_judgement (judgement_read world.old judgement.now) rs) found) }
    ensures cells { cells_read world.new.types world.new.store ≡ cells_read world.old.types world.old.store }
    ensures later { IsLater world.old world.new }
    ensures steps { steps.old ≤ steps.new }
{
    let ruled = with_rules(alloc, world, judgement)?;
    let last = last_place(world, &ruled);
    let mut number = 0;
    for place in 0..last {
        if let Some(found) = find_at(alloc, world, &ruled, place, &mut number, steps)? {
            return Ok(found);
        }
    }
    match find_at(alloc, world, &ruled, last, &mut number, steps)? {
        Some(found) => Ok(found),
        None => Ok(Found::Nothing),
    }
}
