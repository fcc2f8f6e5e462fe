//! The alternatives of a judgement of the specification logic.
ghost use Rattle.std.specs.Prelude.{◌≡◌, ◌≤◌, ◌∷◌, ◌++◌, [], ℕ, List, map, IfOk, OnOk};
ghost use Rattle.ab_unifiers.specs.Replacements.{Cell};
ghost use Rattle.ab_unify.specs.Problem.{cells_read};
ghost use Rattle.ab_logic.specs.Worlds.{IsWorld};
ghost use Rattle.ab_theory.specs.SpecRules.{SpecRule as APlainRule};
ghost use Rattle.ab_alternatives.specs.CaseSteps.{IsLater};
ghost use Rattle.ab_judgements.specs.DemandReadings.{rule_read, IsTypedJudgement, IsRuleFor};
ghost use Rattle.ab_judgements.specs.ab_judgement_forms.specs.JudgementReadings.{judgement_read, HoldsJudgement};
ghost use Rattle.ab_judgements.specs.RuleWalks.{slots, rule_in, rules_in, HasListed, IsRuled};
ghost use Rattle.ab_judgements.specs.SubjectReadings.{HasRules};
ghost use Rattle.ab_judgements.specs.declared.subjects.Subject.TheVariants.{Judgement as AJudgement};
ghost use Rattle.ab_analyses.specs.Alternatives.{AlternativeOver, by_rule, all_with};
ghost use Rattle.ab_analyses.specs.AlternativeReadings.{StandsFor, HoldsAlternative, AreMade};

use crate::answers::Alternative;
use ab_judgements::{Judgement, Rule, Ruled, last_place, make_demand, rule_at, with_rules};
use ab_logic::{Sign, World};
use ab_norm::types::Steps;
use std::alloc::{AllocError, Global};

/// The alternative by the rule. No cell is bound.
fn by_rule<L>(
    alloc: Global,
    world: &mut World,
    ruled: &Ruled,
    rule: &Rule,
    steps: &mut Steps<L>,
) -> Result<Alternative, AllocError>
    requires ruled { IsRuled world.old ruled.now }
    requires rule { IsRuleFor world.old ruled.now.judgement rule.now }
    ensures stands { IfOk result (λ made. StandsFor world.new made
        (by_rule (judgement_read world.old ruled.now.judgement) (rule_read world.old rule.now) (cells_read world.old.types world.old.store))) }
    ensures held { IfOk result (HoldsAlternative world.new) }
    ensures cells { OnOk result (cells_read world.new.types world.new.store ≡ all_with
        (by_rule (judgement_read world.old ruled.now.judgement) (rule_read world.old rule.now) (cells_read world.old.types world.old.store))) }
    ensures later { IsLater world.old world.new }
    ensures steps { steps.old ≤ steps.new }
{
    let judgement = &ruled.judgement;
    let constants = ruled.constants.as_slice();
    let demand = make_demand(alloc, world, judgement, Sign::Plain, rule, constants, steps)?;
    Ok(Alternative {
        fresh: Vec::new(alloc),
        raised: Vec::new(alloc),
        made: demand.own,
        equations: demand.equations,
        body: demand.body,
    })
}

/// Puts the alternative by the rule at the place behind these, if a rule stands there.
fn add_place<L>(
    alloc: Global,
    world: &mut World,
    ruled: &Ruled,
    place: usize,
    list: &mut Vec<Alternative>,
    steps: &mut Steps<L>,
) -> Result<(), AllocError>
    requires ruled { IsRuled world.old ruled.now }
    ensures made { (makes : List AlternativeOver) (before : List (Cell (List ℕ))) → AreMade world.old list.old.items makes before →
        OnOk result (AreMade world.new list.new.items
        (makes ++ map (by_rule (judgement_read world.old ruled.now.judgement)) (rules_in (rule_in (slots world.old ruled.now.judgement ruled.now.source) place ∷ []))) before) }
    ensures later { IsLater world.old world.new }
    ensures steps { steps.old ≤ steps.new }
{
    let Some(rule) = rule_at(alloc, world, ruled, place)? else {
        return Ok(());
    };
    let made = by_rule(alloc, world, ruled, &rule, steps)?;
    list.push(made)?;
    Ok(())
}

/// The alternatives of the judgement, in order: one for each rule by which it may hold. They are the same in each goal, on the left
/// and on the right. No cell is bound.
pub(crate) fn judgement_alternatives<L>(
    alloc: Global,
    world: &mut World,
    judgement: &Judgement,
    steps: &mut Steps<L>,
) -> Result<Vec<Alternative>, AllocError>
    requires world { IsWorld world.old }
    requires judgement { HoldsJudgement world.old judgement.now }
    requires typed { IsTypedJudgement world.old judgement.now }
    requires rules { HasRules world.old (AJudgement judgement.now) }
    ensures list { (rs : List APlainRule) → HasListed world.old judgement.now rs → IfOk result (λ list. AreMade world.new list.items
        (map (by_rule (judgement_read world.old judgement.now)) rs) (cells_read world.old.types world.old.store)) }
    ensures later { IsLater world.old world.new }
    ensures steps { steps.old ≤ steps.new }
{
    let ruled = with_rules(alloc, world, judgement)?;
    let last = last_place(world, &ruled);
    let mut list = Vec::new(alloc);
    for place in 0..last {
        add_place(alloc, world, &ruled, place, &mut list, steps)?;
    }
    add_place(alloc, world, &ruled, last, &mut list, steps)?;
    Ok(list)
}
