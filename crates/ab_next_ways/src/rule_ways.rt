//! The ways by the rules of a judgement.
ghost use Rattle.std.specs.Prelude.{◌≡◌, ◌≤◌, ◌-◌, List, length, false, IfOk};
ghost use Rattle.ab_norm.specs.ab_store.specs.declared.node.TermId.{TermId as AnId};
ghost use Rattle.ab_formulas.specs.BodyMarks.{mark_above};
ghost use Rattle.ab_logic.specs.WorldGrowth.{Grows};
ghost use Rattle.ab_logic.specs.Worlds.{IsWorld, read, declarations_of};
ghost use Rattle.ab_logic.specs.declared.world.World.{World as AWorld};
ghost use Rattle.ab_theory.specs.Judgements.{as_judgement};
ghost use Rattle.ab_theory.specs.Opening.{kind_of};
ghost use Rattle.ab_theory.specs.SpecRules.{demand_of};
ghost use Rattle.ab_judgements.specs.ab_alternatives.specs.CaseSteps.{IsLater};
ghost use Rattle.ab_judgements.specs.DemandReadings.{rule_read, IsRuleFor, IsDemanded};
ghost use Rattle.ab_judgements.specs.ab_judgement_forms.specs.JudgementReadings.{judgement_read, HoldsJudgement};
ghost use Rattle.ab_judgements.specs.RuleWalks.{IsRuled};
ghost use Rattle.ab_search_trees.specs.Goals as tree;
ghost use Rattle.ab_search_trees.specs.Judgements.{opens_by_layers};
ghost use Rattle.ab_search_trees.specs.Ways.{by_rule, by_judgement, is_by_list};
ghost use Rattle.ab_search_ways.specs.GoalReadings.{goal_read, HoldsGoal, IsFormulaIn};
ghost use Rattle.ab_search_ways.specs.MadeWays.{MakesWay, MakesWayAt};
ghost use Rattle.ab_next_ways.specs.Unfoldable.{GoesByRules};

use ab_judgements::alternatives::{both, mark_above, may_be_unfolded};
use ab_judgements::{
    DemandTerm, Judgement, Kind, Rule, Ruled, as_judgement, kind_of, knows_rules, make_demand,
    rule_at, with_rules,
};
use ab_logic::World;
use ab_norm::store::{CellId, TermId};
use ab_norm::types::Steps;
use ab_search_ways::{Goal, Way};
use std::alloc::{AllocError, Global};

/// Whether the judgement's goal is opened layer by layer: nothing is in focus, and it is made of others.
fn opens_by_layers(world: &World, judgement: &Judgement) -> bool
    requires { HoldsJudgement world.now judgement.now }
    ensures { let j = judgement_read world.now judgement.now in result ≡ opens_by_layers j.focus (kind_of j.goal) }
{
    if judgement.focus.is_some() {
        return false;
    }
    match kind_of(&world.store, judgement.goal) {
        Kind::Compound => true,
        Kind::Atomic | Kind::Undetermined => false,
    }
}

/// The judgement that the conclusion is, where it may be unfolded to the depth and the search goes on from it by rules.
fn unfolded_judgement(world: &World, goal: &Goal) -> Option<Judgement>
    requires world { IsWorld world.now }
    requires conclusion { IsFormulaIn world.now goal.now.conclusion }
    ensures { GoesByRules world.now goal.now result }
{
    if goal.depth == 0 {
        return None;
    }
    let judgement = as_judgement(world, goal.conclusion)?;
    if !may_be_unfolded(judgement.sign) {
        return None;
    }
    if opens_by_layers(world, &judgement) {
        return None;
    }
    if !knows_rules(world, &judgement) {
        return None;
    }
    Some(judgement)
}

/// What the rule demands of a conclusion that is the judgement.
fn demand_above<L>(
    alloc: Global,
    world: &mut World,
    ruled: &Ruled,
    rule: &Rule,
    steps: &mut Steps<L>,
) -> Result<DemandTerm, AllocError>
    requires ruled { IsRuled world.old ruled.now }
    requires rule { IsRuleFor world.old ruled.now.judgement rule.now }
    ensures made { let j = judgement_read world.old ruled.now.judgement in
        IfOk result (IsDemanded world.old (demand_of (length world.old.store.cells) (mark_above j.sign) j (rule_read world.old rule.now)) world.new) }
    ensures later { IsLater world.old world.new }
    ensures steps { steps.old ≤ steps.new }
{
    let judgement = &ruled.judgement;
    let mark = mark_above(judgement.sign);
    make_demand(alloc, world, judgement, mark, rule, &ruled.constants, steps)
}

/// Whether the rule is that by the list.
fn is_by_list(rule: &Rule) -> bool
    ensures { (w : AWorld) → result ≡ is_by_list (rule_read w rule.now) }
{
    matches!(rule, Rule::Item)
}

/// The goal that a rule's body is left for, one conclusion less being unfolded below.
fn goal_by_rule(alloc: Global, goal: &Goal, body: TermId, by_list: bool) -> Result<Goal, AllocError>
    ensures reads { IfOk result (λ k. (w : AWorld) (base : List AnId) → goal_read w base k ≡
        record (tree.asking (read w body) (goal_read w base goal.now)) { depth = goal.now.depth - 1; untouched = false; member_first = by_list }) }
    ensures added { IfOk result (λ k. k.added.items ≡ goal.now.added.items) }
    ensures constants { IfOk result (λ k. k.constants.items ≡ goal.now.constants.items) }
    ensures conclusion { IfOk result (λ k. k.conclusion ≡ body) }
{
    let mut left = goal.with_conclusion(alloc, body)?;
    left.depth = left.depth.saturating_sub(1);
    left.untouched = false;
    left.member_first = by_list;
    Ok(left)
}

/// The way by the rule: its variables may be replaced, and what it demands is left.
fn way_of_rule<L>(
    alloc: Global,
    world: &mut World,
    flexible: &[CellId],
    goal: &Goal,
    ruled: &Ruled,
    rule: &Rule,
    steps: &mut Steps<L>,
) -> Result<Way, AllocError>
    requires goal { HoldsGoal world.old goal.now }
    requires ruled { IsRuled world.old ruled.now }
    requires rule { IsRuleFor world.old ruled.now.judgement rule.now }
    ensures made { IfOk result (MakesWay world.old flexible.now goal.now
        (λ now g. by_rule (declarations_of world.old) now g (goal.now.depth - 1) (judgement_read world.old ruled.now.judgement) (rule_read world.old rule.now)) world.new) }
    ensures later { IsLater world.old world.new }
    ensures steps { steps.old ≤ steps.new }
{
    let demand = demand_above(alloc, world, ruled, rule, steps)?;
    let only = goal_by_rule(alloc, goal, demand.body, is_by_list(rule))?;
    let goals = Vec::from_array(alloc, [only])?;
    let cells = both(alloc, flexible, &demand.own)?;
    Ok(Way {
        flexible: cells,
        equations: demand.equations,
        serves: true,
        goals,
    })
}

/// The way by the rule of this number, counted from 0, if there are so many: the rule's variables may be replaced, and what it
/// leaves is left, one conclusion less being unfolded below.
pub fn way_by_rule<L>(
    alloc: Global,
    world: &mut World,
    flexible: &[CellId],
    goal: &Goal,
    number: usize,
    steps: &mut Steps<L>,
) -> Result<Option<Way>, AllocError>
    requires world { IsWorld world.old }
    requires goal { HoldsGoal world.old goal.now }
    requires conclusion { IsFormulaIn world.old goal.now.conclusion }
    ensures made { IfOk result (MakesWayAt world.old flexible.now goal.now
        (λ now g. by_judgement (declarations_of world.old) now g g.depth (as_judgement g.conclusion)) number world.new) }
    ensures grows { Grows world.old world.new }
    ensures declared { declarations_of world.new ≡ declarations_of world.old }
    ensures steps { steps.old ≤ steps.new }
{
    let Some(judgement) = unfolded_judgement(world, goal) else {
        return Ok(None);
    };
    let ruled = with_rules(alloc, world, &judgement)?;
    let Some(rule) = rule_at(alloc, world, &ruled, number)? else {
        return Ok(None);
    };
    let way = way_of_rule(alloc, world, flexible, goal, &ruled, &rule, steps)?;
    Ok(Some(way))
}
