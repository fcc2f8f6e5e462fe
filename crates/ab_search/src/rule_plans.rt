//! What is done at the kernel for a rule of a judgement: it is taken with terms for what it leaves open, or with a hypothesis of the path.
ghost use Rattle.std.specs.Prelude.{◌≤◌, All, IfOk, IfSome};
ghost use Rattle.ab_logic.specs.SequentReadings.{HoldsSequent};
ghost use Rattle.ab_logic.specs.Worlds.{IsWorld, Holds};
ghost use Rattle.ab_logic.specs.declared.world.World.{World as AWorld};
ghost use Rattle.ab_steps.specs.ab_kernel.specs.ab_judgements.specs.DemandReadings.{IsRuleFor};
ghost use Rattle.ab_steps.specs.ab_kernel.specs.ab_judgements.specs.RuleWalks.{IsRuled};
ghost use Rattle.ab_search_paths.specs.ab_walk.specs.ab_next_ways.specs.ab_search_ways.specs.GoalReadings.{IsFormulaIn as IsTypedFormula};
ghost use Rattle.ab_search_paths.specs.Frames.{IsLater};
ghost use Rattle.ab_search_paths.specs.MoreTerms.{GotTerms};
ghost use Rattle.ab_search_paths.specs.Parts.{HoldsPathFrom, HoldsAssumed};
ghost use Rattle.ab_search_paths.specs.Paths.{AreStandIns};
ghost use Rattle.ab_search.specs.RulePlans.{NamesTerm, HoldsRuleGoal, HoldsPlan};

use crate::assumed_rows::AssumedRow;
use crate::unfolding_steps::Unfolding;
use ab_logic::{Sequent, World};
use ab_norm::Nominal;
use ab_norm::store::TermId;
use ab_norm::types::Steps;
use ab_search_paths::{
    Assumed, Entry, Likeness, NameTerm, OpenName, RuleTaken, RuleTerms, StandIn, carry_terms,
    closed_names, compare, left_by_rule, open_names, raised_terms, rule_terms, ruled_judgement,
};
use ab_steps::kernel::judgements::{Rule, Ruled, rule_at, with_rules};
use std::alloc::{AllocError, Global};

/// What is done at the kernel for a rule.
#[derive(Drop)]
pub(crate) enum RulePlan {
    /// The unfolding, and how many ways of the path behind the rule went into it.
    Unfold(Unfolding, usize),
    /// A hypothesis closes what the rule leaves.
    Assume(AssumedRow),
    /// There is no such rule.
    Nothing,
}

/// A rule at a goal of the kernel: its number, the judgement's constants, the names that the rule leaves open, and what the path's
/// constants are at the goal.
#[derive(Drop)]
pub(crate) struct RuleGoal {
    number: usize,
    constants: Vec<Nominal>,
    open: Vec<OpenName>,
    like: Likeness,
}

/// The names that the rule of the kernel's judgement leaves open.
fn open_at<L>(
    alloc: Global,
    world: &mut World,
    ruled: &Ruled,
    here: &Rule,
    rule: &RuleTaken,
    steps: &mut Steps<L>,
) -> Result<Vec<OpenName>, AllocError>
    requires ruled { IsRuled world.old ruled.now }
    requires here { IsRuleFor world.old ruled.now.judgement here.now }
    ensures later { IsLater world.old world.new }
    ensures steps { steps.old ≤ steps.new }
{
    let left = left_by_rule(alloc, world, ruled, here, steps)?;
    let closed = closed_names(alloc, world, here, rule.values.len(), steps)?;
    open_names(alloc, &closed, &left)
}

/// The plan with these terms for the first open names, of which so many are from the path behind the rule.
fn plan_with_terms<L>(
    alloc: Global,
    world: &mut World,
    goal: &Sequent,
    at: &RuleGoal,
    stand_ins: &[StandIn],
    terms: &[TermId],
    ways: usize,
    steps: &mut Steps<L>,
) -> Result<RulePlan, AllocError>
    requires world { IsWorld world.old }
    requires goal { HoldsSequent world.old goal.now }
    requires at { HoldsRuleGoal world.old at.now }
    requires stand_ins { AreStandIns world.old stand_ins.now }
    requires terms { All (Holds world.old) terms.now }
    ensures plan { IfOk result (HoldsPlan world.new) }
    ensures got { GotTerms world.old world.new }
    ensures steps { steps.old ≤ steps.new }
{
    let here = carry_terms(alloc, world, stand_ins, &at.like, goal, terms, steps)?;
    let terms = raised_terms(alloc, world, &at.constants, &at.open, &here)?;
    let unfolding = Unfolding {
        place: at.number,
        terms,
        names: 0,
    };
    Ok(RulePlan::Unfold(unfolding, ways))
}

/// The formula of the hypothesis, and then the terms that stand for names.
fn formula_and_terms(alloc: Global, found: &Assumed) -> Result<Vec<TermId>, AllocError>
    ensures { IfOk result (λ list. (w : AWorld) → HoldsAssumed w found.now → All (Holds w) list.items) }
{
    let mut terms = Vec::new(alloc);
    terms.push(found.formula)?;
    for name in found.names.as_slice() {
        if let NameTerm::Term(term) = name {
            terms.push(*term)?;
        }
    }
    Ok(terms)
}

/// The names, the terms that stand for them in turn being these.
fn with_terms(
    alloc: Global,
    names: &[NameTerm],
    terms: &[TermId],
) -> Result<Vec<NameTerm>, AllocError>
    ensures { IfOk result (λ list. (w : AWorld) → All (Holds w) terms.now → All (NamesTerm w) list.items) }
{
    let mut list = Vec::new(alloc);
    let mut next = 0;
    for name in names {
        match name {
            NameTerm::Bound(number) => list.push(NameTerm::Bound(*number))?,
            NameTerm::Term(_) => {
                let Some(term) = terms.get(next) else {
                    return Err(AllocError);
                };
                list.push(NameTerm::Term(*term))?;
                next += 1;
            }
        }
    }
    Ok(list)
}

/// The hypothesis, whose formula and terms for names, as they are at the goal, are these.
fn assumed_with(alloc: Global, found: &Assumed, here: &[TermId]) -> Result<Assumed, AllocError>
    ensures formula { IfOk result (λ one. (w : AWorld) → All (Holds w) here.now → Holds w one.formula) }
    ensures names { IfOk result (λ one. (w : AWorld) → All (Holds w) here.now → All (NamesTerm w) one.names.items) }
{
    let [formula, terms @ ..] = here else {
        return Err(AllocError);
    };
    let names = with_terms(alloc, &found.names, terms)?;
    Ok(Assumed {
        number: found.number,
        formula: *formula,
        bound: found.bound,
        names,
        ways: found.ways,
    })
}

/// The plan with the hypothesis: its formula and the terms that stand for names, as they are at the goal.
fn plan_with_hypothesis<L>(
    alloc: Global,
    world: &mut World,
    goal: &Sequent,
    at: RuleGoal,
    stand_ins: &[StandIn],
    found: &Assumed,
    steps: &mut Steps<L>,
) -> Result<RulePlan, AllocError>
    requires world { IsWorld world.old }
    requires goal { HoldsSequent world.old goal.now }
    requires at { HoldsRuleGoal world.old at }
    requires stand_ins { AreStandIns world.old stand_ins.now }
    requires found { HoldsAssumed world.old found.now }
    ensures plan { IfOk result (HoldsPlan world.new) }
    ensures got { GotTerms world.old world.new }
    ensures steps { steps.old ≤ steps.new }
{
    let terms = formula_and_terms(alloc, found)?;
    let here = carry_terms(alloc, world, stand_ins, &at.like, goal, &terms, steps)?;
    Ok(RulePlan::Assume(AssumedRow {
        rule: at.number,
        constants: at.constants,
        open: at.open,
        found: assumed_with(alloc, found, &here)?,
    }))
}

/// The rule at the goal, whose conclusion is like the formula, if the judgement that this is has such a rule.
fn rule_goal<L>(
    alloc: Global,
    world: &mut World,
    conclusion: TermId,
    stand_ins: &[StandIn],
    formula: TermId,
    rule: &RuleTaken,
    steps: &mut Steps<L>,
) -> Result<Option<RuleGoal>, AllocError>
    requires world { IsWorld world.old }
    requires conclusion { IsTypedFormula world.old conclusion }
    requires stand_ins { AreStandIns world.old stand_ins.now }
    requires formula { Holds world.old formula }
    ensures found { IfOk result (λ found. IfSome found (HoldsRuleGoal world.new)) }
    ensures later { IsLater world.old world.new }
    ensures steps { steps.old ≤ steps.new }
{
    let Some(judgement) = ruled_judgement(world, conclusion) else {
        return Err(AllocError);
    };
    let ruled = with_rules(alloc, world, &judgement)?;
    let Some(here) = rule_at(alloc, world, &ruled, rule.number)? else {
        return Ok(None);
    };
    let open = open_at(alloc, world, &ruled, &here, rule, steps)?;
    let like = compare(alloc, world, stand_ins, formula, conclusion, steps)?;
    Ok(Some(RuleGoal {
        number: rule.number,
        constants: ruled.constants,
        open,
        like,
    }))
}

/// What is done for the rule at the goal, whose conclusion is like the formula. Behind the rule the path goes on so.
pub(crate) fn plan<L>(
    alloc: Global,
    world: &mut World,
    goal: &Sequent,
    stand_ins: &[StandIn],
    formula: TermId,
    rule: &RuleTaken,
    behind: &[Entry],
    steps: &mut Steps<L>,
) -> Result<RulePlan, AllocError>
    requires world { IsWorld world.old }
    requires goal { HoldsSequent world.old goal.now }
    requires conclusion { IsTypedFormula world.old goal.now.conclusion }
    requires stand_ins { AreStandIns world.old stand_ins.now }
    requires formula { Holds world.old formula }
    requires path { HoldsPathFrom world.old rule.now behind.now }
    ensures plan { IfOk result (HoldsPlan world.new) }
    ensures later { IsLater world.old world.new }
    ensures steps { steps.old ≤ steps.new }
{
    let conclusion = goal.conclusion;
    let Some(at) = rule_goal(alloc, world, conclusion, stand_ins, formula, rule, steps)? else {
        return Ok(RulePlan::Nothing);
    };
    match rule_terms(alloc, rule, &at.open, behind)? {
        RuleTerms::Given(terms, ways) => {
            plan_with_terms(alloc, world, goal, &at, stand_ins, &terms, ways, steps)
        }
        RuleTerms::Assumed(found) => {
            plan_with_hypothesis(alloc, world, goal, at, stand_ins, &found, steps)
        }
    }
}
