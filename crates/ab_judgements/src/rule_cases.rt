//! The cases of a goal by the rules of a judgement, tried one after another.
ghost use Rattle.std.specs.Prelude.{◌≡◌, ◌≤◌, ◌∷◌, [], ℕ, List, Ok, Some, None, map, All};
ghost use Rattle.std.proofs.Common.{Vec as AVec, Global as AllocGlobal};
ghost use Rattle.ab_unify.specs.Problem.{cells_read};
ghost use Rattle.ab_formulas.specs.Declarations.{signature_in};
ghost use Rattle.ab_formulas.specs.Formulas.{IsFormula};
ghost use Rattle.ab_formulas.specs.NewNames.{IsNamedFor};
ghost use Rattle.ab_formulas.specs.Sequents.{formulas_of};
ghost use Rattle.ab_logic.specs.Worlds.{IsWorld, declarations_of};
ghost use Rattle.ab_logic.specs.SequentReadings.{HoldsSequent, sequent_of};
ghost use Rattle.ab_logic.specs.declared.sequent.Sequent.{Sequent as AGoal};
ghost use Rattle.ab_theory.specs.JudgementCases.{judgement_case};
ghost use Rattle.ab_theory.specs.SpecRules.{SpecRule as ARule};
ghost use Rattle.ab_theory.specs.Splits.{Split, IsUnsplit, Arises, NeverArises, IsOpen};
ghost use Rattle.ab_alternatives.specs.ab_equations.specs.declared.cases.CaseSolution.TheVariants.{Unified, Apart, Stuck as StuckCase};
ghost use Rattle.ab_alternatives.specs.CaseSteps.{IsLater, ArePassed, AreStopped};
ghost use Rattle.ab_alternatives.specs.declared.all_cases.Splitting.TheVariants.{Goals, Stuck};
ghost use Rattle.ab_judgements.specs.DemandReadings.{rule_read, IsTypedJudgement, IsRuleFor};
ghost use Rattle.ab_judgement_forms.specs.JudgementReadings.{judgement_read, HoldsJudgement};
ghost use Rattle.ab_judgements.specs.RuleWalks.{slots, rule_in, HasListed};
ghost use Rattle.ab_judgements.specs.RuleSteps.{cases_at, IsSplitting};
ghost use Rattle.ab_judgements.specs.SubjectReadings.{HasRules};
ghost use Rattle.ab_judgements.specs.declared.subjects.Subject.TheVariants.{Judgement as AJudgement};

use crate::demands::{Rule, make_demand};
use crate::rule_places::{Ruled, last_place, rule_at, with_rules};
use ab_alternatives::equations::{CaseSolution, solve_case};
use ab_alternatives::{Splitting, both, goal_over, mark_below};
use ab_judgement_forms::Judgement;
use ab_logic::{Sequent, World};
use ab_norm::name::Name;
use ab_norm::types::Steps;
use std::alloc::{AllocError, Global};

/// The case of the rule, solved. Nodes and cells are added meanwhile, also where no goal is answered.
fn solve_rule<L>(
    alloc: Global,
    world: &mut World,
    ruled: &Ruled,
    rule: &Rule,
    goal: &Sequent,
    rest: &Sequent,
    name: &Name,
    steps: &mut Steps<L>,
) -> Result<CaseSolution, AllocError>
    requires ready { IsSplitting world.old ruled.now goal.now rest.now }
    requires rule { IsRuleFor world.old ruled.now.judgement rule.now }
    ensures unified { (g : AGoal) → result ≡ Ok (Unified g) → Arises (IsNamedFor (declarations_of world.old))
        (judgement_case (sequent_of world.old goal.now) (sequent_of world.old rest.now) name.now (judgement_read world.old ruled.now.judgement)
        (rule_read world.old rule.now) (cells_read world.old.types world.old.store))
        (cells_read world.new.types world.new.store) (sequent_of world.new g) }
    ensures held { (g : AGoal) → result ≡ Ok (Unified g) → HoldsSequent world.new g }
    ensures apart { result ≡ Ok Apart → NeverArises
        (judgement_case (sequent_of world.old goal.now) (sequent_of world.old rest.now) name.now (judgement_read world.old ruled.now.judgement)
        (rule_read world.old rule.now) (cells_read world.old.types world.old.store)) }
    ensures stuck { (i : ℕ) → result ≡ Ok (StuckCase i) → IsOpen
        (judgement_case (sequent_of world.old goal.now) (sequent_of world.old rest.now) name.now (judgement_read world.old ruled.now.judgement)
        (rule_read world.old rule.now) (cells_read world.old.types world.old.store)) i }
    ensures later { IsLater world.old world.new }
    ensures steps { steps.old ≤ steps.new }
{
    let mark = mark_below(ruled.judgement.sign);
    let made = make_demand(
        alloc,
        world,
        &ruled.judgement,
        mark,
        rule,
        &ruled.constants,
        steps,
    )?;
    let variables = goal.variables.as_slice();
    let flexible = both(alloc, variables, &made.own)?;
    let over = goal_over(alloc, rest, variables, name, made.body)?;
    solve_case(
        alloc,
        world,
        &made.equations,
        &flexible,
        &made.own,
        over,
        steps,
    )
}

/// Tries the case of the rule at the place, if one stands there: its goal, if it arises, is put behind the goals. The number of
/// its equation is answered where it is open.
fn try_place<L>(
    alloc: Global,
    world: &mut World,
    ruled: &Ruled,
    place: usize,
    goal: &Sequent,
    rest: &Sequent,
    name: &Name,
    goals: &mut Vec<Sequent>,
    steps: &mut Steps<L>,
) -> Result<Option<usize>, AllocError>
    requires ready { IsSplitting world.old ruled.now goal.now rest.now }
    requires goals { All (HoldsSequent world.old) goals.old.items }
    ensures passed { result ≡ Ok None → ArePassed world.old goals.old.items
        (cases_at world.old ruled.now goal.now rest.now name.now (rule_in (slots world.old ruled.now.judgement ruled.now.source) place ∷ []))
        world.new goals.new.items }
    ensures stopped { (i : ℕ) → result ≡ Ok (Some i) → AreStopped world.old
        (cases_at world.old ruled.now goal.now rest.now name.now (rule_in (slots world.old ruled.now.judgement ruled.now.source) place ∷ [])) i }
    ensures later { IsLater world.old world.new }
    ensures steps { steps.old ≤ steps.new }
{
    let Some(rule) = rule_at(alloc, world, ruled, place)? else {
        return Ok(None);
    };
    let mark = world.store.mark();
    match solve_rule(alloc, world, ruled, &rule, goal, rest, name, steps)? {
        CaseSolution::Unified(premise) => {
            goals.push(premise)?;
            Ok(None)
        }
        CaseSolution::Apart => {
            world.store.cut_to(&mark, steps);
            Ok(None)
        }
        CaseSolution::Stuck(equation) => Ok(Some(equation)),
    }
}

/// The goal, split into its cases by the judgement. `rest` is what stays of the goal; in each case the body that the rule
/// demands is assumed there under the name.
pub(crate) fn split_judgement<L>(
    alloc: Global,
    world: &mut World,
    judgement: &Judgement,
    goal: &Sequent,
    rest: &Sequent,
    name: &Name,
    steps: &mut Steps<L>,
) -> Result<Splitting, AllocError>
    requires world { IsWorld world.old }
    requires judgement { HoldsJudgement world.old judgement.now }
    requires typed { IsTypedJudgement world.old judgement.now }
    requires rules { HasRules world.old (AJudgement judgement.now) }
    requires goal { HoldsSequent world.old goal.now }
    requires rest { HoldsSequent world.old rest.now }
    requires formulas { All (IsFormula (signature_in (declarations_of world.old))) (formulas_of (sequent_of world.old rest.now)) }
    requires same { rest.now.variables ≡ goal.now.variables }
    ensures goals { (rs : List ARule) (gs : AVec AGoal AllocGlobal) → HasListed world.old judgement.now rs → result ≡ Ok (Goals gs) →
        Split (IsNamedFor (declarations_of world.old)) (cells_read world.old.types world.old.store)
        (map (judgement_case (sequent_of world.old goal.now) (sequent_of world.old rest.now) name.now (judgement_read world.old judgement.now)) rs) (map (sequent_of world.new) gs.items) }
    ensures held { (gs : AVec AGoal AllocGlobal) → result ≡ Ok (Goals gs) → All (HoldsSequent world.new) gs.items }
    ensures stuck { (rs : List ARule) (i : ℕ) → HasListed world.old judgement.now rs → result ≡ Ok (Stuck i) →
        IsUnsplit (IsNamedFor (declarations_of world.old)) (cells_read world.old.types world.old.store)
        (map (judgement_case (sequent_of world.old goal.now) (sequent_of world.old rest.now) name.now (judgement_read world.old judgement.now)) rs) i }
    ensures later { IsLater world.old world.new }
    ensures steps { steps.old ≤ steps.new }
{
    let ruled = with_rules(alloc, world, judgement)?;
    let last = last_place(world, &ruled);
    let mut goals = Vec::new(alloc);
    for place in 0..last {
        if let Some(equation) = try_place(
            alloc, world, &ruled, place, goal, rest, name, &mut goals, steps,
        )? {
            return Ok(Splitting::Stuck(equation));
        }
    }
    if let Some(equation) = try_place(
        alloc, world, &ruled, last, goal, rest, name, &mut goals, steps,
    )? {
        return Ok(Splitting::Stuck(equation));
    }
    Ok(Splitting::Goals(goals))
}
