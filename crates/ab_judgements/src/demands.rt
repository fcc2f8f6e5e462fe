//! What a rule by which a judgement may hold demands, on shared terms.
ghost use Rattle.std.specs.Prelude.{◌≡◌, ◌≤◌, [], length, All, IfOk};
ghost use Rattle.ab_norm.specs.Nominals.{HoldsNominal};
ghost use Rattle.ab_alternatives.specs.ab_instances.specs.ListReadings.{names_read};
ghost use Rattle.ab_unify.specs.StoreChanges as changed;
ghost use Rattle.ab_logic.specs.Forms.{sign_of};
ghost use Rattle.ab_logic.specs.WorldGrowth.{Grows};
ghost use Rattle.ab_logic.specs.Worlds.{IsWorld};
ghost use Rattle.ab_theory.specs.Judgements.{constants_of};
ghost use Rattle.ab_theory.specs.SpecRules.{demand_of};
ghost use Rattle.ab_judgement_forms.specs.JudgementReadings.{judgement_read};
ghost use Rattle.ab_judgements.specs.DemandReadings.{rule_read, IsTypedJudgement, IsRuleFor, IsDemanded};

use crate::clause_demands::{clause_demand, clause_goals};
use crate::part_demands::part_demand;
use ab_judgement_forms::{Judgement, Manner, Opening, Part, cons_of, open, some_item_by, words_of};
use ab_logic::{Sign, World};
use ab_norm::Nominal;
use ab_norm::store::{CellId, Equation, TermId};
use ab_norm::types::Steps;
use ab_typing::ClauseTerm;
use std::alloc::{AllocError, Global};

/// A rule by which a judgement may hold.
#[derive(Drop)]
pub enum Rule {
    /// A clause of the program, whose head the goal is.
    Clause(ClauseTerm),
    /// Some formula of the list, which comes into focus.
    Item,
    /// The goal is made of others.
    Opening,
    /// A part of the formula in focus, whose atom the goal is.
    Part(Part),
}

/// What a rule demands: cells of its own, equations, and the body.
#[derive(Drop)]
pub struct DemandTerm {
    pub own: Vec<CellId>,
    pub equations: Vec<Equation>,
    pub body: TermId,
}

/// Nothing but the body.
fn body_alone(alloc: Global, body: TermId) -> DemandTerm
    ensures own { result.own.items ≡ [] }
    ensures equations { result.equations.items ≡ [] }
    ensures body { result.body ≡ body }
{
    DemandTerm {
        own: Vec::new(alloc),
        equations: Vec::new(alloc),
        body,
    }
}

/// What the rule demands of the judgement. The judgements of the body have the mark. `constants` are those of the judgement. No
/// cell is bound, before and after.
pub fn make_demand<L>(
    alloc: Global,
    world: &mut World,
    judgement: &Judgement,
    mark: Sign,
    rule: &Rule,
    constants: &[Nominal],
    steps: &mut Steps<L>,
) -> Result<DemandTerm, AllocError>
    requires world { IsWorld world.old }
    requires judgement { IsTypedJudgement world.old judgement.now }
    requires rule { IsRuleFor world.old judgement.now rule.now }
    requires constants { names_read world.old.types constants.now ≡ constants_of (judgement_read world.old judgement.now) }
    requires constants_held { All (HoldsNominal world.old.types) constants.now }
    ensures made { IfOk result (IsDemanded world.old
        (demand_of (length world.old.store.cells) (sign_of mark) (judgement_read world.old judgement.now) (rule_read world.old rule.now)) world.new) }
    ensures grown { changed.Grows world.old.types world.old.store world.new.types world.new.store }
    ensures additions { world.new.additions ≡ world.old.additions }
    ensures grows { Grows world.old world.new }
    ensures steps { steps.old ≤ steps.new }
{
    let manner = Manner {
        sign: mark,
        cons: cons_of(alloc, world)?,
    };
    let list = judgement.context;
    let goal = judgement.goal;
    let opening = Opening { manner, list };
    match rule {
        Rule::Clause(clause) => {
            let goals = clause_goals(alloc, world, clause.body)?;
            clause_demand(
                alloc,
                &mut world.types,
                &mut world.store,
                opening,
                goal,
                clause,
                &goals,
                constants,
                steps,
            )
        }
        Rule::Item => {
            let words = words_of(alloc, world)?;
            let body = some_item_by(
                alloc,
                &world.types,
                &mut world.store,
                mark,
                words,
                list,
                goal,
            )?;
            Ok(body_alone(alloc, body))
        }
        Rule::Opening => {
            let body = open(alloc, &world.types, &mut world.store, manner, list, goal)?;
            Ok(body_alone(alloc, body))
        }
        Rule::Part(part) => part_demand(
            alloc,
            &mut world.types,
            &mut world.store,
            opening,
            goal,
            part,
            constants,
            steps,
        ),
    }
}
