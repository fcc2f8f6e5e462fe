//! What a clause of the program demands of a judgement, on shared terms.
ghost use Rattle.std.specs.Prelude.{◌≡◌, ◌≤◌, ℕ, List, [], map, length, codes, All, IfOk};
ghost use Rattle.ab_term.specs.Types.{o, olist};
ghost use Rattle.ab_term.specs.Terms.{Terms, constant, spine};
ghost use Rattle.ab_norm.specs.Nominals.{HoldsNominal};
ghost use Rattle.ab_norm.specs.ab_types.specs.Entries.{Table};
ghost use Rattle.ab_norm.specs.ab_store.specs.Trees.{Holds, HoldsCell, tree_of};
ghost use Rattle.ab_norm.specs.ab_store.specs.Naming.{IsTypedBy, IsTerm};
ghost use Rattle.ab_norm.specs.NodeGrowth.{AddsTypedTerms};
ghost use Rattle.ab_unifiers.specs.Alternatives.{arguments_equal};
ghost use Rattle.ab_unifiers.specs.Prefixes.{arguments_of};
ghost use Rattle.ab_unify.specs.StoreChanges.{Grows};
ghost use Rattle.ab_unify.specs.UnifyAnswers.{IsTypedPair};
ghost use Rattle.ab_typing.specs.DefinitionReadings.{clause_of};
ghost use Rattle.ab_formulas.specs.CaseClauses.{case_of};
ghost use Rattle.ab_formulas.specs.Programs.{goals_in};
ghost use Rattle.ab_logic.specs.Forms.{sign_of};
ghost use Rattle.ab_logic.specs.Worlds as worlds;
ghost use Rattle.ab_logic.specs.Worlds.{IsKeptProgramClause, variable_at};
ghost use Rattle.ab_theory.specs.Judgements as plain;
ghost use Rattle.ab_theory.specs.Judgements.{constants_of};
ghost use Rattle.ab_theory.specs.SpecRules.{by_clause, demand_of};
ghost use Rattle.ab_alternatives.specs.LeftAlternatives.{trees_from};
ghost use Rattle.ab_alternatives.specs.ab_instances.specs.ListReadings.{names_read};
ghost use Rattle.ab_judgement_forms.specs.ShapeReadings.{IsCons};
ghost use Rattle.ab_judgement_forms.specs.DemandWalks.{under_variables};
ghost use Rattle.ab_judgements.specs.DemandReadings.{IsDemandTerm};

use crate::demands::DemandTerm;
use ab_alternatives::equations_between;
use ab_alternatives::instances::make_over;
use ab_judgement_forms::{Opening, demand_body, put_over, sides_of, stand_ins, under_cells};
use ab_logic::{World, is_true};
use ab_norm::Nominal;
use ab_norm::store::{CellId, Equation, Node, Store, TermId};
use ab_norm::types::{Steps, TypeTable};
use ab_typing::ClauseTerm;
use std::alloc::{AllocError, Global};

/// The goal of a clause with the body, where it has one.
pub(crate) fn clause_goals(
    alloc: Global,
    world: &World,
    body: TermId,
) -> Result<Vec<TermId>, AllocError>
    requires { worlds.Holds world.now body }
    ensures held { IfOk result (λ list. All (worlds.Holds world.now) list.items) }
    ensures trees { IfOk result (λ list. map (worlds.read world.now) list.items ≡ goals_in (worlds.read world.now body)) }
{
    if is_true(world, body) {
        return Ok(Vec::new(alloc));
    }
    let goals = Vec::from_array(alloc, [body])?;
    Ok(goals)
}

/// The arguments of the goal with those of the atom, one against one.
fn argument_equations(
    alloc: Global,
    store: &Store,
    goal: TermId,
    atom: TermId,
) -> Result<Vec<Equation>, AllocError>
    requires goal { Holds store.now goal }
    requires atom { Holds store.now atom }
    ensures trees { IfOk result (λ list. (types : Table) → trees_from types store.now 0 list.items
        ≡ arguments_equal (codes "x") 0 (arguments_of (tree_of types store.now goal)) (arguments_of (tree_of types store.now atom))) }
    ensures held { IfOk result (λ list. All (λ e. Holds store.now e.left × Holds store.now e.right) list.items) }
{
    match store.view(goal) {
        Node::Lam(_, _, _) => Ok(Vec::new(alloc)),
        Node::Spine(_, left) => match store.view(atom) {
            Node::Lam(_, _, _) => Ok(Vec::new(alloc)),
            Node::Spine(_, right) => equations_between(alloc, left.as_slice(), right.as_slice()),
        },
    }
}

/// The goals, of which there is one at most, under binders for the cells.
fn scopes_over(
    alloc: Global,
    types: &TypeTable,
    store: &mut Store,
    cells: &[CellId],
    goals: &[TermId],
) -> Result<Vec<TermId>, AllocError>
    requires store { IsTypedBy types.now store.old }
    requires cells { All (HoldsCell store.old) cells.now }
    requires goals { All (Holds store.old) goals.now }
    ensures held { IfOk result (λ list. All (Holds store.new) list.items) }
    ensures trees { IfOk result (λ list. map (tree_of types.now store.new) list.items
        ≡ map (under_variables (map (variable_at types.now store.old) cells.now)) (map (tree_of types.now store.old) goals.now)) }
    ensures adds { AddsTypedTerms types.now store.old store.new }
{
    let mut list = Vec::new(alloc);
    for goal in goals {
        list.push(under_cells(alloc, types, store, cells, *goal)?)?;
    }
    Ok(list)
}

/// What the clause, whose goals these are, demands of the judgement of the list and the goal.
pub(crate) fn clause_demand<L>(
    alloc: Global,
    types: &mut TypeTable,
    store: &mut Store,
    opening: Opening,
    goal: TermId,
    clause: &ClauseTerm,
    goals: &[TermId],
    constants: &[Nominal],
    steps: &mut Steps<L>,
) -> Result<DemandTerm, AllocError>
    requires store { IsTypedBy types.old store.old }
    requires unbound { store.old.bindings ≡ [] }
    requires manner { IsCons types.old opening.manner.cons }
    requires list { IsTerm types.old store.old [] opening.list olist }
    requires goal { Holds store.old goal }
    requires clause { IsKeptProgramClause types.old store.old clause.now }
    requires goals_held { All (Holds store.old) goals.now }
    requires goals { map (tree_of types.old store.old) goals.now ≡ goals_in (tree_of types.old store.old clause.now.body) }
    requires constants_held { All (HoldsNominal types.old) constants.now }
    ensures grows { Grows types.old store.old types.new store.new }
    ensures unbound { store.new.bindings ≡ [] }
    ensures made { IfOk result (λ made. (j : plain.Judgement) → j.context ≡ tree_of types.old store.old opening.list → j.goal ≡ tree_of types.old store.old goal
        → constants_of j ≡ names_read types.old constants.now → IsDemandTerm types.old store.old
        (demand_of (length store.old.cells) (sign_of opening.manner.sign) j (by_clause (case_of (clause_of types.old store.old clause.now)))) types.new store.new made) }
    ensures steps { steps.old ≤ steps.new }
{
    let cells = clause.variables.as_slice();
    let sides = sides_of(alloc, store, clause.head, goals, cells)?;
    let over = make_over(alloc, types, store, &sides.own, constants)?;
    let names = stand_ins(alloc, types, store, cells, &sides, &over.terms)?;
    let scopes = scopes_over(alloc, types, store, cells, goals)?;
    let closed = sides.closed.as_slice();
    let body = demand_body(alloc, types, store, opening, closed, &names, &scopes, steps)?;
    let atom = put_over(alloc, types, store, cells, &names, clause.head, steps)?;
    let equations = argument_equations(alloc, store, goal, atom)?;
    Ok(DemandTerm {
        own: over.cells,
        equations,
        body,
    })
}
