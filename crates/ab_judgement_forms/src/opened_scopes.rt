//! Goals that stand under binders are opened with what takes the places of the names.
ghost use Rattle.std.specs.Prelude.{◌≡◌, ◌≤◌, map, if◌then◌else◌, All, IfOk};
ghost use Rattle.ab_term.specs.Substitution.{instance_by_all};
ghost use Rattle.ab_norm.specs.ab_store.specs.Trees.{Holds, HoldsCell, tree_of};
ghost use Rattle.ab_norm.specs.ab_store.specs.Naming.{IsTypedBy};
ghost use Rattle.ab_norm.specs.NodeGrowth.{AddsTypedTerms};
ghost use Rattle.ab_unify.specs.Problem.{cells_at};
ghost use Rattle.ab_logic.specs.Forms.{sign_of};
ghost use Rattle.ab_theory.specs.Opening.{both, open_goal, conjunction_of};
ghost use Rattle.ab_judgement_forms.specs.ShapeReadings.{IsCons};
ghost use Rattle.ab_judgement_forms.specs.DemandWalks.{exists_names};

use crate::named_scopes::exists_cells;
use crate::opened_goals::{Manner, between, open};
use ab_norm::instantiate;
use ab_norm::store::{CellId, Head, Logical, Store, TermId};
use ab_norm::types::{Steps, TypeTable};
use std::alloc::{AllocError, Global};

/// How goals are opened: in which manner, and in which list.
#[derive(Clone, Copy)]
pub struct Opening {
    pub manner: Manner,
    pub list: TermId,
}

/// The goal that stands under binders, with these terms in the places of their names, opened.
fn opened_scope<L>(
    alloc: Global,
    types: &TypeTable,
    store: &mut Store,
    opening: Opening,
    names: &[TermId],
    scope: TermId,
    steps: &mut Steps<L>,
) -> Result<TermId, AllocError>
    requires store { IsTypedBy types.now store.old }
    requires manner { IsCons types.now opening.manner.cons }
    requires list { Holds store.old opening.list }
    requires names { All (Holds store.old) names.now }
    requires scope { Holds store.old scope }
    ensures held { IfOk result (λ r. Holds store.new r) }
    ensures tree { IfOk result (λ r. tree_of types.now store.new r ≡ open_goal (sign_of opening.manner.sign) (tree_of types.now store.old opening.list)
        (instance_by_all (tree_of types.now store.old scope) (map (tree_of types.now store.old) names.now))) }
    ensures adds { AddsTypedTerms types.now store.old store.new }
    ensures steps { steps.old ≤ steps.new }
{
    let goal = instantiate(alloc, types, store, scope, names, steps)?;
    open(alloc, types, store, opening.manner, opening.list, goal)
}

/// The formula and the opened goal as one; the goal alone, where it is the first.
fn join_goals(
    alloc: Global,
    types: &TypeTable,
    store: &mut Store,
    is_first: bool,
    formula: TermId,
    opened: TermId,
) -> Result<TermId, AllocError>
    requires store { IsTypedBy types.now store.old }
    requires formula { Holds store.old formula }
    requires opened { Holds store.old opened }
    ensures held { IfOk result (λ r. Holds store.new r) }
    ensures tree { IfOk result (λ r. tree_of types.now store.new r
        ≡ (if is_first then tree_of types.now store.old opened else both (tree_of types.now store.old formula) (tree_of types.now store.old opened))) }
    ensures adds { AddsTypedTerms types.now store.old store.new }
{
    if is_first {
        return Ok(opened);
    }
    let and = Head::Logic(Logical::And);
    between(alloc, types, store, and, formula, opened)
}

/// The goals, opened, as one formula; `true` where there is none.
fn opened_all<L>(
    alloc: Global,
    types: &TypeTable,
    store: &mut Store,
    opening: Opening,
    names: &[TermId],
    scopes: &[TermId],
    steps: &mut Steps<L>,
) -> Result<TermId, AllocError>
    requires store { IsTypedBy types.now store.old }
    requires manner { IsCons types.now opening.manner.cons }
    requires list { Holds store.old opening.list }
    requires names { All (Holds store.old) names.now }
    requires scopes { All (Holds store.old) scopes.now }
    ensures held { IfOk result (λ r. Holds store.new r) }
    ensures tree { IfOk result (λ r. tree_of types.now store.new r ≡ conjunction_of
        (map (λ s. open_goal (sign_of opening.manner.sign) (tree_of types.now store.old opening.list)
        (instance_by_all s (map (tree_of types.now store.old) names.now))) (map (tree_of types.now store.old) scopes.now))) }
    ensures adds { AddsTypedTerms types.now store.old store.new }
    ensures steps { steps.old ≤ steps.new }
{
    let mut formula = store.spine(Head::Logic(Logical::True), Vec::new(alloc))?;
    for i in 0..scopes.len() {
        let opened = opened_scope(alloc, types, store, opening, names, scopes[i], steps)?;
        formula = join_goals(alloc, types, store, i == 0, formula, opened)?;
    }
    Ok(formula)
}

/// The body of a demand: the goals, which stand under binders, with these terms in the places of their names, opened, and closed
/// by `exists` for the cells, whose names the terms hold as bound names.
pub fn demand_body<L>(
    alloc: Global,
    types: &TypeTable,
    store: &mut Store,
    opening: Opening,
    closed: &[CellId],
    names: &[TermId],
    scopes: &[TermId],
    steps: &mut Steps<L>,
) -> Result<TermId, AllocError>
    requires store { IsTypedBy types.now store.old }
    requires manner { IsCons types.now opening.manner.cons }
    requires list { Holds store.old opening.list }
    requires closed { All (HoldsCell store.old) closed.now }
    requires names { All (Holds store.old) names.now }
    requires scopes { All (Holds store.old) scopes.now }
    ensures held { IfOk result (λ r. Holds store.new r) }
    ensures tree { IfOk result (λ r. tree_of types.now store.new r ≡ exists_names (cells_at types.now store.old closed.now) (conjunction_of
        (map (λ s. open_goal (sign_of opening.manner.sign) (tree_of types.now store.old opening.list)
        (instance_by_all s (map (tree_of types.now store.old) names.now))) (map (tree_of types.now store.old) scopes.now)))) }
    ensures adds { AddsTypedTerms types.now store.old store.new }
    ensures steps { steps.old ≤ steps.new }
{
    let opened = opened_all(alloc, types, store, opening, names, scopes, steps)?;
    exists_cells(alloc, types, store, closed, opened)
}
