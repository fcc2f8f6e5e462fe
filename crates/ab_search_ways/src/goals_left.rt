//! What is left once the sides of a way are made equal: the cells that are unbound, and goals with what cells are bound to in
//! their places. Goals that wait and that no binding touches are shared.
ghost use Rattle.std.specs.Prelude.{◌≡◌, ◌≤◌, ◌++◌, [], List, map, drop, length, false, All, IfOk, OnOk};
ghost use Rattle.ab_term.specs.Types.{prop};
ghost use Rattle.ab_term.specs.Terms.{Read};
ghost use Rattle.ab_norm.specs.ab_types.specs.Entries.{Table};
ghost use Rattle.ab_norm.specs.ab_store.specs.Trees.{HoldsCell, tree_of};
ghost use Rattle.ab_norm.specs.ab_store.specs.Reading.{reading};
ghost use Rattle.ab_norm.specs.ab_store.specs.Naming.{IsTypedBy, IsTerm};
ghost use Rattle.ab_norm.specs.NodeGrowth.{AddsTypedTerms};
ghost use Rattle.ab_search_ways.specs.Answers.{HoldsValue, IsAnswerFor};
ghost use Rattle.ab_search_ways.specs.GoalReadings.{goal_by, IsTypedGoal};
ghost use Rattle.ab_search_ways.specs.GoalsLeft.{IsResolved, IsUntouched, unbound_in};

use crate::goal::Goal;
use crate::goal_lists::Goals;
use crate::way::Value;
use ab_norm::copy_resolved;
use ab_norm::store::{CellId, Store, TermId};
use ab_norm::types::{Steps, TypeTable};
use std::alloc::{AllocError, Global};

/// Adds those of the cells that are bound to nothing, in their order.
pub(crate) fn add_unbound(
    store: &Store,
    cells: &[CellId],
    kept: &mut Vec<CellId>,
) -> Result<(), AllocError>
    requires { All (HoldsCell store.now) cells.now }
    ensures { OnOk result (kept.new.items ≡ kept.old.items ++ unbound_in store.now cells.now) }
{
    for cell in cells {
        if store.binding(*cell).is_none() {
            kept.push(*cell)?;
        }
    }
    Ok(())
}

/// The formulas, with what cells are bound to in their places.
fn resolved_terms<L>(
    alloc: Global,
    types: &TypeTable,
    store: &mut Store,
    ids: &[TermId],
    steps: &mut Steps<L>,
) -> Result<Vec<TermId>, AllocError>
    requires store { IsTypedBy types.now store.old }
    requires ids { All (λ t. IsTerm types.now store.old [] t prop) ids.now }
    ensures reads { IfOk result (λ list. map (tree_of types.now store.new) list.items ≡ map (reading types.now store.old) ids.now) }
    ensures typed { IfOk result (λ list. All (λ t. IsTerm types.now store.new [] t prop) list.items) }
    ensures adds { AddsTypedTerms types.now store.old store.new }
    ensures steps { steps.old ≤ steps.new }
{
    let mut list = Vec::new(alloc);
    for id in ids {
        list.push(copy_resolved(alloc, types, store, *id, steps)?)?;
    }
    Ok(list)
}

/// The goal, with what cells are bound to in their places.
fn resolved_goal<L>(
    alloc: Global,
    types: &TypeTable,
    store: &mut Store,
    goal: &Goal,
    steps: &mut Steps<L>,
) -> Result<Goal, AllocError>
    requires store { IsTypedBy types.now store.old }
    requires goal { IsTypedGoal types.now store.old goal.now }
    ensures reads { IfOk result (λ g. (before : List Read) → goal_by (tree_of types.now store.new) types.now before g ≡ goal_by (reading types.now store.old) types.now before goal.now) }
    ensures typed { IfOk result (λ g. IsTypedGoal types.now store.new g) }
    ensures names { IfOk result (λ g. g.constants.items ≡ goal.now.constants.items) }
    ensures adds { AddsTypedTerms types.now store.old store.new }
    ensures steps { steps.old ≤ steps.new }
{
    let added = resolved_terms(alloc, types, store, &goal.added, steps)?;
    let conclusion = copy_resolved(alloc, types, store, goal.conclusion, steps)?;
    Ok(Goal {
        added,
        conclusion,
        depth: goal.depth,
        constants: Vec::from_slice(alloc, &goal.constants)?,
        untouched: goal.untouched,
        layers: goal.layers,
        member_first: goal.member_first,
    })
}

/// Adds the goals, with what cells are bound to in their places.
pub(crate) fn add_resolved<L>(
    alloc: Global,
    types: &TypeTable,
    store: &mut Store,
    goals: &[Goal],
    list: &mut Vec<Goal>,
    steps: &mut Steps<L>,
) -> Result<(), AllocError>
    requires store { IsTypedBy types.now store.old }
    requires goals { All (IsTypedGoal types.now store.old) goals.now }
    requires list { All (IsTypedGoal types.now store.old) list.old.items }
    ensures resolved { OnOk result (IsResolved types.now store.old store.new list.old.items goals.now list.new.items) }
    ensures adds { AddsTypedTerms types.now store.old store.new }
    ensures steps { steps.old ≤ steps.new }
{
    for goal in goals {
        let made = resolved_goal(alloc, types, store, goal, steps)?;
        list.push(made)?;
    }
    Ok(())
}

/// Whether a bound cell may stand in what the goal says. False only where none does.
fn is_touched(store: &Store, goal: &Goal) -> bool
    requires goal { (types : Table) × IsTypedGoal types store.now goal.now }
    ensures { result ≡ false → (types : Table) → IsUntouched types store.now goal.now }
{
    for id in &goal.added {
        if store.has_bound_cells(*id) {
            return true;
        }
    }
    store.has_bound_cells(goal.conclusion)
}

/// So many of the goals come up to the last in which a bound cell may stand.
fn count_touched(store: &Store, goals: &Goals) -> Result<usize, AllocError>
    requires goals { (types : Table) × All (IsTypedGoal types store.now) goals.now }
    ensures within { IfOk result (λ n. n ≤ length goals.now) }
    ensures behind { IfOk result (λ n. (types : Table) → All (IsUntouched types store.now) (drop n goals.now)) }
{
    if !store.has_bindings() {
        return Ok(0);
    }
    let mut left = goals;
    let mut number: usize = 0;
    let mut count: usize = 0;
    while let Some((goal, behind)) = left.split_first() {
        let Some(next) = number.checked_add(1) else {
            return Err(AllocError);
        };
        number = next;
        if is_touched(store, goal) {
            count = number;
        }
        left = behind;
    }
    Ok(count)
}

/// Adds the goals, with what cells are bound to in their places, up to the last in which a bound cell may stand; and tells those
/// behind it, which stay as they are.
pub(crate) fn add_touched<L>(
    alloc: Global,
    types: &TypeTable,
    store: &mut Store,
    goals: &Goals,
    list: &mut Vec<Goal>,
    steps: &mut Steps<L>,
) -> Result<Goals, AllocError>
    requires store { IsTypedBy types.now store.old }
    requires goals { All (IsTypedGoal types.now store.old) goals.now }
    requires list { All (IsTypedGoal types.now store.old) list.old.items }
    ensures resolved { IfOk result (λ kept. IsResolved types.now store.old store.new list.old.items goals.now (list.new.items ++ kept)) }
    ensures adds { AddsTypedTerms types.now store.old store.new }
    ensures steps { steps.old ≤ steps.new }
{
    let count = count_touched(store, goals)?;
    let mut left = goals;
    'touched: for _i in 0..count {
        let Some((goal, behind)) = left.split_first() else {
            unreachable!();
        };
        list.push(resolved_goal(alloc, types, store, goal, steps)?)?;
        left = behind;
    }
    left.share()
}

/// What the cell is bound to, if anything, with what cells in it are bound to in their places.
fn value_of<L>(
    alloc: Global,
    types: &TypeTable,
    store: &mut Store,
    cell: CellId,
    steps: &mut Steps<L>,
) -> Result<Value, AllocError>
    requires store { IsTypedBy types.now store.old }
    requires cell { HoldsCell store.old cell }
    ensures cell { IfOk result (λ v. v.cell ≡ cell) }
    ensures held { IfOk result (HoldsValue types.now store.new) }
    ensures adds { AddsTypedTerms types.now store.old store.new }
    ensures steps { steps.old ≤ steps.new }
{
    let Some(bound) = store.binding(cell) else {
        return Ok(Value { cell, term: None });
    };
    let term = copy_resolved(alloc, types, store, bound, steps)?;
    Ok(Value {
        cell,
        term: Some(term),
    })
}

/// What the cells are bound to, with what cells in it are bound to in their places.
pub(crate) fn values_of<L>(
    alloc: Global,
    types: &TypeTable,
    store: &mut Store,
    cells: &[CellId],
    steps: &mut Steps<L>,
) -> Result<Vec<Value>, AllocError>
    requires store { IsTypedBy types.now store.old }
    requires cells { All (HoldsCell store.old) cells.now }
    ensures answer { IfOk result (λ list. IsAnswerFor types.now store.new cells.now list.items) }
    ensures adds { AddsTypedTerms types.now store.old store.new }
    ensures steps { steps.old ≤ steps.new }
{
    let mut list = Vec::new(alloc);
    for cell in cells {
        list.push(value_of(alloc, types, store, *cell, steps)?)?;
    }
    Ok(list)
}
