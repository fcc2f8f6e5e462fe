//! The values of an answer: what each place of the path put in, one after another, and constants for what is left open.
ghost use Rattle.std.specs.Prelude.{◌≤◌, All, IfOk, OnOk};
ghost use Rattle.ab_norm.specs.ab_store.specs.Trees.{Contents, HoldsCell};
ghost use Rattle.ab_norm.specs.ab_store.specs.Naming.{IsTypedBy};
ghost use Rattle.ab_norm.specs.Nominals.{HoldsNominal};
ghost use Rattle.ab_unify.specs.StoreChanges.{Grows};
ghost use Rattle.ab_walk.specs.ab_next_ways.specs.ab_search_ways.specs.Answers.{HoldsPlace};
ghost use Rattle.ab_search_paths.specs.Frames.{HoldsPath};

use crate::bound_cells::bind_cell;
use ab_norm::store::{CellId, Head, Store};
use ab_norm::types::{Steps, TypeTable};
use ab_norm::{Nominal, eta};
use ab_walk::Frame;
use ab_walk::next_ways::judgements::alternatives::instances::outside;
use ab_walk::next_ways::ways::{Place, new_constant};
use std::alloc::{AllocError, Global};

/// The constants that a goal on the path holds.
fn held_constants(
    alloc: Global,
    types: &TypeTable,
    path: &[Frame],
) -> Result<Vec<Nominal>, AllocError>
    requires path { (store : Contents) × HoldsPath types.now store path.now }
    ensures { IfOk result (λ held. All (HoldsNominal types.now) held.items) }
{
    let mut held = Vec::new(alloc);
    for frame in path {
        if let Some(goal) = frame.place.goals.first() {
            let more = outside(alloc, types, &goal.constants, &held)?;
            held.extend_from_slice(&more)?;
        }
    }
    Ok(held)
}

/// Binds the cells that the way to the place put something in for.
fn bind_answer<L>(
    alloc: Global,
    types: &TypeTable,
    store: &mut Store,
    place: &Place,
    steps: &mut Steps<L>,
) -> Result<(), AllocError>
    requires store { IsTypedBy types.now store.old }
    requires place { HoldsPlace types.now store.old place.now }
    ensures grows { Grows types.now store.old types.now store.new }
    ensures steps { steps.old ≤ steps.new }
{
    for value in place.answer.as_slice() {
        if let Some(term) = value.term {
            bind_cell(alloc, types, store, value.cell, term, steps)?;
        }
    }
    Ok(())
}

/// Binds the cells that the ways of the path put something in for, in its order.
fn bind_answers<L>(
    alloc: Global,
    types: &TypeTable,
    store: &mut Store,
    path: &[Frame],
    steps: &mut Steps<L>,
) -> Result<(), AllocError>
    requires store { IsTypedBy types.now store.old }
    requires path { HoldsPath types.now store.old path.now }
    ensures grows { Grows types.now store.old types.now store.new }
    ensures steps { steps.old ≤ steps.new }
{
    for frame in path {
        bind_answer(alloc, types, store, &frame.place, steps)?;
    }
    Ok(())
}

/// Binds the cell to a constant of the least number that none of these has, and adds that to them.
fn fill<L>(
    alloc: Global,
    types: &TypeTable,
    store: &mut Store,
    cell: CellId,
    held: &mut Vec<Nominal>,
    steps: &mut Steps<L>,
) -> Result<(), AllocError>
    requires store { IsTypedBy types.now store.old }
    requires cell { HoldsCell store.old cell }
    requires held { All (HoldsNominal types.now) held.old.items }
    ensures held { OnOk result (All (HoldsNominal types.now) held.new.items) }
    ensures grows { Grows types.now store.old types.now store.new }
    ensures steps { steps.old ≤ steps.new }
{
    let ty = store.cell_type(cell);
    let a = new_constant(alloc, types, held, ty)?;
    held.push(a)?;
    let head = Head::Nominal(a.number, a.ty);
    let term = eta(alloc, types, store, head, ty)?;
    bind_cell(alloc, types, store, cell, term, steps)
}

/// Binds the cells that are left open, in order of age, each to a constant of the least number that no goal on the path holds.
fn fill_all<L>(
    alloc: Global,
    types: &TypeTable,
    store: &mut Store,
    left_open: &[CellId],
    held: Vec<Nominal>,
    steps: &mut Steps<L>,
) -> Result<(), AllocError>
    requires store { IsTypedBy types.now store.old }
    requires left_open { All (HoldsCell store.old) left_open.now }
    requires held { All (HoldsNominal types.now) held.items }
    ensures grows { Grows types.now store.old types.now store.new }
    ensures steps { steps.old ≤ steps.new }
{
    let mut held = held;
    for cell in left_open {
        fill(alloc, types, store, *cell, &mut held, steps)?;
    }
    Ok(())
}

/// Binds each cell of the search to its value.
pub(crate) fn bind_values<L>(
    alloc: Global,
    types: &TypeTable,
    store: &mut Store,
    path: &[Frame],
    steps: &mut Steps<L>,
) -> Result<(), AllocError>
    requires store { IsTypedBy types.now store.old }
    requires path { HoldsPath types.now store.old path.now }
    ensures grows { Grows types.now store.old types.now store.new }
    ensures steps { steps.old ≤ steps.new }
{
    bind_answers(alloc, types, store, path, steps)?;
    let Some(last) = path.last() else {
        return Ok(());
    };
    let held = held_constants(alloc, types, path)?;
    fill_all(alloc, types, store, &last.place.flexible, held, steps)
}
