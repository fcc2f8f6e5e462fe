//! Terms under binders for cells, and what takes the places of these.
ghost use Rattle.std.specs.Prelude.{◌≡◌, ◌≤◌, ◌++◌, map, length, drop, vec_len, All, IfOk, OnOk};
ghost use Rattle.ab_term.specs.Substitution.{instance_by_all};
ghost use Rattle.ab_term.specs.Abstraction as closing;
ghost use Rattle.ab_term.specs.Terms.{variable, lam};
ghost use Rattle.ab_norm.specs.ab_types.specs.Ids.{type_of};
ghost use Rattle.ab_norm.specs.ab_store.specs.Reading.{cell_variable};
ghost use Rattle.ab_norm.specs.ab_store.specs.Trees.{Holds, HoldsCell, cell_of, tree_of};
ghost use Rattle.ab_norm.specs.ab_store.specs.Naming.{IsTypedBy};
ghost use Rattle.ab_norm.specs.NodeGrowth.{AddsTypedTerms};
ghost use Rattle.ab_logic.specs.Worlds.{variable_at};
ghost use Rattle.ab_unify.specs.Problem.{cells_at};
ghost use Rattle.ab_judgement_forms.specs.DemandWalks.{under_variables, exists_names, trues, stand_ins};

use crate::goal_names::Sides;
use ab_norm::store::{CellId, Head, Logical, Store, TermId};
use ab_norm::types::laws::has_unique_ids;
use ab_norm::types::{Steps, TypeTable};
use ab_norm::{eta, instantiate};
use ab_patterns::close;
use std::alloc::{AllocError, Global};

/// The term under a binder for the cell.
fn under_cell(
    alloc: Global,
    types: &TypeTable,
    store: &mut Store,
    cell: CellId,
    term: TermId,
) -> Result<TermId, AllocError>
    requires store { IsTypedBy types.now store.old }
    requires cell { HoldsCell store.old cell }
    requires term { Holds store.old term }
    ensures held { IfOk result (λ r. Holds store.new r) }
    ensures tree { IfOk result (λ r. tree_of types.now store.new r ≡ lam (type_of types.now (cell_of store.old cell).ty) (cell_of store.old cell).hint
        (closing.close 0 (variable (cell_variable types.now store.old cell)) (tree_of types.now store.old term))) }
    ensures adds { AddsTypedTerms types.now store.old store.new }
{
    let ty = store.cell_type(cell);
    let hint = store.cell_name(cell).copy(alloc)?;
    has_unique_ids(types);
    let closed = close(alloc, store, Head::Cell(cell), term)?;
    store.lam(ty, hint, closed)
}

/// The term under a binder for each of the cells, the first outermost.
pub fn under_cells(
    alloc: Global,
    types: &TypeTable,
    store: &mut Store,
    cells: &[CellId],
    term: TermId,
) -> Result<TermId, AllocError>
    requires store { IsTypedBy types.now store.old }
    requires cells { All (HoldsCell store.old) cells.now }
    requires term { Holds store.old term }
    ensures held { IfOk result (λ r. Holds store.new r) }
    ensures tree { IfOk result (λ r. tree_of types.now store.new r ≡ under_variables (map (variable_at types.now store.old) cells.now) (tree_of types.now store.old term)) }
    ensures adds { AddsTypedTerms types.now store.old store.new }
{
    match cells {
        [] => Ok(term),
        [first, rest @ ..] => {
            let inner = under_cells(alloc, types, store, rest, term)?;
            under_cell(alloc, types, store, *first, inner)
        }
    }
}

/// The formula under `exists` for each of the cells, the first outermost. Their names stand in it as bound names.
pub(crate) fn exists_cells(
    alloc: Global,
    types: &TypeTable,
    store: &mut Store,
    cells: &[CellId],
    body: TermId,
) -> Result<TermId, AllocError>
    requires store { IsTypedBy types.now store.old }
    requires cells { All (HoldsCell store.old) cells.now }
    requires body { Holds store.old body }
    ensures held { IfOk result (λ r. Holds store.new r) }
    ensures tree { IfOk result (λ r. tree_of types.now store.new r ≡ exists_names (cells_at types.now store.old cells.now) (tree_of types.now store.old body)) }
    ensures adds { AddsTypedTerms types.now store.old store.new }
{
    match cells {
        [] => Ok(body),
        [first, rest @ ..] => {
            let inner = exists_cells(alloc, types, store, rest, body)?;
            let ty = store.cell_type(*first);
            let hint = store.cell_name(*first).copy(alloc)?;
            let abstraction = store.lam(ty, hint, inner)?;
            let args = Vec::from_array(alloc, [abstraction])?;
            store.spine(Head::Logic(Logical::Exists(ty)), args)
        }
    }
}

/// Puts behind the list what takes the places of the cells from this place on: of those that are closed the names that `exists`
/// binds, of which so many are left, and of the others the terms from the next on.
fn add_stand_ins(
    alloc: Global,
    types: &TypeTable,
    store: &mut Store,
    cells: &[CellId],
    closed: &[bool],
    place: usize,
    left: usize,
    terms: &[TermId],
    next: usize,
    list: &mut Vec<TermId>,
) -> Result<(), AllocError>
    requires store { IsTypedBy types.now store.old }
    requires cells { All (HoldsCell store.old) cells.now }
    requires long { length closed.now ≡ length cells.now }
    requires left { left ≡ trues (drop place closed.now) }
    requires terms { All (Holds store.old) terms.now }
    requires list { All (Holds store.old) list.old.items }
    ensures held { OnOk result (All (Holds store.new) list.new.items) }
    ensures trees { OnOk result (map (tree_of types.now store.new) list.new.items ≡ map (tree_of types.now store.old) list.old.items
        ++ stand_ins (drop place closed.now) (drop place (cells_at types.now store.old cells.now)) (drop next (map (tree_of types.now store.old) terms.now))) }
    ensures adds { AddsTypedTerms types.now store.old store.new }
{
    if place >= cells.len() {
        return Ok(());
    }
    let behind = place + 1;
    if closed[place] {
        let left = left - 1;
        let ty = store.cell_type(cells[place]);
        let name = eta(alloc, types, store, Head::Index(left), ty)?;
        list.push(name)?;
        return add_stand_ins(
            alloc, types, store, cells, closed, behind, left, terms, next, list,
        );
    }
    if next >= terms.len() {
        return Ok(());
    }
    list.push(terms[next])?;
    add_stand_ins(
        alloc,
        types,
        store,
        cells,
        closed,
        behind,
        left,
        terms,
        next + 1,
        list,
    )
}

/// What takes the places of the cells: of those that stand in goals alone the names that `exists` binds, of the others these
/// terms.
pub fn stand_ins(
    alloc: Global,
    types: &TypeTable,
    store: &mut Store,
    cells: &[CellId],
    sides: &Sides,
    terms: &[TermId],
) -> Result<Vec<TermId>, AllocError>
    requires store { IsTypedBy types.now store.old }
    requires cells { All (HoldsCell store.old) cells.now }
    requires long { length sides.now.alone.items ≡ length cells.now }
    requires count { vec_len sides.now.closed ≡ trues sides.now.alone.items }
    requires terms { All (Holds store.old) terms.now }
    ensures held { IfOk result (λ list. All (Holds store.new) list.items) }
    ensures trees { IfOk result (λ list. map (tree_of types.now store.new) list.items
        ≡ stand_ins sides.now.alone.items (cells_at types.now store.old cells.now) (map (tree_of types.now store.old) terms.now)) }
    ensures adds { AddsTypedTerms types.now store.old store.new }
{
    let mut list = Vec::new(alloc);
    let left = sides.closed.len();
    let closed = sides.alone.as_slice();
    add_stand_ins(
        alloc, types, store, cells, closed, 0, left, terms, 0, &mut list,
    )?;
    Ok(list)
}

/// The term with the others in the places of the cells.
pub fn put_over<L>(
    alloc: Global,
    types: &TypeTable,
    store: &mut Store,
    cells: &[CellId],
    terms: &[TermId],
    term: TermId,
    steps: &mut Steps<L>,
) -> Result<TermId, AllocError>
    requires store { IsTypedBy types.now store.old }
    requires cells { All (HoldsCell store.old) cells.now }
    requires terms { All (Holds store.old) terms.now }
    requires term { Holds store.old term }
    ensures held { IfOk result (λ r. Holds store.new r) }
    ensures tree { IfOk result (λ r. tree_of types.now store.new r
        ≡ instance_by_all (under_variables (map (variable_at types.now store.old) cells.now) (tree_of types.now store.old term)) (map (tree_of types.now store.old) terms.now)) }
    ensures adds { AddsTypedTerms types.now store.old store.new }
    ensures steps { steps.old ≤ steps.new }
{
    let scope = under_cells(alloc, types, store, cells, term)?;
    instantiate(alloc, types, store, scope, terms, steps)
}
