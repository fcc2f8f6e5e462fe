//! A cell that is given names, and what is put in for it so that, given names, it is a certain term.
ghost use Rattle.std.specs.Prelude.{◌≡◌, ◌++◌, map, All, IfOk, OnOk, codes};
ghost use Rattle.ab_norm.specs.ab_types.specs.Ids.{HoldsType, type_of};
ghost use Rattle.ab_norm.specs.ab_store.specs.Trees.{Holds, HoldsCell, tree_of, head_reading};
ghost use Rattle.ab_norm.specs.ab_store.specs.Reading.{cell_variable};
ghost use Rattle.ab_norm.specs.ab_store.specs.Naming.{HoldsHead, HeadIsTyped, IsTypedBy};
ghost use Rattle.ab_norm.specs.NodeGrowth.{AddsTypedTerms};
ghost use Rattle.ab_unifiers.specs.Patterns as solve;
ghost use Rattle.ab_patterns.specs.ArgumentNames.{name_list};

use crate::abstraction::abstract_over;
use ab_norm::eta;
use ab_norm::store::{CellId, Head, Store, TermId};
use ab_norm::types::{TypeId, TypeTable, TypeView};
use std::alloc::{AllocError, Global};

/// Adds the heads whose flag is set.
pub fn keep_heads(heads: &[Head], keep: &[bool], into: &mut Vec<Head>) -> Result<(), AllocError>
    ensures { OnOk result (into.new.items ≡ into.old.items ++ solve.kept keep.now heads.now) }
{
    for place in 0..heads.len().min(keep.len()) {
        if !keep[place] {
            continue;
        }
        into.push(heads[place])?;
    }
    Ok(())
}

/// The cell, given the names.
pub fn apply_cell(
    alloc: Global,
    types: &TypeTable,
    store: &mut Store,
    cell: CellId,
    names: &[Head],
) -> Result<TermId, AllocError>
    requires store { IsTypedBy types.now store.old }
    requires cell { HoldsCell store.old cell }
    requires names { All (HoldsHead store.old) names.now }
    requires typed_names { All (HeadIsTyped types.now) names.now }
    ensures held { IfOk result (λ r. Holds store.new r) }
    ensures reads { IfOk result (λ r. tree_of types.now store.new r
        ≡ solve.applied (codes "x") (cell_variable types.now store.old cell) (map (head_reading types.now store.old) names.now)) }
    ensures adds { AddsTypedTerms types.now store.old store.new }
{
    let ty = store.cell_type(cell);
    let mut args = Vec::new(alloc);
    give_names(alloc, types, store, ty, names, &mut args)?;
    store.spine(Head::Cell(cell), args)
}

/// What is put in for the cell, so that, given the names, it is the term.
pub fn value(
    alloc: Global,
    types: &TypeTable,
    store: &mut Store,
    cell: CellId,
    names: &[Head],
    term: TermId,
) -> Result<TermId, AllocError>
    requires store { IsTypedBy types.now store.old }
    requires cell { HoldsCell store.old cell }
    requires names { All (HeadIsTyped types.now) names.now }
    requires term { Holds store.old term }
    ensures held { IfOk result (λ r. Holds store.new r) }
    ensures reads { IfOk result (λ r. tree_of types.now store.new r
        ≡ solve.value (codes "x") (cell_variable types.now store.old cell) (map (head_reading types.now store.old) names.now) (tree_of types.now store.old term)) }
    ensures adds { AddsTypedTerms types.now store.old store.new }
{
    let ty = store.cell_type(cell);
    abstract_over(alloc, types, store, ty, names, term)
}

/// Adds the names, as arguments for something of this type.
fn give_names(
    alloc: Global,
    types: &TypeTable,
    store: &mut Store,
    ty: TypeId,
    names: &[Head],
    into: &mut Vec<TermId>,
) -> Result<(), AllocError>
    requires store { IsTypedBy types.now store.old }
    requires ty { HoldsType types.now ty }
    requires names { All (HoldsHead store.old) names.now }
    requires typed_names { All (HeadIsTyped types.now) names.now }
    requires into { All (Holds store.old) into.old.items }
    ensures adds { AddsTypedTerms types.now store.old store.new }
    ensures held { OnOk result (All (Holds store.new) into.new.items) }
    ensures reads { OnOk result (map (tree_of types.now store.new) into.new.items
        ≡ map (tree_of types.now store.old) into.old.items ++ name_list (codes "x") (type_of types.now ty) (map (head_reading types.now store.old) names.now)) }
{
    let mut left = ty;
    for name in names {
        match types.view(left) {
            TypeView::Base(_) => return Ok(()),
            TypeView::Arrow(from, to) => {
                into.push(eta(alloc, types, store, *name, from)?)?;
                left = to;
            }
        }
    }
    Ok(())
}
