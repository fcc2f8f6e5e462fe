//! What is left of a formula that is used, and which new variables stand in it.
ghost use Rattle.std.specs.Prelude.{◌≡◌, ◌≤◌, ◌∷◌, ◌++◌, [], List, map, filter, length, All, IfOk, OnOk, Ok, Some, None};
ghost use Rattle.ab_norm.specs.ab_types.specs.Entries.{Table};
ghost use Rattle.ab_norm.specs.ab_store.specs.declared.node.CellId.{CellId as ACell};
ghost use Rattle.ab_norm.specs.ab_store.specs.Trees.{Holds, HoldsCell, tree_of};
ghost use Rattle.ab_norm.specs.ab_store.specs.Reading.{reading};
ghost use Rattle.ab_norm.specs.ab_store.specs.Naming.{IsTypedBy};
ghost use Rattle.ab_norm.specs.NodeGrowth.{AddsTypedTerms};
ghost use Rattle.ab_uses.specs.UseSolutions.{missing, stands_in, is_open};

use ab_norm::copy_resolved;
use ab_norm::store::{CellId, Store, TermId};
use ab_norm::types::{Steps, TypeTable};
use ab_patterns::occurs;
use std::alloc::{AllocError, Global};

/// Puts the antecedent behind the others, where nothing is given for it.
fn add_missing(
    list: &mut Vec<TermId>,
    given: Option<TermId>,
    antecedent: TermId,
) -> Result<(), AllocError>
    ensures { OnOk result (list.new.items ≡ list.old.items ++ missing (given ∷ []) (antecedent ∷ [])) }
{
    match given {
        Some(_) => Ok(()),
        None => {
            list.push(antecedent)?;
            Ok(())
        }
    }
}

/// The antecedents for which nothing is given.
pub(crate) fn awaited_of(
    alloc: Global,
    hypotheses: &[Option<TermId>],
    antecedents: &[TermId],
) -> Result<Vec<TermId>, AllocError>
    requires { length hypotheses.now ≤ length antecedents.now }
    ensures { IfOk result (λ list. list.items ≡ missing hypotheses.now antecedents.now) }
{
    let mut list = Vec::new(alloc);
    for place in 0..hypotheses.len() {
        add_missing(&mut list, hypotheses[place], antecedents[place])?;
    }
    Ok(list)
}

/// The terms, with what cells are bound to in their places.
pub(crate) fn resolve_all<L>(
    alloc: Global,
    types: &TypeTable,
    store: &mut Store,
    terms: &[TermId],
    steps: &mut Steps<L>,
) -> Result<Vec<TermId>, AllocError>
    requires store { IsTypedBy types.now store.old }
    requires terms { All (Holds store.old) terms.now }
    ensures trees { IfOk result (λ list. map (tree_of types.now store.new) list.items ≡ map (reading types.now store.old) terms.now) }
    ensures held { IfOk result (λ list. All (Holds store.new) list.items) }
    ensures adds { AddsTypedTerms types.now store.old store.new }
    ensures steps { steps.old ≤ steps.new }
{
    let mut list = Vec::new(alloc);
    for term in terms {
        list.push(copy_resolved(alloc, types, store, *term, steps)?)?;
    }
    Ok(list)
}

/// Whether the cell stands in one of the terms.
fn stands(alloc: Global, store: &Store, cell: CellId, terms: &[TermId]) -> Result<bool, AllocError>
    requires { All (Holds store.now) terms.now }
    ensures { IfOk result (λ r. (types : Table) → r ≡ stands_in types store.now terms.now cell) }
{
    for term in terms {
        if occurs(alloc, store, cell, *term)? {
            return Ok(true);
        }
    }
    Ok(false)
}

/// Whether the cell is bound to nothing and stands in one of the terms.
fn is_left_open(
    alloc: Global,
    store: &Store,
    cell: CellId,
    terms: &[TermId],
) -> Result<bool, AllocError>
    requires cell { HoldsCell store.now cell }
    requires terms { All (Holds store.now) terms.now }
    ensures { IfOk result (λ r. (types : Table) → r ≡ is_open types store.now terms.now cell) }
{
    if store.binding(cell).is_some() {
        return Ok(false);
    }
    stands(alloc, store, cell, terms)
}

/// The first of the cells that is bound to nothing and stands in one of the terms.
pub(crate) fn first_open(
    alloc: Global,
    store: &Store,
    cells: &[CellId],
    terms: &[TermId],
) -> Result<Option<CellId>, AllocError>
    requires cells { All (HoldsCell store.now) cells.now }
    requires terms { All (Holds store.now) terms.now }
    ensures none { result ≡ Ok None → (types : Table) → filter (is_open types store.now terms.now) cells.now ≡ [] }
    ensures some { (c : ACell) → result ≡ Ok (Some c) → (types : Table) → (rest : List ACell) × (filter (is_open types store.now terms.now) cells.now ≡ c ∷ rest) }
    ensures held { (c : ACell) → result ≡ Ok (Some c) → HoldsCell store.now c }
{
    for cell in cells {
        if is_left_open(alloc, store, *cell, terms)? {
            return Ok(Some(*cell));
        }
    }
    Ok(None)
}
