//! Variables over constants.
ghost use Rattle.std.specs.Prelude.{◌≡◌, ◌≤◌, ◌+◌, ◌++◌, [], map, length, codes, All, IfOk, OnOk};
ghost use Rattle.ab_term.specs.Abstraction.{over};
ghost use Rattle.ab_norm.specs.ab_types.specs.Entries.{kinds, constants, IsExtendedBy as IsPartOf};
ghost use Rattle.ab_norm.specs.ab_types.specs.Ids.{HoldsType, type_of};
ghost use Rattle.ab_norm.specs.ab_types.specs.Sound.{IsTable};
ghost use Rattle.ab_norm.specs.ab_store.specs.Trees.{Holds, HoldsCell, cell_of, tree_of};
ghost use Rattle.ab_norm.specs.ab_store.specs.Growth.{IsExtendedBy};
ghost use Rattle.ab_norm.specs.ab_store.specs.Naming.{IsTypedBy, IsTerm};
ghost use Rattle.ab_norm.specs.NodeGrowth.{AddsTypedTerms};
ghost use Rattle.ab_norm.specs.Nominals.{HoldsNominal};
ghost use Rattle.ab_unifiers.specs.Clauses.{name_term, Each};
ghost use Rattle.ab_unifiers.specs.Alternatives.{cells_over, made_over, made_terms};
ghost use Rattle.ab_unify.specs.Problem.{cells_read, variables_read, cells_at};
ghost use Rattle.ab_unify.specs.StoreChanges.{Grows};
ghost use Rattle.ab_instances.specs.ListReadings.{names_read, trees_at, given_at};
ghost use Rattle.ab_instances.specs.RaisedCells.{ids_from, given_all};

use ab_norm::store::{CellId, Head, Store, TermId};
use ab_norm::types::{TypeId, TypeTable};
use ab_norm::{Nominal, eta, eta_given};
use std::alloc::{AllocError, Global};

/// New cells, and each of them, given the constants, as a term.
#[derive(Drop)]
pub struct Over {
    pub cells: Vec<CellId>,
    pub terms: Vec<TermId>,
}

/// The constants as terms, in order.
pub fn as_terms(
    alloc: Global,
    types: &TypeTable,
    store: &mut Store,
    names: &[Nominal],
) -> Result<Vec<TermId>, AllocError>
    requires store { IsTypedBy types.now store.old }
    requires names { All (HoldsNominal types.now) names.now }
    ensures held { IfOk result (λ list. All (Holds store.new) list.items) }
    ensures trees { IfOk result (λ list. trees_at types.now store.new list.items ≡ map (name_term (codes "x")) (names_read types.now names.now)) }
    ensures adds { AddsTypedTerms types.now store.old store.new }
{
    let mut list = Vec::new(alloc);
    for a in names {
        list.push(eta(alloc, types, store, Head::Nominal(a.number, a.ty), a.ty)?)?;
    }
    Ok(list)
}

/// The type of what depends on the constants besides.
fn type_over(types: &mut TypeTable, names: &[Nominal], ty: TypeId) -> Result<TypeId, AllocError>
    requires ty { HoldsType types.old ty }
    requires names { All (HoldsNominal types.old) names.now }
    ensures held { IfOk result (λ r. HoldsType types.new r) }
    ensures reads { IfOk result (λ r. type_of types.new r ≡ over (names_read types.old names.now) (type_of types.old ty)) }
    ensures kept { IsPartOf types.old types.new }
    ensures kinds { kinds types.new ≡ kinds types.old }
    ensures constants { constants types.new ≡ constants types.old }
{
    match names {
        [] => Ok(ty),
        [first, rest @ ..] => {
            let left = type_over(types, rest, ty)?;
            types.arrow(first.ty, left)
        }
    }
}

/// A new cell for each, of the same hint, over the constants: what it stands for depends on them besides. Each new cell,
/// given the constants, is a term of the old one's type.
pub fn make_over(
    alloc: Global,
    types: &mut TypeTable,
    store: &mut Store,
    cells: &[CellId],
    names: &[Nominal],
) -> Result<Over, AllocError>
    requires store { IsTypedBy types.old store.old }
    requires cells { All (HoldsCell store.old) cells.now }
    requires names { All (HoldsNominal types.old) names.now }
    ensures grows { Grows types.old store.old types.new store.new }
    ensures bindings { store.new.bindings ≡ store.old.bindings }
    ensures room { store.old.room ≤ store.new.room }
    ensures cells { OnOk result (cells_read types.new store.new
        ≡ cells_read types.old store.old ++ cells_over (codes "x") (names_read types.old names.now) (cells_at types.old store.old cells.now)) }
    ensures made { IfOk result (λ over. variables_read types.new store.new over.cells.items
        ≡ made_over (codes "x") (length store.old.cells) (names_read types.old names.now) (cells_at types.old store.old cells.now)) }
    ensures terms { IfOk result (λ over. trees_at types.new store.new over.terms.items
        ≡ made_terms (codes "x") (length store.old.cells) (names_read types.old names.now) (cells_at types.old store.old cells.now)) }
    ensures held { IfOk result (λ over. All (Holds store.new) over.terms.items) }
    ensures typed { IfOk result (λ over. Each (λ c t. IsTerm types.new store.new [] t (type_of types.old (cell_of store.old c).ty)) cells.now over.terms.items) }
{
    let made = make_cells(alloc, types, store, cells, names)?;
    let forms = as_terms(alloc, types, store, names)?;
    let terms = give(alloc, types, store, cells, &made, &forms)?;
    Ok(Over { cells: made, terms })
}

/// A new cell for each, of the same hint, of the type over the constants.
fn make_cells(
    alloc: Global,
    types: &mut TypeTable,
    store: &mut Store,
    cells: &[CellId],
    names: &[Nominal],
) -> Result<Vec<CellId>, AllocError>
    requires store { IsTypedBy types.old store.old }
    requires cells { All (HoldsCell store.old) cells.now }
    requires names { All (HoldsNominal types.old) names.now }
    ensures grows { Grows types.old store.old types.new store.new }
    ensures before { IsExtendedBy store.old store.new }
    ensures cells { OnOk result (cells_read types.new store.new
        ≡ cells_read types.old store.old ++ cells_over (codes "x") (names_read types.old names.now) (cells_at types.old store.old cells.now)) }
    ensures made { IfOk result (λ made. made.items ≡ ids_from (length store.old.cells) cells.now) }
{
    let mut made = Vec::new(alloc);
    for cell in cells {
        made.push(make_one(alloc, types, store, *cell, names)?)?;
    }
    Ok(made)
}

/// A new cell of the cell's hint, of its type over the constants.
fn make_one(
    alloc: Global,
    types: &mut TypeTable,
    store: &mut Store,
    cell: CellId,
    names: &[Nominal],
) -> Result<CellId, AllocError>
    requires store { IsTypedBy types.old store.old }
    requires cell { HoldsCell store.old cell }
    requires names { All (HoldsNominal types.old) names.now }
    ensures grows { Grows types.old store.old types.new store.new }
    ensures before { IsExtendedBy store.old store.new }
    ensures number { IfOk result (λ made. made.0 ≡ length store.old.cells) }
    ensures one { OnOk result (length store.new.cells ≡ length store.old.cells + 1) }
    ensures hint { IfOk result (λ made. (cell_of store.new made).hint ≡ (cell_of store.old cell).hint) }
    ensures ty { IfOk result (λ made. type_of types.new (cell_of store.new made).ty ≡ over (names_read types.old names.now) (type_of types.old (cell_of store.old cell).ty)) }
{
    let left = store.cell_type(cell);
    let ty = type_over(types, names, left)?;
    let hint = store.cell_name(cell).copy(alloc)?;
    store.cell(hint, ty)
}

/// Each of the new cells, given the constants, whose forms these are, as a term of the old one's type.
fn give(
    alloc: Global,
    types: &TypeTable,
    store: &mut Store,
    cells: &[CellId],
    made: &[CellId],
    forms: &[TermId],
) -> Result<Vec<TermId>, AllocError>
    requires store { IsTypedBy types.now store.old }
    requires cells { All (HoldsCell store.old) cells.now }
    requires made { All (HoldsCell store.old) made.now }
    requires as_many { length made.now ≡ length cells.now }
    requires forms { All (Holds store.old) forms.now }
    ensures held { IfOk result (λ terms. All (Holds store.new) terms.items) }
    ensures trees { IfOk result (λ terms. trees_at types.now store.new terms.items
        ≡ given_all types.now store.old (given_at types.now store.old forms.now) made.now cells.now) }
    ensures adds { AddsTypedTerms types.now store.old store.new }
{
    let mut terms = Vec::new(alloc);
    for i in 0..cells.len() {
        let left = store.cell_type(cells[i]);
        let args = copy_terms(alloc, forms)?;
        terms.push(eta_given(alloc, types, store, Head::Cell(made[i]), args, left)?)?;
    }
    Ok(terms)
}

/// The terms of the slice.
fn copy_terms(alloc: Global, ids: &[TermId]) -> Result<Vec<TermId>, AllocError>
    ensures { IfOk result (λ list. list.items ≡ ids.now) }
{
    ids.iter().copied().collect(alloc)
}
