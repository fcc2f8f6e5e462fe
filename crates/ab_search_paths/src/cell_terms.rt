//! Cells that depend on constants, as terms; and terms abstracted over constants.
ghost use Rattle.std.specs.Prelude.{◌≡◌, [], length, All, IfOk, map};
ghost use Rattle.ab_term.specs.Types.{Ty, arrow};
ghost use Rattle.ab_term.specs.Abstraction.{over};
ghost use Rattle.ab_norm.specs.ab_types.specs.Entries.{Table};
ghost use Rattle.ab_norm.specs.ab_types.specs.Ids.{HoldsType, type_of};
ghost use Rattle.ab_norm.specs.ab_types.specs.Sound.{IsTable};
ghost use Rattle.ab_norm.specs.ab_store.specs.Trees.{Holds, HoldsCell, cell_of};
ghost use Rattle.ab_norm.specs.ab_store.specs.Naming.{IsTypedBy, IsTerm};
ghost use Rattle.ab_norm.specs.NodeGrowth.{AddsTypedTerms};
ghost use Rattle.ab_norm.specs.Nominals.{nominal_of, HoldsNominal};

use ab_norm::name::Name;
use ab_norm::store::{CellId, Head, Store, TermId};
use ab_norm::types::laws::has_unique_ids;
use ab_norm::types::{TypeId, TypeTable, TypeView};
use ab_norm::{Nominal, eta_given};
use ab_patterns::close;
use ab_walk::next_ways::judgements::alternatives::instances::as_terms;
use std::alloc::{AllocError, Global};

/// The type that is left of the type once it is given the constants. It is want of memory if it can't be given them.
fn type_behind(types: &TypeTable, ty: TypeId, constants: &[Nominal]) -> Result<TypeId, AllocError>
    requires ty { HoldsType types.now ty }
    requires constants { All (HoldsNominal types.now) constants.now }
    ensures held { IfOk result (HoldsType types.now) }
    ensures over { IfOk result (λ left. type_of types.now ty ≡ over (map (nominal_of types.now) constants.now) (type_of types.now left)) }
{
    match constants {
        [] => Ok(ty),
        [first, rest @ ..] => match types.view(ty) {
            TypeView::Arrow(from, to) => {
                if from == first.ty {
                    type_behind(types, to, rest)
                } else {
                    Err(AllocError)
                }
            }
            TypeView::Base(_) => Err(AllocError),
        },
    }
}

/// The cell, given the constants, as a term of the type that is left.
fn remaining_cell(
    alloc: Global,
    types: &TypeTable,
    store: &mut Store,
    cell: CellId,
    constants: &[Nominal],
    left: TypeId,
) -> Result<TermId, AllocError>
    requires store { IsTypedBy types.now store.old }
    requires cell { HoldsCell store.old cell }
    requires constants { All (HoldsNominal types.now) constants.now }
    requires left { HoldsType types.now left }
    requires over { type_of types.now (cell_of store.old cell).ty ≡ over (map (nominal_of types.now) constants.now) (type_of types.now left) }
    ensures typed { IfOk result (λ r. IsTerm types.now store.new [] r (type_of types.now left)) }
    ensures adds { AddsTypedTerms types.now store.old store.new }
{
    let terms = as_terms(alloc, types, store, constants)?;
    eta_given(alloc, types, store, Head::Cell(cell), terms, left)
}

/// The cell, given the constants, as a term.
pub fn cell_given(
    alloc: Global,
    types: &TypeTable,
    store: &mut Store,
    cell: CellId,
    constants: &[Nominal],
) -> Result<TermId, AllocError>
    requires store { IsTypedBy types.now store.old }
    requires cell { HoldsCell store.old cell }
    requires constants { All (HoldsNominal types.now) constants.now }
    ensures typed { IfOk result (λ r. (A : Ty) × IsTerm types.now store.new [] r A) }
    ensures adds { AddsTypedTerms types.now store.old store.new }
{
    let left = type_behind(types, store.cell_type(cell), constants)?;
    remaining_cell(alloc, types, store, cell, constants, left)
}

/// The cells, each given the constants, as terms.
pub(crate) fn cells_given(
    alloc: Global,
    types: &TypeTable,
    store: &mut Store,
    cells: &[CellId],
    constants: &[Nominal],
) -> Result<Vec<TermId>, AllocError>
    requires store { IsTypedBy types.now store.old }
    requires cells { All (HoldsCell store.old) cells.now }
    requires constants { All (HoldsNominal types.now) constants.now }
    ensures typed { IfOk result (λ list. All (λ r. (A : Ty) × IsTerm types.now store.new [] r A) list.items) }
    ensures count { IfOk result (λ list. length list.items ≡ length cells.now) }
    ensures adds { AddsTypedTerms types.now store.old store.new }
{
    let mut list = Vec::new(alloc);
    for cell in cells {
        list.push(cell_given(alloc, types, store, *cell, constants)?)?;
    }
    Ok(list)
}

/// The term, abstracted over the constant.
fn over_constant(
    alloc: Global,
    store: &mut Store,
    constant: Nominal,
    term: TermId,
) -> Result<TermId, AllocError>
    requires term { Holds store.old term }
    ensures held { IfOk result (Holds store.new) }
    ensures typed { (types : Table) (A : Ty) → IsTable types → IsTypedBy types store.old → HoldsNominal types constant → IsTerm types store.old [] term A →
        IfOk result (λ r. IsTerm types store.new [] r (arrow (type_of types constant.ty) A)) }
    ensures adds { (types : Table) → IsTypedBy types store.old → HoldsNominal types constant → AddsTypedTerms types store.old store.new }
{
    let name = Head::Nominal(constant.number, constant.ty);
    let closed = close(alloc, store, name, term)?;
    store.lam(constant.ty, Name::from_text(alloc, "x")?, closed)
}

/// The term, abstracted over the constants, the first outermost.
pub fn over_constants(
    alloc: Global,
    store: &mut Store,
    constants: &[Nominal],
    term: TermId,
) -> Result<TermId, AllocError>
    requires term { Holds store.old term }
    ensures held { IfOk result (Holds store.new) }
    ensures typed { (types : Table) (A : Ty) → IsTable types → IsTypedBy types store.old → All (HoldsNominal types) constants.now → IsTerm types store.old [] term A →
        IfOk result (λ r. IsTerm types store.new [] r (over (map (nominal_of types) constants.now) A)) }
    ensures adds { (types : Table) → IsTypedBy types store.old → All (HoldsNominal types) constants.now → AddsTypedTerms types store.old store.new }
{
    let mut here = term;
    let count = constants.len();
    for done in 0..count {
        here = over_constant(alloc, store, constants[count - 1 - done], here)?;
    }
    Ok(here)
}

/// The type that is left of both cells' types, once each is given its constants. It is want of memory if it isn't the same.
fn type_left(
    types: &TypeTable,
    store: &Store,
    cell: CellId,
    constants: &[Nominal],
    other: CellId,
    others: &[Nominal],
) -> Result<TypeId, AllocError>
    requires store { IsTypedBy types.now store.now }
    requires cell { HoldsCell store.now cell }
    requires constants { All (HoldsNominal types.now) constants.now }
    requires other { HoldsCell store.now other }
    requires others { All (HoldsNominal types.now) others.now }
    ensures held { IfOk result (HoldsType types.now) }
    ensures first { IfOk result (λ left. type_of types.now (cell_of store.now cell).ty ≡ over (map (nominal_of types.now) constants.now) (type_of types.now left)) }
    ensures second { IfOk result (λ left. type_of types.now (cell_of store.now other).ty ≡ over (map (nominal_of types.now) others.now) (type_of types.now left)) }
{
    let left = type_behind(types, store.cell_type(cell), constants)?;
    let there = type_behind(types, store.cell_type(other), others)?;
    if left == there {
        Ok(left)
    } else {
        Err(AllocError)
    }
}

/// A term for the cell: the other cell, given its constants, abstracted over the constants on which the cell depends. It is want of
/// memory if that isn't of the cell's type.
pub fn cell_for(
    alloc: Global,
    types: &TypeTable,
    store: &mut Store,
    cell: CellId,
    constants: &[Nominal],
    other: CellId,
    others: &[Nominal],
) -> Result<TermId, AllocError>
    requires store { IsTypedBy types.now store.old }
    requires cell { HoldsCell store.old cell }
    requires constants { All (HoldsNominal types.now) constants.now }
    requires other { HoldsCell store.old other }
    requires others { All (HoldsNominal types.now) others.now }
    ensures typed { IfOk result (λ r. IsTerm types.now store.new [] r (type_of types.now (cell_of store.new cell).ty)) }
    ensures adds { AddsTypedTerms types.now store.old store.new }
{
    has_unique_ids(types);
    let left = type_left(types, store, cell, constants, other, others)?;
    let inner = remaining_cell(alloc, types, store, other, others, left)?;
    over_constants(alloc, store, constants, inner)
}
