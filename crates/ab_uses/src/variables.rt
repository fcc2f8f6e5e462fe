//! New variables over constants.
ghost use Rattle.std.specs.Prelude.{◌≡◌, ◌++◌, ◌∷◌, [], length, codes, All, IfOk, OnOk};
ghost use Rattle.ab_term.specs.Abstraction.{over, given_names};
ghost use Rattle.ab_norm.specs.ab_types.specs.Entries.{kinds, constants, IsExtendedBy as IsPartOf};
ghost use Rattle.ab_norm.specs.ab_types.specs.Ids.{HoldsType, type_of};
ghost use Rattle.ab_norm.specs.ab_store.specs.Trees.{Holds, HoldsCell, cell_of, tree_of};
ghost use Rattle.ab_norm.specs.ab_store.specs.Growth.{IsExtendedBy};
ghost use Rattle.ab_norm.specs.ab_store.specs.Naming.{IsTypedBy};
ghost use Rattle.ab_norm.specs.NodeGrowth.{AddsTypedTerms};
ghost use Rattle.ab_norm.specs.Nominals.{HoldsNominal};
ghost use Rattle.ab_unify.specs.Problem.{cells_read};
ghost use Rattle.ab_unify.specs.StoreChanges.{Grows};
ghost use Rattle.ab_alternatives.specs.ab_instances.specs.ListReadings.{names_read};
ghost use Rattle.ab_theory.specs.Uses.{cell_over};

use ab_alternatives::instances::as_terms;
use ab_norm::name::Name;
use ab_norm::store::{CellId, Head, Store, TermId};
use ab_norm::types::{TypeId, TypeTable};
use ab_norm::{Nominal, eta_given};
use std::alloc::{AllocError, Global};

/// The type of what depends on the constants besides.
fn type_over(types: &mut TypeTable, names: &[Nominal], ty: TypeId) -> Result<TypeId, AllocError>
    requires ty { HoldsType types.old ty }
    requires names { All (HoldsNominal types.old) names.now }
    ensures held { IfOk result (λ r. HoldsType types.new r) }
    ensures reads { IfOk result (λ r. type_of types.new r ≡ over (names_read types.old names.now) (type_of types.old ty)) }
    ensures kept { IsPartOf types.old types.new }
    ensures kinds { kinds types.new ≡ kinds types.old }
    ensures constants { constants types.new ≡ constants types.old }
{
    match names {
        [] => Ok(ty),
        [first, rest @ ..] => {
            let left = type_over(types, rest, ty)?;
            types.arrow(first.ty, left)
        }
    }
}

/// A new cell of the hint, of the type over the constants.
pub(crate) fn cell_over_constants(
    alloc: Global,
    types: &mut TypeTable,
    store: &mut Store,
    hint: &Name,
    ty: TypeId,
    names: &[Nominal],
) -> Result<CellId, AllocError>
    requires store { IsTypedBy types.old store.old }
    requires ty { HoldsType types.old ty }
    requires names { All (HoldsNominal types.old) names.now }
    ensures grows { Grows types.old store.old types.new store.new }
    ensures before { IsExtendedBy store.old store.new }
    ensures held { IfOk result (λ made. HoldsCell store.new made) }
    ensures number { IfOk result (λ made. made.0 ≡ length store.old.cells) }
    ensures ty { IfOk result (λ made. type_of types.new (cell_of store.new made).ty ≡ over (names_read types.old names.now) (type_of types.old ty)) }
    ensures all { OnOk result (cells_read types.new store.new
        ≡ cells_read types.old store.old ++ cell_over (names_read types.old names.now) hint.now (type_of types.old ty) ∷ []) }
{
    let ty = type_over(types, names, ty)?;
    let hint = hint.copy(alloc)?;
    store.cell(hint, ty)
}

/// The cell, given the constants, as a term of the type that is left.
pub(crate) fn given_constants(
    alloc: Global,
    types: &TypeTable,
    store: &mut Store,
    cell: CellId,
    ty: TypeId,
    names: &[Nominal],
) -> Result<TermId, AllocError>
    requires store { IsTypedBy types.now store.old }
    requires cell { HoldsCell store.old cell }
    requires ty { HoldsType types.now ty }
    requires names { All (HoldsNominal types.now) names.now }
    requires over { type_of types.now (cell_of store.old cell).ty ≡ over (names_read types.now names.now) (type_of types.now ty) }
    ensures held { IfOk result (λ r. Holds store.new r) }
    ensures tree { IfOk result (λ r. tree_of types.now store.new r
        ≡ given_names (codes "x") (record { name = cell.0; type = over (names_read types.now names.now) (type_of types.now ty) }) (names_read types.now names.now) (type_of types.now ty)) }
    ensures adds { AddsTypedTerms types.now store.old store.new }
{
    let args = as_terms(alloc, types, store, names)?;
    eta_given(alloc, types, store, Head::Cell(cell), args, ty)
}
