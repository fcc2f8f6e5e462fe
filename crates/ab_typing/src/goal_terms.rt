//! Whether a term may be put into a sequent.
ghost use Rattle.std.specs.Prelude.{◌↔◌, ◌++◌, map, IfOk, IsTrue, All};
ghost use Rattle.ab_store.specs.ab_types.specs.Entries.{signature};
ghost use Rattle.ab_store.specs.ab_types.specs.Ids.{HoldsType, type_of};
ghost use Rattle.ab_store.specs.Trees.{Holds, tree_of};
ghost use Rattle.ab_store.specs.Naming.{IsTypedBy};
ghost use Rattle.ab_typing.specs.Cells.{variable_of};
ghost use Rattle.ab_term.specs.Names.{support};
ghost use Rattle.ab_formulas.specs.GoalTerms.{Fits, HoldsOnly, HasOneTypeEach, names_of};
ghost use Rattle.ab_formulas.specs.Formulas.{IsFormula};
ghost use Rattle.ab_term.specs.Types.{prop};

use crate::formulas::is_formula;
use crate::nominal_types::have_one_type_beside;
use crate::typing::has_type;
use crate::variables::holds_only;
use ab_store::types::{TypeId, TypeTable};
use ab_store::{CellId, Store, TermId};
use std::alloc::{AllocError, Global};

/// Whether the term holds only the listed variables, and no nominal number stands at two types in it and the terms before
/// it: the formulas of a sequent, say, and terms that were put in already.
fn stands_beside(
    alloc: Global,
    types: &TypeTable,
    store: &Store,
    variables: &[CellId],
    before: &[TermId],
    id: TermId,
) -> Result<bool, AllocError>
    requires store { IsTypedBy types.now store.now }
    requires before { All (Holds store.now) before.now }
    requires id { Holds store.now id }
    ensures { IfOk result (λ yes. IsTrue yes ↔
        (HoldsOnly (map (variable_of types.now store.now) variables.now) (tree_of types.now store.now id)
        × HasOneTypeEach (names_of (map (tree_of types.now store.now) before.now) ++ support (tree_of types.now store.now id)))) }
{
    if !holds_only(alloc, store, id, variables)? {
        return Ok(false);
    }
    have_one_type_beside(alloc, types, store, before, id)
}

/// Whether the term is closed and of the type, holds only the listed variables, and no nominal number stands at two
/// types in it and the terms before it.
pub fn fits(
    alloc: Global,
    types: &TypeTable,
    store: &Store,
    variables: &[CellId],
    before: &[TermId],
    id: TermId,
    ty: TypeId,
) -> Result<bool, AllocError>
    requires store { IsTypedBy types.now store.now }
    requires before { All (Holds store.now) before.now }
    requires id { Holds store.now id }
    requires ty { HoldsType types.now ty }
    ensures { IfOk result (λ yes. IsTrue yes ↔
        Fits (signature types.now) (map (variable_of types.now store.now) variables.now) (map (tree_of types.now store.now) before.now) (tree_of types.now store.now id) (type_of types.now ty)) }
{
    if !has_type(alloc, types, store, id, ty)? {
        return Ok(false);
    }
    stands_beside(alloc, types, store, variables, before, id)
}

/// Whether the term is a formula that holds only the listed variables, and no nominal number stands at two types in it
/// and the terms before it.
pub fn fits_as_formula(
    alloc: Global,
    types: &TypeTable,
    store: &Store,
    variables: &[CellId],
    before: &[TermId],
    id: TermId,
) -> Result<bool, AllocError>
    requires store { IsTypedBy types.now store.now }
    requires before { All (Holds store.now) before.now }
    requires id { Holds store.now id }
    ensures { IfOk result (λ yes. IsTrue yes ↔
        (Fits (signature types.now) (map (variable_of types.now store.now) variables.now) (map (tree_of types.now store.now) before.now) (tree_of types.now store.now id) prop
        × IsFormula (signature types.now) (tree_of types.now store.now id))) }
{
    if !is_formula(alloc, types, store, id)? {
        return Ok(false);
    }
    stands_beside(alloc, types, store, variables, before, id)
}
