//! A cell that may be replaced becomes a new one over some of the names that it is given.
ghost use Rattle.std.specs.Prelude.{◌≡◌, ◌≢◌, true, ℕ, ◌≤◌, List, map, length, All, IfOk, OnOk, Contains, codes};
ghost use Rattle.ab_term.specs.Types.{Ty, kind};
ghost use Rattle.ab_term.specs.Abstraction.{Named, is_name};
ghost use Rattle.ab_norm.specs.ab_types.specs.Entries.{Table, signature};
ghost use Rattle.ab_norm.specs.ab_types.specs.Ids.{type_of};
ghost use Rattle.ab_norm.specs.ab_store.specs.Trees.{Contents, cell_of, head_reading};
ghost use Rattle.ab_norm.specs.ab_store.specs.Reading.{cell_variable};
ghost use Rattle.ab_norm.specs.ab_store.specs.Naming.{HeadIsTyped, IsTypedBy};
ghost use Rattle.ab_patterns.specs.ab_unifiers.specs.Patterns as solve;
ghost use Rattle.ab_patterns.specs.ab_unifiers.specs.Replacements.{Change, narrowed};
ghost use Rattle.ab_unify.specs.StoreChanges.{Grows, IsFree, Changed};

use ab_norm::store::{CellId, Head, Store};
use ab_norm::types::{Steps, TypeTable};
use ab_patterns::{FlexibleCells, renew};
use std::alloc::{AllocError, Global};

/// Binds the cell so that, given the names, it is a new cell, the youngest, given those whose flag is set. The new one is
/// answered; it may be replaced, and the old one no more.
pub(crate) fn narrow<L>(
    alloc: Global,
    types: &mut TypeTable,
    store: &mut Store,
    flexible: &mut FlexibleCells,
    cell: CellId,
    names: &[Head],
    keep: &[bool],
    steps: &mut Steps<L>,
) -> Result<CellId, AllocError>
    requires store { IsTypedBy types.old store.old }
    requires listed { Contains flexible.old.items cell }
    requires free { All (IsFree store.old) flexible.old.items }
    requires names_typed { All (HeadIsTyped types.old) names.now }
    requires are_names { All (λ h. is_name (head_reading types.old store.old h) ≡ true) names.now }
    requires fits { (G : List Ty) × (k : List ℕ) × Named (signature types.old) G (map (head_reading types.old store.old) names.now) (type_of types.old (cell_of store.old cell).ty) (kind k) }
    requires flags { length keep.now ≡ length names.now }
    ensures grows { Grows types.old store.old types.new store.new }
    ensures steps { steps.old ≤ steps.new }
    ensures free { OnOk result (All (IsFree store.new) flexible.new.items) }
    ensures made { IfOk result (λ z. IsFree store.new z) }
    ensures number { IfOk result (λ z. z.0 ≡ length store.old.cells) }
    ensures ty { IfOk result (λ z. type_of types.new (cell_of store.new z).ty ≡ solve.kept_type keep.now (type_of types.old (cell_of store.old cell).ty)) }
    ensures others { (d : CellId) → d ≢ cell → IsFree store.old d → IsFree store.new d }
    ensures changed { OnOk result ((T : Table) (S : Contents) (F : List CellId) (c : Change (List ℕ)) →
        Changed T S F c types.old store.old flexible.old.items →
        Changed T S F (narrowed (codes "x") (cell_variable types.old store.old cell) (map (head_reading types.old store.old) names.now) keep.now c) types.new store.new flexible.new.items) }
{
    let made = renew(alloc, types, store, cell, names, keep, steps)?;
    flexible.remove(cell);
    flexible.push(made)?;
    Ok(made)
}
