//! Two patterns of different cells become the same.
ghost use Rattle.std.specs.Prelude.{◌≡◌, ◌≢◌, ℕ, ◌≤◌, List, map, length, All, OnOk, Contains, codes};
ghost use Rattle.ab_term.specs.Types.{Ty, kind};
ghost use Rattle.ab_term.specs.Abstraction.{Named, among};
ghost use Rattle.ab_norm.specs.ab_types.specs.Entries.{Table, signature};
ghost use Rattle.ab_norm.specs.ab_types.specs.Ids.{type_of};
ghost use Rattle.ab_norm.specs.ab_store.specs.Trees.{Contents, cell_of, head_reading};
ghost use Rattle.ab_norm.specs.ab_store.specs.Reading.{cell_variable};
ghost use Rattle.ab_norm.specs.ab_store.specs.Naming.{IsTypedBy};
ghost use Rattle.ab_patterns.specs.ab_unifiers.specs.Unification.{joined_at};
ghost use Rattle.ab_unify.specs.Problem.{cells_read, variables_read};
ghost use Rattle.ab_unify.specs.StoreChanges.{Grows, IsFree, Changed, AreNames};
ghost use Rattle.ab_unify.specs.JoinedPatterns.{two_joined};

use crate::cell_bindings::{bind, bind_to_cell};
use crate::narrow_cells::narrow;
use ab_norm::store::{CellId, Head, Store};
use ab_norm::types::{Steps, TypeTable};
use ab_patterns::{FlexibleCells, apply_cell, common, keep_heads, keeps_all};
use std::alloc::{AllocError, Global};

/// Makes the older cell, given the names, and the younger one, given the others, the same: one is bound to the other where
/// its names allow, and else both to a new cell over the common names.
pub(crate) fn join<L>(
    alloc: Global,
    types: &mut TypeTable,
    store: &mut Store,
    flexible: &mut FlexibleCells,
    older: CellId,
    names: &[Head],
    younger: CellId,
    others: &[Head],
    steps: &mut Steps<L>,
) -> Result<(), AllocError>
    requires store { IsTypedBy types.old store.old }
    requires free { All (IsFree store.old) flexible.old.items }
    requires older_listed { Contains flexible.old.items older }
    requires younger_listed { Contains flexible.old.items younger }
    requires differ { older ≢ younger }
    requires names { AreNames types.old names.now }
    requires others { AreNames types.old others.now }
    requires fits { (G : List Ty) × (k : List ℕ) × Named (signature types.old) G (map (head_reading types.old store.old) names.now) (type_of types.old (cell_of store.old older).ty) (kind k)
        × Named (signature types.old) G (map (head_reading types.old store.old) others.now) (type_of types.old (cell_of store.old younger).ty) (kind k) }
    ensures grows { Grows types.old store.old types.new store.new }
    ensures steps { steps.old ≤ steps.new }
    ensures changed { OnOk result (Changed types.old store.old flexible.old.items
        (two_joined (codes "x") (cells_read types.old store.old) (variables_read types.old store.old flexible.old.items)
        (cell_variable types.old store.old older) (map (head_reading types.old store.old) names.now)
        (cell_variable types.old store.old younger) (map (head_reading types.old store.old) others.now)) types.new store.new flexible.new.items) }
{
    // no two ids of a table stand for one type
    let _ = types.len();
    let keep = common(alloc, names, others)?;
    if keeps_all(&keep) {
        return bind_to_cell(
            alloc, types, store, flexible, younger, others, older, names, steps,
        );
    }
    let back = common(alloc, others, names)?;
    if keeps_all(&back) {
        return bind_to_cell(
            alloc, types, store, flexible, older, names, younger, others, steps,
        );
    }
    join_both(
        alloc, types, store, flexible, older, names, younger, others, &keep, steps,
    )
}

/// Binds both cells, given their names, to a new cell over the names of the first whose flag is set: those that are common.
fn join_both<L>(
    alloc: Global,
    types: &mut TypeTable,
    store: &mut Store,
    flexible: &mut FlexibleCells,
    older: CellId,
    names: &[Head],
    younger: CellId,
    others: &[Head],
    keep: &[bool],
    steps: &mut Steps<L>,
) -> Result<(), AllocError>
    requires store { IsTypedBy types.old store.old }
    requires free { All (IsFree store.old) flexible.old.items }
    requires older_listed { Contains flexible.old.items older }
    requires younger_listed { Contains flexible.old.items younger }
    requires differ { older ≢ younger }
    requires names { AreNames types.old names.now }
    requires others { AreNames types.old others.now }
    requires fits { (G : List Ty) × (k : List ℕ) × Named (signature types.old) G (map (head_reading types.old store.old) names.now) (type_of types.old (cell_of store.old older).ty) (kind k)
        × Named (signature types.old) G (map (head_reading types.old store.old) others.now) (type_of types.old (cell_of store.old younger).ty) (kind k) }
    requires keep { keep.now ≡ map (among (map (head_reading types.old store.old) others.now)) (map (head_reading types.old store.old) names.now) }
    ensures grows { Grows types.old store.old types.new store.new }
    ensures steps { steps.old ≤ steps.new }
    ensures changed { OnOk result (Changed types.old store.old flexible.old.items
        (joined_at (codes "x") (cells_read types.old store.old) (variables_read types.old store.old flexible.old.items)
        (cell_variable types.old store.old older) (map (head_reading types.old store.old) names.now)
        (cell_variable types.old store.old younger) (map (head_reading types.old store.old) others.now)) types.new store.new flexible.new.items) }
{
    flexible.remove(younger);
    let made = narrow(alloc, types, store, flexible, older, names, keep, steps)?;
    let mut left = Vec::new(alloc);
    keep_heads(names, keep, &mut left)?;
    let term = apply_cell(alloc, types, store, made, &left)?;
    bind(alloc, types, store, younger, others, term, steps)
}
