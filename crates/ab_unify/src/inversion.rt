//! A pattern becomes a rigid term.
ghost use Rattle.std.specs.Prelude.{◌≡◌, ℕ, ◌≤◌, List, map, All, OnOk, Contains, codes, Some, true, false};
ghost use Rattle.ab_term.specs.Types.{Ty, kind};
ghost use Rattle.ab_term.specs.Terms.{Terms};
ghost use Rattle.ab_term.specs.Typing.{TakeType};
ghost use Rattle.ab_norm.specs.ab_types.specs.Entries.{Table, signature};
ghost use Rattle.ab_norm.specs.ab_types.specs.Ids.{type_of};
ghost use Rattle.ab_norm.specs.ab_store.specs.Trees.{Contents, cell_of, tree_of, head_reading};
ghost use Rattle.ab_norm.specs.ab_store.specs.Reading.{cell_variable};
ghost use Rattle.ab_norm.specs.ab_store.specs.Bindings.{IsResolved};
ghost use Rattle.ab_norm.specs.ab_store.specs.Naming.{IsTypedBy, IsTerm};
ghost use Rattle.ab_patterns.specs.ab_unifiers.specs.Patterns as solve;
ghost use Rattle.ab_patterns.specs.ab_unifiers.specs.Replacements.{pruned, has_patterns, occurs, no_foreign};
ghost use Rattle.ab_patterns.specs.ab_unifiers.specs.Unification.{begun, put_in};
ghost use Rattle.ab_unify.specs.Problem.{cells_read, variables_read};
ghost use Rattle.ab_unify.specs.StoreChanges.{Grows, IsFree, Changed, AreNames};

use crate::cell_bindings::bind;
use crate::pruning::prune;
use ab_norm::copy_resolved;
use ab_norm::store::{CellId, Head, Store, TermId};
use ab_norm::types::{Steps, TypeTable};
use ab_patterns::{FlexibleCells, Seen};
use std::alloc::{AllocError, Global};

/// Binds the cell so that, given the names, it is the term, once the cells in the term have lost the names that are
/// foreign there.
pub(crate) fn invert<L>(
    alloc: Global,
    types: &mut TypeTable,
    store: &mut Store,
    flexible: &mut FlexibleCells,
    cell: CellId,
    names: &[Head],
    term: TermId,
    steps: &mut Steps<L>,
) -> Result<(), AllocError>
    requires store { IsTypedBy types.old store.old }
    requires free { All (IsFree store.old) flexible.old.items }
    requires listed { Contains flexible.old.items cell }
    requires names { AreNames types.old names.now }
    requires resolved { IsResolved store.old term }
    requires fits { (G : List Ty) × (k : List ℕ) × (ts : Terms ℕ (List ℕ)) × (solve.pattern (type_of types.old (cell_of store.old cell).ty) ts ≡ Some (map (head_reading types.old store.old) names.now))
        × TakeType (signature types.old) G ts (type_of types.old (cell_of store.old cell).ty) (kind k) × IsTerm types.old store.old G term (kind k) }
    requires patterns { has_patterns (variables_read types.old store.old flexible.old.items) (tree_of types.old store.old term) ≡ true }
    requires absent { occurs (cell_variable types.old store.old cell) (tree_of types.old store.old term) ≡ false }
    requires own { no_foreign (variables_read types.old store.old flexible.old.items) (map (head_reading types.old store.old) names.now) (tree_of types.old store.old term) ≡ true }
    ensures grows { Grows types.old store.old types.new store.new }
    ensures steps { steps.old ≤ steps.new }
    ensures changed { OnOk result (
        let cells = cells_read types.old store.old in
        let ys = variables_read types.old store.old flexible.old.items in
        let y = cell_variable types.old store.old cell in
        let hs = map (head_reading types.old store.old) names.now in
        let t = tree_of types.old store.old term in
        Changed types.old store.old flexible.old.items (put_in (codes "x") cells ys y hs t (pruned (codes "x") ys hs t (begun (codes "x") cells ys y))) types.new store.new flexible.new.items) }
{
    flexible.remove(cell);
    let mut seen = Seen::new(alloc);
    prune(alloc, types, store, flexible, names, term, &mut seen, steps)?;
    let plain = copy_resolved(alloc, types, store, term, steps)?;
    bind(alloc, types, store, cell, names, plain, steps)
}
