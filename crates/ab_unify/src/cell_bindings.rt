//! A cell that may be replaced is bound so that, given names, it is a certain term.
ghost use Rattle.std.specs.Prelude.{◌≡◌, ◌≢◌, ℕ, ◌≤◌, List, [], map, All, OnOk, Contains, codes, true};
ghost use Rattle.ab_term.specs.Types.{Ty, kind};
ghost use Rattle.ab_term.specs.Terms as tree;
ghost use Rattle.ab_term.specs.Typing.{HasType};
ghost use Rattle.ab_term.specs.Abstraction.{Named, among};
ghost use Rattle.ab_term.specs.Variables.{composition};
ghost use Rattle.ab_term.specs.Sameness.{same_number};
ghost use Rattle.ab_norm.specs.ab_types.specs.Entries.{Table, signature};
ghost use Rattle.ab_norm.specs.ab_types.specs.Ids.{type_of};
ghost use Rattle.ab_norm.specs.ab_store.specs.Trees.{Contents, Holds, cell_of, tree_of, head_reading};
ghost use Rattle.ab_norm.specs.ab_store.specs.Reading.{cell_variable};
ghost use Rattle.ab_norm.specs.ab_store.specs.Bindings.{StandsIn, IsResolved};
ghost use Rattle.ab_norm.specs.ab_store.specs.Naming.{HeadIsTyped, IsTypedBy};
ghost use Rattle.ab_patterns.specs.ab_unifiers.specs.Patterns as solve;
ghost use Rattle.ab_patterns.specs.ab_unifiers.specs.Replacements.{Change, one};
ghost use Rattle.ab_patterns.specs.ab_unifiers.specs.Unification.{begun, put_in};
ghost use Rattle.ab_unify.specs.Problem.{cells_read, variables_read};
ghost use Rattle.ab_unify.specs.StoreChanges.{Grows, IsFree, Changed, others_than, AreNames};

use ab_norm::store::{CellId, Head, Store, TermId};
use ab_norm::types::{Steps, TypeTable};
use ab_patterns::{FlexibleCells, apply_cell, put};
use std::alloc::{AllocError, Global};

/// Binds the cell, which is none of those that may still be replaced, so that, given the names, it is the term.
pub(crate) fn bind<L>(
    alloc: Global,
    types: &TypeTable,
    store: &mut Store,
    cell: CellId,
    names: &[Head],
    term: TermId,
    steps: &mut Steps<L>,
) -> Result<(), AllocError>
    requires store { IsTypedBy types.now store.old }
    requires cell { IsFree store.old cell }
    requires names { All (HeadIsTyped types.now) names.now }
    requires term { Holds store.old term }
    requires resolved { IsResolved store.old term }
    requires apart { ¬ StandsIn store.old cell term }
    requires fits { HasType (signature types.now) []
        (solve.value (codes "x") (cell_variable types.now store.old cell) (map (head_reading types.now store.old) names.now) (tree_of types.now store.old term))
        (type_of types.now (cell_of store.old cell).ty) }
    ensures grows { Grows types.now store.old types.now store.new }
    ensures steps { steps.old ≤ steps.new }
    ensures changed { OnOk result ((T : Table) (S : Contents) (F flexible : List CellId) (c : Change (List ℕ)) →
        Changed T S (others_than cell F) c types.now store.old flexible → Contains F cell → ¬ Contains flexible cell →
        Changed T S F (record {
          cells = c.cells;
          flexible = c.flexible;
          pairs = composition same_number c.pairs (one (codes "x") (cell_variable types.now store.old cell) (map (head_reading types.now store.old) names.now) (tree_of types.now store.old term));
        }) types.now store.new flexible) }
{
    put(alloc, types, store, cell, names, term, steps)
}

/// Binds the cell so that, given the names, it is the other cell, given the others: these are all among the names.
pub(crate) fn bind_to_cell<L>(
    alloc: Global,
    types: &TypeTable,
    store: &mut Store,
    flexible: &mut FlexibleCells,
    cell: CellId,
    names: &[Head],
    other: CellId,
    others: &[Head],
    steps: &mut Steps<L>,
) -> Result<(), AllocError>
    requires store { IsTypedBy types.now store.old }
    requires free { All (IsFree store.old) flexible.old.items }
    requires listed { Contains flexible.old.items cell }
    requires other_free { IsFree store.old other }
    requires differ { other ≢ cell }
    requires names { AreNames types.now names.now }
    requires others { AreNames types.now others.now }
    requires fits { (G : List Ty) × (k : List ℕ) × Named (signature types.now) G (map (head_reading types.now store.old) names.now) (type_of types.now (cell_of store.old cell).ty) (kind k)
        × Named (signature types.now) G (map (head_reading types.now store.old) others.now) (type_of types.now (cell_of store.old other).ty) (kind k) }
    requires within { (g : tree.Head ℕ) → among (map (head_reading types.now store.old) others.now) g ≡ true → among (map (head_reading types.now store.old) names.now) g ≡ true }
    ensures grows { Grows types.now store.old types.now store.new }
    ensures steps { steps.old ≤ steps.new }
    ensures changed { OnOk result (
        let cells = cells_read types.now store.old in
        let ys = variables_read types.now store.old flexible.old.items in
        let y = cell_variable types.now store.old cell in
        Changed types.now store.old flexible.old.items (put_in (codes "x") cells ys y (map (head_reading types.now store.old) names.now)
        (solve.applied (codes "x") (cell_variable types.now store.old other) (map (head_reading types.now store.old) others.now)) (begun (codes "x") cells ys y)) types.now store.new flexible.new.items) }
{
    let term = apply_cell(alloc, types, store, other, others)?;
    bind(alloc, types, store, cell, names, term, steps)?;
    flexible.remove(cell);
    Ok(())
}
