//! A cell is bound, so that, given names, it is a certain term.
ghost use Rattle.std.specs.Prelude.{◌≡◌, ◌≢◌, List, [], map, All, OnOk, OnErr, codes};
ghost use Rattle.ab_term.specs.Types.{Ty};
ghost use Rattle.ab_term.specs.Typing.{HasType};
ghost use Rattle.ab_term.specs.Sameness.{same_number};
ghost use Rattle.ab_term.specs.Variables.{image};
ghost use Rattle.ab_norm.specs.ab_types.specs.Entries.{signature};
ghost use Rattle.ab_norm.specs.ab_types.specs.Ids.{type_of};
ghost use Rattle.ab_norm.specs.ab_store.specs.Trees.{Holds, HoldsCell, cell_of, tree_of, head_reading};
ghost use Rattle.ab_norm.specs.ab_store.specs.Reading.{reading, cell_variable};
ghost use Rattle.ab_norm.specs.ab_store.specs.Bindings.{StandsIn, IsUnbound, IsResolved};
ghost use Rattle.ab_norm.specs.ab_store.specs.Growth.{IsExtendedBy};
ghost use Rattle.ab_norm.specs.ab_store.specs.Marks.{HasMark, KeepsMark};
ghost use Rattle.ab_norm.specs.ab_store.specs.Naming.{HeadIsTyped, IsTypedBy, IsTerm};
ghost use Rattle.ab_unifiers.specs.Patterns as solve;
ghost use Rattle.ab_unifiers.specs.Replacements.{one};

use crate::applied_cells::value;
use ab_norm::store::{CellId, Head, Mark, Store, TermId};
use ab_norm::types::{Steps, TypeTable};
use std::alloc::{AllocError, Global};

/// Binds the cell so that, given the names, it is the term.
pub fn put<L>(
    alloc: Global,
    types: &TypeTable,
    store: &mut Store,
    cell: CellId,
    names: &[Head],
    term: TermId,
    steps: &mut Steps<L>,
) -> Result<(), AllocError>
    requires store { IsTypedBy types.now store.old }
    requires cell { HoldsCell store.old cell }
    requires unbound { IsUnbound store.old cell }
    requires names { All (HeadIsTyped types.now) names.now }
    requires term { Holds store.old term }
    requires resolved { IsResolved store.old term }
    requires apart { ¬ StandsIn store.old cell term }
    requires fits { HasType (signature types.now) []
        (solve.value (codes "x") (cell_variable types.now store.old cell) (map (head_reading types.now store.old) names.now) (tree_of types.now store.old term))
        (type_of types.now (cell_of store.old cell).ty) }
    ensures reads { OnOk result ((t : TermId) → Holds store.old t → reading types.now store.new t
        ≡ image same_number (one (codes "x") (cell_variable types.now store.old cell) (map (head_reading types.now store.old) names.now) (tree_of types.now store.old term)) (reading types.now store.old t)) }
    ensures trees { (t : TermId) → Holds store.old t → Holds store.new t × (tree_of types.now store.new t ≡ tree_of types.now store.old t) }
    ensures terms { (G : List Ty) (t : TermId) (A : Ty) → IsTerm types.now store.old G t A → IsTerm types.now store.new G t A }
    ensures cells { store.new.cells ≡ store.old.cells }
    ensures bound { OnOk result (¬ IsUnbound store.new cell) }
    ensures free { (c : CellId) → c ≢ cell → IsUnbound store.old c → IsUnbound store.new c }
    ensures typed { IsTypedBy types.now store.new }
    ensures marks { (m : Mark) → HasMark store.old m → KeepsMark store.old store.new m }
    ensures steps { steps.new ≡ steps.old }
    ensures err { OnErr result (IsExtendedBy store.old store.new) }
{
    let made = value(alloc, types, store, cell, names, term)?;
    store.reserve(1)?;
    store.bind(cell, made, steps);
    Ok(())
}
