//! A cell becomes another one over some of the names that it is given.
ghost use Rattle.std.specs.Prelude.{◌≡◌, ◌≢◌, true, ℕ, List, [], map, length, All, OnOk, OnErr, codes};
ghost use Rattle.ab_term.specs.Types.{Ty, kind};
ghost use Rattle.ab_term.specs.Sameness.{same_number};
ghost use Rattle.ab_term.specs.Abstraction.{Named, is_name};
ghost use Rattle.ab_term.specs.Variables.{image};
ghost use Rattle.ab_norm.specs.ab_types.specs.Entries.{signature};
ghost use Rattle.ab_norm.specs.ab_types.specs.Ids.{type_of};
ghost use Rattle.ab_norm.specs.ab_store.specs.Trees.{Holds, HoldsCell, cell_of, tree_of, head_reading};
ghost use Rattle.ab_norm.specs.ab_store.specs.Reading.{reading, cell_variable};
ghost use Rattle.ab_norm.specs.ab_store.specs.Bindings.{IsUnbound};
ghost use Rattle.ab_norm.specs.ab_store.specs.Growth.{IsExtendedBy};
ghost use Rattle.ab_norm.specs.ab_store.specs.Marks.{HasMark, KeepsMark};
ghost use Rattle.ab_norm.specs.ab_store.specs.Naming.{HoldsHead, HeadIsTyped, IsTypedBy, IsTerm};
ghost use Rattle.ab_unifiers.specs.Patterns as solve;
ghost use Rattle.ab_unifiers.specs.Replacements.{one};

use crate::applied_cells::{apply_cell, keep_heads};
use crate::bound_cells::put;
use ab_norm::store::{CellId, Head, Mark, Store, TermId};
use ab_norm::types::{Steps, TypeTable};
use std::alloc::{AllocError, Global};

/// Binds the cell so that, given the names, it is the other cell, given those whose flag is set.
pub fn narrow<L>(
    alloc: Global,
    types: &TypeTable,
    store: &mut Store,
    cell: CellId,
    made: CellId,
    names: &[Head],
    keep: &[bool],
    steps: &mut Steps<L>,
) -> Result<(), AllocError>
    requires store { IsTypedBy types.now store.old }
    requires cell { HoldsCell store.old cell }
    requires unbound { IsUnbound store.old cell }
    requires made { HoldsCell store.old made }
    requires made_unbound { IsUnbound store.old made }
    requires other { made ≢ cell }
    requires ty { type_of types.now (cell_of store.old made).ty ≡ solve.kept_type keep.now (type_of types.now (cell_of store.old cell).ty) }
    requires names_held { All (HoldsHead store.old) names.now }
    requires names_typed { All (HeadIsTyped types.now) names.now }
    requires are_names { All (λ h. is_name (head_reading types.now store.old h) ≡ true) names.now }
    requires fits { (G : List Ty) × (k : List ℕ) × Named (signature types.now) G (map (head_reading types.now store.old) names.now) (type_of types.now (cell_of store.old cell).ty) (kind k) }
    requires flags { length keep.now ≡ length names.now }
    ensures reads { OnOk result ((t : TermId) → Holds store.old t → reading types.now store.new t
        ≡ image same_number (one (codes "x") (cell_variable types.now store.old cell) (map (head_reading types.now store.old) names.now)
        (solve.applied (codes "x") (cell_variable types.now store.old made) (solve.kept keep.now (map (head_reading types.now store.old) names.now)))) (reading types.now store.old t)) }
    ensures trees { (t : TermId) → Holds store.old t → Holds store.new t × (tree_of types.now store.new t ≡ tree_of types.now store.old t) }
    ensures terms { (G : List Ty) (t : TermId) (A : Ty) → IsTerm types.now store.old G t A → IsTerm types.now store.new G t A }
    ensures cells { store.new.cells ≡ store.old.cells }
    ensures bound { OnOk result (¬ IsUnbound store.new cell) }
    ensures free { (c : CellId) → c ≢ cell → IsUnbound store.old c → IsUnbound store.new c }
    ensures typed { IsTypedBy types.now store.new }
    ensures marks { (m : Mark) → HasMark store.old m → KeepsMark store.old store.new m }
    ensures steps { steps.new ≡ steps.old }
    ensures err { OnErr result (IsExtendedBy store.old store.new) }
{
    let mut left = Vec::new(alloc);
    keep_heads(names, keep, &mut left)?;
    let term = apply_cell(alloc, types, store, made, &left)?;
    put(alloc, types, store, cell, names, term, steps)
}
