//! A cell becomes a new one, over some of the names that it is given.
ghost use Rattle.std.specs.Prelude.{◌≡◌, ◌≢◌, ◌+◌, true, ℕ, List, map, length, All, IfOk, OnOk, OnErr, codes};
ghost use Rattle.ab_term.specs.Types.{Ty, kind};
ghost use Rattle.ab_term.specs.Sameness.{same_number};
ghost use Rattle.ab_term.specs.Abstraction.{Named, is_name};
ghost use Rattle.ab_term.specs.Variables.{image};
ghost use Rattle.ab_norm.specs.ab_types.specs.Entries.{kinds, constants, signature, IsExtendedBy as IsPartOf};
ghost use Rattle.ab_norm.specs.ab_types.specs.Ids.{type_of};
ghost use Rattle.ab_norm.specs.ab_store.specs.Trees.{Holds, HoldsCell, cell_of, tree_of, head_reading};
ghost use Rattle.ab_norm.specs.ab_store.specs.Reading.{reading, cell_variable};
ghost use Rattle.ab_norm.specs.ab_store.specs.Bindings.{IsUnbound};
ghost use Rattle.ab_norm.specs.ab_store.specs.Growth.{IsExtendedBy};
ghost use Rattle.ab_norm.specs.ab_store.specs.Marks.{HasMark, KeepsMark};
ghost use Rattle.ab_norm.specs.ab_store.specs.Naming.{HoldsHead, HeadIsTyped, IsTypedBy, IsTerm};
ghost use Rattle.ab_unifiers.specs.Patterns as solve;
ghost use Rattle.ab_unifiers.specs.Replacements.{one};

use crate::narrow_cells::narrow;
use crate::replacement_cells::make;
use ab_norm::store::{CellId, Head, Mark, Store, TermId};
use ab_norm::types::{Steps, TypeTable};
use std::alloc::{AllocError, Global};

/// Makes a cell, the youngest, with the cell's hint, and binds the cell so that, given the names, it is the new one, given
/// those whose flag is set.
pub fn renew<L>(
    alloc: Global,
    types: &mut TypeTable,
    store: &mut Store,
    cell: CellId,
    names: &[Head],
    keep: &[bool],
    steps: &mut Steps<L>,
) -> Result<CellId, AllocError>
    requires store { IsTypedBy types.old store.old }
    requires cell { HoldsCell store.old cell }
    requires unbound { IsUnbound store.old cell }
    requires names_held { All (HoldsHead store.old) names.now }
    requires names_typed { All (HeadIsTyped types.old) names.now }
    requires are_names { All (λ h. is_name (head_reading types.old store.old h) ≡ true) names.now }
    requires fits { (G : List Ty) × (k : List ℕ) × Named (signature types.old) G (map (head_reading types.old store.old) names.now) (type_of types.old (cell_of store.old cell).ty) (kind k) }
    requires flags { length keep.now ≡ length names.now }
    ensures number { IfOk result (λ z. z.0 ≡ length store.old.cells) }
    ensures one { OnOk result (length store.new.cells ≡ length store.old.cells + 1) }
    ensures unbound { IfOk result (λ z. IsUnbound store.new z) }
    ensures hint { IfOk result (λ z. (cell_of store.new z).hint ≡ (cell_of store.old cell).hint) }
    ensures ty { IfOk result (λ z. type_of types.new (cell_of store.new z).ty ≡ solve.kept_type keep.now (type_of types.old (cell_of store.old cell).ty)) }
    ensures reads { OnOk result ((t : TermId) → Holds store.old t → reading types.new store.new t
        ≡ image same_number (one (codes "x") (cell_variable types.old store.old cell) (map (head_reading types.old store.old) names.now)
        (solve.applied (codes "x") (record { name = length store.old.cells; type = solve.kept_type keep.now (cell_variable types.old store.old cell).type })
        (solve.kept keep.now (map (head_reading types.old store.old) names.now)))) (reading types.old store.old t)) }
    ensures cells { (c : CellId) → HoldsCell store.old c → HoldsCell store.new c × (cell_of store.new c ≡ cell_of store.old c) }
    ensures bound { OnOk result (¬ IsUnbound store.new cell) }
    ensures free { (c : CellId) → c ≢ cell → IsUnbound store.old c → IsUnbound store.new c }
    ensures trees { (t : TermId) → Holds store.old t → Holds store.new t × (tree_of types.new store.new t ≡ tree_of types.old store.old t) }
    ensures terms { (G : List Ty) (t : TermId) (A : Ty) → IsTerm types.old store.old G t A → IsTerm types.new store.new G t A }
    ensures typed { IsTypedBy types.new store.new }
    ensures kept { IsPartOf types.old types.new }
    ensures kinds { kinds types.new ≡ kinds types.old }
    ensures constants { constants types.new ≡ constants types.old }
    ensures marks { (m : Mark) → HasMark store.old m → KeepsMark store.old store.new m }
    ensures steps { steps.new ≡ steps.old }
    ensures err { OnErr result (IsExtendedBy store.old store.new) }
{
    let made = make(alloc, types, store, cell, keep)?;
    narrow(alloc, types, store, cell, made, names, keep, steps)?;
    Ok(made)
}
