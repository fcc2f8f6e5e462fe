//! Names that stand in goals alone.
ghost use Rattle.std.specs.Prelude.{◌≡◌, map, not, length, vec_len, All, IfOk};
ghost use Rattle.std.specs.List.{list_any};
ghost use Rattle.ab_norm.specs.ab_types.specs.Entries.{Table};
ghost use Rattle.ab_norm.specs.ab_store.specs.Trees.{Holds, HoldsCell, tree_of};
ghost use Rattle.ab_norm.specs.ab_store.specs.Reading.{cell_variable};
ghost use Rattle.ab_unifiers.specs.Replacements as solve;
ghost use Rattle.ab_logic.specs.Worlds.{variable_at};
ghost use Rattle.ab_theory.specs.SpecRules.{stands_in_goals_alone};
ghost use Rattle.ab_judgement_forms.specs.DemandWalks.{trues, chosen};

use ab_norm::store::{CellId, Store, TermId};
use ab_patterns::occurs;
use std::alloc::{AllocError, Global};

/// Whether the cell stands in one of the terms.
fn stands_in_one(
    alloc: Global,
    store: &Store,
    cell: CellId,
    terms: &[TermId],
) -> Result<bool, AllocError>
    requires { All (Holds store.now) terms.now }
    ensures { IfOk result (λ r. (types : Table) → r ≡ list_any (solve.occurs (cell_variable types store.now cell)) (map (tree_of types store.now) terms.now)) }
{
    match terms {
        [] => Ok(false),
        [first, rest @ ..] => {
            if occurs(alloc, store, cell, *first)? {
                Ok(true)
            } else {
                stands_in_one(alloc, store, cell, rest)
            }
        }
    }
}

/// Whether the cell stands in goals, and not in the atom.
fn stands_in_goals_alone(
    alloc: Global,
    store: &Store,
    atom: TermId,
    goals: &[TermId],
    cell: CellId,
) -> Result<bool, AllocError>
    requires atom { Holds store.now atom }
    requires goals { All (Holds store.now) goals.now }
    ensures { IfOk result (λ r. (types : Table) → r ≡ stands_in_goals_alone (tree_of types store.now atom) (map (tree_of types store.now) goals.now) (variable_at types store.now cell)) }
{
    if !stands_in_one(alloc, store, cell, goals)? {
        return Ok(false);
    }
    let in_atom = occurs(alloc, store, cell, atom)?;
    Ok(!in_atom)
}

/// Cells for names of a clause: whether each stands in goals alone; those that do, and the others.
#[derive(Drop)]
pub struct Sides {
    pub alone: Vec<bool>,
    pub closed: Vec<CellId>,
    pub own: Vec<CellId>,
}

/// The cells, by whether they stand in goals alone, each kind in its order.
pub fn sides_of(
    alloc: Global,
    store: &Store,
    atom: TermId,
    goals: &[TermId],
    cells: &[CellId],
) -> Result<Sides, AllocError>
    requires atom { Holds store.now atom }
    requires goals { All (Holds store.now) goals.now }
    requires cells { All (HoldsCell store.now) cells.now }
    ensures alone { IfOk result (λ sides. (types : Table) → sides.alone.items
        ≡ map (stands_in_goals_alone (tree_of types store.now atom) (map (tree_of types store.now) goals.now)) (map (variable_at types store.now) cells.now)) }
    ensures closed { IfOk result (λ sides. sides.closed.items ≡ chosen sides.alone.items cells.now) }
    ensures own { IfOk result (λ sides. sides.own.items ≡ chosen (map not sides.alone.items) cells.now) }
    ensures long { IfOk result (λ sides. length sides.alone.items ≡ length cells.now) }
    ensures count { IfOk result (λ sides. vec_len sides.closed ≡ trues sides.alone.items) }
    ensures closed_held { IfOk result (λ sides. All (HoldsCell store.now) sides.closed.items) }
    ensures own_held { IfOk result (λ sides. All (HoldsCell store.now) sides.own.items) }
{
    let mut alone = Vec::new(alloc);
    let mut closed = Vec::new(alloc);
    let mut own = Vec::new(alloc);
    for cell in cells {
        let is_closed = stands_in_goals_alone(alloc, store, atom, goals, *cell)?;
        alone.push(is_closed)?;
        if is_closed {
            closed.push(*cell)?;
        } else {
            own.push(*cell)?;
        }
    }
    Ok(Sides { alone, closed, own })
}
