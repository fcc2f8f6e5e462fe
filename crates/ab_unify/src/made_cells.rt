//! The cells that a run made.
ghost use Rattle.std.specs.Prelude.{◌≡◌, ◌≤◌, ◌↔◌, ◌⊎◌, map, length, drop, Contains, IfOk};
ghost use Rattle.ab_norm.specs.ab_store.specs.declared.node.CellId.{CellId};
ghost use Rattle.ab_norm.specs.ab_store.specs.Bindings.{AreInOrder};
ghost use Rattle.ab_unify.specs.UnifyAnswers.{AreInAge};

use ab_norm::store::{Binding, CellId, Store};
use std::alloc::{AllocError, Global};
use std::collections::BTreeSet;

/// The bindings made since there were so many.
pub(crate) fn bindings_since(store: &Store, count: usize) -> &[Binding]
    requires { count ≤ length store.now.bindings }
    ensures list { result.now ≡ drop count store.now.bindings }
    ensures order { AreInOrder store.now }
{
    &store.bindings()[count..]
}

/// The cells of the set, in their order.
fn list_cells(alloc: Global, mut cells: BTreeSet<CellId>) -> Result<Vec<CellId>, AllocError>
    ensures { IfOk result (λ list. list.items ≡ cells.keys) }
{
    let mut list = Vec::new(alloc);
    while let Some(cell) = cells.pop_first() {
        list.push(cell)?;
    }
    Ok(list)
}

/// The cells that are bound so or are left, but for those that were given, in order of age.
pub(crate) fn made_cells(
    alloc: Global,
    bound: &[Binding],
    left: &[CellId],
    given: &[CellId],
) -> Result<Vec<CellId>, AllocError>
    ensures in_age { IfOk result (λ made. AreInAge made.items) }
    ensures which { IfOk result (λ made. (c : CellId) → Contains made.items c ↔
        ((Contains (map (λ b. b.cell) bound.now) c ⊎ Contains left.now c) × (¬ Contains given.now c))) }
{
    let mut made = BTreeSet::new(alloc);
    'bound: for binding in bound {
        made.insert(binding.cell)?;
    }
    'left: for cell in left {
        made.insert(*cell)?;
    }
    'given: for cell in given {
        made.remove(cell);
    }
    // the cells of a set are in order
    let _ = made.len();
    list_cells(alloc, made)
}
