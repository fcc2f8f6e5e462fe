//! Terms under several binders that bind nothing in them.
ghost use Rattle.std.specs.Prelude.{◌≡◌, IfOk};
ghost use Rattle.ab_term.specs.Reach.{raise};
ghost use Rattle.ab_norm.specs.ab_store.specs.Trees.{Holds, tree_of};
ghost use Rattle.ab_norm.specs.ab_store.specs.Naming.{IsTypedBy};
ghost use Rattle.ab_norm.specs.NodeGrowth.{AddsTypedTerms};

use crate::unused_names::under_binder;
use ab_norm::store::{Store, TermId};
use ab_norm::types::TypeTable;
use std::alloc::{AllocError, Global};

/// The term as it stands under so many binders more.
pub(crate) fn raised_term(
    alloc: Global,
    types: &TypeTable,
    store: &mut Store,
    count: usize,
    term: TermId,
) -> Result<TermId, AllocError>
    requires store { IsTypedBy types.now store.old }
    requires term { Holds store.old term }
    ensures held { IfOk result (λ r. Holds store.new r) }
    ensures tree { IfOk result (λ r. tree_of types.now store.new r ≡ raise count 0 (tree_of types.now store.old term)) }
    ensures adds { AddsTypedTerms types.now store.old store.new }
{
    let mut here = term;
    for above in 0..count {
        let _ = above;
        here = under_binder(alloc, types, store, here)?;
    }
    Ok(here)
}
