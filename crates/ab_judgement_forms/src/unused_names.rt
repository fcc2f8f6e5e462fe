//! Terms under a binder that binds nothing in them.
ghost use Rattle.std.specs.Prelude.{◌≡◌, IfOk};
ghost use Rattle.ab_term.specs.Substitution.{shift};
ghost use Rattle.ab_norm.specs.ab_store.specs.Trees.{Holds, tree_of};
ghost use Rattle.ab_norm.specs.ab_store.specs.Naming.{IsTypedBy};
ghost use Rattle.ab_norm.specs.NodeGrowth.{AddsTypedTerms};

use ab_norm::store::{Head, Store, TermId};
use ab_norm::types::TypeTable;
use ab_norm::types::laws::has_unique_ids;
use ab_patterns::close;
use std::alloc::{AllocError, Global};

/// The term as it stands under one binder more. One without free names is the same there.
pub(crate) fn under_binder(
    alloc: Global,
    types: &TypeTable,
    store: &mut Store,
    term: TermId,
) -> Result<TermId, AllocError>
    requires store { IsTypedBy types.now store.old }
    requires term { Holds store.old term }
    ensures held { IfOk result (λ r. Holds store.new r) }
    ensures tree { IfOk result (λ r. tree_of types.now store.new r ≡ shift 0 (tree_of types.now store.old term)) }
    ensures adds { AddsTypedTerms types.now store.old store.new }
{
    let reach = store.reach(term);
    if reach == 0 {
        return Ok(term);
    }
    has_unique_ids(types);
    close(alloc, store, Head::Index(reach), term)
}
