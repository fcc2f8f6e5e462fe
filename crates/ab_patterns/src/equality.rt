//! Whether two terms, in which no bound cell stands, are the same.
ghost use Rattle.std.specs.Prelude.{◌↔◌, IfOk, IsTrue};
ghost use Rattle.ab_term.specs.Translation.{EqualPastHints};
ghost use Rattle.ab_norm.specs.ab_store.specs.Trees.{Holds, tree_of};
ghost use Rattle.ab_norm.specs.ab_store.specs.Bindings.{IsResolved};
ghost use Rattle.ab_norm.specs.ab_store.specs.Naming.{IsTypedBy};

use ab_norm::equal;
use ab_norm::store::{Store, TermId};
use ab_norm::types::TypeTable;
use std::alloc::{AllocError, Global};

/// Whether the two terms are the same past their hints.
pub(crate) fn are_same(
    alloc: Global,
    types: &TypeTable,
    store: &Store,
    a: TermId,
    b: TermId,
) -> Result<bool, AllocError>
    requires store { IsTypedBy types.now store.now }
    requires a { Holds store.now a }
    requires b { Holds store.now b }
    requires resolved_a { IsResolved store.now a }
    requires resolved_b { IsResolved store.now b }
    ensures { IfOk result (λ same. IsTrue same ↔ EqualPastHints (tree_of types.now store.now a) (tree_of types.now store.now b)) }
{
    equal(alloc, types, store, a, b)
}
