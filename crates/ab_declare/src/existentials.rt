//! `exists` over cells.
ghost use Rattle.std.specs.Prelude.{◌≡◌, map, All, IfOk};
ghost use Rattle.ab_norm.specs.ab_types.specs.Entries.{Table};
ghost use Rattle.ab_norm.specs.ab_store.specs.Trees.{Holds, HoldsCell, tree_of};
ghost use Rattle.ab_norm.specs.NodeGrowth.{AddsTerms};
ghost use Rattle.ab_typing.specs.DefinitionReadings.{variable_of};
ghost use Rattle.ab_declare.specs.Existentials as quantified;

use ab_norm::store::{CellId, Store, TermId};
use ab_patterns::exists_over;
use std::alloc::{AllocError, Global};

/// The formula under `exists` over the cells, the first outermost.
pub(crate) fn exists_all(
    alloc: Global,
    store: &mut Store,
    cells: &[CellId],
    body: TermId,
) -> Result<TermId, AllocError>
    requires cells { All (HoldsCell store.old) cells.now }
    requires body { Holds store.old body }
    ensures adds { AddsTerms store.old store.new }
    ensures held { IfOk result (λ r. Holds store.new r) }
    ensures tree { IfOk result (λ r. (types : Table) →
        tree_of types store.new r ≡ quantified.exists_all (map (variable_of types store.old) cells.now) (tree_of types store.old body)) }
{
    exists_over(alloc, store, cells, body)
}
