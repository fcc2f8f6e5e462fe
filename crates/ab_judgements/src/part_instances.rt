//! Terms in the places of a part's names.
ghost use Rattle.std.specs.Prelude.{◌≡◌, ◌≤◌, map, All, IfOk};
ghost use Rattle.ab_norm.specs.ab_store.specs.Trees.{Holds, tree_of};
ghost use Rattle.ab_norm.specs.ab_store.specs.Naming.{IsTypedBy};
ghost use Rattle.ab_norm.specs.NodeGrowth.{AddsTypedTerms};
ghost use Rattle.ab_theory.specs.Parts as parts;
ghost use Rattle.ab_judgement_forms.specs.PartReadings.{name_read, HoldsName};

use ab_judgement_forms::{PartName, under_all};
use ab_norm::instantiate;
use ab_norm::store::{Store, TermId};
use ab_norm::types::{Steps, TypeTable};
use std::alloc::{AllocError, Global};

/// What stands under the names, with the terms in their places.
pub(crate) fn put_under<L>(
    alloc: Global,
    types: &TypeTable,
    store: &mut Store,
    names: &[PartName],
    terms: &[TermId],
    term: TermId,
    steps: &mut Steps<L>,
) -> Result<TermId, AllocError>
    requires store { IsTypedBy types.now store.old }
    requires names { All (HoldsName types.now) names.now }
    requires terms { All (Holds store.old) terms.now }
    requires term { Holds store.old term }
    ensures held { IfOk result (λ r. Holds store.new r) }
    ensures tree { IfOk result (λ r. tree_of types.now store.new r
        ≡ parts.put_under (map (name_read types.now) names.now) (map (tree_of types.now store.old) terms.now) (tree_of types.now store.old term)) }
    ensures adds { AddsTypedTerms types.now store.old store.new }
    ensures steps { steps.old ≤ steps.new }
{
    let abstraction = under_all(alloc, types, store, names, term)?;
    instantiate(alloc, types, store, abstraction, terms, steps)
}
