//! The names of the `pi`s under which a part of a formula in focus stands.
ghost use Rattle.std.specs.Prelude.{◌≡◌, map, All, IfOk};
ghost use Rattle.ab_norm.specs.ab_store.specs.Trees.{Holds, tree_of};
ghost use Rattle.ab_norm.specs.ab_store.specs.Naming.{IsTypedBy};
ghost use Rattle.ab_norm.specs.NodeGrowth.{AddsTypedTerms};
ghost use Rattle.ab_theory.specs.Parts as parts;
ghost use Rattle.ab_judgement_forms.specs.PartReadings.{name_read, HoldsName};

use ab_norm::name::Name;
use ab_norm::store::{Store, TermId};
use ab_norm::types::{TypeId, TypeTable};
use std::alloc::{AllocError, Global};

/// A name that a formula in focus binds by `pi`: its hint and its type.
#[derive(Drop)]
pub struct PartName {
    pub hint: Name,
    pub ty: TypeId,
}

/// The names again.
pub fn copy_names(alloc: Global, names: &[PartName]) -> Result<Vec<PartName>, AllocError>
    ensures { IfOk result (λ list. list.items ≡ names.now) }
{
    let mut list = Vec::new(alloc);
    for name in names {
        let hint = name.hint.copy(alloc)?;
        list.push(PartName { hint, ty: name.ty })?;
    }
    Ok(list)
}

/// What stands under the names, the first outermost.
pub fn under_all(
    alloc: Global,
    types: &TypeTable,
    store: &mut Store,
    names: &[PartName],
    term: TermId,
) -> Result<TermId, AllocError>
    requires store { IsTypedBy types.now store.old }
    requires names { All (HoldsName types.now) names.now }
    requires term { Holds store.old term }
    ensures held { IfOk result (λ r. Holds store.new r) }
    ensures tree { IfOk result (λ r. tree_of types.now store.new r ≡ parts.under_all (map (name_read types.now) names.now) (tree_of types.now store.old term)) }
    ensures adds { AddsTypedTerms types.now store.old store.new }
{
    match names {
        [] => Ok(term),
        [first, rest @ ..] => {
            let inner = under_all(alloc, types, store, rest, term)?;
            let hint = first.hint.copy(alloc)?;
            store.lam(first.ty, hint, inner)
        }
    }
}
