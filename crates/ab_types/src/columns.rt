//! The lists in which a table keeps its entries, one for each sort, and the order of all.
ghost use Rattle.std.specs.Prelude.{◌≡◌, ◌<◌, IfOk, OnOk, OnErr, Some, slice_get, length, Contains};
ghost use Rattle.ab_types.specs.Columns.{PutsOnce, AreWith, AreAsBefore};
ghost use Rattle.ab_types.specs.Layout.{Fits, AddsRow};
ghost use Rattle.indexmap.specs.IndexMap.{keys};

use crate::ids::{TypeId, TypeView};
use ab_name::Name;
use indexmap::{IndexMap, IndexSet};
use std::alloc::{AllocError, Global};

/// What an entry of a table is.
#[derive(Clone, Copy)]
pub enum Sort {
    Kind,
    Ty,
    Constant,
}

/// The place of the type, which is put behind the others where it isn't there.
pub fn put_type(
    types: &mut IndexSet<TypeView>,
    order: &mut Vec<Sort>,
    view: TypeView,
) -> Result<usize, AllocError>
    ensures stored { IfOk result (λ place. slice_get types.new.keys place ≡ Some view) }
    ensures puts { OnOk result (PutsOnce view Sort.Ty types.old.keys order.old.items types.new.keys order.new.items) }
    ensures err { OnErr result (AreAsBefore types.old.keys order.old.items types.new.keys order.new.items) }
{
    order.reserve(1)?;
    let (place, added) = types.insert_full(view)?;
    if added {
        order.push_reserved(Sort::Ty);
    }
    Ok(place)
}

/// Puts a kind that isn't there behind the others, and answers its place.
pub fn add_kind(
    kinds: &mut IndexSet<Name>,
    order: &mut Vec<Sort>,
    name: Name,
) -> Result<usize, AllocError>
    requires { ¬ Contains kinds.old.keys name }
    ensures place { IfOk result (λ place. place ≡ length kinds.old.keys) }
    ensures added { OnOk result (AreWith name Sort.Kind kinds.old.keys order.old.items kinds.new.keys order.new.items) }
    ensures err { OnErr result (AreAsBefore kinds.old.keys order.old.items kinds.new.keys order.new.items) }
{
    order.reserve(1)?;
    let (place, _) = kinds.insert_full(name)?;
    order.push_reserved(Sort::Kind);
    Ok(place)
}

/// Puts a constant, of whose name there is none, behind the others, and answers its place.
pub fn add_constant(
    constants: &mut IndexMap<Name, TypeId>,
    order: &mut Vec<Sort>,
    name: Name,
    ty: TypeId,
) -> Result<usize, AllocError>
    requires { ¬ Contains (keys constants.old) name }
    ensures place { IfOk result (λ place. place ≡ length constants.old.entries) }
    ensures added { OnOk result (AreWith (name, ty) Sort.Constant constants.old.entries order.old.items constants.new.entries order.new.items) }
    ensures err { OnErr result (AreAsBefore constants.old.entries order.old.items constants.new.entries order.new.items) }
{
    order.reserve(1)?;
    let place = constants.len();
    constants.insert(name, ty)?;
    order.push_reserved(Sort::Constant);
    Ok(place)
}

/// Drops the last entry.
pub fn drop_row(
    kinds: &mut IndexSet<Name>,
    types: &mut IndexSet<TypeView>,
    constants: &mut IndexMap<Name, TypeId>,
    order: &mut Vec<Sort>,
)
    requires fits { Fits order.old.items kinds.old.keys types.old.keys constants.old.entries }
    requires some { 0 < length order.old.items }
    ensures { AddsRow order.new.items kinds.new.keys types.new.keys constants.new.entries order.old.items kinds.old.keys types.old.keys constants.old.entries }
{
    match order.pop() {
        None => {}
        Some(Sort::Kind) => {
            kinds.pop();
        }
        Some(Sort::Ty) => {
            types.pop();
        }
        Some(Sort::Constant) => {
            constants.pop();
        }
    }
}
