//! What a new table holds.
ghost use Rattle.std.specs.Prelude.{◌≡◌, nat_eq, IfOk, OnOk};
ghost use Rattle.std.specs.Cmp.Lexicographic.{pointwise};
ghost use Rattle.indexmap.specs.IndexMap.{insert_entry};
ghost use Rattle.indexmap.specs.IndexSet.{insert_key};
ghost use Rattle.ab_types.specs.Builtin.{first_kinds as kinds_at_first, first_views, first_kept, first_sorts};

use crate::columns::Sort;
use crate::ids::{KindId, TypeId, TypeView};
use ab_name::Name;
use indexmap::{IndexMap, IndexSet};
use std::alloc::{AllocError, Global};

fn insert_kind(kinds: &mut IndexSet<Name>, alloc: Global, text: &str) -> Result<(), AllocError>
    ensures { OnOk result (kinds.new.keys ≡ insert_key (pointwise nat_eq) kinds.old.keys text.now) }
{
    kinds.insert(Name::from_text(alloc, text)?)?;
    Ok(())
}

/// The kinds `prop`, `o` and `olist`.
pub fn first_kinds(alloc: Global) -> Result<IndexSet<Name>, AllocError>
    ensures { IfOk result (λ kinds. kinds.keys ≡ kinds_at_first) }
{
    let mut kinds = IndexSet::new(alloc);
    insert_kind(&mut kinds, alloc, "prop")?;
    insert_kind(&mut kinds, alloc, "o")?;
    insert_kind(&mut kinds, alloc, "olist")?;
    Ok(kinds)
}

/// The types of these kinds, and the types of the built-in constants with their parts.
pub fn first_types(alloc: Global) -> Result<IndexSet<TypeView>, AllocError>
    ensures { IfOk result (λ types. types.keys ≡ first_views) }
{
    let mut types = IndexSet::new(alloc);
    types.insert(TypeView::Base(KindId(0)))?;
    types.insert(TypeView::Base(KindId(1)))?;
    types.insert(TypeView::Base(KindId(2)))?;
    types.insert(TypeView::Arrow(TypeId(2), TypeId(2)))?;
    types.insert(TypeView::Arrow(TypeId(1), TypeId(3)))?;
    types.insert(TypeView::Arrow(TypeId(2), TypeId(0)))?;
    types.insert(TypeView::Arrow(TypeId(1), TypeId(5)))?;
    Ok(types)
}

fn insert_constant(
    constants: &mut IndexMap<Name, TypeId>,
    alloc: Global,
    text: &str,
    ty: TypeId,
) -> Result<(), AllocError>
    ensures { OnOk result (constants.new.entries ≡ insert_entry (pointwise nat_eq) constants.old.entries text.now ty) }
{
    constants.insert(Name::from_text(alloc, text)?, ty)?;
    Ok(())
}

/// The constants `nil`, `::` and `member`.
pub fn first_constants(alloc: Global) -> Result<IndexMap<Name, TypeId>, AllocError>
    ensures { IfOk result (λ constants. constants.entries ≡ first_kept) }
{
    let mut constants = IndexMap::new(alloc);
    insert_constant(&mut constants, alloc, "nil", TypeId(2))?;
    insert_constant(&mut constants, alloc, "::", TypeId(4))?;
    insert_constant(&mut constants, alloc, "member", TypeId(6))?;
    Ok(constants)
}

/// The sorts of the entries.
pub fn first_order(alloc: Global) -> Result<Vec<Sort>, AllocError>
    ensures { IfOk result (λ order. order.items ≡ first_sorts) }
{
    Ok(vec![in alloc;
        Sort::Kind,
        Sort::Kind,
        Sort::Kind,
        Sort::Ty,
        Sort::Ty,
        Sort::Ty,
        Sort::Ty,
        Sort::Ty,
        Sort::Ty,
        Sort::Ty,
        Sort::Constant,
        Sort::Constant,
        Sort::Constant,
    ]?)
}
