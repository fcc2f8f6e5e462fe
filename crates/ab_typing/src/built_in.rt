//! The built-in types of a table.
ghost use Rattle.std.specs.Prelude.{IfOk};
ghost use Rattle.ab_typing.specs.HeadArguments.{AreBuiltIn};

use ab_store::name::Name;
use ab_store::types::{TypeId, TypeTable, TypeView};
use std::alloc::{AllocError, Global};

/// The ids of `prop`, `o` and `olist`.
#[derive(Clone, Copy)]
pub struct BuiltIn {
    pub prop: TypeId,
    pub o: TypeId,
    pub olist: TypeId,
}

/// The built-in types, which are found in the type of `member`.
pub fn built_in(alloc: Global, types: &TypeTable) -> Result<BuiltIn, AllocError>
    ensures { IfOk result (AreBuiltIn types.now) }
{
    let name = Name::from_text(alloc, "member")?;
    let Some(member) = types.look(&name) else {
        unreachable!();
    };
    let ty = types.const_type(member);
    let TypeView::Arrow(o, rest) = types.view(ty) else {
        unreachable!();
    };
    let TypeView::Arrow(olist, prop) = types.view(rest) else {
        unreachable!();
    };
    Ok(BuiltIn { prop, o, olist })
}
