//! Types with fewer arguments.
ghost use Rattle.std.specs.Prelude.{◌≡◌, IfOk};
ghost use Rattle.ab_norm.specs.ab_types.specs.Entries.{kinds, constants, IsExtendedBy};
ghost use Rattle.ab_norm.specs.ab_types.specs.Sound.{IsTable};
ghost use Rattle.ab_norm.specs.ab_types.specs.Ids.{HoldsType, type_of};
ghost use Rattle.ab_unifiers.specs.Patterns as solve;

use ab_norm::types::{TypeId, TypeTable, TypeView};
use std::alloc::AllocError;

/// The type without the arguments whose flag is not set.
pub fn kept_type(types: &mut TypeTable, ty: TypeId, keep: &[bool]) -> Result<TypeId, AllocError>
    requires { HoldsType types.old ty }
    ensures held { IfOk result (λ r. HoldsType types.new r) }
    ensures reads { IfOk result (λ r. type_of types.new r ≡ solve.kept_type keep.now (type_of types.old ty)) }
    ensures kept { IsExtendedBy types.old types.new }
    ensures kinds { kinds types.new ≡ kinds types.old }
    ensures constants { constants types.new ≡ constants types.old }
    ensures table { IsTable types.new }
{
    // a table is one from the start
    let _ = types.len();
    match keep {
        [] => Ok(ty),
        [first, rest @ ..] => match types.view(ty) {
            TypeView::Base(_) => Ok(ty),
            TypeView::Arrow(from, to) => {
                let left = kept_type(types, to, rest)?;
                if *first {
                    types.arrow(from, left)
                } else {
                    Ok(left)
                }
            }
        },
    }
}
