//! The type of formulas.
ghost use Rattle.std.specs.Prelude.{◌≡◌, IfOk};
ghost use Rattle.ab_term.specs.Types.{prop};
ghost use Rattle.ab_norm.specs.ab_types.specs.Entries.{kinds, constants, IsExtendedBy};
ghost use Rattle.ab_norm.specs.ab_types.specs.Ids.{HoldsType, type_of};
ghost use Rattle.ab_norm.specs.ab_types.specs.Sound.{IsTable};

use ab_norm::name::Name;
use ab_norm::types::{TableFault, TypeId, TypeTable};
use std::alloc::{AllocError, Global};

/// The type of formulas.
pub fn formula_type(alloc: Global, types: &mut TypeTable) -> Result<TypeId, AllocError>
    requires { IsTable types.old }
    ensures held { IfOk result (HoldsType types.new) }
    ensures is { IfOk result (λ ty. type_of types.new ty ≡ prop) }
    ensures kinds { kinds types.new ≡ kinds types.old }
    ensures constants { constants types.new ≡ constants types.old }
    ensures kept { IsExtendedBy types.old types.new }
    ensures table { IsTable types.new }
{
    let name = Name::from_text(alloc, "prop")?;
    match types.base(&name) {
        Ok(ty) => Ok(ty),
        Err(TableFault::UnknownKind | TableFault::Clash) => unreachable!(),
        Err(TableFault::Memory(fault)) => Err(fault),
    }
}
