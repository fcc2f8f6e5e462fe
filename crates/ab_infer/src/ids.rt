//! The ids and numbers that elaboration asks for.
ghost use Rattle.std.specs.Prelude.{◌≡◌, IfOk, Contains};
ghost use Rattle.ab_norm.specs.ab_types.specs.Entries.{kinds, first_entries};
ghost use Rattle.ab_norm.specs.ab_types.specs.Sound.{IsTable};
ghost use Rattle.ab_norm.specs.ab_types.specs.Ids.{HoldsType, type_of};
ghost use Rattle.ab_term.specs.Types.{kind};
ghost use Rattle.ab_inference.specs.Inferences.{IsFormulas};
ghost use Rattle.ab_infer.specs.Rows.{AddsTypes};
ghost use Rattle.ab_infer.specs.Outcomes.{AreNumbers, number_of};

use crate::name_meanings::nominal_number;
use ab_inference::Formulas;
use ab_norm::name::Name;
use ab_norm::types::{TableFault, TypeId, TypeTable};
use std::alloc::{AllocError, Global};

/// The number of a nominal name, and 0 of any other.
fn number(name: &Name) -> u128
    ensures { result ≡ number_of name.now }
{
    nominal_number(name).unwrap_or(0)
}

/// The numbers of nominal names.
pub(crate) fn numbers(alloc: Global, names: &[Name]) -> Result<Vec<u128>, AllocError>
    ensures { IfOk result (λ found. AreNumbers names.now found.items) }
{
    let mut found = Vec::new(alloc);
    for name in names {
        found.push(number(name))?;
    }
    Ok(found)
}

/// The type of a kind that each table has.
pub(crate) fn kind_type(
    alloc: Global,
    types: &mut TypeTable,
    text: &str,
) -> Result<TypeId, AllocError>
    requires table { IsTable types.old }
    requires first { Contains (kinds first_entries) text.now }
    ensures held { IfOk result (HoldsType types.new) }
    ensures is { IfOk result (λ id. type_of types.new id ≡ kind text.now) }
    ensures adds { AddsTypes types.old types.new }
    ensures table { IsTable types.new }
{
    let name = Name::from_text(alloc, text)?;
    match types.base(&name) {
        Ok(id) => Ok(id),
        Err(TableFault::Memory(fault)) => Err(fault),
        Err(TableFault::UnknownKind) | Err(TableFault::Clash) => unreachable!(),
    }
}

/// The types of formulas.
pub fn formulas(alloc: Global, types: &mut TypeTable) -> Result<Formulas, AllocError>
    requires { IsTable types.old }
    ensures formulas { IfOk result (IsFormulas types.new) }
    ensures adds { AddsTypes types.old types.new }
    ensures table { IsTable types.new }
{
    let prop = kind_type(alloc, types, "prop")?;
    let o = kind_type(alloc, types, "o")?;
    Ok(Formulas { prop, o })
}
