//! Written types.
ghost use Rattle.std.specs.Prelude.{◌≡◌, bytes_eq, codes};
ghost use Rattle.ab_store.specs.ab_types.specs.Entries.{kinds, constants, IsExtendedBy};
ghost use Rattle.ab_store.specs.ab_types.specs.Sound.{IsTable};
ghost use Rattle.ab_syntax.specs.ab_expressions.specs.SyntaxTrees as trees;
ghost use Rattle.ab_meaning.specs.Types.{type_place};
ghost use Rattle.ab_inference.specs.WrittenTypes.{TypeAnswers, WrittenAnswers, KindAnswers};

use crate::fault::InferFault;
use ab_store::name::Name;
use ab_store::types::{TableFault, TypeId, TypeTable};
use ab_syntax::TypeParse;
use std::alloc::Global;

/// A written type, and where `prop` stands in it.
#[derive(Clone, Copy)]
pub struct Written {
    pub ty: TypeId,
    /// Nowhere.
    pub is_free: bool,
    /// At most as the result.
    pub is_declarable: bool,
}

/// The type that is declared so: `prop` may stand in it as the result alone. `Unknown` has the first name in it that is
/// no kind, `TypeClash` the place where it begins.
pub fn read_type(
    alloc: Global,
    types: &mut TypeTable,
    parse: &TypeParse,
) -> Result<TypeId, InferFault>
    ensures answer { TypeAnswers types.old types.new (trees.type_of parse.now) result }
    ensures kinds { kinds types.new ≡ kinds types.old }
    ensures constants { constants types.new ≡ constants types.old }
    ensures kept { IsExtendedBy types.old types.new }
    ensures table { IsTable types.new }
{
    let written = match read_written(alloc, types, parse) {
        Ok(written) => written,
        Err(fault) => return Err(fault),
    };
    if written.is_declarable {
        Ok(written.ty)
    } else {
        Err(InferFault::TypeClash(place_of_type(parse)))
    }
}

/// Where a written type begins.
fn place_of_type(parse: &TypeParse) -> usize
    ensures { result ≡ type_place (trees.type_of parse.now) }
{
    match parse {
        TypeParse::Base(_, place) => *place,
        TypeParse::Arrow(from, _) => place_of_type(from),
    }
}

/// The type that is written so, in an expression.
pub fn read_written(
    alloc: Global,
    types: &mut TypeTable,
    parse: &TypeParse,
) -> Result<Written, InferFault>
    ensures answer { WrittenAnswers types.old types.new (trees.type_of parse.now) result }
    ensures kinds { kinds types.new ≡ kinds types.old }
    ensures constants { constants types.new ≡ constants types.old }
    ensures kept { IsExtendedBy types.old types.new }
    ensures table { IsTable types.new }
{
    match parse {
        TypeParse::Base(name, _) => {
            let read = read_kind(alloc, types, name);
            read
        }
        TypeParse::Arrow(from, to) => {
            let from = match read_written(alloc, types, from) {
                Ok(from) => from,
                Err(fault) => return Err(fault),
            };
            let to = match read_written(alloc, types, to) {
                Ok(to) => to,
                Err(fault) => return Err(fault),
            };
            let ty = types.arrow(from.ty, to.ty)?;
            Ok(Written {
                ty,
                is_free: from.is_free & to.is_free,
                is_declarable: from.is_free & to.is_declarable,
            })
        }
    }
}

/// Whether it is the name of the formulas' kind.
fn is_prop(name: &Name) -> bool
    ensures { result ≡ bytes_eq name.now (codes "prop") }
{
    name.as_str() == "prop"
}

/// The type of a kind.
fn read_kind(alloc: Global, types: &mut TypeTable, name: &Name) -> Result<Written, InferFault>
    ensures answer { KindAnswers types.old types.new name.now result }
    ensures kinds { kinds types.new ≡ kinds types.old }
    ensures constants { constants types.new ≡ constants types.old }
    ensures kept { IsExtendedBy types.old types.new }
    ensures table { IsTable types.new }
{
    let is_free = !is_prop(name);
    match types.base(name) {
        Ok(ty) => Ok(Written {
            ty,
            is_free,
            is_declarable: true,
        }),
        Err(TableFault::UnknownKind) => Err(InferFault::Unknown(name.copy(alloc)?)),
        Err(TableFault::Clash) => unreachable!(),
        Err(TableFault::Memory(error)) => Err(InferFault::Memory(error)),
    }
}
