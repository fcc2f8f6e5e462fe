//! The numbers by which kinds, types and constants of a table are named.
ghost use Rattle.std.specs.Prelude.{◌≡◌, max};
ghost use Rattle.ab_types.specs.LastTypes.{types_up_to};

/// A kind of a table.
#[derive(Clone, Copy, PartialEq, Eq, Hash)]
pub struct KindId(pub(crate) usize);

/// A type of a table. In one table equal types have equal ids.
#[derive(Clone, Copy, PartialEq, Eq, PartialOrd, Ord, Hash)]
pub struct TypeId(pub(crate) usize);

/// A constant of a table.
#[derive(Clone, Copy, PartialEq, Eq, Hash)]
pub struct ConstId(pub(crate) usize);

/// How a type is made.
#[derive(Clone, Copy, PartialEq, Eq, Hash)]
pub enum TypeView {
    /// A kind.
    Base(KindId),
    /// The functions from the first type to the second.
    Arrow(TypeId, TypeId),
}

/// The later of two types, where one is told.
pub fn later(first: Option<TypeId>, second: Option<TypeId>) -> Option<TypeId>
    ensures { types_up_to result ≡ max (types_up_to first) (types_up_to second) }
{
    match (first, second) {
        (Some(one), Some(other)) if other.0 <= one.0 => first,
        (_, None) => first,
        _ => second,
    }
}
