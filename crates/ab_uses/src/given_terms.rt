//! Terms that are given for bound names.
use ab_norm::name::Name;
use ab_norm::store::TermId;
use ab_norm::types::TypeId;

/// A term that is given for the outermost name of a `forall` that is written so, and the type of that name.
#[derive(Drop)]
pub struct GivenTerm {
    pub name: Name,
    pub ty: TypeId,
    pub value: TermId,
}
