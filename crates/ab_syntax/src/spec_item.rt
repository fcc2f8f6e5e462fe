//! The items of specification files, as they are written.
use crate::command::ClauseParse;
use ab_expressions::{Items, TypeParse};
use ab_name::Name;

/// An item of a specification file that declares something.
#[derive(Drop)]
pub enum SpecItem {
    /// `kind w, .., w type`
    Kind(Items<Name>),
    /// `type w, .., w ty`
    Typed(Items<Name>, TypeParse),
    /// A clause of the program. Its goals are one body, joined by `&` from the left.
    Clause(ClauseParse),
}

/// An item of a specification file.
#[derive(Drop)]
pub enum FileItem {
    /// One that declares something.
    Own(SpecItem),
    /// Other files, whose items come before those of this one.
    Accumulation(Items<Name>),
}
