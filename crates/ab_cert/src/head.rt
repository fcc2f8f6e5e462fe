//! Heads of the terms of a certificate.
use crate::type_tree::TypeTree;
use ab_name::Name;

/// A logical constant, with the type or the level that it carries.
#[derive(Drop)]
pub enum CertSign {
    True,
    False,
    And,
    Or,
    Arrow,
    Equal(TypeTree),
    Forall(TypeTree),
    Exists(TypeTree),
    Nabla(TypeTree),
    Judge,
    Focus,
    Star(u128),
    At(u128),
    Plus(u128),
    Hash(u128),
    Pi(TypeTree),
    Imply,
    With,
}

/// The head of a term.
#[derive(Drop)]
pub enum CertHead {
    Const(Name),
    Logic(CertSign),
    /// A nominal constant, by its number, and its type.
    Nominal(u128, TypeTree),
    /// A variable, by its name.
    Cell(Name),
    /// A bound variable, by how many binders stand between.
    Index(usize),
}
