//! Clauses of a certificate, and replacements.
use crate::members::Members;
use crate::term_tree::CertTree;
use crate::type_tree::TypeTree;
use ab_name::Name;

/// A variable of a clause.
#[derive(Drop)]
pub struct CertVar {
    pub name: Name,
    pub ty: TypeTree,
}

/// A clause.
#[derive(Drop)]
pub struct CertClause {
    pub variables: Members<CertVar>,
    pub head: CertTree,
    pub body: CertTree,
}

/// What is put for a nominal constant.
#[derive(Drop)]
pub struct CertReplace {
    pub number: u128,
    pub ty: TypeTree,
    pub to: CertTree,
}
