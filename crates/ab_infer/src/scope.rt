//! Scopes: what names may stand for.
use ab_norm::Nominal;
use ab_norm::name::Name;
use ab_norm::store::CellId;

/// Whose names may be free.
#[derive(Clone, Copy)]
pub enum Place {
    /// In a proof command, nominal names.
    Proof,
    /// In a clause, words with a capital first letter.
    Clause,
    /// Nowhere else any.
    Elsewhere,
}

/// What names may stand for, beside the table's constants.
#[derive(Drop)]
pub struct Scope {
    /// The sequent's variables.
    pub variables: Vec<CellId>,
    /// The nominal constants whose types are settled.
    pub nominals: Vec<Nominal>,
    pub place: Place,
}

/// A bound name, and the type variable of its binder.
#[derive(Drop)]
pub struct Bound {
    pub name: Name,
    pub node: usize,
}
