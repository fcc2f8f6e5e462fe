//! What becomes of the quantifiers and antecedents in front of a formula that is used.
use ab_norm::name::Name;
use ab_norm::store::TermId;
use ab_norm::types::TypeId;

/// What becomes of a quantifier or of an antecedent.
#[derive(Drop)]
pub enum Part {
    /// A new variable of that hint and type is put for the name of the `forall`.
    Variable(Name, TypeId),
    /// This term is put for the name of the `forall`.
    Given(TermId),
    /// A constant of the type is put for the name of the `nabla`.
    Constant(TypeId),
    /// The antecedent is taken off.
    Antecedent,
}
