//! What is taken off a formula, with what was put there.
use ab_norm::Nominal;
use ab_norm::store::TermId;

/// What is taken off the formula, one after another.
#[derive(Drop)]
pub enum Stage {
    /// A `forall`, with the term that is put for its name.
    Instance(TermId),
    /// A `nabla`: with this constant for its name, the rest is this formula.
    Chosen(Nominal, TermId),
    /// An antecedent.
    Antecedent,
}
