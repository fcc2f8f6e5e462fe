//! A proof that is being made.

use ab_proofcmd::hypothesis::steps::kernel::Proof;
use ab_store::TermId;
use ab_store::name::Name;

/// A proof that is being made, of the theorem of this name.
#[derive(Drop)]
pub struct Attempt {
    pub(crate) name: Name,
    /// What the theorem states.
    pub(crate) formula: TermId,
    pub(crate) proof: Proof,
}
