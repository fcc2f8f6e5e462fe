//! Terms that were looked at.
ghost use Rattle.std.specs.Prelude.{◌≡◌, true, Contains, OnOk};
ghost use Rattle.ab_formulas.specs.GrowingLists.{GainsOnly};

use ab_store::TermId;
use std::alloc::AllocError;
use std::collections::BTreeSet;

/// Whether the term is one of them.
pub fn is_seen(seen: &BTreeSet<TermId>, id: TermId) -> bool
    ensures { result ≡ true → Contains seen.now.keys id }
{
    seen.contains(&id)
}

/// Puts the term to them.
pub fn see(seen: &mut BTreeSet<TermId>, id: TermId) -> Result<(), AllocError>
    ensures { OnOk result (GainsOnly seen.old.keys id seen.new.keys) }
{
    seen.insert(id)?;
    Ok(())
}
