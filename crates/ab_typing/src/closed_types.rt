//! Closed terms whose types are known.
ghost use Rattle.std.specs.Prelude.{◌≡◌, true, Contains, OnOk};
ghost use Rattle.ab_formulas.specs.GrowingLists.{GainsOnly};

use ab_store::TermId;
use ab_store::types::TypeId;
use std::alloc::AllocError;
use std::collections::BTreeSet;

/// A term and its type.
#[derive(Clone, Copy, PartialEq, Eq, PartialOrd, Ord)]
pub struct Typed {
    pub id: TermId,
    pub ty: TypeId,
}

/// Whether the term is known to be of the type.
pub fn is_known(known: &BTreeSet<Typed>, one: Typed) -> bool
    ensures { result ≡ true → Contains known.now.keys one }
{
    known.contains(&one)
}

/// Keeps that the term is of the type.
pub fn know(known: &mut BTreeSet<Typed>, one: Typed) -> Result<(), AllocError>
    ensures { OnOk result (GainsOnly known.old.keys one known.new.keys) }
{
    known.insert(one)?;
    Ok(())
}
