//! A permutation that sends listed constants where they have to go.
ghost use Rattle.std.specs.Prelude.{◌≡◌, ◌≢◌, ◌↔◌, true, map, IfOk, OnOk, Contains};
ghost use Rattle.ab_term.specs.Names.{moved_by};
ghost use Rattle.ab_store.specs.ab_types.specs.Entries.{Table};
ghost use Rattle.ab_store.specs.ab_types.specs.Sound.{IsTable};
ghost use Rattle.ab_norm.specs.Nominals.{nominal_of, pairs_of, HoldsNominal, HoldsPairs};
ghost use Rattle.ab_norm.specs.NameMatches.{IsOneToOne, Sends};
ghost use Rattle.ab_norm.specs.PermutationTables.{retargeted, Permutes, Includes, Settles};

use crate::equality_up_to_names::is_one;
use crate::nominal::{Nominal, Swap};
use std::alloc::{AllocError, Global};

/// What the table makes of the constant.
pub(crate) fn moved_constant(table: &[Swap], a: Nominal) -> Nominal
    ensures { (types : Table) → IsTable types → HoldsPairs types table.now → HoldsNominal types a →
        HoldsNominal types result × (nominal_of types result ≡ moved_by (pairs_of types table.now) (nominal_of types a)) }
{
    for swap in table {
        if is_one(swap.from, a) {
            return swap.to;
        }
    }
    a
}

/// Whether the constant stands on the left of a pair.
fn stands(table: &[Swap], a: Nominal) -> bool
    ensures { (result ≡ true) ↔ Contains (map (λ p. p.from) table.now) a }
{
    for swap in table {
        if is_one(swap.from, a) {
            return true;
        }
    }
    false
}

/// Puts the constant into the table, where it isn't there: it stays as it is.
fn include(table: &mut Vec<Swap>, a: Nominal) -> Result<(), AllocError>
    ensures { OnOk result ((types : Table) → IsTable types → HoldsNominal types a → Permutes types table.old.items →
        Includes types table.old.items table.new.items a) }
{
    if !stands(table, a) {
        table.push(Swap { from: a, to: a })?;
    }
    Ok(())
}

/// The one of the two that isn't the constant, and else the constant.
fn other_of(x: Nominal, y: Nominal, a: Nominal) -> Nominal
    ensures first { a ≡ x → result ≡ y }
    ensures second { a ≢ x → a ≡ y → result ≡ x }
    ensures neither { a ≢ x → a ≢ y → result ≡ a }
{
    if is_one(a, x) {
        y
    } else if is_one(a, y) {
        x
    } else {
        a
    }
}

/// The table, with each of the two constants on the right for the other.
fn exchange(alloc: Global, table: &[Swap], x: Nominal, y: Nominal) -> Result<Vec<Swap>, AllocError>
    ensures { IfOk result (λ made. (types : Table) → IsTable types → HoldsNominal types x → HoldsNominal types y → HoldsPairs types table.now →
        HoldsPairs types made.items × (pairs_of types made.items ≡ map (retargeted (nominal_of types x) (nominal_of types y)) (pairs_of types table.now))) }
{
    let mut made = Vec::new(alloc);
    for swap in table {
        made.push(Swap {
            from: swap.from,
            to: other_of(x, y, swap.to),
        })?;
    }
    Ok(made)
}

/// The table, changed so that it sends the pair.
fn settle(alloc: Global, table: &mut Vec<Swap>, pair: Swap) -> Result<(), AllocError>
    requires { pair.from.ty ≡ pair.to.ty }
    ensures { OnOk result ((types : Table) → IsTable types → HoldsNominal types pair.from → HoldsNominal types pair.to → Permutes types table.old.items →
        Settles types table.old.items table.new.items pair) }
{
    include(table, pair.from)?;
    include(table, pair.to)?;
    let now = moved_constant(table, pair.from);
    *table = exchange(alloc, table, now, pair.to)?;
    Ok(())
}

/// The table of a permutation that sends all the pairs.
pub(crate) fn complete(alloc: Global, decided: &[Swap]) -> Result<Vec<Swap>, AllocError>
    requires { IsOneToOne decided.now }
    ensures { IfOk result (λ table. (types : Table) → IsTable types → HoldsPairs types decided.now →
        Permutes types table.items × Sends types (moved_by (pairs_of types table.items)) decided.now) }
{
    let mut table = Vec::new(alloc);
    for pair in decided {
        settle(alloc, &mut table, *pair)?;
    }
    Ok(table)
}
