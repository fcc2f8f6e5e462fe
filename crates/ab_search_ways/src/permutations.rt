//! Permutations that do what a map of some constants does.
ghost use Rattle.std.specs.Prelude.{◌≡◌, ◌≢◌, ◌↔◌, ◌++◌, true, List, length, map, All, AllPairs, IfOk};
ghost use Rattle.ab_term.specs.Terms.{Read};
ghost use Rattle.ab_term.specs.Names.{same_nominal, permute, IsPermutationTable};
ghost use Rattle.ab_term.proofs.Permuting.{exchange, moved};
ghost use Rattle.ab_norm.specs.ab_types.specs.Sound.{IsTable};
ghost use Rattle.ab_norm.specs.declared.nominal.Nominal.{Nominal as ANominal};
ghost use Rattle.ab_norm.specs.Nominals.{nominal_of, pairs_of, HoldsNominal, HoldsPairs};
ghost use Rattle.ab_instances.specs.ListReadings.{names_read};
ghost use Rattle.ab_search_trees.specs.Maps.{mapping};
ghost use Rattle.ab_search_trees.specs.Guesses.{HoldsOf};

use ab_instances::outside;
use ab_norm::types::TypeTable;
use ab_norm::types::laws::has_unique_ids;
use ab_norm::{Nominal, Permutation, Swap, Swaps};
use std::alloc::{AllocError, Global};

/// Whether the two are the same.
fn are_same(a: Nominal, b: Nominal) -> bool
    ensures { (result ≡ true) ↔ (a ≡ b) }
{
    a == b
}

/// Whether the two constants are one.
fn is_one(types: &TypeTable, a: Nominal, b: Nominal) -> bool
    requires table { IsTable types.now }
    requires a { HoldsNominal types.now a }
    requires b { HoldsNominal types.now b }
    ensures { result ≡ same_nominal (nominal_of types.now a) (nominal_of types.now b) }
{
    let _ = types;
    are_same(a, b)
}

/// The constant, or of the two the other one.
fn exchanged_constant(types: &TypeTable, x: Nominal, y: Nominal, a: Nominal) -> Nominal
    requires table { IsTable types.now }
    requires x { HoldsNominal types.now x }
    requires y { HoldsNominal types.now y }
    requires a { HoldsNominal types.now a }
    ensures reads { nominal_of types.now result ≡ exchange (nominal_of types.now x) (nominal_of types.now y) (nominal_of types.now a) }
    ensures held { HoldsNominal types.now result }
{
    if is_one(types, a, x) {
        y
    } else if is_one(types, a, y) {
        x
    } else {
        a
    }
}

/// The constants, of the two each for the other.
fn exchange_all(
    alloc: Global,
    types: &TypeTable,
    x: Nominal,
    y: Nominal,
    names: &[Nominal],
) -> Result<Vec<Nominal>, AllocError>
    requires table { IsTable types.now }
    requires x { HoldsNominal types.now x }
    requires y { HoldsNominal types.now y }
    requires names { All (HoldsNominal types.now) names.now }
    ensures list { IfOk result (λ list. names_read types.now list.items ≡ map (exchange (nominal_of types.now x) (nominal_of types.now y)) (names_read types.now names.now)) }
    ensures held { IfOk result (λ list. All (HoldsNominal types.now) list.items) }
{
    let mut list = Vec::new(alloc);
    for a in names {
        list.push(exchanged_constant(types, x, y, *a))?;
    }
    Ok(list)
}

/// What becomes of all these constants, of which the first are the names, when each name is sent to its target, the last first,
/// and the two change places.
fn moved_all(
    alloc: Global,
    types: &TypeTable,
    names: &[Nominal],
    targets: &[Nominal],
    all: &[Nominal],
) -> Result<Vec<Nominal>, AllocError>
    requires table { IsTable types.now }
    requires targets { All (HoldsNominal types.now) targets.now }
    requires all { All (HoldsNominal types.now) all.now }
    requires as_many { length targets.now ≡ length names.now }
    requires front { (rest : List ANominal) × (all.now ≡ names.now ++ rest) }
    ensures list { IfOk result (λ list. names_read types.now list.items ≡ map (moved (names_read types.now names.now) (names_read types.now targets.now)) (names_read types.now all.now)) }
    ensures held { IfOk result (λ list. All (HoldsNominal types.now) list.items) }
{
    let mut now = Vec::from_slice(alloc, all)?;
    let count = names.len();
    for done in 0..count {
        let place = count - 1 - done;
        now = exchange_all(alloc, types, now[place], targets[place], &now)?;
    }
    Ok(now)
}

/// Each of the first list, and what it becomes.
fn pair_up(alloc: Global, names: &[Nominal], now: &[Nominal]) -> Result<Vec<Swap>, AllocError>
    requires as_many { length now.now ≡ length names.now }
    ensures from { IfOk result (λ list. map (λ p. p.from) list.items ≡ names.now) }
    ensures to { IfOk result (λ list. map (λ p. p.to) list.items ≡ now.now) }
{
    let mut list = Vec::new(alloc);
    for place in 0..names.len() {
        list.push(Swap {
            from: names[place],
            to: now[place],
        })?;
    }
    Ok(list)
}

/// A permutation that does on terms over these constants what the map to the targets does.
pub fn permutation_of(
    alloc: Global,
    types: &TypeTable,
    names: &[Nominal],
    targets: &[Nominal],
) -> Result<Permutation, AllocError>
    requires names { All (HoldsNominal types.now) names.now }
    requires targets { All (HoldsNominal types.now) targets.now }
    requires once { AllPairs (λ a b. a ≢ b) (names_read types.now names.now) }
    requires different { AllPairs (λ a b. a ≢ b) (names_read types.now targets.now) }
    requires types { map (λ a. a.type) (names_read types.now targets.now) ≡ map (λ b. b.type) (names_read types.now names.now) }
    ensures held { IfOk result (λ p. HoldsPairs types.now p.pairs) }
    ensures table { IfOk result (λ p. IsPermutationTable (pairs_of types.now p.pairs)) }
    ensures does { IfOk result (λ p. (t : Read) → HoldsOf (names_read types.now names.now) t →
        permute (pairs_of types.now p.pairs) t ≡ permute (mapping (names_read types.now names.now) (names_read types.now targets.now)) t) }
{
    has_unique_ids(types);
    let mut all = Vec::from_slice(alloc, names)?;
    let others = outside(alloc, types, targets, names)?;
    all.extend_from_slice(&others)?;
    let now = moved_all(alloc, types, names, targets, &all)?;
    let pairs = pair_up(alloc, &all, &now)?;
    Ok(Permutation {
        pairs: Swaps::from_vec(pairs),
    })
}
