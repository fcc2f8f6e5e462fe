//! The permutation by which each of some numbers becomes the next.
ghost use Rattle.std.specs.Prelude.{◌≡◌, ◌≢◌, ◌<◌, ◌↔◌, ◌++◌, [], ◌∷◌, length, AllPairs, IfOk, OnOk, IsTrue};
ghost use Rattle.ab_term.specs.Names.{IsPermutationTable};
ghost use Rattle.ab_norm.specs.ab_types.specs.Entries.{Table};
ghost use Rattle.ab_norm.specs.ab_types.specs.Ids.{HoldsType, type_of};
ghost use Rattle.ab_norm.specs.Nominals.{pairs_of, HoldsPairs};
ghost use Rattle.ab_formulas.specs.Cycles.{constant_at, onward, cycle};
ghost use Rattle.ab_sequents.specs.NameTypes.{StandsAgain};

use ab_norm::types::TypeId;
use ab_norm::{Nominal, Permutation, Swap, Swaps};
use std::alloc::{AllocError, Global};

/// Whether the number of that place stands at a later place too.
fn stands_again(numbers: &[u32], place: usize) -> bool
    requires { place < length numbers.now }
    ensures { IsTrue result ↔ StandsAgain numbers.now place }
{
    for later in place + 1..numbers.len() {
        if numbers[later] == numbers[place] {
            return true;
        }
    }
    false
}

/// Whether no number stands twice.
pub(crate) fn are_different(numbers: &[u32]) -> bool
    ensures { IsTrue result ↔ AllPairs (λ m n. m ≢ n) numbers.now }
{
    for place in 0..numbers.len() {
        if stands_again(numbers, place) {
            return false;
        }
    }
    true
}

/// The constant of that number at the type.
fn nominal_at(ty: TypeId, number: u32) -> Nominal
    ensures number { result.number ≡ number }
    ensures ty { result.ty ≡ ty }
{
    Nominal {
        number: u128::from(number),
        ty,
    }
}

/// Puts behind the others that the first number becomes the second at the type.
fn add(swaps: &mut Vec<Swap>, ty: TypeId, from: u32, to: u32) -> Result<(), AllocError>
    ensures pairs { OnOk result ((types : Table) → pairs_of types swaps.new.items
        ≡ pairs_of types swaps.old.items ++ (constant_at (type_of types ty) from, constant_at (type_of types ty) to) ∷ []) }
    ensures held { OnOk result ((types : Table) → HoldsType types ty → HoldsPairs types swaps.old.items → HoldsPairs types swaps.new.items) }
{
    swaps.push(Swap {
        from: nominal_at(ty, from),
        to: nominal_at(ty, to),
    })?;
    Ok(())
}

/// That each number becomes the next at the type, from the first of them on, and the last that one.
fn add_onward(swaps: &mut Vec<Swap>, ty: TypeId, first: u32, rest: &[u32]) -> Result<(), AllocError>
    ensures pairs { OnOk result ((types : Table) → pairs_of types swaps.new.items
        ≡ pairs_of types swaps.old.items ++ onward (type_of types ty) first first rest.now) }
    ensures held { OnOk result ((types : Table) → HoldsType types ty → HoldsPairs types swaps.old.items → HoldsPairs types swaps.new.items) }
{
    let mut from = first;
    for to in rest {
        add(swaps, ty, from, *to)?;
        from = *to;
    }
    add(swaps, ty, from, first)
}

/// That each of the numbers becomes the next at the type, and the last the first.
fn swaps(alloc: Global, ty: TypeId, numbers: &[u32]) -> Result<Vec<Swap>, AllocError>
    ensures pairs { IfOk result (λ made. (types : Table) → pairs_of types made.items ≡ cycle (type_of types ty) numbers.now) }
    ensures held { IfOk result (λ made. (types : Table) → HoldsType types ty → HoldsPairs types made.items) }
{
    let mut swaps = Vec::new(alloc);
    if let Some((first, rest)) = numbers.split_first() {
        add_onward(&mut swaps, ty, *first, rest)?;
    }
    Ok(swaps)
}

/// The permutation by which each of the numbers becomes the next at the type, and the last the first. Where no number
/// stands twice it is one.
pub fn cycle(alloc: Global, ty: TypeId, numbers: &[u32]) -> Result<Permutation, AllocError>
    ensures pairs { IfOk result (λ by. (types : Table) → pairs_of types by.pairs ≡ cycle (type_of types ty) numbers.now) }
    ensures held { IfOk result (λ by. (types : Table) → HoldsType types ty → HoldsPairs types by.pairs) }
    ensures table { IfOk result (λ by. (types : Table) → AllPairs (λ m n. m ≢ n) numbers.now → IsPermutationTable (pairs_of types by.pairs)) }
{
    let made = swaps(alloc, ty, numbers)?;
    Ok(Permutation {
        pairs: Swaps::from_vec(made),
    })
}
