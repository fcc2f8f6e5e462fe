//! Where heads stand in a term, by the names that they are printed with.
ghost use Rattle.std.specs.Prelude.{◌≡◌, ◌≤◌, ◌++◌, List, ℕ, [], ◌∷◌, length, true, false, nat_lt, IfOk, OnOk, if◌then◌else◌};
ghost use Rattle.std.specs.List.Sorted.{IsPartitionPoint};
ghost use Rattle.ab_store.specs.Trees.{head_reading};
ghost use Rattle.ab_print.specs.PrintedNames.{name_of};
ghost use Rattle.ab_print.specs.Drawings.{IsHeld, AreHeld};
ghost use Rattle.ab_print.specs.Places.{places_of, places_in, places_at, own_name, any_within, IsInOrder, IsPut};
ghost use Rattle.ab_print.specs.BinderNames.{is_this};
ghost use Rattle.ab_print.specs.GoalText.{cell_name};

use crate::drawings::{Part, Seen};
use crate::name_assignment::head_name;
use ab_store::types::TypeTable;
use ab_store::{Head, Store};
use std::alloc::{AllocError, Global};
use std::collections::HashMap;

/// The numbers of the heads that are called so, in order, for each name.
pub(crate) type Places = HashMap<Vec<u8>, Vec<usize>>;

/// Whether one of the numbers, which are in order, lies from the first number on and before the second.
fn lies_within(numbers: &[usize], start: usize, end: usize) -> bool
    requires { IsInOrder numbers.now }
    ensures { result ≡ any_within numbers.now start end }
{
    count_before(numbers, start) < count_before(numbers, end)
}

/// How many of the numbers, which are in order, are less.
fn count_before(numbers: &[usize], limit: usize) -> usize
    requires { IsInOrder numbers.now }
    ensures bound { result ≤ length numbers.now }
    ensures point { IsPartitionPoint (λ n. nat_lt n limit ≡ true) (λ n. nat_lt n limit ≡ false) numbers.now result }
{
    numbers.partition_point(
        |number: &usize| -> bool
            ensures { result ≡ nat_lt number.now limit }
        { *number < limit },
    )
}

/// Whether a head in the part is called so.
pub(crate) fn is_used(places: &Places, part: &Part, name: &[u8]) -> bool
    requires { (x : List ℕ) → IsInOrder (places_at places.now x) }
    ensures { result ≡ any_within (places_at places.now name.now) part.now.start part.now.end }
{
    match places.get(name) {
        Some(numbers) => lies_within(numbers, part.start, part.end),
        None => false,
    }
}

/// Gives the name these places, and answers those that it had.
pub(crate) fn enter(
    alloc: Global,
    places: &mut Places,
    name: &[u8],
    bound: &[usize],
) -> Result<Option<Vec<usize>>, AllocError>
    ensures put { OnOk result (IsPut name.now bound.now places.old places.new) }
    ensures outer { IfOk result (λ outer. places_in outer ≡ places_at places.old name.now) }
{
    let bound = Vec::from_slice(alloc, bound)?;
    let outer = places.insert(Vec::from_slice(alloc, name)?, bound)?;
    Ok(outer)
}

/// Gives the name the places that it had.
pub(crate) fn leave(
    alloc: Global,
    places: &mut Places,
    name: &[u8],
    outer: Option<Vec<usize>>,
) -> Result<(), AllocError>
    ensures { OnOk result (IsPut name.now (places_in outer) places.old places.new) }
{
    match outer {
        Some(numbers) => {
            let _ = places.insert(Vec::from_slice(alloc, name)?, numbers)?;
            Ok(())
        }
        None => {
            let _ = places.remove(name);
            Ok(())
        }
    }
}

/// The numbers, or none where there are none.
fn numbers_in(alloc: Global, found: Option<Vec<usize>>) -> Vec<usize>
    ensures { result.items ≡ places_in found }
{
    match found {
        Some(numbers) => numbers,
        None => Vec::new(alloc),
    }
}

/// Puts a place behind those of the name.
fn add(alloc: Global, places: &mut Places, name: Vec<u8>, place: usize) -> Result<(), AllocError>
    ensures { OnOk result (IsPut name.items (places_at places.old name.items ++ place ∷ []) places.old places.new) }
{
    let mut numbers = numbers_in(alloc, places.remove(name.as_slice()));
    numbers.push(place)?;
    let _ = places.insert(name, numbers)?;
    Ok(())
}

/// Puts a place behind those of the head's own name, where it has one.
fn add_head(
    alloc: Global,
    types: &TypeTable,
    store: &Store,
    head: Head,
    place: usize,
    places: &mut Places,
) -> Result<(), AllocError>
    requires { IsHeld types.now store.now head }
    ensures { OnOk result ((x : List ℕ) → places_at places.new x ≡ places_at places.old x ++
        (if is_this x (name_of (cell_name store.now) [] (head_reading types.now store.now head)) then (place ∷ []) else [])) }
{
    match head_name(alloc, types, store, &[], head)? {
        Some(name) => add(alloc, places, name, place),
        None => Ok(()),
    }
}

/// The places of the heads that no binder binds.
pub(crate) fn own_places(
    alloc: Global,
    types: &TypeTable,
    store: &Store,
    seen: &[Seen],
) -> Result<Places, AllocError>
    requires { AreHeld types.now store.now seen.now }
    ensures { IfOk result (λ places. (x : List ℕ) → places_at places x ≡ places_of (λ s. is_this x (own_name types.now store.now s)) 0 seen.now) }
{
    let mut places = HashMap::new(alloc);
    for (place, one) in seen.iter().enumerate() {
        add_head(alloc, types, store, one.head, place, &mut places)?;
    }
    Ok(places)
}
