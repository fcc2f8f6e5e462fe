//! The maps of a hypothesis's nominal constants into those of a branch, one after another.
ghost use Rattle.std.specs.Prelude.{◌≡◌, ◌≢◌, ◌↔◌, ◌∷◌, true, slice_get, Some, All, AllPairs, IfOk, IfSome};
ghost use Rattle.ab_term.specs.Types.{same_type};
ghost use Rattle.ab_norm.specs.ab_types.specs.Entries.{Table};
ghost use Rattle.ab_norm.specs.ab_types.specs.Ids.{HoldsType, type_of};
ghost use Rattle.ab_norm.specs.ab_types.specs.Sound.{IsTable};
ghost use Rattle.ab_norm.specs.Nominals.{nominal_of, HoldsNominal};
ghost use Rattle.ab_instances.specs.ListReadings.{names_read};
ghost use Rattle.ab_search_trees.specs.Maps.{images_in, targets};
ghost use Rattle.ab_search_ways.specs.MapSteps as steps;
ghost use Rattle.ab_search_ways.specs.MapSteps.{names_of, images_beginning, IsNextOf, IsLookedAt};

use ab_instances::outside;
use ab_norm::Nominal;
use ab_norm::types::laws::has_unique_ids;
use ab_norm::types::{TypeId, TypeTable};
use std::alloc::{AllocError, Global};

/// Whether the two are the same.
fn are_same(a: Nominal, b: Nominal) -> bool
    ensures { (result ≡ true) ↔ (a ≡ b) }
{
    a == b
}

/// Whether the two types are the same.
fn are_same_types(a: TypeId, b: TypeId) -> bool
    ensures { (result ≡ true) ↔ (a ≡ b) }
{
    a == b
}

/// Whether the constant is of the type.
fn is_of_type(types: &TypeTable, a: Nominal, ty: TypeId) -> bool
    requires table { IsTable types.now }
    requires a { HoldsNominal types.now a }
    requires ty { HoldsType types.now ty }
    ensures { result ≡ same_type (nominal_of types.now a).type (type_of types.now ty) }
{
    let _ = types;
    are_same_types(a.ty, ty)
}

/// Whether the two lists are the same.
fn are_same_lists(names: &[Nominal], others: &[Nominal]) -> bool
    ensures { (result ≡ true) ↔ (names.now ≡ others.now) }
{
    names == others
}

/// The constant, and then these.
fn begin_with(a: Nominal, mut names: Vec<Nominal>) -> Result<Vec<Nominal>, AllocError>
    ensures { IfOk result (λ list. list.items ≡ a ∷ names.items) }
{
    names.insert(0, a)?;
    Ok(names)
}

/// Those that stand behind the constant, where it stands first.
fn behind<'a>(names: &'a [Nominal], a: Nominal) -> &'a [Nominal]
    ensures list { (types : Table) → IsTable types → All (HoldsNominal types) names.now → HoldsNominal types a →
        names_read types result.now ≡ steps.behind (nominal_of types a) (names_read types names.now) }
    ensures held { (types : Table) → All (HoldsNominal types) names.now → All (HoldsNominal types) result.now }
{
    let mut left = names;
    while let [b, rest @ ..] = left {
        left = rest;
        if are_same(*b, a) {
            return left;
        }
    }
    left
}

/// The first of the lists of different constants, free ones and of the types of these.
#[cycle(first)]
fn first_images(
    alloc: Global,
    types: &TypeTable,
    names: &[Nominal],
    free: &[Nominal],
) -> Result<Option<Vec<Nominal>>, AllocError>
    requires table { IsTable types.now }
    requires names { All (HoldsNominal types.now) names.now }
    requires free { All (HoldsNominal types.now) free.now }
    ensures first { IfOk result (λ o. names_of types.now o
        ≡ slice_get (images_in (names_read types.now names.now) (names_read types.now free.now)) 0) }
    ensures held { IfOk result (λ o. IfSome o (λ list. All (HoldsNominal types.now) list.items)) }
{
    match names {
        [] => Ok(Some(Vec::new(alloc))),
        [first, rest @ ..] => first_beginning(alloc, types, *first, rest, free, free),
    }
}

/// The first of those lists that begins with one of the candidates, for the first of these and for the rest.
#[cycle(first)]
fn first_beginning(
    alloc: Global,
    types: &TypeTable,
    first: Nominal,
    rest: &[Nominal],
    free: &[Nominal],
    candidates: &[Nominal],
) -> Result<Option<Vec<Nominal>>, AllocError>
    requires table { IsTable types.now }
    requires first { HoldsNominal types.now first }
    requires rest { All (HoldsNominal types.now) rest.now }
    requires free { All (HoldsNominal types.now) free.now }
    requires candidates { All (HoldsNominal types.now) candidates.now }
    ensures first { IfOk result (λ o. names_of types.now o
        ≡ slice_get (images_beginning (nominal_of types.now first) (names_read types.now rest.now) (names_read types.now free.now) (names_read types.now candidates.now)) 0) }
    ensures held { IfOk result (λ o. IfSome o (λ list. All (HoldsNominal types.now) list.items)) }
{
    for a in candidates {
        if is_of_type(types, *a, first.ty) {
            let left = outside(alloc, types, free, &[*a])?;
            if let Some(list) = first_images(alloc, types, rest, &left)? {
                return Ok(Some(begin_with(*a, list)?));
            }
        }
    }
    Ok(None)
}

/// The list behind this one, of the lists of different constants, free ones and of the types of these.
fn next_images(
    alloc: Global,
    types: &TypeTable,
    names: &[Nominal],
    free: &[Nominal],
    now: &[Nominal],
) -> Result<Option<Vec<Nominal>>, AllocError>
    requires table { IsTable types.now }
    requires names { All (HoldsNominal types.now) names.now }
    requires free { All (HoldsNominal types.now) free.now }
    requires once { AllPairs (λ a b. a ≢ b) (names_read types.now free.now) }
    requires now { All (HoldsNominal types.now) now.now }
    ensures next { IfOk result (λ o. IsNextOf (images_in (names_read types.now names.now) (names_read types.now free.now)) (names_read types.now now.now)
        (names_of types.now o)) }
    ensures held { IfOk result (λ o. IfSome o (λ list. All (HoldsNominal types.now) list.items)) }
{
    let [first, others @ ..] = names else {
        return Ok(None);
    };
    let [a, rest @ ..] = now else {
        return Ok(None);
    };
    let left = outside(alloc, types, free, &[*a])?;
    if let Some(list) = next_images(alloc, types, others, &left, rest)? {
        return Ok(Some(begin_with(*a, list)?));
    }
    first_beginning(alloc, types, *first, others, free, behind(free, *a))
}

/// Whether these constants were found.
fn are_found(types: &TypeTable, found: &Option<Vec<Nominal>>, names: &[Nominal]) -> bool
    requires table { IsTable types.now }
    requires found { IfSome found.now (λ list. All (HoldsNominal types.now) list.items) }
    requires names { All (HoldsNominal types.now) names.now }
    ensures { (result ≡ true) ↔ (names_of types.now found.now ≡ Some (names_read types.now names.now)) }
{
    let _ = types;
    match found {
        Some(list) => are_same_lists(list, names),
        None => false,
    }
}

/// Of the images the one to look at behind this one: the first, where these are the constants themselves.
fn looked_at(
    alloc: Global,
    types: &TypeTable,
    names: &[Nominal],
    free: &[Nominal],
    now: &[Nominal],
) -> Result<Option<Vec<Nominal>>, AllocError>
    requires table { IsTable types.now }
    requires names { All (HoldsNominal types.now) names.now }
    requires free { All (HoldsNominal types.now) free.now }
    requires once { AllPairs (λ a b. a ≢ b) (names_read types.now free.now) }
    requires now { All (HoldsNominal types.now) now.now }
    ensures looked { IfOk result (λ o. IsLookedAt (names_read types.now names.now) (names_read types.now free.now) (names_read types.now now.now) (names_of types.now o)) }
    ensures held { IfOk result (λ o. IfSome o (λ list. All (HoldsNominal types.now) list.items)) }
{
    if are_same_lists(now, names) {
        first_images(alloc, types, names, free)
    } else {
        next_images(alloc, types, names, free, now)
    }
}

/// What the constants go to by the map behind this one, of the maps of these into the free constants, which are different;
/// none where it is the last. A map is told by what its constants go to, in order.
pub fn next_map(
    alloc: Global,
    types: &TypeTable,
    names: &[Nominal],
    free: &[Nominal],
    now: &[Nominal],
) -> Result<Option<Vec<Nominal>>, AllocError>
    requires names { All (HoldsNominal types.now) names.now }
    requires free { All (HoldsNominal types.now) free.now }
    requires once { AllPairs (λ a b. a ≢ b) (names_read types.now free.now) }
    requires now { All (HoldsNominal types.now) now.now }
    ensures next { IfOk result (λ o. IsNextOf (targets (names_read types.now names.now) (names_read types.now free.now)) (names_read types.now now.now) (names_of types.now o)) }
    ensures held { IfOk result (λ o. IfSome o (λ list. All (HoldsNominal types.now) list.items)) }
{
    has_unique_ids(types);
    let found = looked_at(alloc, types, names, free, now)?;
    if are_found(types, &found, names) {
        return next_images(alloc, types, names, free, names);
    }
    Ok(found)
}
