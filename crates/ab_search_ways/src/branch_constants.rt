//! Nominal constants of a branch.
ghost use Rattle.std.specs.Prelude.{◌≡◌, ◌<◌, ◌≤◌, ℕ, nat_lt, length, get_or, true, false, All, IfOk, OnOk};
ghost use Rattle.ab_norm.specs.ab_types.specs.Ids.{HoldsType, type_of};
ghost use Rattle.ab_norm.specs.ab_types.specs.Entries.{Table};
ghost use Rattle.ab_norm.specs.declared.nominal.Nominal.{Nominal as ANominal};
ghost use Rattle.ab_norm.specs.Nominals.{nominal_of, HoldsNominal};
ghost use Rattle.ab_unifiers.specs.Choices as plain;
ghost use Rattle.ab_instances.specs.ListReadings.{names_read};

use ab_instances::choices;
use ab_norm::Nominal;
use ab_norm::types::{TypeId, TypeTable};
use std::alloc::{AllocError, Global};

/// A constant of the type that none of these is: it has the least number, from 1 on, that none of them has.
pub fn new_constant(
    alloc: Global,
    types: &TypeTable,
    held: &[Nominal],
    ty: TypeId,
) -> Result<Nominal, AllocError>
    requires held { All (HoldsNominal types.now) held.now }
    requires ty { HoldsType types.now ty }
    ensures reads { IfOk result (λ a. nominal_of types.now a ≡ plain.new_constant (names_read types.now held.now) (type_of types.now ty)) }
    ensures held { IfOk result (HoldsNominal types.now) }
{
    let only = choices(alloc, types, &[ty], &[], held)?;
    let list = only.as_slice()[0].as_slice();
    Ok(list[0])
}

/// Where the constant has its place by number: behind those whose number isn't greater, up to the first that is.
fn place_of(names: &[Nominal], a: Nominal) -> usize
    ensures within { result ≤ length names.now }
    ensures before { (k : ℕ) (d : ANominal) → k < result → nat_lt a.number (get_or names.now k d).number ≡ false }
    ensures behind { (d : ANominal) → result < length names.now → nat_lt a.number (get_or names.now result d).number ≡ true }
{
    for place in 0..names.len() {
        if a.number < names[place].number {
            return place;
        }
    }
    names.len()
}

/// These, and the constant in its place by number.
pub fn with_placed(alloc: Global, names: &[Nominal], a: Nominal) -> Result<Vec<Nominal>, AllocError>
    ensures held { IfOk result (λ list. (types : Table) → All (HoldsNominal types) names.now → HoldsNominal types a → All (HoldsNominal types) list.items) }
    ensures reads { IfOk result (λ list. (types : Table) → names_read types list.items ≡ plain.placed (nominal_of types a) (names_read types names.now)) }
{
    let mut list = Vec::from_slice(alloc, names)?;
    let place = place_of(names, a);
    list.insert(place, a)?;
    Ok(list)
}
