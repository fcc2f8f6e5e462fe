//! The constants that may be chosen for the `nabla` names of a clause.
ghost use Rattle.std.specs.Prelude.{◌≡◌, ◌∷◌, ◌++◌, map, All, IfOk, OnOk};
ghost use Rattle.ab_norm.specs.ab_types.specs.Ids.{HoldsType, type_of};
ghost use Rattle.ab_norm.specs.ab_types.specs.Sound.{IsTable};
ghost use Rattle.ab_norm.specs.Nominals.{nominal_of, HoldsNominal};
ghost use Rattle.ab_unifiers.specs.Choices as choices;
ghost use Rattle.ab_instances.specs.ListReadings.{names_read};

use crate::names::{Choices, Names, new_constant, of_type, others, with_first};
use ab_norm::Nominal;
use ab_norm::types::laws::has_unique_ids;
use ab_norm::types::{TypeId, TypeTable};
use std::alloc::{AllocError, Global};

/// The choices for names of these types, in lexicographic order: for each name the free constants of its type, in their
/// order, and then a new one. The last list is of the constants that aren't new.
pub fn choices(
    alloc: Global,
    types: &TypeTable,
    names: &[TypeId],
    free: &[Nominal],
    held: &[Nominal],
) -> Result<Choices, AllocError>
    requires names { All (HoldsType types.now) names.now }
    requires free { All (HoldsNominal types.now) free.now }
    requires held { All (HoldsNominal types.now) held.now }
    ensures list { IfOk result (λ list. map (names_read types.now) list
        ≡ choices.choices (map (type_of types.now) names.now) (names_read types.now free.now) (names_read types.now held.now)) }
    ensures held { IfOk result (λ list. All (All (HoldsNominal types.now)) list) }
{
    has_unique_ids(types);
    Ok(Choices::from_vec(choose(alloc, types, names, free, held)?))
}

/// The choices, as a vector.
#[cycle(chosen)]
fn choose(
    alloc: Global,
    types: &TypeTable,
    names: &[TypeId],
    free: &[Nominal],
    held: &[Nominal],
) -> Result<Vec<Names>, AllocError>
    requires table { IsTable types.now }
    requires names { All (HoldsType types.now) names.now }
    requires free { All (HoldsNominal types.now) free.now }
    requires held { All (HoldsNominal types.now) held.now }
    ensures list { IfOk result (λ list. map (names_read types.now) list.items
        ≡ choices.choices (map (type_of types.now) names.now) (names_read types.now free.now) (names_read types.now held.now)) }
    ensures held { IfOk result (λ list. All (All (HoldsNominal types.now)) list.items) }
{
    let mut list = Vec::new(alloc);
    match names {
        [] => {
            list.push(Names::from_vec(Vec::new(alloc)))?;
            Ok(list)
        }
        [first, rest @ ..] => {
            let mut candidates = of_type(alloc, types, *first, free)?;
            candidates.push(new_constant(held, *first))?;
            for a in &candidates {
                choose_after(alloc, types, *a, rest, free, held, &mut list)?;
            }
            Ok(list)
        }
    }
}

/// Adds the choices that begin with the constant, for names of these types behind it.
#[cycle(chosen)]
fn choose_after(
    alloc: Global,
    types: &TypeTable,
    a: Nominal,
    rest: &[TypeId],
    free: &[Nominal],
    held: &[Nominal],
    list: &mut Vec<Names>,
) -> Result<(), AllocError>
    requires table { IsTable types.now }
    requires a { HoldsNominal types.now a }
    requires rest { All (HoldsType types.now) rest.now }
    requires free { All (HoldsNominal types.now) free.now }
    requires held { All (HoldsNominal types.now) held.now }
    requires list { All (All (HoldsNominal types.now)) list.old.items }
    ensures list { OnOk result (map (names_read types.now) list.new.items ≡ map (names_read types.now) list.old.items
        ++ map (λ ns. nominal_of types.now a ∷ ns) (choices.choices (map (type_of types.now) rest.now)
        (choices.others (nominal_of types.now a) (names_read types.now free.now)) (nominal_of types.now a ∷ names_read types.now held.now))) }
    ensures held { OnOk result (All (All (HoldsNominal types.now)) list.new.items) }
{
    let left = others(alloc, types, a, free)?;
    let more = with_first(alloc, a, held)?;
    let choices = choose(alloc, types, rest, &left, &more)?;
    add_behind(alloc, a, &choices, list)
}

/// Adds the choices, each with the constant before it.
fn add_behind(
    alloc: Global,
    a: Nominal,
    choices: &[Names],
    list: &mut Vec<Names>,
) -> Result<(), AllocError>
    ensures { OnOk result (list.new.items ≡ list.old.items ++ map (λ ns. a ∷ ns) choices.now) }
{
    for names in choices {
        list.push(Names::from_vec(with_first(alloc, a, names.as_slice())?))?;
    }
    Ok(())
}
