//! The choices of a defined atom, counted.
ghost use Rattle.std.specs.Prelude.{◌≡◌, map, slice_get, None, Some, Ok, All, IfOk, IfSome};
ghost use Rattle.std.specs.Option.{option_map};
ghost use Rattle.ab_norm.specs.Nominals.{HoldsNominal};
ghost use Rattle.ab_formulas.specs.CaseClauses.{case_of};
ghost use Rattle.ab_typing.specs.DefinitionReadings.{clause_of};
ghost use Rattle.ab_instances.specs.ListReadings.{names_read, given_at};
ghost use Rattle.ab_logic.specs.Worlds.{IsWorld, IsKeptClause};
ghost use Rattle.ab_theory.specs.Atoms.{choices_of};
ghost use Rattle.ab_alternatives.specs.LeftAlternatives.{constants_in};
ghost use Rattle.ab_alternatives.specs.AtomReadings.{defined_read, HoldsDefined, choice_read};
ghost use Rattle.ab_alternatives.specs.ChoiceCounts.{all_of, choices_by, LiesIn};
ghost use Rattle.ab_alternatives.specs.Choices.{read_choice, IsHeldFor};

use crate::atoms::DefinedAtom;
use crate::heads::{is_of, prefix_types};
use ab_instances::{Choices, choices};
use ab_logic::World;
use ab_norm::Nominal;
use ab_typing::ClauseTerm;
use std::alloc::{AllocError, Global};

/// A clause of an atom's definition, with constants for its names.
#[derive(Drop)]
pub struct Choice<'a> {
    pub clause: &'a ClauseTerm,
    pub names: Vec<Nominal>,
}

/// Where a place lies, counted from the first choice by a clause.
enum Place {
    /// At the choice of these constants for the clause's names.
    Within(Vec<Nominal>),
    /// Behind all choices by the clause, so far.
    Behind(usize),
}

/// The choices of constants for the clause's names, where it is one of the atom's predicate. `constants` are those of the
/// atom, `held` those that aren't new.
fn choices_by(
    alloc: Global,
    world: &World,
    atom: &DefinedAtom,
    clause: &ClauseTerm,
    constants: &[Nominal],
    held: &[Nominal],
) -> Result<Option<Choices>, AllocError>
    requires world { IsWorld world.now }
    requires atom { HoldsDefined world.now atom.now }
    requires clause { IsKeptClause world.now.types world.now.store clause.now }
    requires constants { names_read world.now.types constants.now ≡ constants_in (given_at world.now.types world.now.store atom.now.arguments.items) }
    requires constants_held { All (HoldsNominal world.now.types) constants.now }
    requires held { All (HoldsNominal world.now.types) held.now }
    ensures list { IfOk result (λ found. map (choice_read world.now clause.now) (all_of found)
        ≡ choices_by (names_read world.now.types held.now) (defined_read world.now atom.now) (case_of (clause_of world.now.types world.now.store clause.now))) }
    ensures held { IfOk result (λ found. All (All (HoldsNominal world.now.types)) (all_of found)) }
{
    let (types, store) = (&world.types, &world.store);
    if !is_of(types, store, clause, atom.predicate) {
        return Ok(None);
    }
    let names = prefix_types(alloc, types, store, clause.head)?;
    let list = choices(alloc, types, &names, constants, held)?;
    Ok(Some(list))
}

/// Where the place lies, counted from the first choice by the clause.
fn place_in(
    alloc: Global,
    world: &World,
    atom: &DefinedAtom,
    clause: &ClauseTerm,
    constants: &[Nominal],
    held: &[Nominal],
    place: usize,
) -> Result<Place, AllocError>
    requires world { IsWorld world.now }
    requires atom { HoldsDefined world.now atom.now }
    requires clause { IsKeptClause world.now.types world.now.store clause.now }
    requires constants { names_read world.now.types constants.now ≡ constants_in (given_at world.now.types world.now.store atom.now.arguments.items) }
    requires constants_held { All (HoldsNominal world.now.types) constants.now }
    requires held { All (HoldsNominal world.now.types) held.now }
    ensures lies { IfOk result (LiesIn world.now clause.now
        (choices_by (names_read world.now.types held.now) (defined_read world.now atom.now) (case_of (clause_of world.now.types world.now.store clause.now))) place) }
{
    let Some(list) = choices_by(alloc, world, atom, clause, constants, held)? else {
        return Ok(Place::Behind(place));
    };
    let list = list.as_slice();
    if place < list.len() {
        let names = Vec::from_slice(alloc, list[place].as_slice())?;
        return Ok(Place::Within(names));
    }
    Ok(Place::Behind(place - list.len()))
}

/// The choice of this place, counted from 0 in the order of the clauses, if there are so many. `constants` are those of
/// the atom, `held` those that aren't new.
pub fn choice_at<'a>(
    alloc: Global,
    world: &World,
    atom: &'a DefinedAtom,
    constants: &[Nominal],
    held: &[Nominal],
    place: usize,
) -> Result<Option<Choice<'a>>, AllocError>
    requires world { IsWorld world.now }
    requires atom { HoldsDefined world.now atom.now }
    requires constants { names_read world.now.types constants.now ≡ constants_in (given_at world.now.types world.now.store atom.now.arguments.items) }
    requires constants_held { All (HoldsNominal world.now.types) constants.now }
    requires held { All (HoldsNominal world.now.types) held.now }
    ensures choice { IfOk result (λ found. option_map (read_choice world.now) found
        ≡ slice_get (choices_of (names_read world.now.types held.now) (defined_read world.now atom.now)) place) }
    ensures held { IfOk result (λ found. IfSome found (IsHeldFor world.now atom.now)) }
{
    let mut left = place;
    for clause in atom.block.clauses.as_slice() {
        match place_in(alloc, world, atom, clause, constants, held, left)? {
            Place::Within(names) => return Ok(Some(Choice { clause, names })),
            Place::Behind(rest) => left = rest,
        }
    }
    Ok(None)
}
