//! The place of a clause that a search took among the choices of the kernel's atom.
ghost use Rattle.std.specs.Prelude.{◌≡◌, All};
ghost use Rattle.ab_norm.specs.Nominals.{HoldsNominal};
ghost use Rattle.ab_logic.specs.Worlds.{IsWorld};
ghost use Rattle.ab_walk.specs.ab_next_ways.specs.ab_judgements.specs.ab_alternatives.specs.AtomReadings.{HoldsDefined};
ghost use Rattle.ab_walk.specs.ab_next_ways.specs.ab_judgements.specs.ab_alternatives.specs.LeftAlternatives.{constants_in};
ghost use Rattle.ab_walk.specs.ab_next_ways.specs.ab_judgements.specs.ab_alternatives.specs.ab_instances.specs.ListReadings.{names_read, given_at};

use crate::entries::ClauseTaken;
use crate::likeness::Likeness;
use ab_logic::World;
use ab_norm::Nominal;
use ab_walk::next_ways::judgements::alternatives::{Choice, DefinedAtom, choice_at};
use std::alloc::{AllocError, Global};

/// Whether the kernel's constant was chosen where the search chose this one: where the atom holds that, it is what it is there, and
/// else a new one.
fn is_chosen_like(like: &Likeness, constants: &[Nominal], taken: Nominal, chosen: Nominal) -> bool {
    match like.target(taken) {
        Some(target) => target == chosen,
        None => !constants.contains(&chosen),
    }
}

/// Whether the choice is the clause with the constants that the search took.
fn is_like(like: &Likeness, constants: &[Nominal], clause: &ClauseTaken, choice: &Choice) -> bool {
    if choice.clause.head != clause.head || choice.clause.body != clause.body {
        return false;
    }
    for place in 0..clause.names.len() {
        if place >= choice.names.len() {
            return false;
        }
        if !is_chosen_like(like, constants, clause.names[place], choice.names[place]) {
            return false;
        }
    }
    true
}

/// The place of the clause among the choices of the kernel's atom, whose constants these are, and `held` those of its goal.
pub fn place_of_clause(
    alloc: Global,
    world: &World,
    atom: &DefinedAtom,
    constants: &[Nominal],
    held: &[Nominal],
    like: &Likeness,
    clause: &ClauseTaken,
) -> Result<usize, AllocError>
    requires world { IsWorld world.now }
    requires atom { HoldsDefined world.now atom.now }
    requires constants { names_read world.now.types constants.now ≡ constants_in (given_at world.now.types world.now.store atom.now.arguments.items) }
    requires constants_held { All (HoldsNominal world.now.types) constants.now }
    requires held { All (HoldsNominal world.now.types) held.now }
{
    for place in 0..usize::MAX {
        let Some(choice) = choice_at(alloc, world, atom, constants, held, place)? else {
            return Err(AllocError);
        };
        if is_like(like, constants, clause, &choice) {
            return Ok(place);
        }
    }
    Err(AllocError)
}
