//! The first choice by which a conclusion unfolds.
ghost use Rattle.std.specs.Prelude.{◌≡◌, ◌≤◌, slice_get, Ok, Some, None, IfOk};
ghost use Rattle.ab_unify.specs.Problem.{cells_read};
ghost use Rattle.ab_logic.specs.WorldGrowth.{Grows};
ghost use Rattle.ab_logic.specs.Worlds.{IsWorld, declarations_of};
ghost use Rattle.ab_logic.specs.SequentReadings.{HoldsSequent, sequent_of};
ghost use Rattle.ab_formulas.specs.Sequents.{IsSequent, goal_names};
ghost use Rattle.ab_theory.specs.Atoms.{Choice as APlainChoice, defined_atom, choices_of};
ghost use Rattle.ab_alternatives.specs.ChoiceMatches.{Matches};
ghost use Rattle.ab_alternatives.specs.AtomReadings.{defined_read, HoldsDefined};
ghost use Rattle.ab_alternatives.specs.declared.choice_matches.Match.{Match as AMatch};
ghost use Rattle.ab_alternatives.specs.FirstChoice.{Finds};

use crate::atoms::DefinedAtom;
use crate::choice_counts::choice_at;
use crate::choice_matches::{Match, match_choice};
use crate::constants::goal_constants;
use ab_instances::constants_of;
use ab_logic::{Sequent, World};
use ab_norm::name::Name;
use ab_norm::types::Steps;
use std::alloc::{AllocError, Global};

/// What is found among the choices of a conclusion's atom. Places and equations are counted from 0.
#[derive(Drop)]
pub enum Found {
    /// The conclusion unfolds by the choice of this place, and no variable that its clause brought is left open.
    Closed(usize),
    /// The conclusion unfolds by the choice of this place. The oldest of the variables that its clause brought and that are
    /// left open has this name.
    Open(usize, Name),
    /// For the choice of this place, the equation of this number is outside the patterns.
    Stuck(usize, usize),
    /// No choice makes the atom an instance of its clause.
    Nothing,
}

/// How the atom of the goal's conclusion is made an instance by the choice of this place, if there are so many. The world's
/// store is as it was then.
fn match_at<L>(
    alloc: Global,
    world: &mut World,
    atom: &DefinedAtom,
    goal: &Sequent,
    place: usize,
    steps: &mut Steps<L>,
) -> Result<Option<Match>, AllocError>
    requires world { IsWorld world.old }
    requires goal { HoldsSequent world.old goal.now }
    requires sequent { IsSequent (declarations_of world.old) (sequent_of world.old goal.now) }
    requires atom { HoldsDefined world.old atom.now }
    requires conclusion { defined_atom (declarations_of world.old) (sequent_of world.old goal.now).conclusion ≡ Some (defined_read world.old atom.now) }
    ensures none { result ≡ Ok None →
        slice_get (choices_of (goal_names (sequent_of world.old goal.now)) (defined_read world.old atom.now)) place ≡ None }
    ensures matched { (m : AMatch) → result ≡ Ok (Some m) →
        (c : APlainChoice) × (slice_get (choices_of (goal_names (sequent_of world.old goal.now)) (defined_read world.old atom.now)) place ≡ Some c)
        × Matches (cells_read world.old.types world.old.store) (sequent_of world.old goal.now) (defined_read world.old atom.now) c m }
    ensures cells { cells_read world.new.types world.new.store ≡ cells_read world.old.types world.old.store }
    ensures grows { Grows world.old world.new }
    ensures declared { declarations_of world.new ≡ declarations_of world.old }
    ensures steps { steps.old ≤ steps.new }
{
    let constants = constants_of(alloc, &world.types, &world.store, &atom.arguments)?;
    let held = goal_constants(alloc, world, goal)?;
    let Some(choice) = choice_at(alloc, world, atom, &constants, &held, place)? else {
        return Ok(None);
    };
    let matched = match_choice(
        alloc,
        world,
        atom,
        &constants,
        choice.clause,
        &choice.names,
        steps,
    )?;
    Ok(Some(matched))
}

/// The first choice by which the goal's conclusion may unfold, and whether it does. The atom is the conclusion's. The world's
/// cells are as they were then.
pub fn first_unfolding<L>(
    alloc: Global,
    world: &mut World,
    atom: &DefinedAtom,
    goal: &Sequent,
    steps: &mut Steps<L>,
) -> Result<Found, AllocError>
    requires world { IsWorld world.old }
    requires goal { HoldsSequent world.old goal.now }
    requires sequent { IsSequent (declarations_of world.old) (sequent_of world.old goal.now) }
    requires atom { HoldsDefined world.old atom.now }
    requires conclusion { defined_atom (declarations_of world.old) (sequent_of world.old goal.now).conclusion ≡ Some (defined_read world.old atom.now) }
    ensures found { IfOk result (Finds (cells_read world.old.types world.old.store) (sequent_of world.old goal.now) (defined_read world.old atom.now)) }
    ensures cells { cells_read world.new.types world.new.store ≡ cells_read world.old.types world.old.store }
    ensures grows { Grows world.old world.new }
    ensures declared { declarations_of world.new ≡ declarations_of world.old }
    ensures steps { steps.old ≤ steps.new }
{
    for place in 0..usize::MAX {
        match match_at(alloc, world, atom, goal, place, steps)? {
            None => return Ok(Found::Nothing),
            Some(Match::Closed) => return Ok(Found::Closed(place)),
            Some(Match::Open(name)) => return Ok(Found::Open(place, name)),
            Some(Match::Stuck(equation)) => return Ok(Found::Stuck(place, equation)),
            Some(Match::Apart) => {}
        }
    }
    Err(AllocError)
}
