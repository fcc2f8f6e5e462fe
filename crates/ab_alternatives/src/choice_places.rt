//! A conclusion is unfolded by the choice of a place.
ghost use Rattle.std.specs.Prelude.{◌≡◌, ◌≤◌, ℕ, slice_get, Ok, Some, None};
ghost use Rattle.ab_unify.specs.Problem.{cells_read};
ghost use Rattle.ab_logic.specs.WorldGrowth.{Grows};
ghost use Rattle.ab_logic.specs.Worlds.{IsWorld, declarations_of};
ghost use Rattle.ab_logic.specs.SequentReadings.{HoldsSequent, sequent_of};
ghost use Rattle.ab_formulas.specs.Sequents.{IsSequent, goal_names};
ghost use Rattle.ab_logic.specs.declared.sequent.Sequent.{Sequent as AGoal};
ghost use Rattle.ab_theory.specs.Splits.{NeverArises, IsOpen};
ghost use Rattle.ab_equations.specs.declared.cases.CaseSolution.TheVariants.{Unified, Apart, Stuck};
ghost use Rattle.ab_theory.specs.Atoms.{Choice as APlainChoice, defined_atom, choices_of};
ghost use Rattle.ab_theory.specs.Unfolding.{unfolding_case};
ghost use Rattle.ab_alternatives.specs.RightAlternatives.{IsUnfolded};
ghost use Rattle.ab_alternatives.specs.AtomReadings.{defined_read, HoldsDefined};

use crate::atoms::DefinedAtom;
use crate::choice_counts::choice_at;
use crate::constants::goal_constants;
use crate::one_choice::unfold;
use ab_equations::CaseSolution;
use ab_instances::constants_of;
use ab_logic::{Sequent, World};
use ab_norm::types::Steps;
use std::alloc::{AllocError, Global};

/// The goal with its conclusion unfolded by the choice of this place, counted from 0, if there are so many. The atom is the
/// conclusion's. No cell is bound.
pub fn unfold_at<L>(
    alloc: Global,
    world: &mut World,
    atom: &DefinedAtom,
    goal: &Sequent,
    place: usize,
    steps: &mut Steps<L>,
) -> Result<Option<CaseSolution>, AllocError>
    requires world { IsWorld world.old }
    requires goal { HoldsSequent world.old goal.now }
    requires sequent { IsSequent (declarations_of world.old) (sequent_of world.old goal.now) }
    requires atom { HoldsDefined world.old atom.now }
    requires conclusion { defined_atom (declarations_of world.old) (sequent_of world.old goal.now).conclusion ≡ Some (defined_read world.old atom.now) }
    ensures none { result ≡ Ok None →
        slice_get (choices_of (goal_names (sequent_of world.old goal.now)) (defined_read world.old atom.now)) place ≡ None }
    ensures unified { (g : AGoal) → result ≡ Ok (Some (Unified g)) →
        (c : APlainChoice) × (slice_get (choices_of (goal_names (sequent_of world.old goal.now)) (defined_read world.old atom.now)) place ≡ Some c)
        × IsUnfolded (cells_read world.old.types world.old.store) (sequent_of world.old goal.now) (defined_read world.old atom.now) c (sequent_of world.new g) }
    ensures held { (g : AGoal) → result ≡ Ok (Some (Unified g)) → HoldsSequent world.new g }
    ensures apart { result ≡ Ok (Some Apart) →
        (c : APlainChoice) × (slice_get (choices_of (goal_names (sequent_of world.old goal.now)) (defined_read world.old atom.now)) place ≡ Some c)
        × NeverArises (unfolding_case (cells_read world.old.types world.old.store) (sequent_of world.old goal.now) (defined_read world.old atom.now) c) }
    ensures stuck { (i : ℕ) → result ≡ Ok (Some (Stuck i)) →
        (c : APlainChoice) × (slice_get (choices_of (goal_names (sequent_of world.old goal.now)) (defined_read world.old atom.now)) place ≡ Some c)
        × IsOpen (unfolding_case (cells_read world.old.types world.old.store) (sequent_of world.old goal.now) (defined_read world.old atom.now) c) i }
    ensures grows { Grows world.old world.new }
    ensures declared { declarations_of world.new ≡ declarations_of world.old }
    ensures steps { steps.old ≤ steps.new }
{
    let constants = constants_of(alloc, &world.types, &world.store, &atom.arguments)?;
    let held = goal_constants(alloc, world, goal)?;
    let Some(choice) = choice_at(alloc, world, atom, &constants, &held, place)? else {
        return Ok(None);
    };
    let solved = unfold(
        alloc,
        world,
        atom,
        &constants,
        choice.clause,
        &choice.names,
        goal,
        steps,
    )?;
    Ok(Some(solved))
}
