//! The nominal constants of an atom, and those of its goal.
ghost use Rattle.std.specs.Prelude.{◌≡◌, ◌∷◌, map, All, IfOk};
ghost use Rattle.ab_term.specs.Names.{support_of_all};
ghost use Rattle.ab_norm.specs.Nominals.{HoldsNominal};
ghost use Rattle.ab_unifiers.specs.Choices.{in_order};
ghost use Rattle.ab_instances.specs.ListReadings.{names_read};
ghost use Rattle.ab_formulas.specs.Sequents.{goal_names};
ghost use Rattle.ab_logic.specs.Worlds.{IsWorld, Holds};
ghost use Rattle.ab_logic.specs.SequentReadings.{HoldsSequent, sequent_of};
ghost use Rattle.ab_theory.specs.Atoms.{Defined, choices_of};
ghost use Rattle.ab_formulas.specs.Members.{SameMembers};
ghost use Rattle.ab_alternatives.specs.AtomReadings.{defined_read};

use crate::atoms::DefinedAtom;
use ab_instances::constants_of;
use ab_logic::{Sequent, World};
use ab_norm::Nominal;
use ab_norm::store::TermId;
use std::alloc::{AllocError, Global};

/// The constants of an atom, in order of number, and those of its goal.
#[derive(Drop)]
pub(crate) struct Constants {
    pub(crate) of_atom: Vec<Nominal>,
    pub(crate) of_goal: Vec<Nominal>,
}

/// The formulas of the goal: the conclusion, and those of the hypotheses.
fn formulas_of(alloc: Global, goal: &Sequent) -> Result<Vec<TermId>, AllocError>
    ensures { IfOk result (λ list. list.items ≡ goal.now.conclusion ∷ map (λ h. h.formula) goal.now.hypotheses) }
{
    let mut formulas = Vec::new(alloc);
    formulas.push(goal.conclusion)?;
    for h in goal.hypotheses.as_slice() {
        formulas.push(h.formula)?;
    }
    Ok(formulas)
}

/// The constants that the goal holds, each once, in the order of their numbers. An atom has the choices by these that it
/// has in the goal.
pub fn goal_constants(
    alloc: Global,
    world: &World,
    goal: &Sequent,
) -> Result<Vec<Nominal>, AllocError>
    requires world { IsWorld world.now }
    requires goal { HoldsSequent world.now goal.now }
    ensures list { IfOk result (λ list. names_read world.now.types list.items ≡ in_order (goal_names (sequent_of world.now goal.now))) }
    ensures choices { IfOk result (λ list. (d : Defined) → choices_of (names_read world.now.types list.items) d ≡ choices_of (goal_names (sequent_of world.now goal.now)) d) }
    ensures held { IfOk result (λ list. All (HoldsNominal world.now.types) list.items) }
{
    let formulas = formulas_of(alloc, goal)?;
    constants_of(alloc, &world.types, &world.store, &formulas)
}

/// The constants of the atom and of the goal.
pub(crate) fn constants_in(
    alloc: Global,
    world: &World,
    atom: &DefinedAtom,
    goal: &Sequent,
) -> Result<Constants, AllocError>
    requires world { IsWorld world.now }
    requires arguments { All (Holds world.now) atom.now.arguments.items }
    requires goal { HoldsSequent world.now goal.now }
    ensures of_atom { IfOk result (λ k. names_read world.now.types k.of_atom.items ≡ in_order (support_of_all (defined_read world.now atom.now).arguments)) }
    ensures of_atom_held { IfOk result (λ k. All (HoldsNominal world.now.types) k.of_atom.items) }
    ensures of_goal { IfOk result (λ k. SameMembers (names_read world.now.types k.of_goal.items) (goal_names (sequent_of world.now goal.now))) }
    ensures of_goal_held { IfOk result (λ k. All (HoldsNominal world.now.types) k.of_goal.items) }
{
    let of_atom = constants_of(alloc, &world.types, &world.store, &atom.arguments)?;
    let of_goal = goal_constants(alloc, world, goal)?;
    Ok(Constants { of_atom, of_goal })
}
