//! The alternatives of a defined atom.
ghost use Rattle.std.specs.Prelude.{◌≡◌, ◌≤◌, ◌++◌, [], All, IfOk, OnOk};
ghost use Rattle.ab_term.specs.Types.{prop};
ghost use Rattle.ab_term.specs.Terms.{constant, spine};
ghost use Rattle.ab_term.specs.Typing.{HasType};
ghost use Rattle.ab_norm.specs.Nominals.{HoldsNominal};
ghost use Rattle.ab_unify.specs.Problem.{cells_read};
ghost use Rattle.ab_formulas.specs.Declarations.{signature_in};
ghost use Rattle.ab_formulas.specs.Sequents.{IsSequent, goal_names};
ghost use Rattle.ab_logic.specs.SequentReadings.{HoldsSequent, sequent_of};
ghost use Rattle.ab_logic.specs.WorldGrowth.{Grows};
ghost use Rattle.ab_logic.specs.Worlds.{IsWorld, declarations_of};
ghost use Rattle.ab_theory.specs.Atoms.{Defined as APlainAtom, choices_of};
ghost use Rattle.ab_theory.specs.Subjects.{an_atom};
ghost use Rattle.ab_alternatives.specs.ab_instances.specs.ListReadings.{names_read};
ghost use Rattle.ab_alternatives.specs.AtomReadings.{defined_read, HoldsDefined};
ghost use Rattle.ab_alternatives.specs.CaseSteps.{IsLater};
ghost use Rattle.ab_alternatives.specs.Choices.{read_choice, IsHeldFor};
ghost use Rattle.ab_analyses.specs.Alternatives.{by_choice, alternatives_of, side_of, all_with};
ghost use Rattle.ab_analyses.specs.AlternativeReadings.{StandsFor, HoldsAlternative, AreMade};
ghost use Rattle.ab_analyses.specs.AlternativeSteps.{raises_of, raised_cells_of, IsAtomReady};

use crate::answers::{Alternative, Raise};
use ab_alternatives::instances::{constants_of, outside};
use ab_alternatives::{Choice, DefinedAtom, choice_at, goal_constants, make_alternative};
use ab_logic::{Sequent, Sign, World};
use ab_norm::Nominal;
use ab_norm::store::{CellId, TermId};
use ab_norm::types::Steps;
use std::alloc::{AllocError, Global};

/// Puts the cells with the terms, one by one, behind these.
fn add_raises(cells: &[CellId], terms: &[TermId], raised: &mut Vec<Raise>) -> Result<(), AllocError>
    ensures { OnOk result (raised.new.items ≡ raised.old.items ++ raises_of cells.now terms.now) }
{
    match cells {
        [] => Ok(()),
        [cell, others @ ..] => match terms {
            [] => Ok(()),
            [to, rest @ ..] => {
                raised.push(Raise {
                    cell: *cell,
                    to: *to,
                })?;
                add_raises(others, rest, raised)
            }
        },
    }
}

/// The variables of the goal that are raised: none on the right.
fn raised_variables(goal: &Sequent, on_left: bool) -> &[CellId]
    ensures { result.now ≡ raised_cells_of on_left goal.now.variables }
{
    if on_left {
        goal.variables.as_slice()
    } else {
        &[]
    }
}

/// The alternative by the choice. `constants` are those of the atom, which has no mark. No cell is bound.
fn by_choice<L>(
    alloc: Global,
    world: &mut World,
    goal: &Sequent,
    atom: &DefinedAtom,
    constants: &[Nominal],
    choice: &Choice,
    on_left: bool,
    steps: &mut Steps<L>,
) -> Result<Alternative, AllocError>
    requires ready { IsAtomReady world.old goal.now atom.now constants.now }
    requires choice { IsHeldFor world.old atom.now choice.now }
    ensures stands { IfOk result (λ made. StandsFor world.new made
        (by_choice (side_of on_left) (sequent_of world.old goal.now) (defined_read world.old atom.now) (read_choice world.old choice.now) (cells_read world.old.types world.old.store))) }
    ensures held { IfOk result (HoldsAlternative world.new) }
    ensures cells { OnOk result (cells_read world.new.types world.new.store ≡ all_with
        (by_choice (side_of on_left) (sequent_of world.old goal.now) (defined_read world.old atom.now) (read_choice world.old choice.now) (cells_read world.old.types world.old.store))) }
    ensures later { IsLater world.old world.new }
    ensures steps { steps.old ≤ steps.new }
{
    let fresh = outside(alloc, &world.types, &choice.names, constants)?;
    let variables = raised_variables(goal, on_left);
    let made = make_alternative(
        alloc,
        &mut world.types,
        &mut world.store,
        atom,
        constants,
        choice.clause,
        &choice.names,
        variables,
        steps,
    )?;
    let mut raised = Vec::new(alloc);
    add_raises(variables, &made.raised.terms, &mut raised)?;
    Ok(Alternative {
        fresh,
        raised,
        made: made.own,
        equations: made.equations,
        body: made.body,
    })
}

/// The alternatives of the atom, which has no mark, in order. `constants` are its own, `held` those that aren't new.
fn by_choices<L>(
    alloc: Global,
    world: &mut World,
    goal: &Sequent,
    atom: &DefinedAtom,
    constants: &[Nominal],
    held: &[Nominal],
    on_left: bool,
    steps: &mut Steps<L>,
) -> Result<Vec<Alternative>, AllocError>
    requires ready { IsAtomReady world.old goal.now atom.now constants.now }
    requires held { All (HoldsNominal world.old.types) held.now }
    requires choices { (d : APlainAtom) → choices_of (names_read world.old.types held.now) d ≡ choices_of (goal_names (sequent_of world.old goal.now)) d }
    ensures list { IfOk result (λ list. AreMade world.new list.items
        (alternatives_of (side_of on_left) (sequent_of world.old goal.now) (an_atom (defined_read world.old atom.now))) (cells_read world.old.types world.old.store)) }
    ensures later { IsLater world.old world.new }
    ensures steps { steps.old ≤ steps.new }
{
    let mut list = Vec::new(alloc);
    for place in 0..usize::MAX {
        let Some(choice) = choice_at(alloc, world, atom, constants, held, place)? else {
            return Ok(list);
        };
        let made = by_choice(alloc, world, goal, atom, constants, &choice, on_left, steps)?;
        list.push(made)?;
    }
    Err(AllocError)
}

/// The alternatives of the atom in the goal, in order: one for each clause of its predicate and each choice of constants for the
/// clause's names. On the left the goal's variables are raised over new constants, on the right they stay. No cell is bound.
pub(crate) fn atom_alternatives<L>(
    alloc: Global,
    world: &mut World,
    goal: &Sequent,
    atom: DefinedAtom,
    on_left: bool,
    steps: &mut Steps<L>,
) -> Result<Vec<Alternative>, AllocError>
    requires world { IsWorld world.old }
    requires goal { HoldsSequent world.old goal.now }
    requires sequent { IsSequent (declarations_of world.old) (sequent_of world.old goal.now) }
    requires atom { HoldsDefined world.old atom }
    requires typed { HasType (signature_in (declarations_of world.old)) []
        (spine (constant (defined_read world.old atom).predicate) (defined_read world.old atom).arguments) prop }
    ensures list { IfOk result (λ list. AreMade world.new list.items
        (alternatives_of (side_of on_left) (sequent_of world.old goal.now) (an_atom (defined_read world.old atom))) (cells_read world.old.types world.old.store)) }
    ensures grows { Grows world.old world.new }
    ensures declared { declarations_of world.new ≡ declarations_of world.old }
    ensures steps { steps.old ≤ steps.new }
{
    let atom = DefinedAtom {
        sign: Sign::Plain,
        predicate: atom.predicate,
        arguments: atom.arguments,
        block: atom.block,
    };
    let constants = constants_of(alloc, &world.types, &world.store, &atom.arguments)?;
    let held = goal_constants(alloc, world, goal)?;
    by_choices(alloc, world, goal, &atom, &constants, &held, on_left, steps)
}
