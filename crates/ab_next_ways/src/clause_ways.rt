//! The ways by the clauses of an atom's definition.
ghost use Rattle.std.specs.Prelude.{◌≡◌, ◌≤◌, ◌-◌, false, List, All, Contains, IfOk};
ghost use Rattle.ab_norm.specs.ab_types.specs.Entries.{Table};
ghost use Rattle.ab_norm.specs.ab_store.specs.declared.node.TermId.{TermId as AnId};
ghost use Rattle.ab_norm.specs.Nominals.{HoldsNominal};
ghost use Rattle.ab_theory.specs.Atoms.{defined_atom, choices_of};
ghost use Rattle.ab_judgements.specs.ab_alternatives.specs.ab_instances.specs.ListReadings.{names_read, given_at};
ghost use Rattle.ab_logic.specs.WorldGrowth.{Grows};
ghost use Rattle.ab_logic.specs.Worlds.{IsWorld, Holds, read, declarations_of};
ghost use Rattle.ab_logic.specs.declared.world.World.{World as AWorld};
ghost use Rattle.ab_judgements.specs.ab_alternatives.specs.LeftAlternatives.{constants_in};
ghost use Rattle.ab_judgements.specs.ab_alternatives.specs.AtomReadings.{defined_read};
ghost use Rattle.ab_judgements.specs.ab_alternatives.specs.Choices.{read_choice, IsHeldFor};
ghost use Rattle.ab_search_trees.specs.Ways.{by_definition, by_choice, with_constants};
ghost use Rattle.ab_search_ways.specs.GoalReadings.{goal_read, HoldsGoal, IsFormulaIn};
ghost use Rattle.ab_search_ways.specs.MadeWays.{MakesWay, MakesWayAt};
ghost use Rattle.ab_next_ways.specs.Unfoldable.{MayUnfold, IsUnfoldable};

use ab_judgements::alternatives::instances::{constants_of, outside};
use ab_judgements::alternatives::{
    Choice, DefinedAtom, choice_at, defined_atom, make_unfolding, may_be_unfolded,
};
use ab_logic::World;
use ab_norm::Nominal;
use ab_norm::store::{CellId, TermId};
use ab_norm::types::Steps;
use ab_search_ways::{Goal, Way, with_placed};
use std::alloc::{AllocError, Global};

/// The conclusion's atom, where it is defined and may be unfolded to the depth.
fn unfolded_atom(
    alloc: Global,
    world: &World,
    goal: &Goal,
) -> Result<Option<DefinedAtom>, AllocError>
    requires world { IsWorld world.now }
    requires conclusion { Holds world.now goal.now.conclusion }
    ensures { IfOk result (IsUnfoldable world.now goal.now) }
{
    if goal.depth == 0 {
        return Ok(None);
    }
    let Some(atom) = defined_atom(alloc, world, goal.conclusion)? else {
        return Ok(None);
    };
    if may_be_unfolded(atom.sign) {
        Ok(Some(atom))
    } else {
        Ok(None)
    }
}

/// These, and each of the constants in its place by number.
fn with_all_placed(
    alloc: Global,
    names: &[Nominal],
    fresh: &[Nominal],
) -> Result<Vec<Nominal>, AllocError>
    ensures held { IfOk result (λ list. (types : Table) → All (HoldsNominal types) names.now → All (HoldsNominal types) fresh.now → All (HoldsNominal types) list.items) }
    ensures reads { IfOk result (λ list. (types : Table) → names_read types list.items ≡ with_constants (names_read types fresh.now) (names_read types names.now)) }
{
    match fresh {
        [] => Vec::from_slice(alloc, names),
        [first, rest @ ..] => {
            let more = with_placed(alloc, names, *first)?;
            with_all_placed(alloc, &more, rest)
        }
    }
}

/// The goal that a clause's body is left for, with these constants for its branch.
fn goal_below(
    alloc: Global,
    goal: &Goal,
    body: TermId,
    constants: Vec<Nominal>,
) -> Result<Goal, AllocError>
    ensures reads { IfOk result (λ k. (w : AWorld) (base : List AnId) → let g = goal_read w base goal.now in
        goal_read w base k ≡ record {
          hypotheses = g.hypotheses;
          conclusion = read w body;
          depth = goal.now.depth - 1;
          constants = names_read w.types k.constants.items;
          untouched = false;
          layers = g.layers;
          member_first = false;
        }) }
    ensures added { IfOk result (λ k. k.added.items ≡ goal.now.added.items) }
    ensures constants { IfOk result (λ k. k.constants.items ≡ constants.items) }
    ensures conclusion { IfOk result (λ k. k.conclusion ≡ body) }
{
    Ok(Goal {
        added: Vec::from_slice(alloc, &goal.added)?,
        conclusion: body,
        depth: goal.depth.saturating_sub(1),
        constants,
        untouched: false,
        layers: goal.layers,
        member_first: false,
    })
}

/// The way by the choice of a clause and of constants for its names: the clause's variables may be replaced, and its body is left,
/// one conclusion less being unfolded below. `constants` are those of the atom.
fn way_by_clause<L>(
    alloc: Global,
    world: &mut World,
    flexible: &[CellId],
    goal: &Goal,
    atom: &DefinedAtom,
    constants: &[Nominal],
    choice: &Choice<'_>,
    steps: &mut Steps<L>,
) -> Result<Way, AllocError>
    requires world { IsWorld world.old }
    requires goal { HoldsGoal world.old goal.now }
    requires conclusion { IsFormulaIn world.old goal.now.conclusion }
    requires atom { MayUnfold world.old goal.now atom.now }
    requires constants { names_read world.old.types constants.now ≡ constants_in (given_at world.old.types world.old.store atom.now.arguments.items) }
    requires constants_held { All (HoldsNominal world.old.types) constants.now }
    requires choice { IsHeldFor world.old atom.now choice.now }
    requires among { Contains (choices_of (names_read world.old.types goal.now.constants.items) (defined_read world.old atom.now)) (read_choice world.old choice.now) }
    ensures made { IfOk result (MakesWay world.old flexible.now goal.now
        (λ now g. by_choice (declarations_of world.old) now g (goal.now.depth - 1) (defined_read world.old atom.now) (read_choice world.old choice.now)) world.new) }
    ensures grows { Grows world.old world.new }
    ensures declared { declarations_of world.new ≡ declarations_of world.old }
    ensures steps { steps.old ≤ steps.new }
{
    let fresh = outside(alloc, &world.types, &choice.names, constants)?;
    let branch = with_all_placed(alloc, &goal.constants, &fresh)?;
    let (types, store) = (&mut world.types, &mut world.store);
    let names = choice.names.as_slice();
    let made = make_unfolding(
        alloc,
        types,
        store,
        atom,
        constants,
        choice.clause,
        names,
        steps,
    )?;
    let only = goal_below(alloc, goal, made.body, branch)?;
    let goals = Vec::from_array(alloc, [only])?;
    let mut cells = Vec::from_slice(alloc, flexible)?;
    cells.extend_from_slice(&made.own)?;
    Ok(Way {
        flexible: cells,
        equations: made.equations,
        serves: true,
        goals,
    })
}

/// The way by the choice of this number, counted from 0, if there are so many.
pub fn way_by_choice<L>(
    alloc: Global,
    world: &mut World,
    flexible: &[CellId],
    goal: &Goal,
    number: usize,
    steps: &mut Steps<L>,
) -> Result<Option<Way>, AllocError>
    requires world { IsWorld world.old }
    requires goal { HoldsGoal world.old goal.now }
    requires conclusion { IsFormulaIn world.old goal.now.conclusion }
    ensures made { IfOk result (MakesWayAt world.old flexible.now goal.now
        (λ now g. by_definition (declarations_of world.old) now g g.depth (defined_atom (declarations_of world.old) g.conclusion)) number world.new) }
    ensures grows { Grows world.old world.new }
    ensures declared { declarations_of world.new ≡ declarations_of world.old }
    ensures steps { steps.old ≤ steps.new }
{
    let Some(atom) = unfolded_atom(alloc, world, goal)? else {
        return Ok(None);
    };
    let constants = constants_of(alloc, &world.types, &world.store, &atom.arguments)?;
    let Some(choice) = choice_at(alloc, world, &atom, &constants, &goal.constants, number)? else {
        return Ok(None);
    };
    let way = way_by_clause(
        alloc, world, flexible, goal, &atom, &constants, &choice, steps,
    )?;
    Ok(Some(way))
}
