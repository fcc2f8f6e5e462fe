//! The cases by one clause, tried one after another.
ghost use Rattle.std.specs.Prelude.{◌≡◌, ◌≤◌, ◌∷◌, [], ℕ, Ok, Some, None, map, All, IfOk};
ghost use Rattle.ab_norm.specs.ab_store.specs.Naming.{IsTypedBy};
ghost use Rattle.ab_norm.specs.Nominals.{HoldsNominal};
ghost use Rattle.ab_unifiers.specs.Choices as plain;
ghost use Rattle.ab_formulas.specs.CaseClauses as kept;
ghost use Rattle.ab_typing.specs.DefinitionReadings.{clause_of, name_of};
ghost use Rattle.ab_instances.specs.ListReadings.{names_read};
ghost use Rattle.ab_logic.specs.Worlds.{IsKeptClause};
ghost use Rattle.ab_logic.specs.SequentReadings.{HoldsSequent, sequent_of};
ghost use Rattle.ab_theory.specs.Analysis.{case_of};
ghost use Rattle.ab_alternatives.specs.AtomReadings.{defined_read, choice_read};
ghost use Rattle.ab_alternatives.specs.CaseSteps.{clause_cases, IsLater, IsReady, ArePassed, AreStopped};

use crate::atoms::DefinedAtom;
use crate::constants::Constants;
use crate::heads::{is_of, prefix_types};
use crate::one_alternative::try_case;
use ab_equations::CaseSolution;
use ab_instances::{Choices, Names, choices};
use ab_logic::{Sequent, World};
use ab_norm::Nominal;
use ab_norm::name::Name;
use ab_norm::store::Store;
use ab_norm::types::{Steps, TypeTable};
use ab_typing::ClauseTerm;
use std::alloc::{AllocError, Global};

/// The choices for the clause's names.
fn choices_for(
    alloc: Global,
    types: &TypeTable,
    store: &Store,
    clause: &ClauseTerm,
    constants: &Constants,
) -> Result<Choices, AllocError>
    requires store { IsTypedBy types.now store.now }
    requires clause { IsKeptClause types.now store.now clause.now }
    requires of_atom { All (HoldsNominal types.now) constants.now.of_atom.items }
    requires of_goal { All (HoldsNominal types.now) constants.now.of_goal.items }
    ensures list { IfOk result (λ list. map (names_read types.now) list
        ≡ plain.choices (map (λ z. z.type) (kept.case_of (clause_of types.now store.now clause.now)).names)
        (names_read types.now constants.now.of_atom.items) (names_read types.now constants.now.of_goal.items)) }
    ensures held { IfOk result (λ list. All (All (HoldsNominal types.now)) list) }
{
    let names = prefix_types(alloc, types, store, clause.head)?;
    choices(alloc, types, &names, &constants.of_atom, &constants.of_goal)
}

/// Tries the case of one choice: its goal, if it arises, is put behind the goals. The number of its equation is answered
/// where it is open.
fn try_choice<L>(
    alloc: Global,
    world: &mut World,
    atom: &DefinedAtom,
    constants: &Constants,
    clause: &ClauseTerm,
    names: &[Nominal],
    goal: &Sequent,
    rest: &Sequent,
    name: &Name,
    goals: &mut Vec<Sequent>,
    steps: &mut Steps<L>,
) -> Result<Option<usize>, AllocError>
    requires ready { IsReady world.old atom.now constants.now goal.now rest.now }
    requires clause { IsKeptClause world.old.types world.old.store clause.now }
    requires predicate { (kept.case_of (clause_of world.old.types world.old.store clause.now)).predicate ≡ name_of world.old.types atom.now.predicate }
    requires names { All (HoldsNominal world.old.types) names.now }
    requires fit { map (λ a. a.type) (names_read world.old.types names.now)
        ≡ map (λ z. z.type) (kept.case_of (clause_of world.old.types world.old.store clause.now)).names }
    requires goals { All (HoldsSequent world.old) goals.old.items }
    ensures passed { result ≡ Ok None → ArePassed world.old goals.old.items
        (case_of (sequent_of world.old goal.now) (sequent_of world.old rest.now) name.now (defined_read world.old atom.now) (choice_read world.old clause.now names.now) ∷ [])
        world.new goals.new.items }
    ensures stopped { (i : ℕ) → result ≡ Ok (Some i) → AreStopped world.old
        (case_of (sequent_of world.old goal.now) (sequent_of world.old rest.now) name.now (defined_read world.old atom.now) (choice_read world.old clause.now names.now) ∷ []) i }
    ensures later { IsLater world.old world.new }
    ensures steps { steps.old ≤ steps.new }
{
    let free = constants.of_atom.as_slice();
    match try_case(
        alloc, world, atom, free, clause, names, goal, rest, name, steps,
    )? {
        CaseSolution::Unified(premise) => {
            goals.push(premise)?;
            Ok(None)
        }
        CaseSolution::Apart => Ok(None),
        CaseSolution::Stuck(place) => Ok(Some(place)),
    }
}

/// Tries the cases of these choices in order, up to the first that is open.
fn try_choices<L>(
    alloc: Global,
    world: &mut World,
    atom: &DefinedAtom,
    constants: &Constants,
    clause: &ClauseTerm,
    choices: &[Names],
    goal: &Sequent,
    rest: &Sequent,
    name: &Name,
    goals: &mut Vec<Sequent>,
    steps: &mut Steps<L>,
) -> Result<Option<usize>, AllocError>
    requires ready { IsReady world.old atom.now constants.now goal.now rest.now }
    requires clause { IsKeptClause world.old.types world.old.store clause.now }
    requires predicate { (kept.case_of (clause_of world.old.types world.old.store clause.now)).predicate ≡ name_of world.old.types atom.now.predicate }
    requires choices { All (All (HoldsNominal world.old.types)) choices.now }
    requires fit { All (λ ns. map (λ a. a.type) (names_read world.old.types ns)
        ≡ map (λ z. z.type) (kept.case_of (clause_of world.old.types world.old.store clause.now)).names) choices.now }
    requires goals { All (HoldsSequent world.old) goals.old.items }
    ensures passed { result ≡ Ok None → ArePassed world.old goals.old.items
        (map (λ ns. case_of (sequent_of world.old goal.now) (sequent_of world.old rest.now) name.now (defined_read world.old atom.now) (choice_read world.old clause.now ns)) choices.now)
        world.new goals.new.items }
    ensures stopped { (i : ℕ) → result ≡ Ok (Some i) → AreStopped world.old
        (map (λ ns. case_of (sequent_of world.old goal.now) (sequent_of world.old rest.now) name.now (defined_read world.old atom.now) (choice_read world.old clause.now ns)) choices.now) i }
    ensures later { IsLater world.old world.new }
    ensures steps { steps.old ≤ steps.new }
{
    for names in choices {
        let names = names.as_slice();
        if let Some(place) = try_choice(
            alloc, world, atom, constants, clause, names, goal, rest, name, goals, steps,
        )? {
            return Ok(Some(place));
        }
    }
    Ok(None)
}

/// Tries the cases by the clause in order, up to the first that is open. A clause of another predicate has none.
pub(crate) fn try_clause<L>(
    alloc: Global,
    world: &mut World,
    atom: &DefinedAtom,
    constants: &Constants,
    clause: &ClauseTerm,
    goal: &Sequent,
    rest: &Sequent,
    name: &Name,
    goals: &mut Vec<Sequent>,
    steps: &mut Steps<L>,
) -> Result<Option<usize>, AllocError>
    requires ready { IsReady world.old atom.now constants.now goal.now rest.now }
    requires clause { IsKeptClause world.old.types world.old.store clause.now }
    requires goals { All (HoldsSequent world.old) goals.old.items }
    ensures passed { result ≡ Ok None → ArePassed world.old goals.old.items
        (clause_cases (sequent_of world.old goal.now) (sequent_of world.old rest.now) name.now (defined_read world.old atom.now) (kept.case_of (clause_of world.old.types world.old.store clause.now)))
        world.new goals.new.items }
    ensures stopped { (i : ℕ) → result ≡ Ok (Some i) → AreStopped world.old
        (clause_cases (sequent_of world.old goal.now) (sequent_of world.old rest.now) name.now (defined_read world.old atom.now) (kept.case_of (clause_of world.old.types world.old.store clause.now))) i }
    ensures later { IsLater world.old world.new }
    ensures steps { steps.old ≤ steps.new }
{
    if !is_of(&world.types, &world.store, clause, atom.predicate) {
        return Ok(None);
    }
    let choices = choices_for(alloc, &world.types, &world.store, clause, constants)?;
    let choices = choices.as_slice();
    try_choices(
        alloc, world, atom, constants, clause, choices, goal, rest, name, goals, steps,
    )
}
