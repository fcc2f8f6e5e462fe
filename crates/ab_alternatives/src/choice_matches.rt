//! Whether a conclusion unfolds by a choice, and which of the variables that the clause brought are left open then.
ghost use Rattle.std.specs.Prelude.{◌≡◌, ◌≤◌, ◌-◌, ◌++◌, [], Some, map, length, All, IfOk};
ghost use Rattle.ab_term.specs.Types.{prop, Ty};
ghost use Rattle.ab_norm.specs.ab_types.specs.Entries.{signature};
ghost use Rattle.ab_norm.specs.ab_store.specs.Naming.{IsTypedBy};
ghost use Rattle.ab_norm.specs.ab_store.specs.Trees.{HoldsCell};
ghost use Rattle.ab_norm.specs.Nominals.{HoldsNominal};
ghost use Rattle.ab_norm.specs.TypedArguments.{AreTaken};
ghost use Rattle.ab_formulas.specs.CaseClauses as kept;
ghost use Rattle.ab_typing.specs.DefinitionReadings.{clause_of, name_of};
ghost use Rattle.ab_unify.specs.UnifyAnswers.{IsTypedPair};
ghost use Rattle.ab_unify.specs.Problem.{cells_read, problem};
ghost use Rattle.ab_unify.specs.StoreChanges as changed;
ghost use Rattle.ab_instances.specs.ListReadings.{names_read, given_at};
ghost use Rattle.ab_formulas.specs.Formulas.{IsFormula};
ghost use Rattle.ab_logic.specs.WorldGrowth.{Grows};
ghost use Rattle.ab_formulas.specs.Sequents.{Sequent as APlainGoal};
ghost use Rattle.ab_logic.specs.Worlds.{IsWorld, IsKeptClause, declarations_of};
ghost use Rattle.ab_equations.specs.Meanwhile.{AreFrom, unbound_of};
ghost use Rattle.ab_alternatives.specs.LeftAlternatives.{constants_in};
ghost use Rattle.ab_alternatives.specs.ChoiceMatches.{IsMatch, Matches, TellsOpen, cells_before};
ghost use Rattle.ab_alternatives.specs.AtomReadings.{defined_read, HoldsDefined, choice_read};

use crate::atoms::DefinedAtom;
use crate::clause_bodies::{Unfolding, make_unfolding};
use crate::conclusions::unbound_cells;
use crate::one_alternative::both;
use ab_logic::World;
use ab_norm::Nominal;
use ab_norm::name::Name;
use ab_norm::store::{CellId, Store};
use ab_norm::types::{Steps, TypeTable};
use ab_typing::ClauseTerm;
use ab_unify::{Solved, unify};
use std::alloc::{AllocError, Global};

/// How the equations of a choice are solved.
#[derive(Drop)]
pub enum Match {
    /// They are made true, and no variable that the clause brought is left open.
    Closed,
    /// They are made true. The oldest of the variables that the clause brought and that are left open has this name.
    Open(Name),
    /// Nothing makes them true.
    Apart,
    /// The equation of this number, counted from 0, is outside the patterns.
    Stuck(usize),
}

/// What is told where the equations are made true: the oldest of the cells that is bound to nothing.
fn tell_open(
    alloc: Global,
    store: &Store,
    own: &[CellId],
    more: &[CellId],
) -> Result<Match, AllocError>
    requires { All (HoldsCell store.now) (own.now ++ more.now) }
    ensures { IfOk result (TellsOpen store.now (unbound_of store.now (own.now ++ more.now))) }
{
    let cells = both(alloc, own, more)?;
    let left = unbound_cells(alloc, store, &cells)?;
    match left.as_slice() {
        [] => Ok(Match::Closed),
        [first, ..] => {
            let name = store.cell_name(*first).copy(alloc)?;
            Ok(Match::Open(name))
        }
    }
}

/// The equations of the unfolding are solved: only its own cells may be replaced, which are the last ones. Cells are bound
/// then where they are made true.
pub fn solve_match<L>(
    alloc: Global,
    types: &mut TypeTable,
    store: &mut Store,
    made: &Unfolding,
    steps: &mut Steps<L>,
) -> Result<Match, AllocError>
    requires store { IsTypedBy types.old store.old }
    requires unbound { store.old.bindings ≡ [] }
    requires equations { All (IsTypedPair types.old store.old) made.now.equations.items }
    requires own { AreFrom store.old (length store.old.cells - length made.now.own.items) made.now.own.items }
    ensures grows { changed.Grows types.old store.old types.new store.new }
    ensures matched { IfOk result (IsMatch (problem types.old store.old made.now.equations.items made.now.own.items) (cells_before types.old store.old made.now.own.items)) }
    ensures steps { steps.old ≤ steps.new }
{
    match unify(alloc, types, store, &made.equations, &made.own, steps)? {
        Solved::Unified(more) => tell_open(alloc, store, &made.own, more.as_slice()),
        Solved::Apart => Ok(Match::Apart),
        Solved::Stuck(place) => Ok(Match::Stuck(place)),
    }
}

/// How the conclusion's atom and the head of the clause, with these constants for its names, are made equal. Nodes and cells
/// are added then, and cells bound.
fn match_in<L>(
    alloc: Global,
    world: &mut World,
    atom: &DefinedAtom,
    constants: &[Nominal],
    clause: &ClauseTerm,
    names: &[Nominal],
    steps: &mut Steps<L>,
) -> Result<Match, AllocError>
    requires world { IsWorld world.old }
    requires atom { HoldsDefined world.old atom.now }
    requires taken { (A : Ty) × (signature world.old.types (name_of world.old.types atom.now.predicate) ≡ Some A)
        × AreTaken world.old.types world.old.store [] atom.now.arguments.items A prop }
    requires constants { names_read world.old.types constants.now ≡ constants_in (given_at world.old.types world.old.store atom.now.arguments.items) }
    requires constants_held { All (HoldsNominal world.old.types) constants.now }
    requires clause { IsKeptClause world.old.types world.old.store clause.now }
    requires formula { IsFormula (signature world.old.types) (kept.case_of (clause_of world.old.types world.old.store clause.now)).body }
    requires predicate { (kept.case_of (clause_of world.old.types world.old.store clause.now)).predicate ≡ name_of world.old.types atom.now.predicate }
    requires names { All (HoldsNominal world.old.types) names.now }
    requires fit { map (λ a. a.type) (names_read world.old.types names.now)
        ≡ map (λ z. z.type) (kept.case_of (clause_of world.old.types world.old.store clause.now)).names }
    ensures matched { IfOk result (λ m. (s : APlainGoal) →
        Matches (cells_read world.old.types world.old.store) s (defined_read world.old atom.now) (choice_read world.old clause.now names.now) m) }
    ensures grows { changed.Grows world.old.types world.old.store world.new.types world.new.store }
    ensures additions { world.new.additions ≡ world.old.additions }
    ensures steps { steps.old ≤ steps.new }
{
    let made = make_unfolding(
        alloc,
        &mut world.types,
        &mut world.store,
        atom,
        constants,
        clause,
        names,
        steps,
    )?;
    solve_match(alloc, &mut world.types, &mut world.store, &made, steps)
}

/// How the conclusion's atom and the head of the clause, with these constants for its names, are made equal. `constants` are
/// those of the atom. The world's store is as it was then.
pub fn match_choice<L>(
    alloc: Global,
    world: &mut World,
    atom: &DefinedAtom,
    constants: &[Nominal],
    clause: &ClauseTerm,
    names: &[Nominal],
    steps: &mut Steps<L>,
) -> Result<Match, AllocError>
    requires world { IsWorld world.old }
    requires atom { HoldsDefined world.old atom.now }
    requires taken { (A : Ty) × (signature world.old.types (name_of world.old.types atom.now.predicate) ≡ Some A)
        × AreTaken world.old.types world.old.store [] atom.now.arguments.items A prop }
    requires constants { names_read world.old.types constants.now ≡ constants_in (given_at world.old.types world.old.store atom.now.arguments.items) }
    requires constants_held { All (HoldsNominal world.old.types) constants.now }
    requires clause { IsKeptClause world.old.types world.old.store clause.now }
    requires formula { IsFormula (signature world.old.types) (kept.case_of (clause_of world.old.types world.old.store clause.now)).body }
    requires predicate { (kept.case_of (clause_of world.old.types world.old.store clause.now)).predicate ≡ name_of world.old.types atom.now.predicate }
    requires names { All (HoldsNominal world.old.types) names.now }
    requires fit { map (λ a. a.type) (names_read world.old.types names.now)
        ≡ map (λ z. z.type) (kept.case_of (clause_of world.old.types world.old.store clause.now)).names }
    ensures matched { IfOk result (λ m. (s : APlainGoal) →
        Matches (cells_read world.old.types world.old.store) s (defined_read world.old atom.now) (choice_read world.old clause.now names.now) m) }
    ensures cells { cells_read world.new.types world.new.store ≡ cells_read world.old.types world.old.store }
    ensures grows { Grows world.old world.new }
    ensures declared { declarations_of world.new ≡ declarations_of world.old }
    ensures steps { steps.old ≤ steps.new }
{
    let mark = world.store.mark();
    let matched = match_in(alloc, world, atom, constants, clause, names, steps);
    world.store.cut_to(&mark, steps);
    matched
}
