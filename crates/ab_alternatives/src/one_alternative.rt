//! One alternative on the left is tried.
ghost use Rattle.std.specs.Prelude.{◌≡◌, ◌<◌, ◌≤◌, ◌++◌, [], ℕ, Ok, Some, map, length, take, All, Contains, List, IfOk, OnOk, OnErr};
ghost use Rattle.ab_term.specs.Types.{prop, Ty};
ghost use Rattle.ab_term.specs.Variables.{image};
ghost use Rattle.ab_term.specs.Sameness.{same_number};
ghost use Rattle.ab_norm.specs.ab_types.specs.Entries.{signature};
ghost use Rattle.ab_norm.specs.ab_types.specs.Ids.{HoldsConstant};
ghost use Rattle.ab_norm.specs.ab_store.specs.Naming.{IsTypedBy, IsTerm};
ghost use Rattle.ab_norm.specs.ab_store.specs.Reading.{reading};
ghost use Rattle.ab_norm.specs.ab_store.specs.Trees.{tree_of};
ghost use Rattle.ab_norm.specs.Nominals.{HoldsNominal};
ghost use Rattle.ab_norm.specs.TypedArguments.{AreTaken};
ghost use Rattle.ab_formulas.specs.CaseClauses as kept;
ghost use Rattle.ab_typing.specs.DefinitionReadings.{clause_of, name_of};
ghost use Rattle.ab_unify.specs.Problem.{cells_read};
ghost use Rattle.ab_unify.specs.StoreChanges as changed;
ghost use Rattle.ab_unify.specs.UnifyAnswers.{IsTypedPair};
ghost use Rattle.ab_instances.specs.CellBindings.{bound_to, CanBeBound};
ghost use Rattle.ab_instances.specs.ListReadings.{names_read, given_at};
ghost use Rattle.ab_formulas.specs.Declarations.{signature_in, IsDefining};
ghost use Rattle.ab_formulas.specs.Formulas.{IsFormula};
ghost use Rattle.ab_logic.specs.WorldGrowth.{Grows};
ghost use Rattle.ab_formulas.specs.NewNames.{IsNamedFor};
ghost use Rattle.ab_formulas.specs.Sequents.{IsSequent, formulas_of};
ghost use Rattle.ab_logic.specs.Worlds.{IsWorld, IsKeptClause, HoldsCell, Holds, declarations_of};
ghost use Rattle.ab_logic.specs.SequentReadings.{HoldsSequent, sequent_of};
ghost use Rattle.ab_logic.specs.declared.world.World.{World as AWorld};
ghost use Rattle.ab_logic.specs.declared.sequent.Sequent.{Sequent as AGoal};
ghost use Rattle.ab_theory.specs.Splits.{Arises, NeverArises, IsOpen};
ghost use Rattle.ab_equations.specs.Meanwhile.{AreFrom, count_before};
ghost use Rattle.ab_equations.specs.declared.cases.CaseSolution.TheVariants.{Unified, Apart, Stuck};
ghost use Rattle.ab_theory.specs.Analysis.{case_of};
ghost use Rattle.ab_alternatives.specs.LeftAlternatives.{constants_in, raising, case_put, goal_for};
ghost use Rattle.ab_alternatives.specs.AtomReadings.{defined_read, choice_read};

use crate::alternatives::{Alternative, make_alternative};
use crate::atoms::DefinedAtom;
use ab_equations::{CaseSolution, solve_case};
use ab_instances::{Over, bind_to};
use ab_logic::{Hypotheses, Hypothesis, Sequent, Variables, World};
use ab_norm::Nominal;
use ab_norm::name::Name;
use ab_norm::store::{CellId, Store, TermId};
use ab_norm::types::{Steps, TypeTable};
use ab_typing::ClauseTerm;
use std::alloc::{AllocError, Global};

/// The first cells, and then the others.
pub fn both(alloc: Global, first: &[CellId], second: &[CellId]) -> Result<Vec<CellId>, AllocError>
    ensures { IfOk result (λ cells. cells.items ≡ first.now ++ second.now) }
{
    let mut cells = Vec::from_slice(alloc, first)?;
    cells.extend_from_slice(second)?;
    Ok(cells)
}

/// What is left of the goal, over these variables, with the body of the clause as a hypothesis of the name.
pub fn goal_over(
    alloc: Global,
    rest: &Sequent,
    variables: &[CellId],
    name: &Name,
    body: TermId,
) -> Result<Sequent, AllocError>
    ensures { IfOk result (λ g. g ≡ goal_for rest.now variables.now name.now body) }
{
    let goal = rest.copy(alloc)?;
    let mut hypotheses = goal.hypotheses.into_vec();
    hypotheses.push(Hypothesis {
        name: name.copy(alloc)?,
        formula: body,
    })?;
    Ok(Sequent {
        variables: Variables::from_vec(Vec::from_slice(alloc, variables)?),
        hypotheses: Hypotheses::from_vec(hypotheses),
        conclusion: goal.conclusion,
        counter: goal.counter,
    })
}

/// Binds the variables to the terms over the raised ones, where there are such.
fn bind_raised<L>(
    types: &TypeTable,
    store: &mut Store,
    variables: &[CellId],
    over: &Over,
    steps: &mut Steps<L>,
) -> Result<(), AllocError>
    requires store { IsTypedBy types.now store.old }
    requires unbound { store.old.bindings ≡ [] }
    requires few { length over.now.terms.items ≤ length variables.now }
    requires fit { CanBeBound types.now store.old (take (length over.now.terms.items) variables.now) over.now.terms.items }
    ensures grows { changed.Grows types.now store.old types.now store.new }
    ensures nodes { store.new.nodes ≡ store.old.nodes }
    ensures cells { store.new.cells ≡ store.old.cells }
    ensures reads { OnOk result ((G : List Ty) (t : TermId) (A : Ty) → IsTerm types.now store.old G t A →
        reading types.now store.new t ≡ image same_number (raising types.now store.old variables.now over.now) (tree_of types.now store.old t)) }
    ensures bound { OnOk result (store.new.bindings ≡ bound_to (take (length over.now.terms.items) variables.now) over.now.terms.items) }
    ensures err { OnErr result (store.new.bindings ≡ []) }
    ensures steps { steps.new ≡ steps.old }
{
    let terms = over.terms.as_slice();
    bind_to(types, store, &variables[..terms.len()], terms, steps)
}

/// The alternative is solved in the goal, which is over its raised variables. These variables are bound to them then.
pub fn solve_alternative<L>(
    alloc: Global,
    world: &mut World,
    made: &Alternative,
    variables: &[CellId],
    goal: Sequent,
    steps: &mut Steps<L>,
) -> Result<CaseSolution, AllocError>
    requires world { IsWorld world.old }
    requires held { HoldsSequent world.old goal }
    requires formulas { All (IsFormula (signature_in (declarations_of world.old))) (formulas_of (sequent_of world.old goal)) }
    requires over { goal.variables ≡ made.now.raised.cells.items }
    requires few { length made.now.raised.terms.items ≤ length variables.now }
    requires fit { CanBeBound world.old.types world.old.store (take (length made.now.raised.terms.items) variables.now) made.now.raised.terms.items }
    requires free { All (λ c. HoldsCell world.old c × ¬ Contains (take (length made.now.raised.terms.items) variables.now) c) (made.now.raised.cells.items ++ made.now.own.items) }
    requires before { All (λ c. c.0 < count_before world.old made.now.own.items) goal.variables }
    requires equations { All (IsTypedPair world.old.types world.old.store) made.now.equations.items }
    requires own { AreFrom world.old.store (count_before world.old made.now.own.items) made.now.own.items }
    ensures unified { (g : AGoal) → result ≡ Ok (Unified g) →
        Arises (IsNamedFor (declarations_of world.old)) (case_put world.old variables.now made.now goal)
        (cells_read world.new.types world.new.store) (sequent_of world.new g) }
    ensures held { (g : AGoal) → result ≡ Ok (Unified g) → HoldsSequent world.new g }
    ensures apart { result ≡ Ok Apart → NeverArises (case_put world.old variables.now made.now goal) }
    ensures stuck { (i : ℕ) → result ≡ Ok (Stuck i) → IsOpen (case_put world.old variables.now made.now goal) i }
    ensures grows { changed.Grows world.old.types world.old.store world.new.types world.new.store }
    ensures additions { world.new.additions ≡ world.old.additions }
    ensures steps { steps.old ≤ steps.new }
{
    let flexible = both(alloc, &made.raised.cells, &made.own)?;
    bind_raised(
        &world.types,
        &mut world.store,
        variables,
        &made.raised,
        steps,
    )?;
    solve_case(
        alloc,
        world,
        &made.equations,
        &flexible,
        &made.own,
        goal,
        steps,
    )
}

/// The case of the choice, solved. `constants` are those of the atom; `rest` is what stays of the goal.
pub fn try_case<L>(
    alloc: Global,
    world: &mut World,
    atom: &DefinedAtom,
    constants: &[Nominal],
    clause: &ClauseTerm,
    names: &[Nominal],
    goal: &Sequent,
    rest: &Sequent,
    name: &Name,
    steps: &mut Steps<L>,
) -> Result<CaseSolution, AllocError>
    requires world { IsWorld world.old }
    requires goal { HoldsSequent world.old goal.now }
    requires sequent { IsSequent (declarations_of world.old) (sequent_of world.old goal.now) }
    requires rest { HoldsSequent world.old rest.now }
    requires formulas { All (IsFormula (signature_in (declarations_of world.old))) (formulas_of (sequent_of world.old rest.now)) }
    requires same { rest.now.variables ≡ goal.now.variables }
    requires arguments { All (Holds world.old) atom.now.arguments.items }
    requires predicates { All (HoldsConstant world.old.types) atom.now.block.predicates }
    requires taken { (A : Ty) × (signature world.old.types (name_of world.old.types atom.now.predicate) ≡ Some A)
        × AreTaken world.old.types world.old.store [] atom.now.arguments.items A prop }
    requires constants { names_read world.old.types constants.now ≡ constants_in (given_at world.old.types world.old.store atom.now.arguments.items) }
    requires constants_held { All (HoldsNominal world.old.types) constants.now }
    requires clause { IsKeptClause world.old.types world.old.store clause.now }
    requires defining { IsDefining (signature_in (declarations_of world.old)) (kept.case_of (clause_of world.old.types world.old.store clause.now)) }
    requires predicate { (kept.case_of (clause_of world.old.types world.old.store clause.now)).predicate ≡ name_of world.old.types atom.now.predicate }
    requires names { All (HoldsNominal world.old.types) names.now }
    requires fit { map (λ a. a.type) (names_read world.old.types names.now)
        ≡ map (λ z. z.type) (kept.case_of (clause_of world.old.types world.old.store clause.now)).names }
    ensures unified { (g : AGoal) → result ≡ Ok (Unified g) → Arises (IsNamedFor (declarations_of world.old))
        (case_of (sequent_of world.old goal.now) (sequent_of world.old rest.now) name.now (defined_read world.old atom.now)
        (choice_read world.old clause.now names.now) (cells_read world.old.types world.old.store))
        (cells_read world.new.types world.new.store) (sequent_of world.new g) }
    ensures held { (g : AGoal) → result ≡ Ok (Unified g) → HoldsSequent world.new g }
    ensures apart { result ≡ Ok Apart → NeverArises
        (case_of (sequent_of world.old goal.now) (sequent_of world.old rest.now) name.now (defined_read world.old atom.now)
        (choice_read world.old clause.now names.now) (cells_read world.old.types world.old.store)) }
    ensures stuck { (i : ℕ) → result ≡ Ok (Stuck i) → IsOpen
        (case_of (sequent_of world.old goal.now) (sequent_of world.old rest.now) name.now (defined_read world.old atom.now)
        (choice_read world.old clause.now names.now) (cells_read world.old.types world.old.store)) i }
    ensures no_cell { result ≡ Ok Apart → cells_read world.new.types world.new.store ≡ cells_read world.old.types world.old.store }
    ensures grown { changed.Grows world.old.types world.old.store world.new.types world.new.store }
    ensures additions { world.new.additions ≡ world.old.additions }
    ensures grows { Grows world.old world.new }
    ensures declared { declarations_of world.new ≡ declarations_of world.old }
    ensures steps { steps.old ≤ steps.new }
{
    let mark = world.store.mark();
    let variables = goal.variables.as_slice();
    let made = make_alternative(
        alloc,
        &mut world.types,
        &mut world.store,
        atom,
        constants,
        clause,
        names,
        variables,
        steps,
    )?;
    let over = goal_over(alloc, rest, &made.raised.cells, name, made.body)?;
    match solve_alternative(alloc, world, &made, variables, over, steps) {
        Ok(CaseSolution::Unified(premise)) => {
            world.store.rewind(&mark, steps);
            Ok(CaseSolution::Unified(premise))
        }
        Ok(CaseSolution::Apart) => {
            world.store.cut_to(&mark, steps);
            Ok(CaseSolution::Apart)
        }
        Ok(CaseSolution::Stuck(place)) => {
            world.store.cut_to(&mark, steps);
            Ok(CaseSolution::Stuck(place))
        }
        Err(fault) => {
            world.store.rewind(&mark, steps);
            Err(fault)
        }
    }
}
