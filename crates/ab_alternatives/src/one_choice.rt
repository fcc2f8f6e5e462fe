//! A conclusion is unfolded by a choice.
ghost use Rattle.std.specs.Prelude.{◌≡◌, ◌≤◌, [], ℕ, Ok, Some, map, All};
ghost use Rattle.ab_term.specs.Types.{prop, Ty};
ghost use Rattle.ab_norm.specs.ab_types.specs.Entries.{signature};
ghost use Rattle.ab_norm.specs.ab_store.specs.declared.node.TermId.{TermId as ATerm};
ghost use Rattle.ab_norm.specs.Nominals.{HoldsNominal};
ghost use Rattle.ab_norm.specs.TypedArguments.{AreTaken};
ghost use Rattle.ab_formulas.specs.CaseClauses as kept;
ghost use Rattle.ab_typing.specs.DefinitionReadings.{clause_of, name_of};
ghost use Rattle.ab_unify.specs.Problem.{cells_read};
ghost use Rattle.ab_unify.specs.StoreChanges as changed;
ghost use Rattle.ab_instances.specs.ListReadings.{names_read, given_at};
ghost use Rattle.ab_formulas.specs.Formulas.{IsFormula};
ghost use Rattle.ab_formulas.specs.Sequents.{Sequent as APlainGoal};
ghost use Rattle.ab_logic.specs.WorldGrowth.{Grows};
ghost use Rattle.ab_logic.specs.Worlds.{IsWorld, IsKeptClause, Holds, declarations_of};
ghost use Rattle.ab_logic.specs.SequentReadings.{HoldsSequent, sequent_of};
ghost use Rattle.ab_logic.specs.declared.sequent.Sequent.{Sequent as AGoal};
ghost use Rattle.ab_theory.specs.Splits.{NeverArises, IsOpen};
ghost use Rattle.ab_equations.specs.declared.cases.CaseSolution.TheVariants as case;
ghost use Rattle.ab_theory.specs.Unfolding.{unfolding_case};
ghost use Rattle.ab_alternatives.specs.LeftAlternatives.{constants_in};
ghost use Rattle.ab_alternatives.specs.RightAlternatives.{Unfolds, IsUnfolded};
ghost use Rattle.ab_alternatives.specs.AtomReadings.{defined_read, HoldsDefined, choice_read};
ghost use Rattle.ab_alternatives.specs.declared.conclusions.Conclusion.TheVariants.{Formula, Apart, Stuck};

use crate::atoms::DefinedAtom;
use crate::clause_bodies::make_unfolding;
use crate::conclusions::{Conclusion, solve_unfolding};
use crate::hints::prefix_hints;
use ab_equations::CaseSolution;
use ab_logic::{Sequent, World};
use ab_norm::Nominal;
use ab_norm::types::Steps;
use ab_typing::ClauseTerm;
use std::alloc::{AllocError, Global};

/// What the conclusion becomes by the clause, with these constants for its names. `constants` are those of the atom. Cells
/// are bound then where there is a formula.
fn conclusion_by<L>(
    alloc: Global,
    world: &mut World,
    atom: &DefinedAtom,
    constants: &[Nominal],
    clause: &ClauseTerm,
    names: &[Nominal],
    steps: &mut Steps<L>,
) -> Result<Conclusion, AllocError>
    requires world { IsWorld world.old }
    requires atom { HoldsDefined world.old atom.now }
    requires taken { (A : Ty) × (signature world.old.types (name_of world.old.types atom.now.predicate) ≡ Some A)
        × AreTaken world.old.types world.old.store [] atom.now.arguments.items A prop }
    requires constants { names_read world.old.types constants.now ≡ constants_in (given_at world.old.types world.old.store atom.now.arguments.items) }
    requires constants_held { All (HoldsNominal world.old.types) constants.now }
    requires clause { IsKeptClause world.old.types world.old.store clause.now }
    requires formula { IsFormula (signature world.old.types) (kept.case_of (clause_of world.old.types world.old.store clause.now)).body }
    requires predicate { (kept.case_of (clause_of world.old.types world.old.store clause.now)).predicate ≡ name_of world.old.types atom.now.predicate }
    requires names { All (HoldsNominal world.old.types) names.now }
    requires fit { map (λ a. a.type) (names_read world.old.types names.now)
        ≡ map (λ z. z.type) (kept.case_of (clause_of world.old.types world.old.store clause.now)).names }
    ensures formula { (s : APlainGoal) (r : ATerm) → result ≡ Ok (Formula r) →
        Unfolds (cells_read world.old.types world.old.store) s (defined_read world.old atom.now) (choice_read world.old clause.now names.now) world.new.types world.new.store r }
    ensures held { (r : ATerm) → result ≡ Ok (Formula r) → Holds world.new r }
    ensures apart { (s : APlainGoal) → result ≡ Ok Apart →
        NeverArises (unfolding_case (cells_read world.old.types world.old.store) s (defined_read world.old atom.now) (choice_read world.old clause.now names.now)) }
    ensures stuck { (s : APlainGoal) (i : ℕ) → result ≡ Ok (Stuck i) →
        IsOpen (unfolding_case (cells_read world.old.types world.old.store) s (defined_read world.old atom.now) (choice_read world.old clause.now names.now)) i }
    ensures grows { changed.Grows world.old.types world.old.store world.new.types world.new.store }
    ensures additions { world.new.additions ≡ world.old.additions }
    ensures steps { steps.old ≤ steps.new }
{
    let hints = prefix_hints(alloc, &world.types, &world.store, clause.head)?;
    let made = make_unfolding(
        alloc,
        &mut world.types,
        &mut world.store,
        atom,
        constants,
        clause,
        names,
        steps,
    )?;
    solve_unfolding(
        alloc,
        &mut world.types,
        &mut world.store,
        &made,
        &hints,
        names,
        steps,
    )
}

/// The goal with its conclusion unfolded by the clause, with these constants for its names. `constants` are those of the
/// conclusion's atom.
pub fn unfold<L>(
    alloc: Global,
    world: &mut World,
    atom: &DefinedAtom,
    constants: &[Nominal],
    clause: &ClauseTerm,
    names: &[Nominal],
    goal: &Sequent,
    steps: &mut Steps<L>,
) -> Result<CaseSolution, AllocError>
    requires world { IsWorld world.old }
    requires goal { HoldsSequent world.old goal.now }
    requires atom { HoldsDefined world.old atom.now }
    requires taken { (A : Ty) × (signature world.old.types (name_of world.old.types atom.now.predicate) ≡ Some A)
        × AreTaken world.old.types world.old.store [] atom.now.arguments.items A prop }
    requires constants { names_read world.old.types constants.now ≡ constants_in (given_at world.old.types world.old.store atom.now.arguments.items) }
    requires constants_held { All (HoldsNominal world.old.types) constants.now }
    requires clause { IsKeptClause world.old.types world.old.store clause.now }
    requires formula { IsFormula (signature world.old.types) (kept.case_of (clause_of world.old.types world.old.store clause.now)).body }
    requires predicate { (kept.case_of (clause_of world.old.types world.old.store clause.now)).predicate ≡ name_of world.old.types atom.now.predicate }
    requires names { All (HoldsNominal world.old.types) names.now }
    requires fit { map (λ a. a.type) (names_read world.old.types names.now)
        ≡ map (λ z. z.type) (kept.case_of (clause_of world.old.types world.old.store clause.now)).names }
    ensures unified { (g : AGoal) → result ≡ Ok (case.Unified g) →
        IsUnfolded (cells_read world.old.types world.old.store) (sequent_of world.old goal.now) (defined_read world.old atom.now)
        (choice_read world.old clause.now names.now) (sequent_of world.new g) }
    ensures held { (g : AGoal) → result ≡ Ok (case.Unified g) → HoldsSequent world.new g }
    ensures apart { result ≡ Ok case.Apart → NeverArises (unfolding_case (cells_read world.old.types world.old.store)
        (sequent_of world.old goal.now) (defined_read world.old atom.now) (choice_read world.old clause.now names.now)) }
    ensures stuck { (i : ℕ) → result ≡ Ok (case.Stuck i) → IsOpen (unfolding_case (cells_read world.old.types world.old.store)
        (sequent_of world.old goal.now) (defined_read world.old atom.now) (choice_read world.old clause.now names.now)) i }
    ensures grows { Grows world.old world.new }
    ensures declared { declarations_of world.new ≡ declarations_of world.old }
    ensures steps { steps.old ≤ steps.new }
{
    let mark = world.store.mark();
    let solved = conclusion_by(alloc, world, atom, constants, clause, names, steps);
    world.store.rewind(&mark, steps);
    match solved? {
        Conclusion::Formula(formula) => {
            let premise = goal.copy(alloc)?;
            Ok(CaseSolution::Unified(premise.with_conclusion(formula)))
        }
        Conclusion::Apart => Ok(CaseSolution::Apart),
        Conclusion::Stuck(place) => Ok(CaseSolution::Stuck(place)),
    }
}
