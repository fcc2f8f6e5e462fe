//! A case of a goal, solved.
ghost use Rattle.std.specs.Prelude.{◌≡◌, ◌≢◌, ◌<◌, ◌≤◌, ◌++◌, ℕ, IfOk, All, AllPairs, Contains, Ok};
ghost use Rattle.ab_norm.specs.ab_store.specs.Trees.{HoldsCell};
ghost use Rattle.ab_unify.specs.Problem.{cells_read};
ghost use Rattle.ab_unify.specs.StoreChanges.{IsFree};
ghost use Rattle.ab_unify.specs.UnifyAnswers.{IsTypedPair};
ghost use Rattle.ab_formulas.specs.Formulas.{IsFormula};
ghost use Rattle.ab_formulas.specs.Declarations.{signature_in};
ghost use Rattle.ab_formulas.specs.Sequents.{formulas_of};
ghost use Rattle.ab_formulas.specs.NewNames.{IsNamedFor};
ghost use Rattle.ab_logic.specs.Worlds.{declarations_of};
ghost use Rattle.ab_logic.specs.SequentReadings.{HoldsSequent, sequent_of};
ghost use Rattle.ab_logic.specs.declared.sequent.Sequent.{Sequent as AGoal};
ghost use Rattle.ab_equations.specs.declared.cases.CaseSolution.TheVariants.{Unified, Apart, Stuck};
ghost use Rattle.ab_theory.specs.Splits.{Arises, NeverArises, IsOpen};
ghost use Rattle.ab_equations.specs.Meanwhile.{IsMeanwhile, ComesBack, AreFrom, count_before, case_read, GoesOn, IsCarried};

use crate::carried_goals::carry;
use ab_logic::{Sequent, World};
use ab_norm::store::{CellId, Equation};
use ab_norm::types::Steps;
use ab_unify::{Solved, unify};
use std::alloc::{AllocError, Global};

/// What comes of solving a case of a goal.
#[derive(Drop)]
pub enum CaseSolution {
    /// Its equations are made true, and this is the goal then.
    Unified(Sequent),
    /// Nothing makes them true.
    Apart,
    /// The equation of this number, counted from 0, is outside the patterns.
    Stuck(usize),
}

/// The goal under what cells are bound to, where the case's own cells and those that solving made give way to new variables
/// if they are unbound.
fn carry_behind<L>(
    alloc: Global,
    world: &mut World,
    own: &[CellId],
    made: &[CellId],
    goal: Sequent,
    steps: &mut Steps<L>,
) -> Result<Sequent, AllocError>
    requires world { IsMeanwhile world.old }
    requires behind { All (HoldsCell world.old.store) (own.now ++ made.now) }
    requires in_age { AllPairs (λ a b. a.0 < b.0) (own.now ++ made.now) }
    requires apart { All (λ c. All (λ d. d.0 < c.0) goal.variables) (own.now ++ made.now) }
    requires goal { HoldsSequent world.old goal }
    ensures goes { GoesOn world.old world.new }
    ensures held { IfOk result (λ g. HoldsSequent world.new g) }
    ensures carried { IfOk result (λ g. IsCarried world.old (own.now ++ made.now) goal world.new g) }
    ensures steps { steps.old ≤ steps.new }
{
    let mut behind = Vec::from_slice(alloc, own)?;
    behind.extend_from_slice(made)?;
    carry(alloc, world, behind.as_slice(), goal, steps)
}

/// Solves a case of the goal: the equations, in which the flexible cells may be replaced, and puts the goal under the answer.
/// `own` are the cells that the case itself brings, in order of age: no cell is younger, and each is flexible. In the goal
/// new variables take their places, and those of the cells that solving makes, where they are left. Cells may be bound when
/// it is called, and just those are in the end. Unless a goal is answered, no cell is added.
pub fn solve_case<L>(
    alloc: Global,
    world: &mut World,
    equations: &[Equation],
    flexible: &[CellId],
    own: &[CellId],
    goal: Sequent,
    steps: &mut Steps<L>,
) -> Result<CaseSolution, AllocError>
    requires world { IsMeanwhile world.old }
    requires held { HoldsSequent world.old goal }
    requires formulas { All (IsFormula (signature_in (declarations_of world.old))) (formulas_of (sequent_of world.old goal)) }
    requires variables { All (IsFree world.old.store) goal.variables }
    requires before { All (λ c. c.0 < count_before world.old own.now) goal.variables }
    requires equations { All (IsTypedPair world.old.types world.old.store) equations.now }
    requires flexible { All (IsFree world.old.store) flexible.now }
    requires own { AreFrom world.old.store (count_before world.old own.now) own.now }
    requires own_flexible { All (Contains flexible.now) own.now }
    ensures unified { (g : AGoal) → result ≡ Ok (Unified g) →
        Arises (IsNamedFor (declarations_of world.old)) (case_read world.old equations.now flexible.now own.now goal)
        (cells_read world.new.types world.new.store) (sequent_of world.new g) }
    ensures held { (g : AGoal) → result ≡ Ok (Unified g) → HoldsSequent world.new g }
    ensures apart { result ≡ Ok Apart → NeverArises (case_read world.old equations.now flexible.now own.now goal) }
    ensures stuck { (i : ℕ) → result ≡ Ok (Stuck i) → IsOpen (case_read world.old equations.now flexible.now own.now goal) i }
    ensures no_cell { ((g : AGoal) → result ≢ Ok (Unified g)) →
        cells_read world.new.types world.new.store ≡ cells_read world.old.types world.old.store }
    ensures back { ComesBack world.old world.new }
    ensures declared { declarations_of world.new ≡ declarations_of world.old }
    ensures steps { steps.old ≤ steps.new }
{
    let mark = world.store.mark();
    match unify(
        alloc,
        &mut world.types,
        &mut world.store,
        equations,
        flexible,
        steps,
    )? {
        Solved::Unified(made) => match carry_behind(
            alloc,
            world,
            own,
            made.as_slice(),
            goal,
            steps,
        ) {
            Ok(carried) => {
                world.store.rewind(&mark, steps);
                Ok(CaseSolution::Unified(carried))
            }
            Err(error) => {
                world.store.cut_to(&mark, steps);
                Err(error)
            }
        },
        Solved::Apart => Ok(CaseSolution::Apart),
        Solved::Stuck(place) => Ok(CaseSolution::Stuck(place)),
    }
}
