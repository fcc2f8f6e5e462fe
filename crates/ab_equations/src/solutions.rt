//! An equation of a goal, solved.
ghost use Rattle.std.specs.Prelude.{◌≡◌, ◌≤◌, Ok};
ghost use Rattle.ab_logic.specs.Worlds.{IsWorld, read, declarations_of};
ghost use Rattle.ab_formulas.specs.NewNames.{IsNamedFor};
ghost use Rattle.ab_formulas.specs.Sequents.{IsSequent};
ghost use Rattle.ab_logic.specs.SequentReadings.{HoldsSequent, sequent_of};
ghost use Rattle.ab_logic.specs.WorldGrowth.{Grows};
ghost use Rattle.ab_logic.specs.declared.sequent.Sequent.{Sequent as AGoal};
ghost use Rattle.ab_unify.specs.Problem.{cells_read};
ghost use Rattle.ab_unify.specs.UnifyAnswers.{IsTypedPair};
ghost use Rattle.ab_equations.specs.declared.solutions.Solution.TheVariants.{Unified, Apart, Stuck};
ghost use Rattle.ab_theory.specs.Equations.{Becomes, AreApart, AreStuck};

use crate::cases::{CaseSolution, solve_case};
use ab_logic::{Sequent, World};
use ab_norm::store::{Equation, TermId};
use ab_norm::types::Steps;
use std::alloc::{AllocError, Global};

/// What comes of solving an equation of a goal.
#[derive(Drop)]
pub enum Solution {
    /// The two sides are made equal, and this is the goal then.
    Unified(Sequent),
    /// Nothing makes them equal.
    Apart,
    /// They are outside the patterns.
    Stuck,
}

/// Solves the equation of the two terms, in which each variable of the goal may be replaced, and puts the goal under the
/// answer. What no binding touches is shared with the goal. Cells are bound meanwhile, and none is in the end.
pub fn solve_in<L>(
    alloc: Global,
    world: &mut World,
    left: TermId,
    right: TermId,
    goal: Sequent,
    steps: &mut Steps<L>,
) -> Result<Solution, AllocError>
    requires world { IsWorld world.old }
    requires held { HoldsSequent world.old goal }
    requires sequent { IsSequent (declarations_of world.old) (sequent_of world.old goal) }
    requires pair { IsTypedPair world.old.types world.old.store (record { left = left; right = right }) }
    ensures unified { (g : AGoal) → result ≡ Ok (Unified g) →
        Becomes (IsNamedFor (declarations_of world.old)) (cells_read world.old.types world.old.store) (sequent_of world.old goal)
        (read world.old left) (read world.old right) (sequent_of world.new g) }
    ensures held { (g : AGoal) → result ≡ Ok (Unified g) → HoldsSequent world.new g }
    ensures apart { result ≡ Ok Apart →
        AreApart (cells_read world.old.types world.old.store) (sequent_of world.old goal) (read world.old left) (read world.old right) }
    ensures stuck { result ≡ Ok Stuck →
        AreStuck (cells_read world.old.types world.old.store) (sequent_of world.old goal) (read world.old left) (read world.old right) }
    ensures grows { Grows world.old world.new }
    ensures declared { declarations_of world.new ≡ declarations_of world.old }
    ensures steps { steps.old ≤ steps.new }
{
    let equation = Equation { left, right };
    let flexible = Vec::from_slice(alloc, goal.variables.as_slice())?;
    match solve_case(
        alloc,
        world,
        &[equation],
        flexible.as_slice(),
        &[],
        goal,
        steps,
    )? {
        CaseSolution::Unified(carried) => Ok(Solution::Unified(carried)),
        CaseSolution::Apart => Ok(Solution::Apart),
        CaseSolution::Stuck(_) => Ok(Solution::Stuck),
    }
}
