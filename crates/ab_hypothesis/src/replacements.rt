//! A hypothesis or the conclusion of the first goal gives way to a formula that comes of it.
ghost use Rattle.std.specs.Prelude.{◌≤◌, ◌≡◌, ◌≢◌, ◌++◌, ◌∷◌, [], List, Some, OnOk};
ghost use Rattle.ab_term.specs.Terms.{Read};
ghost use Rattle.ab_formulas.specs.NewNames.{given};
ghost use Rattle.ab_formulas.specs.Sequents.{Sequent as AGoal, formula_of, proving, assuming, without};
ghost use Rattle.ab_theory.specs.Steps.{initial, cut_formula};
ghost use Rattle.ab_consequences.specs.Standing.{StandsFor, IsAllowed};
ghost use Rattle.ab_logic.specs.Worlds.{IsWorld, Holds, declarations_of, read};
ghost use Rattle.ab_steps.specs.ab_kernel.specs.Layout.{IsProof, goals_of};
ghost use Rattle.ab_steps.specs.Progress.{IsAt, Follows};
ghost use Rattle.ab_hypothesis.specs.HypothesisProgress.{HasAt};

use crate::goal_moves::{forget, shift};
use crate::own_names::own_name;
use ab_equations::Label;
use ab_logic::World;
use ab_norm::name::Name;
use ab_norm::store::TermId;
use ab_norm::types::Steps;
use ab_steps::kernel::{Proof, Step};
use ab_steps::{first_goal, surely};
use std::alloc::{AllocError, Global};

/// The goal splits in two: the formula is to be derived, and then it is a hypothesis of that name, behind the others.
fn cut<L>(
    alloc: Global,
    world: &mut World,
    proof: &mut Proof,
    formula: TermId,
    name: &Name,
    steps: &mut Steps<L>,
) -> Result<(), AllocError>
    requires world { IsWorld world.old }
    requires proof { IsProof world.old proof.old }
    requires open { goals_of world.old proof.old ≢ [] }
    requires formula { Holds world.old formula }
    requires allowed { (s : AGoal) (rest : List AGoal) → goals_of world.old proof.old ≡ s ∷ rest →
        IsAllowed (declarations_of world.old) (cut_formula (read world.old formula) (given name.now)) s }
    ensures follows { Follows world.old proof.old world.new proof.new }
    ensures cut { OnOk result ((s : AGoal) (rest : List AGoal) → goals_of world.old proof.old ≡ s ∷ rest →
        goals_of world.new proof.new ≡ proving (read world.old formula) s ∷ assuming name.now (read world.old formula) s ∷ rest) }
    ensures steps { steps.old ≤ steps.new }
{
    let given = name.copy(alloc)?;
    let step = Step::CutFormula(formula, Label::Given(given));
    surely(world, proof, 0, step, steps)
}

/// Closes the goal of this place by a hypothesis.
fn close<L>(
    alloc: Global,
    world: &mut World,
    proof: &mut Proof,
    place: usize,
    name: &Name,
    steps: &mut Steps<L>,
) -> Result<(), AllocError>
    requires world { IsWorld world.old }
    requires proof { IsProof world.old proof.old }
    requires there { (before behind : List AGoal) × (k : AGoal) × IsAt world.old proof.old place before k behind × IsAllowed (declarations_of world.old) (initial name.now) k }
    ensures follows { Follows world.old proof.old world.new proof.new }
    ensures closed { OnOk result ((before behind : List AGoal) (k : AGoal) → IsAt world.old proof.old place before k behind →
        goals_of world.new proof.new ≡ before ++ behind) }
    ensures steps { steps.old ≤ steps.new }
{
    let given = name.copy(alloc)?;
    surely(world, proof, place, Step::Initial(given), steps)
}

/// The formula, which stands for the conclusion, is to be derived in its place.
pub(crate) fn change_conclusion<L>(
    alloc: Global,
    world: &mut World,
    proof: &mut Proof,
    formula: TermId,
    steps: &mut Steps<L>,
) -> Result<(), AllocError>
    requires world { IsWorld world.old }
    requires proof { IsProof world.old proof.old }
    requires open { goals_of world.old proof.old ≢ [] }
    requires formula { Holds world.old formula }
    requires stands { (s : AGoal) (rest : List AGoal) → goals_of world.old proof.old ≡ s ∷ rest →
        StandsFor (declarations_of world.old) s (read world.old formula) s.conclusion }
    ensures follows { Follows world.old proof.old world.new proof.new }
    ensures changed { OnOk result ((s : AGoal) (rest : List AGoal) → goals_of world.old proof.old ≡ s ∷ rest →
        goals_of world.new proof.new ≡ proving (read world.old formula) s ∷ rest) }
    ensures steps { steps.old ≤ steps.new }
{
    let own = own_name(alloc, world, first_goal(world, proof), &Label::Auto)?;
    cut(alloc, world, proof, formula, &own, steps)?;
    close(alloc, world, proof, 1, &own, steps)
}

/// The formula, which follows from a hypothesis, is a hypothesis of the own name, behind the others.
fn put_beside<L>(
    alloc: Global,
    world: &mut World,
    proof: &mut Proof,
    name: &Name,
    formula: TermId,
    own: &Name,
    steps: &mut Steps<L>,
) -> Result<(), AllocError>
    requires world { IsWorld world.old }
    requires proof { IsProof world.old proof.old }
    requires open { goals_of world.old proof.old ≢ [] }
    requires formula { Holds world.old formula }
    requires allowed { (s : AGoal) (rest : List AGoal) → goals_of world.old proof.old ≡ s ∷ rest →
        IsAllowed (declarations_of world.old) (cut_formula (read world.old formula) (given own.now)) s }
    requires from { (s : AGoal) (rest : List AGoal) → goals_of world.old proof.old ≡ s ∷ rest →
        IsAllowed (declarations_of world.old) (initial name.now) (proving (read world.old formula) s) }
    ensures follows { Follows world.old proof.old world.new proof.new }
    ensures put { OnOk result ((s : AGoal) (rest : List AGoal) → goals_of world.old proof.old ≡ s ∷ rest →
        goals_of world.new proof.new ≡ assuming own.now (read world.old formula) s ∷ rest) }
    ensures steps { steps.old ≤ steps.new }
{
    cut(alloc, world, proof, formula, own, steps)?;
    close(alloc, world, proof, 0, name, steps)
}

/// The formula, which stands for that of a hypothesis, is the hypothesis of its name then, behind the others.
pub(crate) fn change_hypothesis<L>(
    alloc: Global,
    world: &mut World,
    proof: &mut Proof,
    name: &Name,
    formula: TermId,
    steps: &mut Steps<L>,
) -> Result<(), AllocError>
    requires world { IsWorld world.old }
    requires proof { IsProof world.old proof.old }
    requires open { goals_of world.old proof.old ≢ [] }
    requires formula { Holds world.old formula }
    requires there { (F : Read) × HasAt world.old proof.old 0 name.now F }
    requires stands { (s : AGoal) (rest : List AGoal) (F : Read) → goals_of world.old proof.old ≡ s ∷ rest → formula_of s name.now ≡ Some F →
        StandsFor (declarations_of world.old) s (read world.old formula) F }
    ensures follows { Follows world.old proof.old world.new proof.new }
    ensures changed { OnOk result ((s : AGoal) (rest : List AGoal) → goals_of world.old proof.old ≡ s ∷ rest →
        goals_of world.new proof.new ≡ assuming name.now (read world.old formula) (without name.now s) ∷ rest) }
    ensures steps { steps.old ≤ steps.new }
{
    let own = own_name(alloc, world, first_goal(world, proof), &Label::Auto)?;
    let back = name.copy(alloc)?;
    put_beside(alloc, world, proof, name, formula, &own, steps)?;
    forget(alloc, world, proof, 0, name, steps)?;
    let moved = shift(
        alloc,
        world,
        proof,
        0,
        &own,
        formula,
        Label::Given(back),
        steps,
    )?;
    if moved { Ok(()) } else { unreachable!() }
}
