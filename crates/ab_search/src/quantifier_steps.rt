//! The steps of the kernel for `exists` and for `forall`.
ghost use Rattle.std.specs.Prelude.{◌≤◌, All, IfOk, OnOk};
ghost use Rattle.ab_norm.specs.ab_types.specs.Entries.{Table};
ghost use Rattle.ab_norm.specs.Nominals.{HoldsNominal};
ghost use Rattle.ab_logic.specs.Worlds.{IsWorld, Holds, HoldsCell};
ghost use Rattle.ab_steps.specs.ab_kernel.specs.Layout.{IsProof};
ghost use Rattle.ab_steps.specs.Progress.{Follows};
ghost use Rattle.ab_search.specs.GoalCounts.{GaveWayTo};
ghost use Rattle.ab_search_paths.specs.MoreTerms.{GotTerms};
ghost use Rattle.ab_search_paths.specs.Paths.{IsFormulaIn, IsTermIn, HoldsVariable, AreStandIns};

use crate::kernel_steps::{conclusion_at, goal_at, last_variable, take};
use ab_logic::World;
use ab_norm::Nominal;
use ab_norm::store::{CellId, TermId};
use ab_norm::types::Steps;
use ab_search_paths::{Likeness, StandIn, add_stand_in, carry_terms, cell_for, compare};
use ab_steps::kernel::judgements::alternatives::instances::constants_of;
use ab_steps::kernel::{Proof, Step};
use std::alloc::{AllocError, Global};

/// The term, as it is at the goal of this place, whose conclusion is like the formula.
fn term_at<L>(
    alloc: Global,
    world: &mut World,
    proof: &Proof,
    place: usize,
    stand_ins: &[StandIn],
    formula: TermId,
    term: TermId,
    steps: &mut Steps<L>,
) -> Result<TermId, AllocError>
    requires world { IsWorld world.old }
    requires proof { IsProof world.old proof.now }
    requires stand_ins { AreStandIns world.old stand_ins.now }
    requires formula { Holds world.old formula }
    requires term { Holds world.old term }
    ensures held { IfOk result (Holds world.new) }
    ensures got { GotTerms world.old world.new }
    ensures steps { steps.old ≤ steps.new }
{
    let goal = goal_at(proof, place)?;
    let like = compare(alloc, world, stand_ins, formula, goal.conclusion, steps)?;
    let list = carry_terms(alloc, world, stand_ins, &like, goal, &[term], steps)?;
    Ok(list[0])
}

/// The term for the name of the `exists` that the conclusion of the goal of this place begins with. It is like the formula.
pub(crate) fn take_term<L>(
    alloc: Global,
    world: &mut World,
    proof: &mut Proof,
    place: usize,
    stand_ins: &[StandIn],
    formula: TermId,
    term: TermId,
    steps: &mut Steps<L>,
) -> Result<(), AllocError>
    requires world { IsWorld world.old }
    requires proof { IsProof world.old proof.old }
    requires stand_ins { AreStandIns world.old stand_ins.now }
    requires formula { IsFormulaIn world.old formula }
    requires term { IsTermIn world.old term }
    ensures follows { Follows world.old proof.old world.new proof.new }
    ensures gave_way { OnOk result (GaveWayTo world.old proof.old world.new proof.new place 1) }
    ensures steps { steps.old ≤ steps.new }
{
    let here = term_at(alloc, world, proof, place, stand_ins, formula, term, steps)?;
    take(world, proof, place, Step::ExistsRight(here), 1, steps)
}

/// The path's constants in the order in which the kernel has what they are there.
fn reorder_constants(
    alloc: Global,
    like: &Likeness,
    constants: &[Nominal],
    kernel: &[Nominal],
) -> Result<Vec<Nominal>, AllocError>
    ensures held { (types : Table) → All (HoldsNominal types) constants.now → IfOk result (λ list. All (HoldsNominal types) list.items) }
{
    let mut list = Vec::new(alloc);
    for b in kernel {
        for a in constants {
            if like.target(*a) == Some(*b) {
                list.push(*a)?;
            }
        }
    }
    Ok(list)
}

/// The constants, which the formula of the path holds, in the order in which the goal of this place has what they are there. Its
/// conclusion is like the formula.
fn reordered_at<L>(
    alloc: Global,
    world: &mut World,
    proof: &Proof,
    place: usize,
    stand_ins: &[StandIn],
    formula: TermId,
    constants: &[Nominal],
    steps: &mut Steps<L>,
) -> Result<Vec<Nominal>, AllocError>
    requires world { IsWorld world.old }
    requires proof { IsProof world.old proof.now }
    requires stand_ins { AreStandIns world.old stand_ins.now }
    requires formula { Holds world.old formula }
    requires constants { All (HoldsNominal world.old.types) constants.now }
    ensures held { IfOk result (λ list. All (HoldsNominal world.new.types) list.items) }
    ensures got { GotTerms world.old world.new }
    ensures steps { steps.old ≤ steps.new }
{
    let conclusion = conclusion_at(proof, place)?;
    let like = compare(alloc, world, stand_ins, formula, conclusion, steps)?;
    let kernel = constants_of(alloc, &world.types, &world.store, &[conclusion])?;
    reorder_constants(alloc, &like, constants, &kernel)
}

/// A term stands in for the variable from now on: the other one, given its constants, abstracted over those of the variable.
fn stand_in_by(
    alloc: Global,
    world: &mut World,
    stand_ins: &mut Vec<StandIn>,
    cell: CellId,
    constants: &[Nominal],
    other: CellId,
    others: &[Nominal],
) -> Result<(), AllocError>
    requires world { IsWorld world.old }
    requires stand_ins { AreStandIns world.old stand_ins.old.items }
    requires cell { HoldsCell world.old cell }
    requires constants { All (HoldsNominal world.old.types) constants.now }
    requires other { HoldsCell world.old other }
    requires others { All (HoldsNominal world.old.types) others.now }
    ensures stand_ins { AreStandIns world.new stand_ins.new.items }
    ensures got { GotTerms world.old world.new }
{
    let (types, store) = (&world.types, &mut world.store);
    let term = cell_for(alloc, types, store, cell, constants, other, others)?;
    add_stand_in(alloc, world, stand_ins, StandIn { cell, term })
}

/// The new variable for the name of the `forall` that the conclusion of the goal of this place begins with. It is like the formula.
/// The variable stands in for the path's, which depends on these constants.
pub(crate) fn take_variable<L>(
    alloc: Global,
    world: &mut World,
    proof: &mut Proof,
    place: usize,
    stand_ins: &mut Vec<StandIn>,
    formula: TermId,
    cell: Option<CellId>,
    constants: &[Nominal],
    steps: &mut Steps<L>,
) -> Result<(), AllocError>
    requires world { IsWorld world.old }
    requires proof { IsProof world.old proof.old }
    requires stand_ins { AreStandIns world.old stand_ins.old.items }
    requires formula { IsFormulaIn world.old formula }
    requires variable { HoldsVariable world.old cell constants.now }
    ensures follows { Follows world.old proof.old world.new proof.new }
    ensures gave_way { OnOk result (GaveWayTo world.old proof.old world.new proof.new place 1) }
    ensures stand_ins { AreStandIns world.new stand_ins.new.items }
    ensures steps { steps.old ≤ steps.new }
{
    let given = reordered_at(
        alloc, world, proof, place, stand_ins, formula, constants, steps,
    )?;
    take(world, proof, place, Step::ForallRight, 1, steps)?;
    let Some(cell) = cell else {
        return Ok(());
    };
    let variable = last_variable(proof, place)?;
    stand_in_by(alloc, world, stand_ins, cell, constants, variable, &given)
}
