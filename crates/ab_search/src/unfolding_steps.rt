//! The steps of the kernel for a clause of a definition, and for a layer of a judgement.
ghost use Rattle.std.specs.Prelude.{◌≡◌, ◌≤◌, All, IfOk, OnOk};
ghost use Rattle.ab_norm.specs.Nominals.{HoldsNominal};
ghost use Rattle.ab_formulas.specs.Declarations.{signature_in};
ghost use Rattle.ab_formulas.specs.Formulas.{IsFormula};
ghost use Rattle.ab_formulas.specs.Sequents.{IsSequent};
ghost use Rattle.ab_logic.specs.Worlds.{IsWorld, Holds, read, declarations_of};
ghost use Rattle.ab_logic.specs.WorldGrowth.{Grows};
ghost use Rattle.ab_logic.specs.SequentReadings.{sequent_of, HoldsSequent};
ghost use Rattle.ab_steps.specs.ab_kernel.specs.Layout.{IsProof};
ghost use Rattle.ab_steps.specs.Progress.{Follows};
ghost use Rattle.ab_search.specs.GoalCounts.{GaveWayTo};
ghost use Rattle.ab_search_paths.specs.MoreTerms.{GotTerms};
ghost use Rattle.ab_search_paths.specs.Paths.{IsFormulaIn, HoldsClause, AreStandIns};

use crate::kernel_steps::{conclusion_at, goal_at, take};
use crate::opened_hypotheses::is_compound;
use ab_logic::{Sequent, World};
use ab_norm::Nominal;
use ab_norm::store::TermId;
use ab_norm::types::Steps;
use ab_search_paths::{
    ClauseTaken, Likeness, StandIn, carry_terms, compare, left_by_choice, over_constants,
    place_of_clause,
};
use ab_steps::kernel::judgements::alternatives::instances::{constants_of, outside};
use ab_steps::kernel::judgements::alternatives::{choice_at, defined_atom, goal_constants};
use ab_steps::kernel::{Proof, Step};
use std::alloc::{AllocError, Global};

/// A step that unfolds the conclusion of a goal: its place; the terms for the variables that it leaves open; and how many constants
/// are chosen anew behind these, where there are such variables.
#[derive(Drop)]
pub(crate) struct Unfolding {
    pub(crate) place: usize,
    pub(crate) terms: Vec<TermId>,
    pub(crate) names: usize,
}

/// Those of the terms that have these places, abstracted over the constants.
fn terms_for(
    alloc: Global,
    world: &mut World,
    constants: &[Nominal],
    terms: &[TermId],
    places: &[usize],
) -> Result<Vec<TermId>, AllocError>
    requires world { IsWorld world.old }
    requires constants { All (HoldsNominal world.old.types) constants.now }
    requires terms { All (Holds world.old) terms.now }
    ensures held { IfOk result (λ list. All (Holds world.new) list.items) }
    ensures got { GotTerms world.old world.new }
{
    let mut list = Vec::new(alloc);
    for place in places {
        let Some(term) = terms.get(*place) else {
            return Err(AllocError);
        };
        list.push(over_constants(alloc, &mut world.store, constants, *term)?)?;
    }
    Ok(list)
}

/// What a clause leaves of a goal: the clause's place; the places of its variables that stay open; the atom's constants that weren't
/// chosen for its names; and how many were chosen.
#[derive(Drop)]
struct Opening {
    place: usize,
    left: Vec<usize>,
    unchosen: Vec<Nominal>,
    chosen: usize,
}

/// What the clause leaves of the goal, whose constants are so like those of the path.
fn opening_by_clause<L>(
    alloc: Global,
    world: &mut World,
    goal: &Sequent,
    like: &Likeness,
    clause: &ClauseTaken,
    steps: &mut Steps<L>,
) -> Result<Opening, AllocError>
    requires world { IsWorld world.old }
    requires goal { HoldsSequent world.old goal.now }
    requires formula { IsFormula (signature_in (declarations_of world.old)) (read world.old goal.now.conclusion) }
    ensures unchosen { IfOk result (λ o. All (HoldsNominal world.old.types) o.unchosen.items) }
    ensures grows { Grows world.old world.new }
    ensures declared { declarations_of world.new ≡ declarations_of world.old }
    ensures steps { steps.old ≤ steps.new }
{
    let Some(atom) = defined_atom(alloc, world, goal.conclusion)? else {
        return Err(AllocError);
    };
    let constants = constants_of(alloc, &world.types, &world.store, &atom.arguments)?;
    let held = goal_constants(alloc, world, goal)?;
    let place = place_of_clause(alloc, world, &atom, &constants, &held, like, clause)?;
    let Some(choice) = choice_at(alloc, world, &atom, &constants, &held, place)? else {
        return Err(AllocError);
    };
    let unchosen = outside(alloc, &world.types, &constants, &choice.names)?;
    let left = left_by_choice(alloc, world, &atom, &constants, &choice, steps)?;
    Ok(Opening {
        place,
        left,
        unchosen,
        chosen: choice.names.len(),
    })
}

/// The step for the clause at the goal, whose conclusion is like the formula.
fn unfolding_by_clause<L>(
    alloc: Global,
    world: &mut World,
    goal: &Sequent,
    stand_ins: &[StandIn],
    formula: TermId,
    clause: &ClauseTaken,
    steps: &mut Steps<L>,
) -> Result<Unfolding, AllocError>
    requires world { IsWorld world.old }
    requires goal { HoldsSequent world.old goal.now }
    requires sequent { IsSequent (declarations_of world.old) (sequent_of world.old goal.now) }
    requires stand_ins { AreStandIns world.old stand_ins.now }
    requires formula { Holds world.old formula }
    requires values { All (Holds world.old) clause.now.values.items }
    ensures terms { IfOk result (λ u. All (Holds world.new) u.terms.items) }
    ensures grows { Grows world.old world.new }
    ensures declared { declarations_of world.new ≡ declarations_of world.old }
    ensures steps { steps.old ≤ steps.new }
{
    let like = compare(alloc, world, stand_ins, formula, goal.conclusion, steps)?;
    let opening = opening_by_clause(alloc, world, goal, &like, clause, steps)?;
    let values = carry_terms(alloc, world, stand_ins, &like, goal, &clause.values, steps)?;
    let terms = terms_for(alloc, world, &opening.unchosen, &values, &opening.left)?;
    let names = if opening.left.is_empty() {
        0
    } else {
        opening.chosen
    };
    Ok(Unfolding {
        place: opening.place,
        terms,
        names,
    })
}

/// Takes the step at the goal of this place, and those that put in what it leaves open.
pub(crate) fn unfold<L>(
    world: &mut World,
    proof: &mut Proof,
    place: usize,
    unfolded: &Unfolding,
    steps: &mut Steps<L>,
) -> Result<(), AllocError>
    requires world { IsWorld world.old }
    requires proof { IsProof world.old proof.old }
    requires terms { All (Holds world.old) unfolded.now.terms.items }
    ensures follows { Follows world.old proof.old world.new proof.new }
    ensures gave_way { OnOk result (GaveWayTo world.old proof.old world.new proof.new place 1) }
    ensures steps { steps.old ≤ steps.new }
{
    take(
        world,
        proof,
        place,
        Step::DefRight(unfolded.place),
        1,
        steps,
    )?;
    for term in unfolded.terms.as_slice() {
        take(world, proof, place, Step::ExistsRight(*term), 1, steps)?;
    }
    for _ in 0..unfolded.names {
        take(world, proof, place, Step::NablaRight, 1, steps)?;
    }
    Ok(())
}

/// Unfolds the conclusion of the goal of this place, which is like the formula, by the clause.
pub(crate) fn take_clause<L>(
    alloc: Global,
    world: &mut World,
    proof: &mut Proof,
    place: usize,
    stand_ins: &[StandIn],
    formula: TermId,
    clause: &ClauseTaken,
    steps: &mut Steps<L>,
) -> Result<(), AllocError>
    requires world { IsWorld world.old }
    requires proof { IsProof world.old proof.old }
    requires stand_ins { AreStandIns world.old stand_ins.now }
    requires formula { IsFormulaIn world.old formula }
    requires clause { HoldsClause world.old clause.now }
    ensures follows { Follows world.old proof.old world.new proof.new }
    ensures gave_way { OnOk result (GaveWayTo world.old proof.old world.new proof.new place 1) }
    ensures steps { steps.old ≤ steps.new }
{
    let goal = goal_at(proof, place)?;
    let made = unfolding_by_clause(alloc, world, goal, stand_ins, formula, clause, steps)?;
    unfold(world, proof, place, &made, steps)
}

/// Opens the judgement that the conclusion of the goal of this place is, all its layers at once, if that wasn't done before.
pub(crate) fn take_layer<L>(
    world: &mut World,
    proof: &mut Proof,
    place: usize,
    steps: &mut Steps<L>,
) -> Result<(), AllocError>
    requires world { IsWorld world.old }
    requires proof { IsProof world.old proof.old }
    ensures follows { Follows world.old proof.old world.new proof.new }
    ensures gave_way { OnOk result (GaveWayTo world.old proof.old world.new proof.new place 1) }
    ensures steps { steps.old ≤ steps.new }
{
    if is_compound(world, conclusion_at(proof, place)?) {
        take(world, proof, place, Step::DefRight(0), 1, steps)?;
    }
    Ok(())
}
