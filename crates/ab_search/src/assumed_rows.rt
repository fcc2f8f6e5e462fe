//! A rule of a judgement leaves names open at the kernel, and a hypothesis closes what it leaves, some of whose `exists` bind these names.
//! What the hypothesis says there is, with the constants that its own are at the goal, stands for the names.
ghost use Rattle.std.specs.Prelude.{◌≤◌, All, IfOk, IfSome, OnOk};
ghost use Rattle.ab_logic.specs.Worlds.{IsWorld, Holds};
ghost use Rattle.ab_logic.specs.declared.world.World.{World as AWorld};
ghost use Rattle.ab_steps.specs.ab_kernel.specs.Layout.{IsProof};
ghost use Rattle.ab_steps.specs.Progress.{Follows};
ghost use Rattle.ab_search.specs.GoalCounts.{GaveWayTo};
ghost use Rattle.ab_search.specs.RulePlans.{NamesTerm, HoldsRow};
ghost use Rattle.ab_search_paths.specs.Likenesses.{IsLikeness};

use crate::kernel_steps::{hypothesis_at, label_at, last_name, name_at, take};
use crate::opened_hypotheses::{close_apart, last_variable_given};
use ab_logic::World;
use ab_norm::Nominal;
use ab_norm::name::Name;
use ab_norm::store::TermId;
use ab_norm::types::Steps;
use ab_search_paths::{Assumed, Likeness, NameTerm, OpenName, compare_unmarked, raised_term};
use ab_steps::kernel::{Proof, Step};
use std::alloc::{AllocError, Global};

/// The number of the rule, the judgement's constants, the names that the rule leaves open, and the hypothesis.
#[derive(Drop)]
pub(crate) struct AssumedRow {
    pub(crate) rule: usize,
    pub(crate) constants: Vec<Nominal>,
    pub(crate) open: Vec<OpenName>,
    pub(crate) found: Assumed,
}

/// A hypothesis, and the terms for the names that it bound.
#[derive(Drop)]
struct Taken {
    name: Name,
    terms: Vec<TermId>,
}

/// Puts a new variable for the name that the hypothesis binds first. With the constants that those of the hypothesis are at the goal it is
/// one term more.
fn take_bound<L>(
    alloc: Global,
    world: &mut World,
    proof: &mut Proof,
    place: usize,
    like: &Likeness,
    taken: Taken,
    steps: &mut Steps<L>,
) -> Result<Taken, AllocError>
    requires world { IsWorld world.old }
    requires proof { IsProof world.old proof.old }
    requires like { IsLikeness world.old.types like.now }
    requires terms { All (Holds world.old) taken.terms.items }
    ensures follows { Follows world.old proof.old world.new proof.new }
    ensures gave_way { OnOk result (GaveWayTo world.old proof.old world.new proof.new place 1) }
    ensures terms { IfOk result (λ one. All (Holds world.new) one.terms.items) }
    ensures steps { steps.old ≤ steps.new }
{
    let formula = hypothesis_at(proof, place, &taken.name)?;
    let label = label_at(alloc, world, proof, place)?;
    take(
        world,
        proof,
        place,
        Step::ExistsLeft(taken.name, label),
        1,
        steps,
    )?;
    let name = last_name(alloc, proof, place, 0)?;
    let mut terms = taken.terms;
    terms.push(last_variable_given(alloc, world, proof, place, formula, like)?)?;
    Ok(Taken { name, terms })
}

/// Puts new variables for the names that the hypothesis binds.
fn take_all_bound<L>(
    alloc: Global,
    world: &mut World,
    proof: &mut Proof,
    place: usize,
    like: &Likeness,
    name: Name,
    bound: usize,
    steps: &mut Steps<L>,
) -> Result<Taken, AllocError>
    requires world { IsWorld world.old }
    requires proof { IsProof world.old proof.old }
    requires like { IsLikeness world.old.types like.now }
    ensures follows { Follows world.old proof.old world.new proof.new }
    ensures gave_way { OnOk result (GaveWayTo world.old proof.old world.new proof.new place 1) }
    ensures terms { IfOk result (λ one. All (Holds world.new) one.terms.items) }
    ensures steps { steps.old ≤ steps.new }
{
    let mut taken = Taken {
        name,
        terms: Vec::new(alloc),
    };
    for _ in 0..bound {
        taken = take_bound(alloc, world, proof, place, like, taken, steps)?;
    }
    Ok(taken)
}

/// Opens the hypothesis at the goal of this place, which is like the formula, down to where it binds no name.
fn take_hypothesis<L>(
    alloc: Global,
    world: &mut World,
    proof: &mut Proof,
    place: usize,
    found: &Assumed,
    steps: &mut Steps<L>,
) -> Result<Taken, AllocError>
    requires world { IsWorld world.old }
    requires proof { IsProof world.old proof.old }
    requires formula { Holds world.old found.now.formula }
    ensures follows { Follows world.old proof.old world.new proof.new }
    ensures gave_way { OnOk result (GaveWayTo world.old proof.old world.new proof.new place 1) }
    ensures terms { IfOk result (λ one. All (Holds world.new) one.terms.items) }
    ensures steps { steps.old ≤ steps.new }
{
    let name = name_at(alloc, proof, place, found.number)?;
    let formula = hypothesis_at(proof, place, &name)?;
    let like = compare_unmarked(alloc, world, formula, found.formula)?;
    take_all_bound(alloc, world, proof, place, &like, name, found.bound, steps)
}

/// The term for the name of this number, where these stand for the names that the hypothesis binds.
fn term_for_name(names: &[NameTerm], bound: &[TermId], number: usize) -> Option<TermId>
    ensures { (w : AWorld) → All (NamesTerm w) names.now → All (Holds w) bound.now → IfSome result (Holds w) }
{
    match names.get(number)? {
        NameTerm::Term(term) => Some(*term),
        NameTerm::Bound(one) => bound.get(*one).copied(),
    }
}

/// Puts a term for the name of this number that the rule leaves open.
fn put_term<L>(
    alloc: Global,
    world: &mut World,
    proof: &mut Proof,
    place: usize,
    row: &AssumedRow,
    bound: &[TermId],
    number: usize,
    steps: &mut Steps<L>,
) -> Result<(), AllocError>
    requires world { IsWorld world.old }
    requires proof { IsProof world.old proof.old }
    requires row { HoldsRow world.old row.now }
    requires bound { All (Holds world.old) bound.now }
    ensures follows { Follows world.old proof.old world.new proof.new }
    ensures gave_way { OnOk result (GaveWayTo world.old proof.old world.new proof.new place 1) }
    ensures steps { steps.old ≤ steps.new }
{
    let Some(one) = row.open.get(number) else {
        return Err(AllocError);
    };
    let Some(found) = term_for_name(&row.found.names, bound, number) else {
        return Err(AllocError);
    };
    let term = raised_term(alloc, world, &row.constants, *one, found)?;
    take(world, proof, place, Step::ExistsRight(term), 1, steps)
}

/// Puts terms for the names that the rule leaves open.
fn put_terms<L>(
    alloc: Global,
    world: &mut World,
    proof: &mut Proof,
    place: usize,
    row: &AssumedRow,
    bound: &[TermId],
    steps: &mut Steps<L>,
) -> Result<(), AllocError>
    requires world { IsWorld world.old }
    requires proof { IsProof world.old proof.old }
    requires row { HoldsRow world.old row.now }
    requires bound { All (Holds world.old) bound.now }
    ensures follows { Follows world.old proof.old world.new proof.new }
    ensures gave_way { OnOk result (GaveWayTo world.old proof.old world.new proof.new place 1) }
    ensures steps { steps.old ≤ steps.new }
{
    for number in 0..row.open.len() {
        put_term(alloc, world, proof, place, row, bound, number, steps)?;
    }
    Ok(())
}

/// Takes the rule at the goal of this place, and closes what it leaves by the hypothesis.
pub(crate) fn close_by_row<L>(
    alloc: Global,
    world: &mut World,
    proof: &mut Proof,
    place: usize,
    row: &AssumedRow,
    steps: &mut Steps<L>,
) -> Result<(), AllocError>
    requires world { IsWorld world.old }
    requires proof { IsProof world.old proof.old }
    requires row { HoldsRow world.old row.now }
    ensures follows { Follows world.old proof.old world.new proof.new }
    ensures gave_way { OnOk result (GaveWayTo world.old proof.old world.new proof.new place 0) }
    ensures steps { steps.old ≤ steps.new }
{
    take(world, proof, place, Step::DefRight(row.rule), 1, steps)?;
    let taken = take_hypothesis(alloc, world, proof, place, &row.found, steps)?;
    put_terms(alloc, world, proof, place, row, &taken.terms, steps)?;
    close_apart(alloc, world, proof, place, taken.name, steps)
}
