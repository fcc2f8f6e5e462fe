//! A goal that assumes that something is in the list `nil` is closed by that. A hypothesis may say so of what exists, and as the right part
//! of a conjunction.
ghost use Rattle.std.specs.Prelude.{ℕ, ◌<◌, ◌≤◌, All, IfOk, IfSome, OnOk};
ghost use Rattle.ab_norm.specs.ab_store.specs.Trees as stored;
ghost use Rattle.ab_steps.specs.ab_kernel.specs.ab_judgements.specs.ab_alternatives.specs.AtomReadings.{HoldsDefined};
ghost use Rattle.ab_logic.specs.Worlds.{IsWorld, Holds};
ghost use Rattle.ab_steps.specs.ab_kernel.specs.Layout.{IsProof};
ghost use Rattle.ab_steps.specs.Progress.{Follows};
ghost use Rattle.ab_search.specs.GoalCounts.{GaveWayTo};

use crate::kernel_steps::{goal_at, hypothesis_at, label_at, last_name, take};
use crate::own_labels::own_labels;
use ab_logic::{Form, World, shape};
use ab_norm::name::Name;
use ab_norm::store::{Head, Logical, Node, Store, TermId};
use ab_norm::types::Steps;
use ab_steps::kernel::judgements::alternatives::{DefinedAtom, defined_atom, may_be_analysed};
use ab_steps::kernel::{Proof, Step};
use std::alloc::{AllocError, Global};

/// A hypothesis that says that something is in the list `nil`, below so many conjunctions and `exists`.
#[derive(Drop)]
struct EmptyList {
    name: Name,
    layers: usize,
}

/// Whether the list is `nil`.
fn is_nil(world: &World, list: TermId) -> bool
    requires world { IsWorld world.now }
    requires list { Holds world.now list }
{
    match world.head_constant(list) {
        None => false,
        Some(constant) => world.types.const_name(constant).as_str() == "nil",
    }
}

/// Whether the atom says that something is in the list `nil`, and may be analysed.
fn says_in_nil(world: &World, atom: &DefinedAtom) -> bool
    requires world { IsWorld world.now }
    requires atom { HoldsDefined world.now atom.now }
{
    if world.types.const_name(atom.predicate).as_str() != "member" {
        return false;
    }
    match atom.arguments.last() {
        Some(list) => is_nil(world, *list) && may_be_analysed(atom.sign),
        None => false,
    }
}

/// The right part of a conjunction, or what binds the name of an `exists`.
fn last_part(head: Head, args: &[TermId]) -> Option<TermId>
    ensures { (n : ℕ) → All (λ t. t.0 < n) args.now → IfSome result (λ part. part.0 < n) }
{
    match head {
        Head::Logic(Logical::And | Logical::Exists(_)) => {
            if args.is_empty() {
                None
            } else {
                Some(args[args.len() - 1])
            }
        }
        _ => None,
    }
}

/// The right part of a conjunction, what binds the name of an `exists`, or what it says of that name.
fn part_of(store: &Store, formula: TermId) -> Option<TermId>
    requires { stored.Holds store.now formula }
    ensures { IfSome result (λ part. part.0 < formula.0) }
{
    match store.view(formula) {
        Node::Lam(_, _, body) => Some(*body),
        Node::Spine(head, args) => last_part(*head, args.as_slice()),
    }
}

/// Below how many conjunctions and `exists` the formula says that something is in the list `nil`, if it says so in the last of its parts.
/// What binds a name is asked for what it says of it.
fn layers_above(alloc: Global, world: &World, formula: TermId) -> Result<Option<usize>, AllocError>
    requires world { IsWorld world.now }
    requires formula { Holds world.now formula }
    ensures { IfOk result (λ found. IfSome found (λ n. n ≤ formula.0)) }
{
    let Some(part) = part_of(&world.store, formula) else {
        return match defined_atom(alloc, world, formula)? {
            Some(atom) if says_in_nil(world, &atom) => Ok(Some(0)),
            _ => Ok(None),
        };
    };
    let Some(layers) = layers_above(alloc, world, part)? else {
        return Ok(None);
    };
    match world.store.view(formula) {
        Node::Lam(_, _, _) => Ok(Some(layers)),
        Node::Spine(_, _) => Ok(Some(layers + 1)),
    }
}

/// The first hypothesis of the goal of this place that says that something is in the list `nil`.
fn empty_list_at(
    alloc: Global,
    world: &World,
    proof: &Proof,
    place: usize,
) -> Result<EmptyList, AllocError>
    requires world { IsWorld world.now }
    requires proof { IsProof world.now proof.now }
{
    let goal = goal_at(proof, place)?;
    for hypothesis in goal.hypotheses.as_slice() {
        if let Some(layers) = layers_above(alloc, world, hypothesis.formula)? {
            let name = hypothesis.name.copy(alloc)?;
            return Ok(EmptyList { name, layers });
        }
    }
    Err(AllocError)
}

/// Opens the conjunction or the `exists` that the hypothesis begins with. What comes of it, or of its right part, is the last hypothesis of
/// the goal of this place then.
fn open_layer<L>(
    alloc: Global,
    world: &mut World,
    proof: &mut Proof,
    place: usize,
    name: Name,
    steps: &mut Steps<L>,
) -> Result<(), AllocError>
    requires world { IsWorld world.old }
    requires proof { IsProof world.old proof.old }
    ensures follows { Follows world.old proof.old world.new proof.new }
    ensures gave_way { OnOk result (GaveWayTo world.old proof.old world.new proof.new place 1) }
    ensures steps { steps.old ≤ steps.new }
{
    let formula = hypothesis_at(proof, place, &name)?;
    if let Form::And(_, _) = shape(world, formula) {
        let (left, right) = own_labels(alloc, world, goal_at(proof, place)?)?;
        return take(
            world,
            proof,
            place,
            Step::AndLeft(name, left, right),
            1,
            steps,
        );
    }
    let label = label_at(alloc, world, proof, place)?;
    take(world, proof, place, Step::ExistsLeft(name, label), 1, steps)
}

/// Closes the goal of this place by a hypothesis that says that something is in the list `nil`.
pub(crate) fn close_by_empty_list<L>(
    alloc: Global,
    world: &mut World,
    proof: &mut Proof,
    place: usize,
    steps: &mut Steps<L>,
) -> Result<(), AllocError>
    requires world { IsWorld world.old }
    requires proof { IsProof world.old proof.old }
    ensures follows { Follows world.old proof.old world.new proof.new }
    ensures gave_way { OnOk result (GaveWayTo world.old proof.old world.new proof.new place 0) }
    ensures steps { steps.old ≤ steps.new }
{
    let found = empty_list_at(alloc, world, proof, place)?;
    let mut name = found.name;
    for _ in 0..found.layers {
        open_layer(alloc, world, proof, place, name, steps)?;
        name = last_name(alloc, proof, place, 0)?;
    }
    let label = label_at(alloc, world, proof, place)?;
    take(world, proof, place, Step::DefLeft(name, label), 0, steps)
}
