//! Marks that are raised for what a proof names.
ghost use Rattle.std.specs.Prelude.{◌≡◌, length, reverse};
ghost use Rattle.std.specs.List.{AllWithin};
ghost use Rattle.ab_kernel.specs.declared.node.ProofNode.{ProofNode as ANode};
ghost use Rattle.ab_kernel.specs.declared.proof.Refinement.{Refinement as ARefinement};
ghost use Rattle.ab_remains.specs.RaisedMarks.{IsRaised, IsRaisedFor};
ghost use Rattle.ab_proof_marks.specs.NamedInProofs.{HoldsGoal, HoldsTermsOf, HoldsFrom, KeepsFrom, HoldsBehind, KeepsBehind, nodes_standing};

use crate::step_marks::mark_to_step;
use ab_kernel::{Proof, Refinement};
use ab_logic::World;
use ab_remains::mark_to_sequent;
use ab_store::Mark;

/// The mark, raised for the goals of the nodes from this number on.
fn mark_to_goals(world: &World, mark: Mark, proof: &Proof, first: usize) -> Mark
    ensures { IsRaised world.now (λ v. AllWithin (λ (n : ANode). HoldsGoal world.now n → HoldsGoal v n) proof.now.nodes first (length proof.now.nodes))
        (λ v. AllWithin (HoldsGoal v) proof.now.nodes first (length proof.now.nodes)) mark result }
{
    let mut raised = mark;
    for place in first..proof.nodes() {
        if let Some(node) = proof.node(place) {
            raised = mark_to_sequent(world, raised, &node.sequent);
        }
    }
    raised
}

/// The mark, raised for the terms of the step that was taken, if its node holds one.
fn mark_to_step_of(world: &World, mark: Mark, proof: &Proof, refinement: Refinement) -> Mark
    ensures { IsRaisedFor world.now (λ v. HoldsTermsOf proof.now.nodes v refinement) mark result }
{
    match proof.node(refinement.node) {
        None => mark,
        Some(node) => match &node.step {
            None => mark,
            Some(step) => mark_to_step(world, mark, step),
        },
    }
}

/// The mark, raised for the terms of the steps from this number on.
fn mark_to_steps(world: &World, mark: Mark, proof: &Proof, first: usize) -> Mark
    ensures { IsRaised world.now
        (λ v. AllWithin (λ (r : ARefinement). HoldsTermsOf proof.now.nodes world.now r → HoldsTermsOf proof.now.nodes v r) (reverse proof.now.journal) first (length proof.now.journal))
        (λ v. AllWithin (HoldsTermsOf proof.now.nodes v) (reverse proof.now.journal) first (length proof.now.journal)) mark result }
{
    let mut raised = mark;
    for place in first..proof.steps() {
        if let Some(refinement) = proof.refinement(place) {
            raised = mark_to_step_of(world, raised, proof, refinement);
        }
    }
    raised
}

/// The mark, raised for what the goals of the nodes from the one number on name, and for the terms of the steps from the other on.
pub fn mark_to_proof(world: &World, mark: Mark, proof: &Proof, node: usize, step: usize) -> Mark
    ensures { IsRaised world.now (λ v. KeepsFrom world.now v proof.now node step) (λ v. HoldsFrom v proof.now node step) mark result }
{
    let goals = mark_to_goals(world, mark, proof, node);
    mark_to_steps(world, goals, proof, step)
}

/// How many nodes there were before the steps behind the first so many.
fn count_standing(proof: &Proof, steps: usize) -> usize
    ensures { result ≡ nodes_standing steps proof.now }
{
    let standing = proof.steps();
    let mut count = proof.nodes();
    for taken in 0..standing.saturating_sub(steps) {
        if let Some(refinement) = proof.refinement(standing - 1 - taken) {
            count = count.saturating_sub(refinement.premises);
        }
    }
    count
}

/// The mark, raised for the terms of the steps behind the first so many, and for what their premises name. It costs what those steps
/// made.
pub fn mark_to_steps_behind(world: &World, mark: Mark, proof: &Proof, steps: usize) -> Mark
    ensures { IsRaised world.now (λ v. KeepsBehind world.now v proof.now steps) (λ v. HoldsBehind v proof.now steps) mark result }
{
    mark_to_proof(world, mark, proof, count_standing(proof, steps), steps)
}
