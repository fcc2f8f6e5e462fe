//! The last type that the steps of a proof name, by the nominal constants for which they put terms.
ghost use Rattle.std.specs.Prelude.{◌<◌, All, IfSome};
ghost use Rattle.ab_store.specs.ab_types.specs.Ids.{HoldsType};
ghost use Rattle.ab_kernel.specs.ab_rules.specs.declared.replaces.Replace.{Replace as AReplace};
ghost use Rattle.ab_kernel.specs.Nodes.{node_at};
ghost use Rattle.ab_proof_marks.specs.NamedTypes.{HasTypes, HasTypesBehind, IsLastType};

use ab_kernel::{Proof, Replace, Step};
use ab_store::types::{TypeId, later};

/// The last of the constants' types.
fn last_in_replaces(replaces: &[Replace]) -> Option<TypeId>
    ensures { IsLastType (λ table. All (λ (r : AReplace). HoldsType table r.from.ty) replaces.now) result }
{
    let mut last = None;
    for replace in replaces {
        last = later(last, Some(replace.from.ty));
    }
    last
}

/// The last type that the step names.
fn last_in_step(step: &Step) -> Option<TypeId>
    ensures { IsLastType (λ table. HasTypes table step.now) result }
{
    match step {
        Step::SpecInst(_, replaces, _) => last_in_replaces(replaces.as_slice()),
        _ => None,
    }
}

/// The last type that the step at the node names, if the node is one of the first so many and holds a step.
fn last_at_node(proof: &Proof, place: usize, count: usize) -> Option<TypeId>
    ensures { IsLastType (λ table. place < count → IfSome (node_at proof.now.nodes place).step (HasTypes table)) result }
{
    if place >= count {
        return None;
    }
    match proof.node(place) {
        None => None,
        Some(node) => match &node.step {
            None => None,
            Some(step) => last_in_step(step),
        },
    }
}

/// The last type that the steps behind the first so many name. It goes through those steps, the latest first.
pub fn last_type_behind(proof: &Proof, steps: usize) -> Option<TypeId>
    ensures { IsLastType (λ table. HasTypesBehind table proof.now steps) result }
{
    let standing = proof.steps();
    let mut count = proof.nodes();
    let mut last = None;
    for taken in 0..standing.saturating_sub(steps) {
        if let Some(refinement) = proof.refinement(standing - 1 - taken) {
            last = later(last, last_at_node(proof, refinement.node, count));
            count = count.saturating_sub(refinement.premises);
        }
    }
    last
}
