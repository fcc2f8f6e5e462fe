//! A goal is carried over to where no cell is bound.
ghost use Rattle.std.specs.Prelude.{◌≡◌, ◌<◌, ◌≤◌, IfOk, All, AllPairs, map};
ghost use Rattle.ab_norm.specs.ab_store.specs.Trees.{Holds, HoldsCell};
ghost use Rattle.ab_norm.specs.ab_store.specs.Naming.{IsTypedBy};
ghost use Rattle.ab_norm.specs.NodeGrowth.{AddsTerms};
ghost use Rattle.ab_logic.specs.SequentReadings.{HoldsSequent};
ghost use Rattle.ab_equations.specs.Meanwhile.{IsMeanwhile, GoesOn, hypothesis_at, hypothesis_read, IsPutIn, IsCarried};

use crate::cells::unbound_cells;
use crate::stand_ins::stand_for_all;
use ab_logic::{Hypotheses, Hypothesis, Sequent, Variables, World};
use ab_norm::copy_resolved;
use ab_norm::store::{CellId, Store};
use ab_norm::types::{Steps, TypeTable};
use std::alloc::{AllocError, Global};

/// The hypotheses, with what cells are bound to in their places.
fn resolved_hypotheses<L>(
    alloc: Global,
    types: &TypeTable,
    store: &mut Store,
    hypotheses: &[Hypothesis],
    steps: &mut Steps<L>,
) -> Result<Vec<Hypothesis>, AllocError>
    requires store { IsTypedBy types.now store.old }
    requires held { All (λ h. Holds store.old h.formula) hypotheses.now }
    ensures adds { AddsTerms store.old store.new }
    ensures held { IfOk result (λ hs. All (λ h. Holds store.new h.formula) hs.items) }
    ensures reads { IfOk result (λ hs. map (hypothesis_at types.now store.new) hs.items ≡ map (hypothesis_read types.now store.old) hypotheses.now) }
    ensures steps { steps.old ≤ steps.new }
{
    let mut resolved = Vec::new(alloc);
    for hypothesis in hypotheses {
        let formula = copy_resolved(alloc, types, store, hypothesis.formula, steps)?;
        let name = hypothesis.name.copy(alloc)?;
        resolved.push(Hypothesis { name, formula })?;
    }
    Ok(resolved)
}

/// The goal with what cells are bound to in their places, over those of its variables that are unbound. What no binding
/// touches is shared with the goal.
fn resolved_goal<L>(
    alloc: Global,
    world: &mut World,
    goal: &Sequent,
    steps: &mut Steps<L>,
) -> Result<Sequent, AllocError>
    requires world { IsMeanwhile world.old }
    requires goal { HoldsSequent world.old goal.now }
    ensures goes { GoesOn world.old world.new }
    ensures held { IfOk result (λ g. HoldsSequent world.new g) }
    ensures put_in { IfOk result (λ g. IsPutIn world.old goal.now world.new g) }
    ensures cells { world.new.store.cells ≡ world.old.store.cells }
    ensures steps { steps.old ≤ steps.new }
{
    let variables = unbound_cells(alloc, &world.store, goal.variables.as_slice())?;
    let hypotheses = resolved_hypotheses(
        alloc,
        &world.types,
        &mut world.store,
        goal.hypotheses.as_slice(),
        steps,
    )?;
    let conclusion = copy_resolved(
        alloc,
        &world.types,
        &mut world.store,
        goal.conclusion,
        steps,
    )?;
    Ok(Sequent {
        variables: Variables::from_vec(variables),
        hypotheses: Hypotheses::from_vec(hypotheses),
        conclusion,
        counter: goal.counter,
    })
}

/// The goal under what cells are bound to: the cells that were made and are unbound give way to new variables, and all
/// that is bound to what it is bound to.
pub(crate) fn carry<L>(
    alloc: Global,
    world: &mut World,
    made: &[CellId],
    goal: Sequent,
    steps: &mut Steps<L>,
) -> Result<Sequent, AllocError>
    requires world { IsMeanwhile world.old }
    requires made { All (HoldsCell world.old.store) made.now }
    requires in_age { AllPairs (λ a b. a.0 < b.0) made.now }
    requires apart { All (λ c. All (λ d. d.0 < c.0) goal.variables) made.now }
    requires goal { HoldsSequent world.old goal }
    ensures goes { GoesOn world.old world.new }
    ensures held { IfOk result (λ g. HoldsSequent world.new g) }
    ensures carried { IfOk result (λ g. IsCarried world.old made.now goal world.new g) }
    ensures steps { steps.old ≤ steps.new }
{
    let left = unbound_cells(alloc, &world.store, made)?;
    let over = stand_for_all(alloc, world, &left, goal, steps)?;
    resolved_goal(alloc, world, &over, steps)
}
