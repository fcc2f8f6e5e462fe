//! The search of a goal.
ghost use Rattle.std.specs.Prelude.{◌≡◌, ◌≤◌, ◌∷◌, [], List, map, IfOk};
ghost use Rattle.ab_norm.specs.ab_store.specs.declared.node.TermId.{TermId as AnId};
ghost use Rattle.ab_formulas.specs.Sequents.{IsSequent};
ghost use Rattle.ab_unify.specs.Problem.{cells_read};
ghost use Rattle.ab_logic.specs.WorldGrowth.{Grows};
ghost use Rattle.ab_logic.specs.Worlds.{IsWorld, declarations_of};
ghost use Rattle.ab_logic.specs.SequentReadings.{HoldsSequent, sequent_of};
ghost use Rattle.ab_search_trees.specs.Goals.{beginning, first_goal};
ghost use Rattle.ab_search_trees.specs.Tree.{Leaf};
ghost use Rattle.ab_search_trees.specs.Outcomes.{Searched};
ghost use Rattle.ab_next_ways.specs.ab_search_ways.specs.GoalReadings.{IsPlace};
ghost use Rattle.ab_walk.specs.Paths.{HoldsPath, WhereFound, LeadToAnswer};
ghost use Rattle.ab_walk.specs.Told.{Tells, UnlessFound, IsAsBefore};

use crate::frames::Frame;
use crate::walk::{Told, walk};
use ab_logic::{Sequent, World};
use ab_next_ways::judgements::alternatives::goal_constants;
use ab_next_ways::ways::{Goal, Goals, Place};
use ab_norm::store::TermId;
use ab_norm::types::Steps;
use std::alloc::{AllocError, Global};

/// So many layers of judgements are opened above one goal at most.
const MOST_LAYERS: usize = 1000;

/// The formulas of the hypotheses.
fn formulas_of(alloc: Global, goal: &Sequent) -> Result<Vec<TermId>, AllocError>
    ensures { IfOk result (λ list. list.items ≡ map (λ h. h.formula) goal.now.hypotheses) }
{
    let mut list = Vec::new(alloc);
    for hypothesis in goal.hypotheses.as_slice() {
        list.push(hypothesis.formula)?;
    }
    Ok(list)
}

/// Where the search of the goal to the depth begins.
fn first_place(
    alloc: Global,
    world: &World,
    goal: &Sequent,
    depth: usize,
) -> Result<Place, AllocError>
    requires world { IsWorld world.now }
    requires goal { HoldsSequent world.now goal.now }
    requires sequent { IsSequent (declarations_of world.now) (sequent_of world.now goal.now) }
    ensures place { IfOk result (λ place. (base : List AnId) → base ≡ map (λ h. h.formula) goal.now.hypotheses →
        let s = sequent_of world.now goal.now in
        IsPlace world.now base place.flexible.items place.goals (beginning (cells_read world.now.types world.now.store) s) (first_goal depth s ∷ [])) }
    ensures answer { IfOk result (λ place. place.answer.items ≡ []) }
{
    let first = Goal {
        added: Vec::new(alloc),
        conclusion: goal.conclusion,
        depth,
        constants: goal_constants(alloc, world, goal)?,
        untouched: true,
        layers: MOST_LAYERS,
        member_first: false,
    };
    Ok(Place {
        flexible: Vec::new(alloc),
        goals: Goals::none().with_first(alloc, first)?,
        answer: Vec::new(alloc),
    })
}

/// THE SEARCH OF THE GOAL to the depth: its outcome, as the tree of the goal has it, over all variables that were ever made. Unless
/// the goal is closed the store is as it was, but for room; and where it is, the places on the way stand on the path, which was empty:
/// from each one way was taken to the next, and at the last no goal is left.
pub fn search<L>(
    alloc: Global,
    world: &mut World,
    goal: &Sequent,
    depth: usize,
    path: &mut Vec<Frame>,
    steps: &mut Steps<L>,
) -> Result<Told, AllocError>
    requires world { IsWorld world.old }
    requires goal { HoldsSequent world.old goal.now }
    requires sequent { IsSequent (declarations_of world.old) (sequent_of world.old goal.now) }
    requires empty { path.old.items ≡ [] }
    ensures told { IfOk result (λ told. (ls : List Leaf)
        × Searched (declarations_of world.old) (cells_read world.old.types world.old.store) depth (sequent_of world.old goal.now) ls × Tells ls told) }
    ensures as_before { IfOk result (λ told. UnlessFound told (IsAsBefore world.old world.new)) }
    ensures path { IfOk result (λ told. WhereFound told (HoldsPath world.new.types world.new.store path.new.items)) }
    ensures leads { IfOk result (λ told. WhereFound told (LeadToAnswer world.new (map (λ h. h.formula) goal.now.hypotheses)
        (beginning (cells_read world.old.types world.old.store) (sequent_of world.old goal.now)) (first_goal depth (sequent_of world.old goal.now) ∷ []) path.new.items)) }
    ensures grows { Grows world.old world.new }
    ensures declared { declarations_of world.new ≡ declarations_of world.old }
    ensures steps { steps.old ≤ steps.new }
{
    let base = formulas_of(alloc, goal)?;
    let place = first_place(alloc, world, goal, depth)?;
    walk(alloc, world, &base, place, path, steps)
}
