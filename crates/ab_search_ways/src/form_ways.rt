//! The ways by the form of the conclusion.
ghost use Rattle.std.specs.Prelude.{◌≡◌, ◌≤◌, ◌∷◌, [], List, All, true, Some, IfOk};
ghost use Rattle.ab_term.specs.Types.{Ty, arrow, prop};
ghost use Rattle.ab_norm.specs.ab_types.specs.Ids.{HoldsType, type_of};
ghost use Rattle.ab_norm.specs.ab_store.specs.Naming.{IsTerm};
ghost use Rattle.ab_formulas.specs.Forms as plain;
ghost use Rattle.ab_formulas.specs.Forms.{form_of};
ghost use Rattle.ab_logic.specs.WorldGrowth.{Grows};
ghost use Rattle.ab_logic.specs.Worlds.{IsWorld, Holds, read, declarations_of};
ghost use Rattle.ab_search_trees.specs.Goals as tree;
ghost use Rattle.ab_search_trees.specs.Ways as trees;
ghost use Rattle.ab_search_ways.specs.GoalReadings.{HoldsGoal, IsFormulaIn};
ghost use Rattle.ab_search_ways.specs.MadeWays.{MakesWay, MakesWayAt};

use crate::branch_constants::{new_constant, with_placed};
use crate::goal::Goal;
use crate::layers::layer_of;
use crate::raised_bodies::{raise, with_constant};
use crate::way::Way;
use ab_instances::constants_of;
use ab_logic::{Form, World, shape};
use ab_norm::store::{CellId, Equation, TermId};
use ab_norm::types::{Steps, TypeId};
use std::alloc::{AllocError, Global};

/// A way that leads to the goals, and makes nothing equal.
fn leading_to(alloc: Global, flexible: &[CellId], goals: Vec<Goal>) -> Result<Way, AllocError>
    ensures cells { IfOk result (λ way. way.flexible.items ≡ flexible.now) }
    ensures equations { IfOk result (λ way. way.equations.items ≡ []) }
    ensures serves { IfOk result (λ way. way.serves ≡ true) }
    ensures goals { IfOk result (λ way. way.goals.items ≡ goals.items) }
{
    Ok(Way {
        flexible: Vec::from_slice(alloc, flexible)?,
        equations: Vec::new(alloc),
        serves: true,
        goals,
    })
}

/// The way that leads to the goal with this conclusion.
fn way_to_conclusion(
    alloc: Global,
    world: &World,
    flexible: &[CellId],
    goal: &Goal,
    conclusion: TermId,
) -> Result<Way, AllocError>
    requires goal { HoldsGoal world.now goal.now }
    requires conclusion { Holds world.now conclusion }
    ensures { IfOk result (MakesWay world.now flexible.now goal.now
        (λ now g. trees.leading_to (declarations_of world.now) now g (tree.asking (read world.now conclusion) g ∷ [])) world.now) }
{
    let _ = world;
    let only = goal.with_conclusion(alloc, conclusion)?;
    leading_to(alloc, flexible, Vec::from_array(alloc, [only])?)
}

/// The way that makes the two sides equal.
fn way_by_equation(
    alloc: Global,
    world: &World,
    flexible: &[CellId],
    goal: &Goal,
    left: TermId,
    right: TermId,
) -> Result<Way, AllocError>
    requires world { IsWorld world.now }
    requires left { Holds world.now left }
    requires right { Holds world.now right }
    ensures { IfOk result (MakesWay world.now flexible.now goal.now
        (λ now g. trees.equating (declarations_of world.now) now g (read world.now left) (read world.now right) []) world.now) }
{
    let _ = world;
    let _ = goal;
    Ok(Way {
        flexible: Vec::from_slice(alloc, flexible)?,
        equations: Vec::from_array(alloc, [Equation { left, right }])?,
        serves: true,
        goals: Vec::new(alloc),
    })
}

/// The way by a conjunction: both parts, one after the other.
fn by_both(
    alloc: Global,
    world: &World,
    flexible: &[CellId],
    goal: &Goal,
    left: TermId,
    right: TermId,
) -> Result<Way, AllocError>
    requires goal { HoldsGoal world.now goal.now }
    requires left { Holds world.now left }
    requires right { Holds world.now right }
    ensures { IfOk result (MakesWay world.now flexible.now goal.now
        (λ now g. trees.leading_to (declarations_of world.now) now g
        (trees.in_turn g.member_first (tree.asking (read world.now left) g) (tree.asking (read world.now right) g))) world.now) }
{
    let _ = world;
    let left = goal.with_conclusion(alloc, left)?;
    let right = goal.with_conclusion(alloc, right)?;
    let goals = if goal.member_first {
        Vec::from_array(alloc, [right, left])?
    } else {
        Vec::from_array(alloc, [left, right])?
    };
    leading_to(alloc, flexible, goals)
}

/// The way by an implication: what is given is one hypothesis more.
fn by_implication(
    alloc: Global,
    world: &World,
    flexible: &[CellId],
    goal: &Goal,
    given: TermId,
    asked: TermId,
) -> Result<Way, AllocError>
    requires goal { HoldsGoal world.now goal.now }
    requires given { Holds world.now given }
    requires asked { Holds world.now asked }
    ensures { IfOk result (MakesWay world.now flexible.now goal.now
        (λ now g. trees.leading_to (declarations_of world.now) now g (tree.asking (read world.now asked) (tree.assuming (read world.now given) g) ∷ [])) world.now) }
{
    let _ = world;
    let only = goal.with_conclusion(alloc, asked)?.with_hypothesis(given)?;
    leading_to(alloc, flexible, Vec::from_array(alloc, [only])?)
}

/// The way by a `nabla`: a constant that the branch doesn't hold, for its name.
fn by_nabla<L>(
    alloc: Global,
    world: &mut World,
    flexible: &[CellId],
    goal: &Goal,
    ty: TypeId,
    body: TermId,
    steps: &mut Steps<L>,
) -> Result<Way, AllocError>
    requires world { IsWorld world.old }
    requires goal { HoldsGoal world.old goal.now }
    requires ty { HoldsType world.old.types ty }
    requires body { IsTerm world.old.types world.old.store [] body (arrow (type_of world.old.types ty) prop) }
    ensures made { IfOk result (λ made. MakesWayAt world.old flexible.now goal.now
        (λ now g. trees.by_form (declarations_of world.old) now g (plain.nabla (type_of world.old.types ty) (read world.old body))) 0 world.new (Some made)) }
    ensures grows { Grows world.old world.new }
    ensures declared { declarations_of world.new ≡ declarations_of world.old }
    ensures steps { steps.old ≤ steps.new }
{
    let a = new_constant(alloc, &world.types, &goal.constants, ty)?;
    let conclusion = with_constant(alloc, world, body, a, steps)?;
    let mut only = goal.with_conclusion(alloc, conclusion)?;
    only.constants = with_placed(alloc, &goal.constants, a)?;
    leading_to(alloc, flexible, Vec::from_array(alloc, [only])?)
}

/// The way by an `exists`: a new variable over the branch's constants, which may be replaced.
fn by_exists<L>(
    alloc: Global,
    world: &mut World,
    flexible: &[CellId],
    goal: &Goal,
    ty: TypeId,
    body: TermId,
    steps: &mut Steps<L>,
) -> Result<Way, AllocError>
    requires world { IsWorld world.old }
    requires goal { HoldsGoal world.old goal.now }
    requires ty { HoldsType world.old.types ty }
    requires body { IsTerm world.old.types world.old.store [] body (arrow (type_of world.old.types ty) prop) }
    ensures made { IfOk result (λ made. MakesWayAt world.old flexible.now goal.now
        (λ now g. trees.by_form (declarations_of world.old) now g (plain.exists (type_of world.old.types ty) (read world.old body))) 0 world.new (Some made)) }
    ensures grows { Grows world.old world.new }
    ensures declared { declarations_of world.new ≡ declarations_of world.old }
    ensures steps { steps.old ≤ steps.new }
{
    let made = raise(alloc, world, ty, body, &goal.constants, steps)?;
    let mut only = goal.with_conclusion(alloc, made.formula)?;
    only.untouched = false;
    only.member_first = goal.member_first;
    let mut way = leading_to(alloc, flexible, Vec::from_array(alloc, [only])?)?;
    way.flexible.push(made.cell)?;
    Ok(way)
}

/// The way by a `forall`, while nothing was unfolded and no `exists` opened: a new variable over the conclusion's constants,
/// which may not be replaced.
fn by_for_all<L>(
    alloc: Global,
    world: &mut World,
    flexible: &[CellId],
    goal: &Goal,
    ty: TypeId,
    body: TermId,
    steps: &mut Steps<L>,
) -> Result<Option<Way>, AllocError>
    requires world { IsWorld world.old }
    requires goal { HoldsGoal world.old goal.now }
    requires ty { HoldsType world.old.types ty }
    requires body { IsTerm world.old.types world.old.store [] body (arrow (type_of world.old.types ty) prop) }
    ensures made { IfOk result (MakesWayAt world.old flexible.now goal.now
        (λ now g. trees.by_form (declarations_of world.old) now g (plain.for_all (type_of world.old.types ty) (read world.old body))) 0 world.new) }
    ensures grows { Grows world.old world.new }
    ensures declared { declarations_of world.new ≡ declarations_of world.old }
    ensures steps { steps.old ≤ steps.new }
{
    if !goal.untouched {
        return Ok(None);
    }
    let names = constants_of(alloc, &world.types, &world.store, &[goal.conclusion])?;
    let made = raise(alloc, world, ty, body, &names, steps)?;
    Ok(Some(way_to_conclusion(alloc, world, flexible, goal, made.formula)?))
}

/// The way by a layer of a judgement, where one may still be opened.
fn by_layer(
    alloc: Global,
    world: &mut World,
    flexible: &[CellId],
    goal: &Goal,
) -> Result<Option<Way>, AllocError>
    requires world { IsWorld world.old }
    requires goal { HoldsGoal world.old goal.now }
    requires conclusion { IsFormulaIn world.old goal.now.conclusion }
    ensures made { IfOk result (MakesWayAt world.old flexible.now goal.now (λ now g. trees.by_form (declarations_of world.old) now g plain.other) 0 world.new) }
    ensures grows { Grows world.old world.new }
    ensures declared { declarations_of world.new ≡ declarations_of world.old }
{
    if goal.layers == 0 {
        return Ok(None);
    }
    let Some(conclusion) = layer_of(alloc, world, goal.conclusion)? else {
        return Ok(None);
    };
    let mut only = goal.with_conclusion(alloc, conclusion)?;
    only.layers = goal.layers - 1;
    let goals = Vec::from_array(alloc, [only])?;
    Ok(Some(leading_to(alloc, flexible, goals)?))
}

/// The way by `true`, where that is the conclusion.
pub fn way_by_truth(
    alloc: Global,
    world: &World,
    flexible: &[CellId],
    goal: &Goal,
) -> Result<Option<Way>, AllocError>
    requires goal { HoldsGoal world.now goal.now }
    ensures { IfOk result (MakesWayAt world.now flexible.now goal.now (λ now g. trees.by_truth (declarations_of world.now) now g (form_of g.conclusion)) 0 world.now) }
{
    match shape(world, goal.conclusion) {
        Form::True => Ok(Some(leading_to(alloc, flexible, Vec::new(alloc))?)),
        _ => Ok(None),
    }
}

/// The first way by the form of the conclusion, if there is one.
pub fn way_by_form<L>(
    alloc: Global,
    world: &mut World,
    flexible: &[CellId],
    goal: &Goal,
    steps: &mut Steps<L>,
) -> Result<Option<Way>, AllocError>
    requires world { IsWorld world.old }
    requires goal { HoldsGoal world.old goal.now }
    requires conclusion { IsFormulaIn world.old goal.now.conclusion }
    ensures made { IfOk result (MakesWayAt world.old flexible.now goal.now (λ now g. trees.by_form (declarations_of world.old) now g (form_of g.conclusion)) 0 world.new) }
    ensures grows { Grows world.old world.new }
    ensures declared { declarations_of world.new ≡ declarations_of world.old }
    ensures steps { steps.old ≤ steps.new }
{
    match shape(world, goal.conclusion) {
        Form::Equal(_, left, right) => {
            Ok(Some(way_by_equation(alloc, world, flexible, goal, left, right)?))
        }
        Form::And(left, right) => Ok(Some(by_both(alloc, world, flexible, goal, left, right)?)),
        Form::Or(left, _) => Ok(Some(way_to_conclusion(alloc, world, flexible, goal, left)?)),
        Form::Arrow(given, asked) => {
            Ok(Some(by_implication(alloc, world, flexible, goal, given, asked)?))
        }
        Form::Nabla(ty, body) => {
            Ok(Some(by_nabla(alloc, world, flexible, goal, ty, body, steps)?))
        }
        Form::Exists(ty, body) => {
            Ok(Some(by_exists(alloc, world, flexible, goal, ty, body, steps)?))
        }
        Form::Forall(ty, body) => by_for_all(alloc, world, flexible, goal, ty, body, steps),
        Form::Other => by_layer(alloc, world, flexible, goal),
        Form::True | Form::False | Form::Marked(_, _) => Ok(None),
    }
}

/// The second way by the form of the conclusion: the right part of a disjunction.
pub fn second_way_by_form(
    alloc: Global,
    world: &World,
    flexible: &[CellId],
    goal: &Goal,
) -> Result<Option<Way>, AllocError>
    requires world { IsWorld world.now }
    requires goal { HoldsGoal world.now goal.now }
    ensures { IfOk result (MakesWayAt world.now flexible.now goal.now (λ now g. trees.by_form (declarations_of world.now) now g (form_of g.conclusion)) 1 world.now) }
{
    match shape(world, goal.conclusion) {
        Form::Or(_, right) => Ok(Some(way_to_conclusion(alloc, world, flexible, goal, right)?)),
        _ => Ok(None),
    }
}
