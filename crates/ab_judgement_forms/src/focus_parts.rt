//! A formula in focus is taken apart.
ghost use Rattle.std.specs.Prelude.{◌≡◌, ◌++◌, map, All, IfOk, OnOk};
ghost use Rattle.ab_norm.specs.ab_types.specs.Ids.{HoldsType, type_of};
ghost use Rattle.ab_norm.specs.ab_store.specs.Trees.{Holds, tree_of};
ghost use Rattle.ab_norm.specs.ab_store.specs.Naming.{IsTypedBy};
ghost use Rattle.ab_norm.specs.NodeGrowth.{AddsTypedTerms};
ghost use Rattle.ab_theory.specs.Parts.{parts_of};
ghost use Rattle.ab_judgement_forms.specs.Shapes.{shape_of, for_names};
ghost use Rattle.ab_judgement_forms.specs.PartReadings.{part_read, HoldsPart};
ghost use Rattle.ab_judgement_forms.specs.PartWalks.{goal_inside, inside, alone, IsAround};

use crate::part_names::{PartName, copy_names};
use crate::raised_terms::raised_term;
use crate::shapes::{Shape, shape_of};
use ab_norm::store::{Node, Store, TermId};
use ab_norm::types::{TypeId, TypeTable};
use std::alloc::{AllocError, Global};

/// A part of a formula in focus: the names of the `pi`s that it stands under, the outermost first, and under them the goals
/// of the `=>`s, in order, and the atom.
#[derive(Drop)]
pub struct Part {
    pub names: Vec<PartName>,
    pub goals: Vec<TermId>,
    pub atom: TermId,
}

/// A goal, and under how many of the names it stands.
#[derive(Clone, Copy)]
pub(crate) struct Placed {
    pub depth: usize,
    pub goal: TermId,
}

/// What stands around a formula that is being taken apart: names, the outermost first, and goals.
#[derive(Drop)]
pub(crate) struct Around {
    pub names: Vec<PartName>,
    pub goals: Vec<Placed>,
}

/// The goals as they stand under so many names.
fn goals_inside(
    alloc: Global,
    types: &TypeTable,
    store: &mut Store,
    count: usize,
    goals: &[Placed],
) -> Result<Vec<TermId>, AllocError>
    requires store { IsTypedBy types.now store.old }
    requires goals { All (λ g. Holds store.old g.goal) goals.now }
    ensures held { IfOk result (λ list. All (Holds store.new) list.items) }
    ensures trees { IfOk result (λ list. map (tree_of types.now store.new) list.items ≡ map (goal_inside types.now store.old count) goals.now) }
    ensures adds { AddsTypedTerms types.now store.old store.new }
{
    let mut list = Vec::new(alloc);
    for placed in goals {
        let above = count.saturating_sub(placed.depth);
        list.push(raised_term(alloc, types, store, above, placed.goal)?)?;
    }
    Ok(list)
}

/// The part whose atom this is.
fn part_around(
    alloc: Global,
    types: &TypeTable,
    store: &mut Store,
    around: &Around,
    atom: TermId,
) -> Result<Part, AllocError>
    requires store { IsTypedBy types.now store.old }
    requires around { IsAround types.now store.old around.now.names.items around.now.goals.items }
    requires atom { Holds store.old atom }
    ensures reads { IfOk result (λ part. part_read types.now store.new part
        ≡ inside types.now store.old around.now.names.items around.now.goals.items (alone (tree_of types.now store.old atom))) }
    ensures held { IfOk result (HoldsPart types.now store.new) }
    ensures adds { AddsTypedTerms types.now store.old store.new }
{
    let goals = goals_inside(alloc, types, store, around.names.len(), &around.goals)?;
    let names = copy_names(alloc, &around.names)?;
    Ok(Part { names, goals, atom })
}

/// Puts the parts of the formula behind these, in order.
#[cycle(taken)]
fn add_parts(
    alloc: Global,
    types: &TypeTable,
    store: &mut Store,
    around: &mut Around,
    formula: TermId,
    parts: &mut Vec<Part>,
) -> Result<(), AllocError>
    requires store { IsTypedBy types.now store.old }
    requires around { IsAround types.now store.old around.old.names.items around.old.goals.items }
    requires formula { Holds store.old formula }
    requires parts { All (HoldsPart types.now store.old) parts.old.items }
    ensures reads { OnOk result (map (part_read types.now store.new) parts.new.items ≡ map (part_read types.now store.old) parts.old.items
        ++ map (inside types.now store.old around.old.names.items around.old.goals.items) (parts_of (tree_of types.now store.old formula))) }
    ensures held { OnOk result (All (HoldsPart types.now store.new) parts.new.items) }
    ensures names { OnOk result (around.new.names.items ≡ around.old.names.items) }
    ensures goals { OnOk result (around.new.goals.items ≡ around.old.goals.items) }
    ensures adds { AddsTypedTerms types.now store.old store.new }
{
    match shape_of(store, formula) {
        Shape::Pi(ty, abstraction) => add_parts_under(
            alloc,
            types,
            store,
            around,
            formula,
            ty,
            abstraction,
            parts,
        ),
        Shape::Imply(goal, inner) => {
            let depth = around.names.len();
            around.goals.push(Placed { depth, goal })?;
            add_parts(alloc, types, store, around, inner, parts)?;
            let _ = around.goals.pop();
            Ok(())
        }
        Shape::With(left, right) => {
            add_parts(alloc, types, store, around, left, parts)?;
            add_parts(alloc, types, store, around, right, parts)
        }
        Shape::Other => {
            let part = part_around(alloc, types, store, around, formula)?;
            parts.push(part)?;
            Ok(())
        }
    }
}

/// The same of a formula that is `pi` over the type, given the abstraction.
#[cycle(taken)]
fn add_parts_under(
    alloc: Global,
    types: &TypeTable,
    store: &mut Store,
    around: &mut Around,
    formula: TermId,
    ty: TypeId,
    abstraction: TermId,
    parts: &mut Vec<Part>,
) -> Result<(), AllocError>
    requires store { IsTypedBy types.now store.old }
    requires around { IsAround types.now store.old around.old.names.items around.old.goals.items }
    requires formula { Holds store.old formula }
    requires abstraction { Holds store.old abstraction }
    requires ty { HoldsType types.now ty }
    requires shape { shape_of (tree_of types.now store.old formula) ≡ for_names (type_of types.now ty) (tree_of types.now store.old abstraction) }
    requires parts { All (HoldsPart types.now store.old) parts.old.items }
    ensures reads { OnOk result (map (part_read types.now store.new) parts.new.items ≡ map (part_read types.now store.old) parts.old.items
        ++ map (inside types.now store.old around.old.names.items around.old.goals.items) (parts_of (tree_of types.now store.old formula))) }
    ensures held { OnOk result (All (HoldsPart types.now store.new) parts.new.items) }
    ensures names { OnOk result (around.new.names.items ≡ around.old.names.items) }
    ensures goals { OnOk result (around.new.goals.items ≡ around.old.goals.items) }
    ensures adds { AddsTypedTerms types.now store.old store.new }
{
    match store.view(abstraction) {
        Node::Spine(_, _) => {
            let part = part_around(alloc, types, store, around, formula)?;
            parts.push(part)?;
            Ok(())
        }
        Node::Lam(_, name, body) => {
            let hint = name.copy(alloc)?;
            let inner = *body;
            around.names.push(PartName { hint, ty })?;
            add_parts(alloc, types, store, around, inner, parts)?;
            let _ = around.names.pop();
            Ok(())
        }
    }
}

/// The parts of the formula, in order.
pub fn parts(
    alloc: Global,
    types: &TypeTable,
    store: &mut Store,
    formula: TermId,
) -> Result<Vec<Part>, AllocError>
    requires store { IsTypedBy types.now store.old }
    requires formula { Holds store.old formula }
    ensures reads { IfOk result (λ list. map (part_read types.now store.new) list.items ≡ parts_of (tree_of types.now store.old formula)) }
    ensures held { IfOk result (λ list. All (HoldsPart types.now store.new) list.items) }
    ensures adds { AddsTypedTerms types.now store.old store.new }
{
    let mut around = Around {
        names: Vec::new(alloc),
        goals: Vec::new(alloc),
    };
    let mut list = Vec::new(alloc);
    add_parts(alloc, types, store, &mut around, formula, &mut list)?;
    Ok(list)
}
