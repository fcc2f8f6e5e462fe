//! What becomes of the quantifiers and antecedents of a formula, where terms are given.
ghost use Rattle.std.specs.Prelude.{◌≡◌, map, bytes_eq, All, IfOk, OnOk};
ghost use Rattle.std.specs.Option.{option_map};
ghost use Rattle.ab_norm.specs.ab_types.specs.Entries.{Table};
ghost use Rattle.ab_norm.specs.ab_types.specs.Ids.{HoldsType, type_of};
ghost use Rattle.ab_norm.specs.ab_store.specs.Trees as trees;
ghost use Rattle.ab_norm.specs.ab_store.specs.Trees.{tree_of};
ghost use Rattle.ab_logic.specs.Worlds.{IsWorld, Holds, read};
ghost use Rattle.ab_theory.specs.Pieces as spec;
ghost use Rattle.ab_theory.specs.Pieces.{pieces, parts, part_for, given_otherwise};
ghost use Rattle.ab_uses.specs.Layers.{hint_of};
ghost use Rattle.ab_uses.specs.GivenReadings.{given_of, HoldsIfAny};
ghost use Rattle.ab_uses.specs.UseCells.{HoldsPart, part_read, parts_read};
ghost use Rattle.ab_uses.specs.GivenParts.{IsGiven};

use crate::given_terms::GivenTerm;
use crate::next_parts::{Layer, look_at};
use crate::part::Part;
use ab_logic::World;
use ab_norm::name::Name;
use ab_norm::store::{Node, Store, TermId};
use ab_norm::types::TypeId;
use std::alloc::{AllocError, Global};

/// The hint of the abstraction.
fn hint_at(alloc: Global, store: &Store, scope: TermId) -> Result<Name, AllocError>
    requires { trees.Holds store.now scope }
    ensures { IfOk result (λ name. (types : Table) → name ≡ hint_of (tree_of types store.now scope)) }
{
    match store.view(scope) {
        Node::Lam(_, hint, _) => hint.copy(alloc),
        Node::Spine(_, _) => Name::from_text(alloc, ""),
    }
}

/// Whether the term is given for that name.
fn is_for(given: &GivenTerm, name: &Name) -> bool
    ensures { result ≡ bytes_eq given.now.name name.now }
{
    given.name == *name
}

/// The term that is given for the name.
fn given_for(world: &World, given: &[GivenTerm], name: &Name) -> Option<TermId>
    requires given { All (IsGiven world.now) given.now }
    ensures value { option_map (read world.now) result ≡ spec.given_for name.now (map (given_of world.now) given.now) }
    ensures held { HoldsIfAny world.now result }
{
    for term in given {
        if is_for(term, name) {
            return Some(term.value);
        }
    }
    None
}

/// The terms that are given for other names.
fn given_for_others(
    alloc: Global,
    world: &World,
    given: &[GivenTerm],
    name: &Name,
) -> Result<Vec<GivenTerm>, AllocError>
    requires given { All (IsGiven world.now) given.now }
    ensures others { IfOk result (λ list. map (given_of world.now) list.items ≡ given_otherwise name.now (map (given_of world.now) given.now)) }
    ensures held { IfOk result (λ list. All (IsGiven world.now) list.items) }
{
    let _ = world;
    let mut others = Vec::new(alloc);
    for term in given {
        if !is_for(term, name) {
            others.push(GivenTerm {
                name: term.name.copy(alloc)?,
                ty: term.ty,
                value: term.value,
            })?;
        }
    }
    Ok(others)
}

/// What becomes of a `forall` of that name and type: the term that is left for the name is put for it, and isn't left for
/// names further in.
fn part_of(
    alloc: Global,
    world: &World,
    left: &mut Vec<GivenTerm>,
    name: Name,
    ty: TypeId,
) -> Result<Part, AllocError>
    requires left { All (IsGiven world.now) left.old.items }
    requires ty { HoldsType world.now.types ty }
    ensures part { IfOk result (λ part. part_read world.now.types world.now.store part ≡ part_for name (type_of world.now.types ty) (spec.given_for name (map (given_of world.now) left.old.items))) }
    ensures held { IfOk result (λ part. HoldsPart world.now.types world.now.store part) }
    ensures left { OnOk result (map (given_of world.now) left.new.items ≡ given_otherwise name (map (given_of world.now) left.old.items)) }
    ensures left_held { OnOk result (All (IsGiven world.now) left.new.items) }
{
    match given_for(world, left, &name) {
        Some(value) => {
            *left = given_for_others(alloc, world, left, &name)?;
            Ok(Part::Given(value))
        }
        None => Ok(Part::Variable(name, ty)),
    }
}

/// The terms, once more.
fn copy_given(alloc: Global, given: &[GivenTerm]) -> Result<Vec<GivenTerm>, AllocError>
    ensures { IfOk result (λ list. list.items ≡ given.now) }
{
    let mut list = Vec::new(alloc);
    for term in given {
        list.push(GivenTerm {
            name: term.name.copy(alloc)?,
            ty: term.ty,
            value: term.value,
        })?;
    }
    Ok(list)
}

/// What becomes of what is taken off the formula, up to the antecedent of the number, where these terms are given.
pub fn parts_of(
    alloc: Global,
    world: &World,
    formula: TermId,
    count: usize,
    given: &[GivenTerm],
) -> Result<Vec<Part>, AllocError>
    requires world { IsWorld world.now }
    requires formula { Holds world.now formula }
    requires given { All (λ g. Holds world.now g.value × HoldsType world.now.types g.ty) given.now }
    ensures parts { IfOk result (λ list. parts_read world.now.types world.now.store list.items ≡ parts (map (given_of world.now) given.now) (pieces count (read world.now formula))) }
    ensures held { IfOk result (λ list. All (HoldsPart world.now.types world.now.store) list.items) }
{
    let mut list = Vec::new(alloc);
    let mut spare = copy_given(alloc, given)?;
    let mut left = count;
    let mut rest = formula;
    'layers: loop {
        match look_at(&world.store, rest) {
            Layer::Universal(ty, scope, inner) => {
                let name = hint_at(alloc, &world.store, scope)?;
                list.push(part_of(alloc, world, &mut spare, name, ty)?)?;
                rest = inner;
            }
            Layer::Nabla(ty, inner) => {
                list.push(Part::Constant(ty))?;
                rest = inner;
            }
            Layer::Implication(_, behind) => {
                if left == 0 {
                    return Ok(list);
                }
                list.push(Part::Antecedent)?;
                if left == 1 {
                    return Ok(list);
                }
                left -= 1;
                rest = behind;
            }
            Layer::Last => return Ok(list),
        }
    }
}
