//! Whether a term is a head for a clause.
ghost use Rattle.std.specs.Prelude.{◌≡◌, ◌+◌, ◌↔◌, true, List, map, IfOk, OnOk, All};
ghost use Rattle.ab_store.specs.ab_types.specs.Entries.{Table};
ghost use Rattle.ab_store.specs.ab_types.specs.Ids.{HoldsConstant};
ghost use Rattle.ab_store.specs.declared.node.CellEntry.{CellEntry};
ghost use Rattle.ab_store.specs.Trees.{Holds, tree_of, head_in};
ghost use Rattle.ab_store.specs.Naming.{IsTypedBy};
ghost use Rattle.ab_formulas.specs.Heads.{KeepsNames, IsNoPrefixName, place_under, IsHeadOf, in_the_atom};
ghost use Rattle.ab_typing.specs.DefinitionReadings.{name_of};
ghost use Rattle.ab_typing.specs.JudgedTerms.{AreKeeping};
ghost use Rattle.ab_typing.specs.Parts.{place_of};

use crate::judged_terms::{Spot, Spots};
use crate::stratification::is_predicate;
use ab_store::types::{ConstId, TypeTable};
use ab_store::{Head, Logical, Node, Store, TermId};
use std::alloc::AllocError;

/// Where a part of an atom stands.
#[derive(Clone, Copy)]
pub enum Place {
    /// In the arguments of no variable.
    InTheAtom,
    /// In those of a variable.
    UnderAVariable,
}

/// Whether the term is a head for a clause of the predicates.
pub fn is_head(
    types: &TypeTable,
    store: &Store,
    predicates: &[ConstId],
    spots: &mut Spots,
    id: TermId,
) -> Result<bool, AllocError>
    requires store { IsTypedBy types.now store.now }
    requires predicates { All (HoldsConstant types.now) predicates.now }
    requires id { Holds store.now id }
    requires spots { AreKeeping store.now spots.old }
    ensures head { IfOk result (λ yes. (yes ≡ true) ↔ IsHeadOf (map (name_of types.now) predicates.now) (tree_of types.now store.now id)) }
    ensures spots { OnOk result (AreKeeping store.now spots.new) }
{
    match store.view(id) {
        Node::Lam(_, _, _) => Ok(false),
        Node::Spine(head, args) => match *head {
            Head::Const(constant) => {
                if !is_predicate(types, predicates, constant) {
                    return Ok(false);
                }
                all_keep(store, spots, Place::InTheAtom, 0, args.as_slice())
            }
            Head::Logic(logical) => match logical {
                Logical::Nabla(_) => match args.as_slice() {
                    [scope] => match store.view(*scope) {
                        Node::Lam(_, _, body) => is_head(types, store, predicates, spots, *body),
                        Node::Spine(_, _) => Ok(false),
                    },
                    _ => Ok(false),
                },
                _ => Ok(false),
            },
            _ => Ok(false),
        },
    }
}

/// Whether no variable has a name of the prefix in its arguments, in a part that stands under some binders of its
/// own. A part that is shared is looked at once at each number of binders.
#[cycle(keeping)]
fn keeps(
    store: &Store,
    spots: &mut Spots,
    place: Place,
    inner: usize,
    id: TermId,
) -> Result<bool, AllocError>
    requires id { Holds store.now id }
    requires spots { AreKeeping store.now spots.old }
    ensures keeps { IfOk result (λ yes. (types : Table) → (yes ≡ true) ↔ KeepsNames (place_of place) inner (tree_of types store.now id)) }
    ensures spots { OnOk result (AreKeeping store.now spots.new) }
{
    let spot = Spot { id, inner };
    if spots.has(place, spot) {
        return Ok(true);
    }
    if !node_keeps(store, spots, place, inner, id)? {
        return Ok(false);
    }
    spots.keep(place, spot)?;
    Ok(true)
}

#[cycle(keeping)]
fn node_keeps(
    store: &Store,
    spots: &mut Spots,
    place: Place,
    inner: usize,
    id: TermId,
) -> Result<bool, AllocError>
    requires id { Holds store.now id }
    requires spots { AreKeeping store.now spots.old }
    ensures keeps { IfOk result (λ yes. (types : Table) → (yes ≡ true) ↔ KeepsNames (place_of place) inner (tree_of types store.now id)) }
    ensures spots { OnOk result (AreKeeping store.now spots.new) }
{
    match store.view(id) {
        Node::Lam(_, _, body) => keeps(store, spots, place, one_more(inner)?, *body),
        Node::Spine(head, args) => {
            if !is_no_prefix_name(place, inner, *head) {
                return Ok(false);
            }
            all_keep(
                store,
                spots,
                place_under(place, *head),
                inner,
                args.as_slice(),
            )
        }
    }
}

#[cycle(keeping)]
fn all_keep(
    store: &Store,
    spots: &mut Spots,
    place: Place,
    inner: usize,
    ids: &[TermId],
) -> Result<bool, AllocError>
    requires ids { All (Holds store.now) ids.now }
    requires spots { AreKeeping store.now spots.old }
    ensures keep { IfOk result (λ yes. (types : Table) → (yes ≡ true) ↔
        All (λ t. KeepsNames (place_of place) inner (tree_of types store.now t)) ids.now) }
    ensures spots { OnOk result (AreKeeping store.now spots.new) }
{
    for id in ids {
        if !keeps(store, spots, place, inner, *id)? {
            return Ok(false);
        }
    }
    Ok(true)
}

/// Whether the head is no name of the prefix, where it may not be one.
fn is_no_prefix_name(place: Place, inner: usize, head: Head) -> bool
    ensures { (types : Table) (cells : List CellEntry) → (result ≡ true) ↔ IsNoPrefixName (place_of place) inner (head_in types cells head) }
{
    match place {
        Place::InTheAtom => true,
        Place::UnderAVariable => match head {
            Head::Index(index) => index < inner,
            _ => true,
        },
    }
}

/// The place of what the head is given.
fn place_under(place: Place, head: Head) -> Place
    ensures { (types : Table) (cells : List CellEntry) → place_of result ≡ place_under (place_of place) (head_in types cells head) }
{
    match head {
        Head::Cell(_) => Place::UnderAVariable,
        _ => place,
    }
}

/// The number of binders, with one more. More than there are numbers is want of memory.
fn one_more(binders: usize) -> Result<usize, AllocError>
    ensures { IfOk result (λ n. n ≡ binders + 1) }
{
    match binders.checked_add(1) {
        Some(n) => Ok(n),
        None => Err(AllocError),
    }
}
