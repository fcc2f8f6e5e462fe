//! The list that a cut of two judgements leaves.
ghost use Rattle.std.specs.Prelude.{◌≡◌, ◌<◌, ℕ, [], map, All, IfOk, IfSome, bytes_eq};
ghost use Rattle.std.specs.Option.{option_map};
ghost use Rattle.ab_term.specs.Terms.{spine, terms_of};
ghost use Rattle.ab_term.specs.Sameness.{same_term};
ghost use Rattle.ab_norm.specs.ab_types.specs.Ids.{constant_of, HoldsConstant};
ghost use Rattle.ab_norm.specs.ab_store.specs.Trees.{Holds, tree_of, head_in};
ghost use Rattle.ab_norm.specs.ab_store.specs.Naming.{IsTypedBy, HeadIsTyped};
ghost use Rattle.ab_norm.specs.NodeGrowth.{AddsTypedTerms};
ghost use Rattle.ab_logic.specs.WorldGrowth.{Grows};
ghost use Rattle.ab_logic.specs.Worlds.{IsWorld, read};
ghost use Rattle.ab_theory.specs.Contexts.{without_item, cut_list};
ghost use Rattle.ab_judgement_forms.specs.ListItems.{first_item};
ghost use Rattle.ab_judgement_forms.specs.ShapeReadings.{IsCons};

use crate::goals::cons_of;
use crate::opened_goals::between;
use ab_logic::World;
use ab_norm::equal;
use ab_norm::store::{Head, Node, Store, TermId};
use ab_norm::types::{ConstId, TypeTable};
use std::alloc::{AllocError, Global};

/// Whether the two terms are the same past their hints, where no cell is bound.
fn is_same(
    alloc: Global,
    types: &TypeTable,
    store: &Store,
    a: TermId,
    b: TermId,
) -> Result<bool, AllocError>
    requires store { IsTypedBy types.now store.now }
    requires unbound { store.now.bindings ≡ [] }
    requires a { Holds store.now a }
    requires b { Holds store.now b }
    ensures { IfOk result (λ yes. yes ≡ same_term (tree_of types.now store.now a) (tree_of types.now store.now b)) }
{
    equal(alloc, types, store, a, b)
}

/// Whether the two constants have one name.
fn is_named_as(types: &TypeTable, a: ConstId, b: ConstId) -> bool
    requires a { HoldsConstant types.now a }
    requires b { HoldsConstant types.now b }
    ensures { result ≡ bytes_eq (constant_of types.now a).name (constant_of types.now b).name }
{
    *types.const_name(a) == *types.const_name(b)
}

/// The first item and the list behind it, where the head is given these.
fn first_by(
    types: &TypeTable,
    store: &Store,
    cons: ConstId,
    head: Head,
    args: &[TermId],
) -> Option<(TermId, TermId)>
    requires cons { IsCons types.now cons }
    requires head { HeadIsTyped types.now head }
    requires args { All (Holds store.now) args.now }
    ensures reads { option_map (λ p. (tree_of types.now store.now p.0, tree_of types.now store.now p.1)) result
        ≡ first_item (spine (head_in types.now store.now.cells head) (terms_of (map (tree_of types.now store.now) args.now))) }
    ensures held { IfSome result (λ p. Holds store.now p.0 × Holds store.now p.1) }
    ensures below { (n : ℕ) → All (λ t. t.0 < n) args.now → IfSome result (λ p. p.1.0 < n) }
{
    let _ = store;
    let Head::Const(constant) = head else {
        return None;
    };
    if args.len() != 2 {
        return None;
    }
    if is_named_as(types, constant, cons) {
        Some((args[0], args[1]))
    } else {
        None
    }
}

/// The first item of a list and the list behind it, if an item stands before a list by `::`.
fn first_item(
    types: &TypeTable,
    store: &Store,
    cons: ConstId,
    list: TermId,
) -> Option<(TermId, TermId)>
    requires store { IsTypedBy types.now store.now }
    requires cons { IsCons types.now cons }
    requires list { Holds store.now list }
    ensures reads { option_map (λ p. (tree_of types.now store.now p.0, tree_of types.now store.now p.1)) result
        ≡ first_item (tree_of types.now store.now list) }
    ensures held { IfSome result (λ p. Holds store.now p.0 × Holds store.now p.1) }
    ensures below { IfSome result (λ p. p.1.0 < list.0) }
{
    match store.view(list) {
        Node::Lam(_, _, _) => None,
        Node::Spine(head, args) => first_by(types, store, cons, *head, args.as_slice()),
    }
}

/// The list without its first item that is this one past hints, if it has one.
fn without_item(
    alloc: Global,
    types: &TypeTable,
    store: &mut Store,
    cons: ConstId,
    list: TermId,
    item: TermId,
) -> Result<Option<TermId>, AllocError>
    requires store { IsTypedBy types.now store.old }
    requires unbound { store.old.bindings ≡ [] }
    requires cons { IsCons types.now cons }
    requires list { Holds store.old list }
    requires item { Holds store.old item }
    ensures held { IfOk result (λ found. IfSome found (Holds store.new)) }
    ensures tree { IfOk result (λ found. option_map (tree_of types.now store.new) found
        ≡ without_item (tree_of types.now store.old list) (tree_of types.now store.old item)) }
    ensures adds { AddsTypedTerms types.now store.old store.new }
{
    let Some((first, rest)) = first_item(types, store, cons, list) else {
        return Ok(None);
    };
    if is_same(alloc, types, store, first, item)? {
        return Ok(Some(rest));
    }
    match without_item(alloc, types, store, cons, rest, item)? {
        None => Ok(None),
        Some(left) => {
            let longer = between(alloc, types, store, Head::Const(cons), first, left)?;
            Ok(Some(longer))
        }
    }
}

/// The list that a cut leaves: the first list without the goal, if that is the second list past hints.
pub fn cut_list(
    alloc: Global,
    world: &mut World,
    list: TermId,
    goal: TermId,
    other: TermId,
) -> Result<Option<TermId>, AllocError>
    requires world { IsWorld world.old }
    requires list { Holds world.old.store list }
    requires goal { Holds world.old.store goal }
    requires other { Holds world.old.store other }
    ensures held { IfOk result (λ found. IfSome found (Holds world.new.store)) }
    ensures reads { IfOk result (λ found. option_map (read world.new) found ≡ cut_list (read world.old list) (read world.old goal) (read world.old other)) }
    ensures grows { Grows world.old world.new }
    ensures types { world.new.types ≡ world.old.types }
    ensures additions { world.new.additions ≡ world.old.additions }
{
    let cons = cons_of(alloc, world)?;
    let Some(left) = without_item(alloc, &world.types, &mut world.store, cons, list, goal)? else {
        return Ok(None);
    };
    if is_same(alloc, &world.types, &world.store, left, other)? {
        Ok(Some(left))
    } else {
        Ok(None)
    }
}
