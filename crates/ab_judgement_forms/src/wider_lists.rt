//! What says that a list is within another one.
ghost use Rattle.std.specs.Prelude.{◌≡◌, codes, IfOk};
ghost use Rattle.ab_term.specs.Terms.{constant, logical, index, lam, spine, term, no_terms};
ghost use Rattle.ab_term.specs.Types.{o, olist};
ghost use Rattle.ab_term.specs.Logical.{universal, implication};
ghost use Rattle.ab_norm.specs.ab_types.specs.Ids.{HoldsType, type_of};
ghost use Rattle.ab_norm.specs.ab_store.specs.Trees.{Holds, tree_of};
ghost use Rattle.ab_norm.specs.ab_store.specs.Naming.{IsTypedBy};
ghost use Rattle.ab_norm.specs.NodeGrowth.{AddsTypedTerms};
ghost use Rattle.ab_unifiers.specs.Member.{in_the_list};
ghost use Rattle.ab_logic.specs.WorldGrowth.{Grows};
ghost use Rattle.ab_logic.specs.Worlds.{IsWorld, read};
ghost use Rattle.ab_theory.specs.Contexts.{is_within};
ghost use Rattle.ab_judgement_forms.specs.ShapeReadings.{IsMember, IsO};

use crate::list_items::{Membership, first_name, words_of};
use crate::opened_goals::between;
use crate::unused_names::under_binder;
use ab_logic::World;
use ab_norm::name::Name;
use ab_norm::store::{Head, Logical, Store, TermId};
use ab_norm::types::{ConstId, TypeId, TypeTable};
use std::alloc::{AllocError, Global};

/// The type of lists.
pub fn list_type(alloc: Global, world: &World) -> Result<TypeId, AllocError>
    requires { IsWorld world.now }
    ensures held { IfOk result (HoldsType world.now.types) }
    ensures reads { IfOk result (λ ty. type_of world.now.types ty ≡ olist) }
{
    let name = Name::from_text(alloc, "nil")?;
    let Some(nil) = world.types.look(&name) else {
        unreachable!();
    };
    Ok(world.types.const_type(nil))
}

/// If the item is in the first list, it is in the second.
fn stays_within(
    alloc: Global,
    types: &TypeTable,
    store: &mut Store,
    member: ConstId,
    item: TermId,
    list: TermId,
    other: TermId,
) -> Result<TermId, AllocError>
    requires store { IsTypedBy types.now store.old }
    requires member { IsMember types.now member }
    requires item { Holds store.old item }
    requires list { Holds store.old list }
    requires other { Holds store.old other }
    ensures held { IfOk result (λ r. Holds store.new r) }
    ensures tree { IfOk result (λ r. tree_of types.now store.new r
        ≡ spine (logical implication) (term (spine (constant (codes "member")) (in_the_list (tree_of types.now store.old item) (tree_of types.now store.old list)))
        (term (spine (constant (codes "member")) (in_the_list (tree_of types.now store.old item) (tree_of types.now store.old other))) no_terms))) }
    ensures adds { AddsTypedTerms types.now store.old store.new }
{
    let is_member = Head::Const(member);
    let first = between(alloc, types, store, is_member, item, list)?;
    let second = between(alloc, types, store, is_member, item, other)?;
    let arrow = Head::Logic(Logical::Arrow);
    between(alloc, types, store, arrow, first, second)
}

/// `forall X` over the formulas of the specification logic.
fn each_item(
    alloc: Global,
    types: &TypeTable,
    store: &mut Store,
    ty: TypeId,
    body: TermId,
) -> Result<TermId, AllocError>
    requires store { IsTypedBy types.now store.old }
    requires ty { IsO types.now ty }
    requires body { Holds store.old body }
    ensures held { IfOk result (λ r. Holds store.new r) }
    ensures tree { IfOk result (λ r. tree_of types.now store.new r
        ≡ spine (logical (universal o)) (term (lam o (codes "X") (tree_of types.now store.old body)) no_terms)) }
    ensures adds { AddsTypedTerms types.now store.old store.new }
{
    let _ = types;
    let hint = Name::from_text(alloc, "X")?;
    let abstraction = store.lam(ty, hint, body)?;
    let args = Vec::from_array(alloc, [abstraction])?;
    store.spine(Head::Logic(Logical::Forall(ty)), args)
}

/// That each item of the first list is in the second: `forall X, member X L -> member X K`.
fn within_by(
    alloc: Global,
    types: &TypeTable,
    store: &mut Store,
    words: Membership,
    list: TermId,
    other: TermId,
) -> Result<TermId, AllocError>
    requires store { IsTypedBy types.now store.old }
    requires member { IsMember types.now words.member }
    requires ty { IsO types.now words.o }
    requires list { Holds store.old list }
    requires other { Holds store.old other }
    ensures held { IfOk result (λ r. Holds store.new r) }
    ensures tree { IfOk result (λ r. tree_of types.now store.new r ≡ is_within (tree_of types.now store.old list) (tree_of types.now store.old other)) }
    ensures adds { AddsTypedTerms types.now store.old store.new }
{
    let smaller = under_binder(alloc, types, store, list)?;
    let larger = under_binder(alloc, types, store, other)?;
    let item = first_name(alloc, types, store)?;
    let body = stays_within(alloc, types, store, words.member, item, smaller, larger)?;
    each_item(alloc, types, store, words.o, body)
}

/// That each item of the first list is in the second.
pub fn is_within(
    alloc: Global,
    world: &mut World,
    list: TermId,
    other: TermId,
) -> Result<TermId, AllocError>
    requires world { IsWorld world.old }
    requires list { Holds world.old.store list }
    requires other { Holds world.old.store other }
    ensures held { IfOk result (Holds world.new.store) }
    ensures reads { IfOk result (λ t. read world.new t ≡ is_within (read world.old list) (read world.old other)) }
    ensures grows { Grows world.old world.new }
    ensures types { world.new.types ≡ world.old.types }
    ensures additions { world.new.additions ≡ world.old.additions }
{
    let words = words_of(alloc, world)?;
    within_by(alloc, &world.types, &mut world.store, words, list, other)
}
