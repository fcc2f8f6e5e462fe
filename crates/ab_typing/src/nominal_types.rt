//! Whether a nominal number stands at two types.
ghost use Rattle.std.specs.Prelude.{◌≡◌, ◌↔◌, [], ◌∷◌, ◌++◌, map, IfOk, OnOk, IsTrue, All};
ghost use Rattle.ab_term.specs.Terms as tree;
ghost use Rattle.ab_term.specs.Names.{support, support_of_head};
ghost use Rattle.ab_store.specs.ab_types.specs.Entries.{Table};
ghost use Rattle.ab_store.specs.ab_types.specs.Ids.{HoldsType, type_of};
ghost use Rattle.ab_store.specs.Trees.{Contents, Holds, tree_of, head_reading};
ghost use Rattle.ab_store.specs.Naming.{HeadIsTyped, IsTypedBy};
ghost use Rattle.ab_formulas.specs.GoalTerms.{HasOneTypeEach, names_of};
ghost use Rattle.ab_typing.specs.NominalTypes.{Knows, AreKnown, Notes};

use crate::visited_terms::{is_seen, see};
use ab_store::types::{TypeId, TypeTable};
use ab_store::{Head, Node, Store, TermId};
use std::alloc::{AllocError, Global};
use std::collections::{BTreeMap, BTreeSet};

/// The types at which nominal numbers were found, and the terms that were looked at.
#[derive(Drop)]
pub struct Numbers {
    pub types: BTreeMap<u128, TypeId>,
    pub seen: BTreeSet<TermId>,
}

/// Whether each nominal number that stands in the terms stands there at one type. A part that is shared is looked
/// at once.
pub fn have_one_type_each(
    alloc: Global,
    types: &TypeTable,
    store: &Store,
    terms: &[TermId],
) -> Result<bool, AllocError>
    requires store { IsTypedBy types.now store.now }
    requires terms { All (Holds store.now) terms.now }
    ensures { IfOk result (λ yes. IsTrue yes ↔ HasOneTypeEach (names_of (map (tree_of types.now store.now) terms.now))) }
{
    let mut known = no_numbers(alloc);
    note_all(types, store, &mut known, terms)
}

/// The same of the terms and one more.
pub fn have_one_type_beside(
    alloc: Global,
    types: &TypeTable,
    store: &Store,
    terms: &[TermId],
    id: TermId,
) -> Result<bool, AllocError>
    requires store { IsTypedBy types.now store.now }
    requires terms { All (Holds store.now) terms.now }
    requires id { Holds store.now id }
    ensures { IfOk result (λ yes. IsTrue yes ↔
        HasOneTypeEach (names_of (map (tree_of types.now store.now) terms.now) ++ support (tree_of types.now store.now id))) }
{
    let mut known = no_numbers(alloc);
    if !note_all(types, store, &mut known, terms)? {
        return Ok(false);
    }
    note(types, store, &mut known, id)
}

/// No number.
fn no_numbers(alloc: Global) -> Numbers
    ensures none { (types : Table) (n : tree.Nominal) → ¬ Knows types result n }
    ensures known { (types : Table) (store : Contents) → AreKnown types store result }
{
    Numbers {
        types: BTreeMap::new(alloc),
        seen: BTreeSet::new(alloc),
    }
}

/// Notes the constants of the term, or finds two with one number.
#[cycle(noted)]
fn note(
    types: &TypeTable,
    store: &Store,
    known: &mut Numbers,
    id: TermId,
) -> Result<bool, AllocError>
    requires store { IsTypedBy types.now store.now }
    requires known { AreKnown types.now store.now known.old }
    requires id { Holds store.now id }
    ensures { IfOk result (Notes types.now store.now known.old known.new (support (tree_of types.now store.now id))) }
{
    if !store.has_nominals(id) {
        return Ok(true);
    }
    if is_seen(&known.seen, id) {
        return Ok(true);
    }
    if !note_node(types, store, known, id)? {
        return Ok(false);
    }
    see(&mut known.seen, id)?;
    Ok(true)
}

#[cycle(noted)]
fn note_node(
    types: &TypeTable,
    store: &Store,
    known: &mut Numbers,
    id: TermId,
) -> Result<bool, AllocError>
    requires store { IsTypedBy types.now store.now }
    requires known { AreKnown types.now store.now known.old }
    requires id { Holds store.now id }
    ensures { IfOk result (Notes types.now store.now known.old known.new (support (tree_of types.now store.now id))) }
{
    match store.view(id) {
        Node::Lam(_, _, body) => note(types, store, known, *body),
        Node::Spine(head, args) => {
            if !note_head(types, store, known, *head)? {
                return Ok(false);
            }
            note_all(types, store, known, args.as_slice())
        }
    }
}

#[cycle(noted)]
fn note_all(
    types: &TypeTable,
    store: &Store,
    known: &mut Numbers,
    ids: &[TermId],
) -> Result<bool, AllocError>
    requires store { IsTypedBy types.now store.now }
    requires known { AreKnown types.now store.now known.old }
    requires ids { All (Holds store.now) ids.now }
    ensures { IfOk result (Notes types.now store.now known.old known.new (names_of (map (tree_of types.now store.now) ids.now))) }
{
    for id in ids {
        if !note(types, store, known, *id)? {
            return Ok(false);
        }
    }
    Ok(true)
}

/// Notes the head, where it is a nominal constant.
fn note_head(
    types: &TypeTable,
    store: &Store,
    known: &mut Numbers,
    head: Head,
) -> Result<bool, AllocError>
    requires store { IsTypedBy types.now store.now }
    requires known { AreKnown types.now store.now known.old }
    requires head { HeadIsTyped types.now head }
    ensures { IfOk result (Notes types.now store.now known.old known.new (support_of_head (head_reading types.now store.now head))) }
{
    match head {
        Head::Nominal(number, ty) => note_number(types, store, known, number, ty),
        _ => Ok(true),
    }
}

/// Notes the number at the type.
fn note_number(
    types: &TypeTable,
    store: &Store,
    known: &mut Numbers,
    number: u128,
    ty: TypeId,
) -> Result<bool, AllocError>
    requires store { IsTypedBy types.now store.now }
    requires known { AreKnown types.now store.now known.old }
    requires ty { HoldsType types.now ty }
    ensures { IfOk result (Notes types.now store.now known.old known.new (record { number = number; type = type_of types.now ty } ∷ [])) }
{
    // no two ids of a table stand for one type
    let _ = types.len();
    if let Some(other) = known.types.get(&number) {
        return Ok(*other == ty);
    }
    known.types.insert(number, ty)?;
    Ok(true)
}
