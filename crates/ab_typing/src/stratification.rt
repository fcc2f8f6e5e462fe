//! Which predicate stands to the left of an arrow.
ghost use Rattle.std.specs.Prelude.{◌≡◌, List, map, IfOk, IfSome, OnOk, All, bytes_eq};
ghost use Rattle.std.specs.List.{list_any};
ghost use Rattle.std.specs.Option.{option_map};
ghost use Rattle.ab_store.specs.ab_types.specs.Entries.{Table};
ghost use Rattle.ab_store.specs.ab_types.specs.Ids.{HoldsConstant};
ghost use Rattle.ab_store.specs.declared.node.CellEntry.{CellEntry};
ghost use Rattle.ab_store.specs.Trees.{Holds, tree_of, head_in};
ghost use Rattle.ab_store.specs.Naming.{IsTypedBy, HeadIsTyped};
ghost use Rattle.ab_term.specs.Terms.{terms_of};
ghost use Rattle.ab_formulas.specs.Stratification.{constants, constants_of_all, own_constant, part_of_first};
ghost use Rattle.ab_typing.specs.DefinitionReadings.{name_of};
ghost use Rattle.ab_typing.specs.JudgedTerms.{AreClear, first_of};
ghost use Rattle.ab_typing.specs.Parts.{part_of};

use crate::judged_terms::Cleared;
use ab_store::types::laws::has_unique_ids;
use ab_store::types::{ConstId, TypeTable};
use ab_store::{Head, Logical, Node, Store, TermId};
use std::alloc::AllocError;

/// Which constants of a term are asked for.
#[derive(Clone, Copy)]
pub enum Part {
    /// All of them.
    Everywhere,
    /// Those that stand in the left part of an arrow.
    LeftOfArrows,
}

/// The first of the constants that is one of the predicates. A part that is shared is looked at once.
#[cycle(looking)]
pub fn first_in(
    types: &TypeTable,
    store: &Store,
    predicates: &[ConstId],
    cleared: &mut Cleared,
    part: Part,
    id: TermId,
) -> Result<Option<ConstId>, AllocError>
    requires store { IsTypedBy types.now store.now }
    requires predicates { All (HoldsConstant types.now) predicates.now }
    requires id { Holds store.now id }
    requires cleared { AreClear (map (name_of types.now) predicates.now) types.now store.now cleared.old }
    ensures first { IfOk result (λ found. option_map (name_of types.now) found
        ≡ first_of (map (name_of types.now) predicates.now) (constants (part_of part) (tree_of types.now store.now id))) }
    ensures held { IfOk result (λ found. IfSome found (HoldsConstant types.now)) }
    ensures cleared { OnOk result (AreClear (map (name_of types.now) predicates.now) types.now store.now cleared.new) }
{
    if cleared.has(part, id) {
        return Ok(None);
    }
    match first_in_node(types, store, predicates, cleared, part, id)? {
        Some(found) => Ok(Some(found)),
        None => {
            cleared.keep(part, id)?;
            Ok(None)
        }
    }
}

#[cycle(looking)]
fn first_in_node(
    types: &TypeTable,
    store: &Store,
    predicates: &[ConstId],
    cleared: &mut Cleared,
    part: Part,
    id: TermId,
) -> Result<Option<ConstId>, AllocError>
    requires store { IsTypedBy types.now store.now }
    requires predicates { All (HoldsConstant types.now) predicates.now }
    requires id { Holds store.now id }
    requires cleared { AreClear (map (name_of types.now) predicates.now) types.now store.now cleared.old }
    ensures first { IfOk result (λ found. option_map (name_of types.now) found
        ≡ first_of (map (name_of types.now) predicates.now) (constants (part_of part) (tree_of types.now store.now id))) }
    ensures held { IfOk result (λ found. IfSome found (HoldsConstant types.now)) }
    ensures cleared { OnOk result (AreClear (map (name_of types.now) predicates.now) types.now store.now cleared.new) }
{
    match store.view(id) {
        Node::Lam(_, _, body) => first_in(types, store, predicates, cleared, part, *body),
        Node::Spine(head, args) => {
            if let Some(found) = own_constant(types, predicates, part, *head) {
                return Ok(Some(found));
            }
            let first = part_of_first(part, *head);
            first_in_all(
                types,
                store,
                predicates,
                cleared,
                first,
                part,
                args.as_slice(),
            )
        }
    }
}

/// The same of several terms: of the first one part is asked for, and of the others another.
#[cycle(looking)]
fn first_in_all(
    types: &TypeTable,
    store: &Store,
    predicates: &[ConstId],
    cleared: &mut Cleared,
    first: Part,
    others: Part,
    ids: &[TermId],
) -> Result<Option<ConstId>, AllocError>
    requires store { IsTypedBy types.now store.now }
    requires predicates { All (HoldsConstant types.now) predicates.now }
    requires ids { All (Holds store.now) ids.now }
    requires cleared { AreClear (map (name_of types.now) predicates.now) types.now store.now cleared.old }
    ensures first { IfOk result (λ found. option_map (name_of types.now) found
        ≡ first_of (map (name_of types.now) predicates.now)
        (constants_of_all (part_of first) (part_of others) (terms_of (map (tree_of types.now store.now) ids.now)))) }
    ensures held { IfOk result (λ found. IfSome found (HoldsConstant types.now)) }
    ensures cleared { OnOk result (AreClear (map (name_of types.now) predicates.now) types.now store.now cleared.new) }
{
    let mut part = first;
    for id in ids {
        if let Some(found) = first_in(types, store, predicates, cleared, part, *id)? {
            return Ok(Some(found));
        }
        part = others;
    }
    Ok(None)
}

/// The head, where it is one of the predicates and is asked for.
fn own_constant(
    types: &TypeTable,
    predicates: &[ConstId],
    part: Part,
    head: Head,
) -> Option<ConstId>
    requires predicates { All (HoldsConstant types.now) predicates.now }
    requires head { HeadIsTyped types.now head }
    ensures reads { (cells : List CellEntry) → option_map (name_of types.now) result
        ≡ first_of (map (name_of types.now) predicates.now) (own_constant (part_of part) (head_in types.now cells head)) }
    ensures held { IfSome result (HoldsConstant types.now) }
{
    match part {
        Part::LeftOfArrows => None,
        Part::Everywhere => match head {
            Head::Const(constant) => {
                if is_predicate(types, predicates, constant) {
                    Some(constant)
                } else {
                    None
                }
            }
            _ => None,
        },
    }
}

/// Whether the constant is one of the predicates.
pub fn is_predicate(types: &TypeTable, predicates: &[ConstId], constant: ConstId) -> bool
    requires predicates { All (HoldsConstant types.now) predicates.now }
    requires constant { HoldsConstant types.now constant }
    ensures { result ≡ list_any (bytes_eq (name_of types.now constant)) (map (name_of types.now) predicates.now) }
{
    has_unique_ids(types);
    predicates.contains(&constant)
}

/// What is asked of the first term that the head is given.
fn part_of_first(part: Part, head: Head) -> Part
    ensures { (types : Table) (cells : List CellEntry) → part_of result ≡ part_of_first (part_of part) (head_in types cells head) }
{
    match head {
        Head::Logic(Logical::Arrow) => Part::Everywhere,
        _ => part,
    }
}
