//! The marks that the atoms of a body get.
ghost use Rattle.std.specs.Prelude.{◌≡◌, map, IfOk, All, List, bytes_eq};
ghost use Rattle.std.specs.List.{list_any};
ghost use Rattle.ab_term.specs.Terms.{spine, terms_of};
ghost use Rattle.ab_norm.specs.ab_types.specs.Entries.{Table};
ghost use Rattle.ab_norm.specs.ab_types.specs.Ids.{HoldsConstant};
ghost use Rattle.ab_norm.specs.ab_store.specs.Trees.{Holds, tree_of, head_in, head_reading};
ghost use Rattle.ab_norm.specs.ab_store.specs.declared.node.CellEntry.{CellEntry};
ghost use Rattle.ab_norm.specs.ab_store.specs.Naming.{IsTypedBy, HoldsHead, HeadIsTyped};
ghost use Rattle.ab_norm.specs.NodeGrowth.{AddsTerms, AddsTypedTerms};
ghost use Rattle.ab_logic.specs.Forms.{sign_of};
ghost use Rattle.ab_formulas.specs.BodyMarks.{is_one_of, with_mark, marked_in, all_marked_in};
ghost use Rattle.ab_sequents.specs.HeadMarks.{names_of};

use crate::head_marks::{Making, making_of};
use ab_logic::Sign;
use ab_norm::name::Name;
use ab_norm::store::{Head, Logical, Node, Store, TermId};
use ab_norm::types::{ConstId, TypeTable};
use std::alloc::{AllocError, Global};

/// Whether the name is that of one of the predicates.
fn is_named(types: &TypeTable, name: &Name, predicates: &[ConstId]) -> bool
    requires { All (HoldsConstant types.now) predicates.now }
    ensures { result ≡ list_any (bytes_eq name.now) (names_of types.now predicates.now) }
{
    match predicates {
        [] => false,
        [first, others @ ..] => {
            *name == *types.const_name(*first) || is_named(types, name, others)
        }
    }
}

/// Whether the head is one of the predicates.
fn is_predicate(types: &TypeTable, head: Head, predicates: &[ConstId]) -> bool
    requires head { HeadIsTyped types.now head }
    requires predicates { All (HoldsConstant types.now) predicates.now }
    ensures { (cells : List CellEntry) → result ≡ is_one_of (names_of types.now predicates.now) (head_in types.now cells head) }
{
    match head {
        Head::Const(constant) => is_named(types, types.const_name(constant), predicates),
        _ => false,
    }
}

/// The formula with the mark.
pub fn mark_formula(
    alloc: Global,
    store: &mut Store,
    sign: Sign,
    formula: TermId,
) -> Result<TermId, AllocError>
    requires formula { Holds store.old formula }
    ensures held { IfOk result (λ r. Holds store.new r) }
    ensures reads { IfOk result (λ r. (types : Table) → tree_of types store.new r ≡ with_mark (sign_of sign) (tree_of types store.old formula)) }
    ensures adds { AddsTerms store.old store.new }
{
    let mark = match sign {
        Sign::Plain => return Ok(formula),
        Sign::Star(level) => Logical::Star(level),
        Sign::At(level) => Logical::At(level),
        Sign::Plus(level) => Logical::Plus(level),
        Sign::Hash(level) => Logical::Hash(level),
    };
    store.spine(Head::Logic(mark), Vec::from_array(alloc, [formula])?)
}

/// The formula, in which the atoms of the predicates have the mark.
pub fn mark_atoms(
    alloc: Global,
    types: &TypeTable,
    store: &mut Store,
    predicates: &[ConstId],
    sign: Sign,
    formula: TermId,
) -> Result<TermId, AllocError>
    requires store { IsTypedBy types.now store.old }
    requires predicates { All (HoldsConstant types.now) predicates.now }
    requires formula { Holds store.old formula }
    ensures held { IfOk result (λ r. Holds store.new r) }
    ensures reads { IfOk result (λ r. tree_of types.now store.new r
        ≡ marked_in (names_of types.now predicates.now) (sign_of sign) (tree_of types.now store.old formula)) }
    ensures adds { AddsTypedTerms types.now store.old store.new }
{
    match sign {
        Sign::Plain => Ok(formula),
        _ => mark(alloc, types, store, predicates, sign, formula),
    }
}

/// The term, in which the atoms of the predicates have the mark.
#[cycle(marking)]
fn mark(
    alloc: Global,
    types: &TypeTable,
    store: &mut Store,
    predicates: &[ConstId],
    sign: Sign,
    id: TermId,
) -> Result<TermId, AllocError>
    requires store { IsTypedBy types.now store.old }
    requires predicates { All (HoldsConstant types.now) predicates.now }
    requires id { Holds store.old id }
    ensures held { IfOk result (λ r. Holds store.new r) }
    ensures reads { IfOk result (λ r. tree_of types.now store.new r
        ≡ marked_in (names_of types.now predicates.now) (sign_of sign) (tree_of types.now store.old id)) }
    ensures adds { AddsTypedTerms types.now store.old store.new }
{
    match store.view(id).copy(alloc)? {
        Node::Lam(ty, hint, body) => {
            let inner = mark(alloc, types, store, predicates, sign, body)?;
            store.lam(ty, hint, inner)
        }
        Node::Spine(head, args) => match making_of(head) {
            Making::ByHead => {
                if is_predicate(types, head, predicates) {
                    mark_formula(alloc, store, sign, id)
                } else {
                    Ok(id)
                }
            }
            Making::ByMark(_) => Ok(id),
            Making::ByScope => {
                mark_spine(alloc, types, store, predicates, sign, head, args.as_slice())
            }
            Making::ByParts => {
                mark_spine(alloc, types, store, predicates, sign, head, args.as_slice())
            }
        },
    }
}

/// The head, given the terms in which the atoms of the predicates have the mark.
#[cycle(marking)]
fn mark_spine(
    alloc: Global,
    types: &TypeTable,
    store: &mut Store,
    predicates: &[ConstId],
    sign: Sign,
    head: Head,
    args: &[TermId],
) -> Result<TermId, AllocError>
    requires store { IsTypedBy types.now store.old }
    requires predicates { All (HoldsConstant types.now) predicates.now }
    requires head { HoldsHead store.old head }
    requires typed { HeadIsTyped types.now head }
    requires args { All (Holds store.old) args.now }
    ensures held { IfOk result (λ r. Holds store.new r) }
    ensures reads { IfOk result (λ r. tree_of types.now store.new r ≡ spine (head_reading types.now store.old head)
        (all_marked_in (names_of types.now predicates.now) (sign_of sign) (terms_of (map (tree_of types.now store.old) args.now)))) }
    ensures adds { AddsTypedTerms types.now store.old store.new }
{
    let given = mark_all(alloc, types, store, predicates, sign, args)?;
    store.spine(head, given)
}

/// The terms, in which the atoms of the predicates have the mark.
#[cycle(marking)]
fn mark_all(
    alloc: Global,
    types: &TypeTable,
    store: &mut Store,
    predicates: &[ConstId],
    sign: Sign,
    ids: &[TermId],
) -> Result<Vec<TermId>, AllocError>
    requires store { IsTypedBy types.now store.old }
    requires predicates { All (HoldsConstant types.now) predicates.now }
    requires ids { All (Holds store.old) ids.now }
    ensures held { IfOk result (λ rs. All (Holds store.new) rs.items) }
    ensures reads { IfOk result (λ rs. map (tree_of types.now store.new) rs.items
        ≡ map (λ t. marked_in (names_of types.now predicates.now) (sign_of sign) (tree_of types.now store.old t)) ids.now) }
    ensures adds { AddsTypedTerms types.now store.old store.new }
{
    let mut made = Vec::new(alloc);
    for id in ids {
        made.push(mark(alloc, types, store, predicates, sign, *id)?)?;
    }
    Ok(made)
}
