//! The names that the arguments of a variable are.
ghost use Rattle.std.specs.Prelude.{◌≡◌, zero, map, option_map, All, IfOk, IfSome};
ghost use Rattle.ab_term.specs.Terms.{terms_of};
ghost use Rattle.ab_term.specs.Substitution as tree;
ghost use Rattle.ab_norm.specs.ab_types.specs.Entries.{Table};
ghost use Rattle.ab_norm.specs.ab_types.specs.Sound.{IsTable};
ghost use Rattle.ab_norm.specs.ab_types.specs.Ids.{HoldsType, type_of};
ghost use Rattle.ab_norm.specs.ab_store.specs.Trees.{Contents, Holds, tree_of, head_reading};
ghost use Rattle.ab_norm.specs.ab_store.specs.Bindings.{IsResolved};
ghost use Rattle.ab_norm.specs.ab_store.specs.Naming.{HoldsHead, HeadIsTyped, IsTypedBy};
ghost use Rattle.ab_norm.specs.NodeGrowth.{AddsTypedTerms};
ghost use Rattle.ab_term.specs.Abstraction as closing;
ghost use Rattle.ab_term.specs.EtaHeads as recognising;
ghost use Rattle.ab_unifiers.specs.Patterns as solve;
ghost use Rattle.ab_patterns.specs.EquationReadings.{names_of};

use crate::equality::are_same;
use crate::rigid_rules::is_same_head;
use ab_norm::eta;
use ab_norm::store::{Head, Node, Store, TermId};
use ab_norm::types::{TypeId, TypeTable, TypeView};
use std::alloc::{AllocError, Global};

/// The head, one binder further out: `None` where it is that binder's name.
fn lower(head: Head) -> Option<Head>
    ensures reads { (types : Table) (store : Contents) →
        option_map (head_reading types store) result ≡ tree.lower_head zero (head_reading types store head) }
    ensures held { IfSome result (λ h. (store : Contents) → HoldsHead store head → HoldsHead store h) }
    ensures typed { IfSome result (λ h. (types : Table) → HeadIsTyped types head → HeadIsTyped types h) }
{
    match head {
        Head::Index(0) => None,
        Head::Index(i) => Some(Head::Index(i - 1)),
        Head::Const(_) | Head::Logic(_) | Head::Nominal(_, _) | Head::Cell(_) => Some(head),
    }
}

/// The head under the abstractions of a term, as it is called outside them.
fn inner_head(store: &Store, term: TermId) -> Option<Head>
    requires { Holds store.now term }
    ensures reads { (types : Table) →
        option_map (head_reading types store.now) result ≡ recognising.inner_head (tree_of types store.now term) }
    ensures held { IfSome result (λ h. HoldsHead store.now h) }
    ensures typed { IfSome result (λ h. (types : Table) → IsTypedBy types store.now → HeadIsTyped types h) }
{
    match store.view(term) {
        Node::Lam(_, _, body) => match inner_head(store, *body) {
            None => None,
            Some(head) => lower(head),
        },
        Node::Spine(head, _) => Some(*head),
    }
}

/// Whether the head is a nominal constant or a bound name.
fn is_name(head: Head) -> bool
    ensures { (types : Table) (store : Contents) → result ≡ closing.is_name (head_reading types store head) }
{
    match head {
        Head::Nominal(_, _) | Head::Index(_) => true,
        Head::Const(_) | Head::Logic(_) | Head::Cell(_) => false,
    }
}

/// The name that the term of this type is, up to eta.
fn name_of(
    alloc: Global,
    types: &TypeTable,
    store: &mut Store,
    ty: TypeId,
    term: TermId,
) -> Result<Option<Head>, AllocError>
    requires store { IsTypedBy types.now store.old }
    requires ty { HoldsType types.now ty }
    requires term { Holds store.old term }
    requires resolved { IsResolved store.old term }
    ensures adds { AddsTypedTerms types.now store.old store.new }
    ensures reads { IfOk result (λ o. option_map (head_reading types.now store.old) o ≡
        solve.name_of (type_of types.now ty) (tree_of types.now store.old term)) }
    ensures typed { IfOk result (λ o. IfSome o (HeadIsTyped types.now)) }
{
    match inner_head(store, term) {
        None => Ok(None),
        Some(head) => {
            if is_name(head) {
                let form = eta(alloc, types, store, head, ty)?;
                if are_same(alloc, types, store, term, form)? {
                    Ok(Some(head))
                } else {
                    Ok(None)
                }
            } else {
                Ok(None)
            }
        }
    }
}

/// Whether the head is one of these.
pub(crate) fn is_among(heads: &[Head], head: Head) -> bool
    ensures { (types : Table) (store : Contents) → IsTable types →
        All (HeadIsTyped types) heads.now → HeadIsTyped types head →
        result ≡ closing.among (map (head_reading types store) heads.now) (head_reading types store head) }
{
    for other in heads {
        if is_same_head(*other, head) {
            return true;
        }
    }
    false
}

/// The names with one more before them, where it isn't one of them.
fn new_name(
    alloc: Global,
    name: Option<Head>,
    others: Option<Vec<Head>>,
) -> Result<Option<Vec<Head>>, AllocError>
    ensures reads { IfOk result (λ o. (types : Table) (store : Contents) → IsTable types →
        IfSome name (HeadIsTyped types) → IfSome others (λ hs. All (HeadIsTyped types) hs.items) →
        names_of types store o ≡ solve.new_name (option_map (head_reading types store) name) (names_of types store others)) }
    ensures typed { IfOk result (λ o. (types : Table) →
        IfSome name (HeadIsTyped types) → IfSome others (λ hs. All (HeadIsTyped types) hs.items) →
        IfSome o (λ hs. All (HeadIsTyped types) hs.items)) }
{
    match name {
        None => Ok(None),
        Some(head) => match others {
            None => Ok(None),
            Some(heads) => {
                if is_among(&heads, head) {
                    Ok(None)
                } else {
                    let mut all = Vec::new(alloc);
                    all.push(head)?;
                    all.extend_from_slice(&heads)?;
                    Ok(Some(all))
                }
            }
        },
    }
}

/// The names that the arguments of something of this type are: pairwise different, up to eta.
pub fn pattern(
    alloc: Global,
    types: &TypeTable,
    store: &mut Store,
    ty: TypeId,
    args: &[TermId],
) -> Result<Option<Vec<Head>>, AllocError>
    requires store { IsTypedBy types.now store.old }
    requires ty { HoldsType types.now ty }
    requires args { All (Holds store.old) args.now }
    requires resolved { All (IsResolved store.old) args.now }
    ensures adds { AddsTypedTerms types.now store.old store.new }
    ensures typed { IfOk result (λ o. IfSome o (λ hs. All (HeadIsTyped types.now) hs.items)) }
    ensures reads { IfOk result (λ o. names_of types.now store.old o ≡
        solve.pattern (type_of types.now ty) (terms_of (map (tree_of types.now store.old) args.now))) }
{
    // no two ids of a table stand for one type
    let _ = types.len();
    match args {
        [] => Ok(Some(Vec::new(alloc))),
        [first, rest @ ..] => match types.view(ty) {
            TypeView::Base(_) => Ok(None),
            TypeView::Arrow(from, to) => {
                let name = name_of(alloc, types, store, from, *first)?;
                let others = pattern(alloc, types, store, to, rest)?;
                new_name(alloc, name, others)
            }
        },
    }
}
