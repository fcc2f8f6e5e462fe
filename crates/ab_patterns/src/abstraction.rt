//! Names that become bound.
ghost use Rattle.std.specs.Prelude.{◌≡◌, ◌≢◌, ◌+◌, ◌-◌, ◌<◌, ⊤, ℕ, length, get_or, drop, map, All, IfOk, IfSome, OnOk, MatchOption, codes};
ghost use Rattle.ab_term.specs.Substitution as tree;
ghost use Rattle.ab_norm.specs.ab_types.specs.Entries.{Table};
ghost use Rattle.ab_norm.specs.ab_types.specs.Ids.{HoldsType, type_of};
ghost use Rattle.ab_norm.specs.ab_store.specs.Trees.{Contents, Holds, tree_of, head_reading};
ghost use Rattle.ab_norm.specs.ab_store.specs.Naming.{HoldsHead, HeadIsTyped, IsTypedBy};
ghost use Rattle.ab_norm.specs.NodeGrowth.{AddsTerms, AddsTypedTerms};
ghost use Rattle.ab_norm.specs.ab_store.specs.declared.node.Head.{Head as AHead};
ghost use Rattle.ab_norm.specs.ab_store.specs.declared.node.Head.TheVariants.{Index};
ghost use Rattle.ab_term.specs.Abstraction as closing;
ghost use Rattle.ab_patterns.specs.Abstraction.{IsToldApart, AreToldApart, KeepsTerms, Remembers, sunk, close_names, close_head_names};

use crate::rigid_rules::is_same_head;
use ab_norm::Memo;
use ab_norm::name::Name;
use ab_norm::store::{Head, Node, Store, TermId};
use ab_norm::types::{TypeId, TypeTable, TypeView};
use std::alloc::{AllocError, Global};

/// The sum of the numbers. More than there are numbers is want of memory.
pub(crate) fn sum(a: usize, b: usize) -> Result<usize, AllocError>
    ensures { IfOk result (λ n. n ≡ a + b) }
{
    match a.checked_add(b) {
        Some(n) => Ok(n),
        None => Err(AllocError),
    }
}

/// The number, with one more.
pub(crate) fn next(binders: usize) -> Result<usize, AllocError>
    ensures { IfOk result (λ n. n ≡ binders + 1) }
{
    sum(binders, 1)
}

/// An index, where a binder is put in at `at`.
fn shift_index(at: usize, index: usize) -> Result<usize, AllocError>
    ensures { IfOk result (λ n. n ≡ tree.shift_index at index) }
{
    if index < at { Ok(index) } else { next(index) }
}

/// A head, where a binder is put in at `at`.
pub fn shift_head(at: usize, head: Head) -> Result<Head, AllocError>
    ensures reads { IfOk result (λ h. (types : Table) (store : Contents) →
        head_reading types store h ≡ tree.shift_head at (head_reading types store head)) }
    ensures held { IfOk result (λ h. (store : Contents) → HoldsHead store head → HoldsHead store h) }
    ensures typed { IfOk result (λ h. (types : Table) → HeadIsTyped types head → HeadIsTyped types h) }
{
    match head {
        Head::Index(index) => Ok(Head::Index(shift_index(at, index)?)),
        Head::Const(_) | Head::Logic(_) | Head::Nominal(_, _) | Head::Cell(_) => Ok(head),
    }
}

/// The head, as it is called under so many binders.
fn sink(depth: usize, head: Head) -> Result<Head, AllocError>
    ensures reads { IfOk result (λ h. (types : Table) (store : Contents) →
        head_reading types store h ≡ sunk depth (head_reading types store head)) }
    ensures held { IfOk result (λ h. (store : Contents) → HoldsHead store head → HoldsHead store h) }
    ensures typed { IfOk result (λ h. (types : Table) → HeadIsTyped types head → HeadIsTyped types h) }
{
    match head {
        Head::Index(index) => Ok(Head::Index(sum(index, depth)?)),
        Head::Const(_) | Head::Logic(_) | Head::Nominal(_, _) | Head::Cell(_) => Ok(head),
    }
}

/// The head of a term under so many binders, as it is called outside of them: `None` for a name of one of these.
fn outside(depth: usize, head: Head) -> Option<Head>
    ensures inner { MatchOption result ((i : ℕ) × (i < depth) × (head ≡ Index i)) (λ h. ⊤) }
    ensures reads { IfSome result (λ h. (types : Table) (store : Contents) →
        head_reading types store head ≡ sunk depth (head_reading types store h)) }
    ensures told { IfSome result (λ h. (types : Table) (name : AHead) → AreToldApart types name head → AreToldApart types name h) }
    ensures held { IfSome result (λ h. (store : Contents) → HoldsHead store head → HoldsHead store h) }
    ensures typed { IfSome result (λ h. (types : Table) → HeadIsTyped types head → HeadIsTyped types h) }
{
    match head {
        Head::Index(index) => {
            if index < depth {
                None
            } else {
                Some(Head::Index(index - depth))
            }
        }
        Head::Const(_) | Head::Logic(_) | Head::Nominal(_, _) | Head::Cell(_) => Some(head),
    }
}

/// How many names stand behind the last one of the list that is this one.
fn behind(names: &[Head], name: Head) -> Option<usize>
    ensures { MatchOption result
        (All (λ h. h ≢ name) names.now)
        (λ n. (n < length names.now) × (All (λ h. h ≢ name) (drop (length names.now - n) names.now))
        × ((d : AHead) → get_or names.now (length names.now - 1 - n) d ≡ name)) }
{
    let count = names.len();
    for done in 0..count {
        if is_same_head(names[count - 1 - done], name) {
            return Some(done);
        }
    }
    None
}

/// The head under a binder for each of the names, behind `at` binders more.
fn close_head(names: &[Head], at: usize, head: Head) -> Result<Head, AllocError>
    ensures reads { IfOk result (λ h. (types : Table) (store : Contents) → All (λ name. AreToldApart types name head) names.now →
        head_reading types store h ≡ close_head_names at (map (head_reading types store) names.now) (head_reading types store head)) }
    ensures held { IfOk result (λ h. (store : Contents) → HoldsHead store head → HoldsHead store h) }
    ensures typed { IfOk result (λ h. (types : Table) → HeadIsTyped types head → HeadIsTyped types h) }
{
    match outside(at, head) {
        None => Ok(head),
        Some(outer) => match behind(names, outer) {
            Some(place) => Ok(Head::Index(sum(at, place)?)),
            None => sink(sum(at, names.len())?, outer),
        },
    }
}

/// The term under one binder more for each of the names, the first outermost: a cell, a nominal constant or a bound name.
/// It is walked through once for all names, and a part that is shared once at each number of binders.
pub fn close_names(
    alloc: Global,
    store: &mut Store,
    names: &[Head],
    term: TermId,
) -> Result<TermId, AllocError>
    requires { Holds store.old term }
    ensures adds { AddsTerms store.old store.new }
    ensures held { IfOk result (λ r. Holds store.new r) }
    ensures reads { IfOk result (λ r. (types : Table) → All (IsToldApart types store.old) names.now →
        tree_of types store.new r ≡ close_names 0 (map (head_reading types store.old) names.now) (tree_of types store.old term)) }
{
    let mut memo = Memo::new(alloc);
    close_at(alloc, store, 0, names, term, &mut memo)
}

/// The term under one binder more, whose name is `name`: a cell, a nominal constant or a bound name.
pub fn close(
    alloc: Global,
    store: &mut Store,
    name: Head,
    term: TermId,
) -> Result<TermId, AllocError>
    requires { Holds store.old term }
    ensures adds { AddsTerms store.old store.new }
    ensures held { IfOk result (λ r. Holds store.new r) }
    ensures reads { IfOk result (λ r. (types : Table) → IsToldApart types store.old name →
        tree_of types store.new r ≡ closing.close 0 (head_reading types store.old name) (tree_of types store.old term)) }
{
    close_names(alloc, store, &[name], term)
}

/// A term, behind `at` binders more.
#[cycle(closed)]
fn close_at(
    alloc: Global,
    store: &mut Store,
    at: usize,
    names: &[Head],
    term: TermId,
    memo: &mut Memo,
) -> Result<TermId, AllocError>
    requires term { Holds store.old term }
    requires memo { KeepsTerms store.old memo.old }
    ensures adds { AddsTerms store.old store.new }
    ensures held { IfOk result (λ r. Holds store.new r) }
    ensures kept { OnOk result (KeepsTerms store.new memo.new) }
    ensures reads { IfOk result (λ r. (types : Table) → All (IsToldApart types store.old) names.now → Remembers types store.old names.now memo.old →
        tree_of types store.new r ≡ close_names at (map (head_reading types store.old) names.now) (tree_of types store.old term)) }
    ensures memo { OnOk result ((types : Table) → All (IsToldApart types store.old) names.now → Remembers types store.old names.now memo.old →
        Remembers types store.new names.now memo.new) }
{
    match memo.answer(term, at) {
        Some(answer) => Ok(answer),
        None => {
            let made = close_node(alloc, store, at, names, term, memo)?;
            memo.keep(term, at, made)?;
            Ok(made)
        }
    }
}

/// The same of a term that isn't known yet.
#[cycle(closed)]
fn close_node(
    alloc: Global,
    store: &mut Store,
    at: usize,
    names: &[Head],
    term: TermId,
    memo: &mut Memo,
) -> Result<TermId, AllocError>
    requires term { Holds store.old term }
    requires memo { KeepsTerms store.old memo.old }
    ensures adds { AddsTerms store.old store.new }
    ensures held { IfOk result (λ r. Holds store.new r) }
    ensures kept { OnOk result (KeepsTerms store.new memo.new) }
    ensures reads { IfOk result (λ r. (types : Table) → All (IsToldApart types store.old) names.now → Remembers types store.old names.now memo.old →
        tree_of types store.new r ≡ close_names at (map (head_reading types store.old) names.now) (tree_of types store.old term)) }
    ensures memo { OnOk result ((types : Table) → All (IsToldApart types store.old) names.now → Remembers types store.old names.now memo.old →
        Remembers types store.new names.now memo.new) }
{
    match store.view(term).copy(alloc)? {
        Node::Lam(ty, hint, body) => {
            let closed = close_at(alloc, store, next(at)?, names, body, memo)?;
            store.lam(ty, hint, closed)
        }
        Node::Spine(head, args) => {
            let closed = close_all(alloc, store, at, names, args.as_slice(), memo)?;
            store.spine(close_head(names, at, head)?, closed)
        }
    }
}

/// The same of several terms.
#[cycle(closed)]
fn close_all(
    alloc: Global,
    store: &mut Store,
    at: usize,
    names: &[Head],
    terms: &[TermId],
    memo: &mut Memo,
) -> Result<Vec<TermId>, AllocError>
    requires terms { All (Holds store.old) terms.now }
    requires memo { KeepsTerms store.old memo.old }
    ensures adds { AddsTerms store.old store.new }
    ensures held { IfOk result (λ rs. All (Holds store.new) rs.items) }
    ensures kept { OnOk result (KeepsTerms store.new memo.new) }
    ensures reads { IfOk result (λ rs. (types : Table) → All (IsToldApart types store.old) names.now → Remembers types store.old names.now memo.old →
        map (tree_of types store.new) rs.items ≡ map (λ t. close_names at (map (head_reading types store.old) names.now) (tree_of types store.old t)) terms.now) }
    ensures memo { OnOk result ((types : Table) → All (IsToldApart types store.old) names.now → Remembers types store.old names.now memo.old →
        Remembers types store.new names.now memo.new) }
{
    let mut closed = Vec::new(alloc);
    for term in terms {
        closed.push(close_at(alloc, store, at, names, *term, memo)?)?;
    }
    Ok(closed)
}

/// The term, abstracted over the names, the first outermost, as something of this type.
pub(crate) fn abstract_over(
    alloc: Global,
    types: &TypeTable,
    store: &mut Store,
    ty: TypeId,
    names: &[Head],
    term: TermId,
) -> Result<TermId, AllocError>
    requires store { IsTypedBy types.now store.old }
    requires ty { HoldsType types.now ty }
    requires names { All (HeadIsTyped types.now) names.now }
    requires term { Holds store.old term }
    ensures adds { AddsTypedTerms types.now store.old store.new }
    ensures held { IfOk result (λ r. Holds store.new r) }
    ensures reads { IfOk result (λ r. tree_of types.now store.new r ≡
        closing.abstracted (codes "x") (type_of types.now ty) (map (head_reading types.now store.old) names.now) (tree_of types.now store.old term)) }
{
    // no two ids of a table stand for one type
    let _ = types.len();
    match names {
        [] => Ok(term),
        [first, rest @ ..] => match types.view(ty) {
            TypeView::Base(_) => Ok(term),
            TypeView::Arrow(from, to) => {
                let inner = abstract_over(alloc, types, store, to, rest, term)?;
                let closed = close(alloc, store, *first, inner)?;
                store.lam(from, Name::from_text(alloc, "x")?, closed)
            }
        },
    }
}
