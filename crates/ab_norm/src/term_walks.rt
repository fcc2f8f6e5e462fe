//! The walk that makes terms: the same for raising, for hereditary substitution and for renaming, but for what
//! becomes of a head. Each node is visited once at each number of binders that matters.
ghost use Rattle.std.specs.Prelude.{◌≡◌, ◌+◌, ◌≤◌, true, map, IfOk, OnOk, All};
ghost use Rattle.ab_term.specs.Terms.{lam, spine, terms_of, Read};
ghost use Rattle.ab_term.specs.Substitution as tree;
ghost use Rattle.ab_term.specs.Reach.{raise as raised};
ghost use Rattle.ab_store.specs.ab_types.specs.Entries.{Table};
ghost use Rattle.ab_store.specs.ab_types.specs.Ids.{HoldsType, type_of};
ghost use Rattle.ab_store.specs.ab_types.specs.Sound.{IsTable};
ghost use Rattle.ab_store.specs.Trees.{Contents, Holds, tree_of, head_reading};
ghost use Rattle.ab_store.specs.Naming.{HoldsHead, HeadIsTyped, IsTypedBy};
ghost use Rattle.ab_store.specs.Growth.{IsExtendedBy};
ghost use Rattle.ab_store.specs.declared.node.Node.TheVariants.{Spine};
ghost use Rattle.ab_norm.specs.NodeGrowth.{AddsTerms};
ghost use Rattle.ab_norm.specs.Changes.{changed, head_changed, Fits, Suits, Remembers, AddsFor};

use crate::equality::{is_same_head, is_same_term};
use crate::indices::{lower_head, next, raise_head};
use crate::memo::Memo;
use crate::nominal::Swaps;
use crate::permutations::rename_head;
use ab_store::name::Name;
use ab_store::types::{Steps, TypeId, TypeTable, TypeView};
use ab_store::{Head, Node, Store, TermId};
use std::alloc::{AllocError, Global};

/// What a walk does to a term.
#[derive(Drop)]
pub(crate) enum Change {
    /// That many binders are put in.
    Raise(usize),
    /// A term, of the type, is put in for a bound name.
    Put(TypeId, TermId),
    /// Nominal constants become what the pairs make of them.
    Rename(Swaps),
}

/// The number of binders under one more: it stays where the change doesn't look at it.
fn deeper(change: &Change, depth: usize) -> Result<usize, AllocError>
    ensures { IfOk result (λ k. (types : Table) (store : Contents) (t : Read) →
        changed types store change.now k t ≡ changed types store change.now (depth + 1) t) }
{
    match change {
        Change::Raise(_) | Change::Put(_, _) => next(depth),
        Change::Rename(_) => Ok(depth),
    }
}

/// Whether the change is known to leave the term as it is.
fn stays(store: &Store, change: &Change, depth: usize, id: TermId) -> bool
    requires { Holds store.now id }
    ensures { (types : Table) → result ≡ true → changed types store.now change.now depth (tree_of types store.now id) ≡ tree_of types store.now id }
{
    match change {
        Change::Raise(by) => {
            if *by == 0 {
                true
            } else {
                store.reach(id) <= depth
            }
        }
        Change::Put(_, _) => store.reach(id) <= depth,
        Change::Rename(_) => !store.has_nominals(id),
    }
}

/// The abstraction with the new body: the term itself, where that is the old one.
pub(crate) fn lam_again(
    store: &mut Store,
    id: TermId,
    ty: TypeId,
    hint: Name,
    body: TermId,
    inner: TermId,
) -> Result<TermId, AllocError>
    requires id { Holds store.old id }
    requires inner { Holds store.old inner }
    requires reads { (types : Table) → tree_of types store.old id ≡ lam (type_of types ty) hint (tree_of types store.old body) }
    ensures held { IfOk result (λ t. Holds store.new t) }
    ensures reads { IfOk result (λ t. (types : Table) →
        tree_of types store.new t ≡ lam (type_of types ty) hint (tree_of types store.old inner)) }
    ensures typed { (types : Table) → IsTypedBy types store.old → HoldsType types ty → IsTypedBy types store.new }
    ensures before { IsExtendedBy store.old store.new }
    ensures cells { store.new.cells ≡ store.old.cells }
{
    if is_same_term(body, inner) {
        Ok(id)
    } else {
        store.lam(ty, hint, inner)
    }
}

fn are_same_terms(these: &[TermId], those: &[TermId]) -> bool
    ensures { result ≡ true → these.now ≡ those.now }
{
    these == those
}

/// Whether the node is the head with the arguments.
fn is_spine(node: &Node, head: Head, args: &[TermId]) -> bool
    ensures { result ≡ true → node.now ≡ Spine head args.now }
{
    match node {
        Node::Lam(_, _, _) => false,
        Node::Spine(other, more) => {
            if is_same_head(*other, head) {
                are_same_terms(more.as_slice(), args)
            } else {
                false
            }
        }
    }
}

/// The head with the arguments: the term itself, where it is that.
pub(crate) fn spine_again(
    store: &mut Store,
    id: TermId,
    head: Head,
    args: Vec<TermId>,
) -> Result<TermId, AllocError>
    requires id { Holds store.old id }
    requires head { HoldsHead store.old head }
    requires args { All (Holds store.old) args.items }
    ensures held { IfOk result (λ t. Holds store.new t) }
    ensures reads { IfOk result (λ t. (types : Table) →
        tree_of types store.new t
        ≡ spine (head_reading types store.old head) (terms_of (map (tree_of types store.old) args.items))) }
    ensures typed { (types : Table) → IsTypedBy types store.old → HeadIsTyped types head → IsTypedBy types store.new }
    ensures before { IsExtendedBy store.old store.new }
    ensures cells { store.new.cells ≡ store.old.cells }
{
    if is_spine(store.view(id), head, &args) {
        Ok(id)
    } else {
        store.spine(head, args)
    }
}

/// The term, changed.
#[cycle(walked)]
pub(crate) fn walk<L>(
    alloc: Global,
    types: &TypeTable,
    store: &mut Store,
    change: &Change,
    depth: usize,
    id: TermId,
    memo: &mut Memo,
    steps: &mut Steps<L>,
) -> Result<TermId, AllocError>
    requires types { IsTable types.now }
    requires store { IsTypedBy types.now store.old }
    requires fits { Fits types.now store.old change.now }
    requires suits { Suits types.now change.now }
    requires id { Holds store.old id }
    requires memo { Remembers types.now store.old change.now memo.old }
    ensures adds { AddsFor change.now store.old store.new }
    ensures held { IfOk result (λ r. Holds store.new r) }
    ensures reads { IfOk result (λ r.
        tree_of types.now store.new r ≡ changed types.now store.old change.now depth (tree_of types.now store.old id)) }
    ensures memo { OnOk result (Remembers types.now store.new change.now memo.new) }
    ensures steps { steps.old ≤ steps.new }
{
    steps.tick();
    if stays(store, change, depth, id) {
        return Ok(id);
    }
    match memo.answer(id, depth) {
        Some(answer) => Ok(answer),
        None => {
            let made = remake(alloc, types, store, change, depth, id, memo, steps)?;
            memo.keep(id, depth, made)?;
            Ok(made)
        }
    }
}

/// The term, changed, where it isn't known yet.
#[cycle(walked)]
fn remake<L>(
    alloc: Global,
    types: &TypeTable,
    store: &mut Store,
    change: &Change,
    depth: usize,
    id: TermId,
    memo: &mut Memo,
    steps: &mut Steps<L>,
) -> Result<TermId, AllocError>
    requires types { IsTable types.now }
    requires store { IsTypedBy types.now store.old }
    requires fits { Fits types.now store.old change.now }
    requires suits { Suits types.now change.now }
    requires id { Holds store.old id }
    requires memo { Remembers types.now store.old change.now memo.old }
    ensures adds { AddsFor change.now store.old store.new }
    ensures held { IfOk result (λ r. Holds store.new r) }
    ensures reads { IfOk result (λ r.
        tree_of types.now store.new r ≡ changed types.now store.old change.now depth (tree_of types.now store.old id)) }
    ensures memo { OnOk result (Remembers types.now store.new change.now memo.new) }
    ensures steps { steps.old ≤ steps.new }
{
    match store.view(id).copy(alloc)? {
        Node::Lam(ty, hint, body) => {
            let below = deeper(change, depth)?;
            let inner = walk(alloc, types, store, change, below, body, memo, steps)?;
            lam_again(store, id, ty, hint, body, inner)
        }
        Node::Spine(head, args) => {
            let given = walk_all(
                alloc,
                types,
                store,
                change,
                depth,
                args.as_slice(),
                memo,
                steps,
            )?;
            walk_head(alloc, types, store, change, depth, id, head, given, steps)
        }
    }
}

/// The terms, changed.
#[cycle(walked)]
fn walk_all<L>(
    alloc: Global,
    types: &TypeTable,
    store: &mut Store,
    change: &Change,
    depth: usize,
    ids: &[TermId],
    memo: &mut Memo,
    steps: &mut Steps<L>,
) -> Result<Vec<TermId>, AllocError>
    requires types { IsTable types.now }
    requires store { IsTypedBy types.now store.old }
    requires fits { Fits types.now store.old change.now }
    requires suits { Suits types.now change.now }
    requires ids { All (Holds store.old) ids.now }
    requires memo { Remembers types.now store.old change.now memo.old }
    ensures adds { AddsFor change.now store.old store.new }
    ensures held { IfOk result (λ rs. All (Holds store.new) rs.items) }
    ensures reads { IfOk result (λ rs.
        map (tree_of types.now store.new) rs.items
        ≡ map (λ t. changed types.now store.old change.now depth (tree_of types.now store.old t)) ids.now) }
    ensures memo { OnOk result (Remembers types.now store.new change.now memo.new) }
    ensures steps { steps.old ≤ steps.new }
{
    let mut made = Vec::new(alloc);
    for id in ids {
        made.push(walk(alloc, types, store, change, depth, *id, memo, steps)?)?;
    }
    Ok(made)
}

/// The head of the term, changed, with arguments that are changed already.
#[cycle(walked)]
fn walk_head<L>(
    alloc: Global,
    types: &TypeTable,
    store: &mut Store,
    change: &Change,
    depth: usize,
    id: TermId,
    head: Head,
    args: Vec<TermId>,
    steps: &mut Steps<L>,
) -> Result<TermId, AllocError>
    requires types { IsTable types.now }
    requires store { IsTypedBy types.now store.old }
    requires fits { Fits types.now store.old change.now }
    requires suits { Suits types.now change.now }
    requires id { Holds store.old id }
    requires head { HoldsHead store.old head }
    requires typed_head { HeadIsTyped types.now head }
    requires args { All (Holds store.old) args.items }
    ensures before { IsExtendedBy store.old store.new }
    ensures cells { store.new.cells ≡ store.old.cells }
    ensures typed { (t : Table) → Suits t change.now → IsTypedBy t store.old → HeadIsTyped t head → IsTypedBy t store.new }
    ensures held { IfOk result (λ r. Holds store.new r) }
    ensures reads { IfOk result (λ r.
        tree_of types.now store.new r
        ≡ head_changed types.now store.old change.now depth (head_reading types.now store.old head) (terms_of (map (tree_of types.now store.old) args.items))) }
    ensures steps { steps.old ≤ steps.new }
{
    match change {
        Change::Raise(by) => spine_again(store, id, raise_head(*by, depth, head)?, args),
        Change::Rename(pairs) => {
            spine_again(store, id, rename_head(head, pairs.as_slice()), args)
        }
        Change::Put(ty, term) => match lower_head(depth, head) {
            Some(lower) => spine_again(store, id, lower, args),
            None => {
                let lifted = lift(alloc, types, store, depth, *term, steps)?;
                reduce(alloc, types, store, *ty, lifted, &args, steps)
            }
        },
    }
}

/// The term, where so many binders are put in around it.
#[cycle(walked)]
pub(crate) fn lift<L>(
    alloc: Global,
    types: &TypeTable,
    store: &mut Store,
    by: usize,
    term: TermId,
    steps: &mut Steps<L>,
) -> Result<TermId, AllocError>
    requires types { IsTable types.now }
    requires store { IsTypedBy types.now store.old }
    requires term { Holds store.old term }
    ensures adds { AddsTerms store.old store.new }
    ensures held { IfOk result (λ r. Holds store.new r) }
    ensures reads { IfOk result (λ r. tree_of types.now store.new r ≡ raised by 0 (tree_of types.now store.old term)) }
    ensures steps { steps.old ≤ steps.new }
{
    let mut memo = Memo::new(alloc);
    walk(
        alloc,
        types,
        store,
        &Change::Raise(by),
        0,
        term,
        &mut memo,
        steps,
    )
}

/// The terms, where so many binders are put in around them.
pub(crate) fn lift_all<L>(
    alloc: Global,
    types: &TypeTable,
    store: &mut Store,
    by: usize,
    terms: &[TermId],
    steps: &mut Steps<L>,
) -> Result<Vec<TermId>, AllocError>
    requires types { IsTable types.now }
    requires store { IsTypedBy types.now store.old }
    requires terms { All (Holds store.old) terms.now }
    ensures adds { AddsTerms store.old store.new }
    ensures held { IfOk result (λ rs. All (Holds store.new) rs.items) }
    ensures reads { IfOk result (λ rs.
        map (tree_of types.now store.new) rs.items ≡ map (λ t. raised by 0 (tree_of types.now store.old t)) terms.now) }
    ensures steps { steps.old ≤ steps.new }
{
    let mut lifted = Vec::new(alloc);
    for term in terms {
        lifted.push(lift(alloc, types, store, by, *term, steps)?)?;
    }
    Ok(lifted)
}

/// The term, of the type, given the arguments.
#[cycle(walked)]
pub(crate) fn reduce<L>(
    alloc: Global,
    types: &TypeTable,
    store: &mut Store,
    ty: TypeId,
    term: TermId,
    args: &[TermId],
    steps: &mut Steps<L>,
) -> Result<TermId, AllocError>
    requires types { IsTable types.now }
    requires store { IsTypedBy types.now store.old }
    requires ty { HoldsType types.now ty }
    requires term { Holds store.old term }
    requires args { All (Holds store.old) args.now }
    ensures adds { AddsTerms store.old store.new }
    ensures held { IfOk result (λ r. Holds store.new r) }
    ensures reads { IfOk result (λ r.
        tree_of types.now store.new r
        ≡ tree.reduce (type_of types.now ty) (tree_of types.now store.old term) (terms_of (map (tree_of types.now store.old) args.now))) }
    ensures steps { steps.old ≤ steps.new }
{
    match types.view(ty) {
        TypeView::Base(_) => Ok(term),
        TypeView::Arrow(from, to) => match store.view(term) {
            Node::Spine(_, _) => Ok(term),
            Node::Lam(_, _, body) => match args {
                [] => Ok(term),
                [first, rest @ ..] => {
                    let put = Change::Put(from, *first);
                    let body = *body;
                    let applied = walk(
                        alloc,
                        types,
                        store,
                        &put,
                        0,
                        body,
                        &mut Memo::new(alloc),
                        steps,
                    )?;
                    reduce(alloc, types, store, to, applied, rest, steps)
                }
            },
        },
    }
}
