//! Cells that become bound names, all in one walk.
ghost use Rattle.std.specs.Prelude.{◌≡◌, ◌≢◌, ◌-◌, ◌<◌, ◌↔◌, true, length, get_or, drop, map, All, IfOk, OnOk, MatchOption};
ghost use Rattle.ab_norm.specs.ab_types.specs.Entries.{Table};
ghost use Rattle.ab_norm.specs.ab_store.specs.Trees.{Contents, Holds, tree_of, head_reading};
ghost use Rattle.ab_norm.specs.ab_store.specs.Reading.{cell_variable};
ghost use Rattle.ab_norm.specs.ab_store.specs.Naming.{HoldsHead, HeadIsTyped};
ghost use Rattle.ab_norm.specs.NodeGrowth.{AddsTerms};
ghost use Rattle.ab_norm.specs.ab_store.specs.declared.node.CellId.{CellId as Id};
ghost use Rattle.ab_patterns.specs.Abstraction.{under_all, head_under_all, KeepsUnderAll};

use crate::abstraction::{next, sum};
use ab_norm::Memo;
use ab_norm::store::{CellId, Head, Node, Store, TermId};
use std::alloc::{AllocError, Global};

/// Whether the cells are one.
fn is_one(a: CellId, b: CellId) -> bool
    ensures { (result ≡ true) ↔ (a ≡ b) }
{
    a == b
}

/// How many cells stand behind the last one of the list that is this one.
fn behind(cells: &[CellId], cell: CellId) -> Option<usize>
    ensures { MatchOption result
        (All (λ c. c ≢ cell) cells.now)
        (λ n. (n < length cells.now) × (All (λ c. c ≢ cell) (drop (length cells.now - n) cells.now))
        × ((d : Id) → get_or cells.now (length cells.now - 1 - n) d ≡ cell)) }
{
    let count = cells.len();
    for done in 0..count {
        if is_one(cells[count - 1 - done], cell) {
            return Some(done);
        }
    }
    None
}

/// The head under a binder for each of the cells, behind `at` binders more.
fn close_head(cells: &[CellId], at: usize, head: Head) -> Result<Head, AllocError>
    ensures reads { IfOk result (λ h. (types : Table) (store : Contents) →
        head_reading types store h ≡ head_under_all at (map (cell_variable types store) cells.now) (head_reading types store head)) }
    ensures held { IfOk result (λ h. (store : Contents) → HoldsHead store head → HoldsHead store h) }
    ensures typed { IfOk result (λ h. (types : Table) → HeadIsTyped types head → HeadIsTyped types h) }
{
    match head {
        Head::Index(index) => {
            if index < at {
                Ok(head)
            } else {
                Ok(Head::Index(sum(index, cells.len())?))
            }
        }
        Head::Cell(cell) => match behind(cells, cell) {
            Some(place) => Ok(Head::Index(sum(at, place)?)),
            None => Ok(head),
        },
        Head::Const(_) => Ok(head),
        Head::Logic(_) => Ok(head),
        Head::Nominal(_, _) => Ok(head),
    }
}

/// The term under a binder more for each of the cells, the first outermost: the cells are the bound names. It is walked
/// through once for all cells, and a part that is shared once at each number of binders.
pub(crate) fn close_cells(
    alloc: Global,
    store: &mut Store,
    cells: &[CellId],
    term: TermId,
) -> Result<TermId, AllocError>
    requires { Holds store.old term }
    ensures adds { AddsTerms store.old store.new }
    ensures held { IfOk result (λ r. Holds store.new r) }
    ensures reads { IfOk result (λ r. (types : Table) →
        tree_of types store.new r ≡ under_all 0 (map (cell_variable types store.old) cells.now) (tree_of types store.old term)) }
{
    let mut memo = Memo::new(alloc);
    close_at(alloc, store, cells, 0, term, &mut memo)
}

/// A term, behind `at` binders more.
#[cycle(bound)]
fn close_at(
    alloc: Global,
    store: &mut Store,
    cells: &[CellId],
    at: usize,
    term: TermId,
    memo: &mut Memo,
) -> Result<TermId, AllocError>
    requires term { Holds store.old term }
    requires memo { KeepsUnderAll store.old cells.now memo.old }
    ensures adds { AddsTerms store.old store.new }
    ensures held { IfOk result (λ r. Holds store.new r) }
    ensures reads { IfOk result (λ r. (types : Table) →
        tree_of types store.new r ≡ under_all at (map (cell_variable types store.old) cells.now) (tree_of types store.old term)) }
    ensures memo { OnOk result (KeepsUnderAll store.new cells.now memo.new) }
{
    match memo.answer(term, at) {
        Some(answer) => Ok(answer),
        None => {
            let made = close_node(alloc, store, cells, at, term, memo)?;
            memo.keep(term, at, made)?;
            Ok(made)
        }
    }
}

/// The same of a term that isn't known yet.
#[cycle(bound)]
fn close_node(
    alloc: Global,
    store: &mut Store,
    cells: &[CellId],
    at: usize,
    term: TermId,
    memo: &mut Memo,
) -> Result<TermId, AllocError>
    requires term { Holds store.old term }
    requires memo { KeepsUnderAll store.old cells.now memo.old }
    ensures adds { AddsTerms store.old store.new }
    ensures held { IfOk result (λ r. Holds store.new r) }
    ensures reads { IfOk result (λ r. (types : Table) →
        tree_of types store.new r ≡ under_all at (map (cell_variable types store.old) cells.now) (tree_of types store.old term)) }
    ensures memo { OnOk result (KeepsUnderAll store.new cells.now memo.new) }
{
    match store.view(term).copy(alloc)? {
        Node::Lam(ty, hint, body) => {
            let closed = close_at(alloc, store, cells, next(at)?, body, memo)?;
            store.lam(ty, hint, closed)
        }
        Node::Spine(head, args) => {
            let closed = close_all(alloc, store, cells, at, args.as_slice(), memo)?;
            store.spine(close_head(cells, at, head)?, closed)
        }
    }
}

/// The same of several terms.
#[cycle(bound)]
fn close_all(
    alloc: Global,
    store: &mut Store,
    cells: &[CellId],
    at: usize,
    terms: &[TermId],
    memo: &mut Memo,
) -> Result<Vec<TermId>, AllocError>
    requires terms { All (Holds store.old) terms.now }
    requires memo { KeepsUnderAll store.old cells.now memo.old }
    ensures adds { AddsTerms store.old store.new }
    ensures held { IfOk result (λ rs. All (Holds store.new) rs.items) }
    ensures reads { IfOk result (λ rs. (types : Table) →
        map (tree_of types store.new) rs.items ≡ map (λ t. under_all at (map (cell_variable types store.old) cells.now) (tree_of types store.old t)) terms.now) }
    ensures memo { OnOk result (KeepsUnderAll store.new cells.now memo.new) }
{
    let mut closed = Vec::new(alloc);
    for term in terms {
        closed.push(close_at(alloc, store, cells, at, *term, memo)?)?;
    }
    Ok(closed)
}
