//! The walk that puts bindings in: the first of them, so many, in one pass. Each node is visited once for each number of
//! bindings that is asked for, and the term of a bound cell once, however often the cell stands there. Where the head
//! is a bound cell, the arguments get the bindings up to its own, as if these were put in one after another; the cell
//! gives way, and the walk goes on in what comes of it, where none of those cells stands any more.
ghost use Rattle.std.specs.Prelude.{◌≡◌, ◌≢◌, ◌↔◌, ◌+◌, ◌<◌, ◌≤◌, true, length, take, get_or, map, IfOk, OnOk, MatchOption, ⊤, All};
ghost use Rattle.ab_term.specs.Terms.{terms_of};
ghost use Rattle.ab_term.specs.Substitution as tree;
ghost use Rattle.ab_store.specs.ab_types.specs.Entries.{Table};
ghost use Rattle.ab_store.specs.ab_types.specs.Sound.{IsTable};
ghost use Rattle.ab_store.specs.declared.node.Binding.{Binding};
ghost use Rattle.ab_store.specs.declared.node.Head.TheVariants.{Cell};
ghost use Rattle.ab_store.specs.Reading.{Contents, Holds, tree_of, cell_variable};
ghost use Rattle.ab_store.specs.Bindings.{AreInOrder};
ghost use Rattle.ab_store.specs.Naming.{HoldsHead, IsTypedBy};
ghost use Rattle.ab_norm.specs.NodeGrowth.{AddsTerms};
ghost use Rattle.ab_norm.specs.ResolvedTerms.{put_first, KeepsPut, Becomes, IsTurn};

use crate::equality::is_same_head;
use crate::memo::Memo;
use crate::resolved_copies::is_free;
use crate::term_walks::{lam_again, reduce, spine_again};
use ab_store::types::{Steps, TypeTable};
use ab_store::{CellId, Head, Node, Store, TermId};
use std::alloc::{AllocError, Global};

/// Whether the head is the cell.
fn is_cell(head: Head, cell: CellId) -> bool
    ensures { (result ≡ true) ↔ (head ≡ Cell cell) }
{
    is_same_head(head, Head::Cell(cell))
}

/// The place of the binding whose cell is the head, among the first bindings, so many of them.
fn place_of(store: &Store, head: Head, count: usize) -> Option<usize>
    requires head { HoldsHead store.now head }
    requires count { count ≤ length store.now.bindings }
    ensures place { MatchOption result
        (All (λ b. head ≢ Cell b.cell) (take count store.now.bindings))
        (λ i. (i < count) × ((d : Binding) → head ≡ Cell (get_or store.now.bindings i d).cell)) }
    ensures order { AreInOrder store.now }
{
    let bindings = store.bindings();
    if is_free(store, head) {
        return None;
    }
    for i in 0..count {
        if is_cell(head, bindings[i].cell) {
            return Some(i);
        }
    }
    None
}

/// What the cell of the binding at the place is bound to, given the arguments.
fn put_binding<L>(
    alloc: Global,
    types: &TypeTable,
    store: &mut Store,
    place: usize,
    args: &[TermId],
    steps: &mut Steps<L>,
) -> Result<TermId, AllocError>
    requires types { IsTable types.now }
    requires store { IsTypedBy types.now store.old }
    requires place { place < length store.old.bindings }
    requires args { All (Holds store.old) args.now }
    ensures held { IfOk result (λ r. Holds store.new r) }
    ensures tree { IfOk result (λ r. (d : Binding) → let b = get_or store.old.bindings place d in
        tree_of types.now store.new r
        ≡ tree.reduce (cell_variable types.now store.old b.cell).type (tree_of types.now store.old b.term) (terms_of (map (tree_of types.now store.old) args.now))) }
    ensures adds { AddsTerms store.old store.new }
    ensures steps { steps.old ≤ steps.new }
{
    let bindings = store.bindings();
    let binding = bindings[place];
    let ty = store.cell_type(binding.cell);
    reduce(alloc, types, store, ty, binding.term, args, steps)
}

/// What comes of a term at its head.
#[derive(Clone, Copy)]
enum Turn {
    /// The term with the bindings put in.
    Made(TermId),
    /// The head is a bound cell that has given way, and the walk goes on in this term.
    Passed(TermId),
}

/// The term with the first bindings put in, where it takes no walk: no bound cell stands there, or the answer is kept.
fn kept_answer(store: &Store, count: usize, id: TermId, memo: &Memo) -> Option<TermId>
    requires id { Holds store.now id }
    ensures known { (types : Table) → KeepsPut types store.now memo.now → MatchOption result ⊤
        (λ r. Holds store.now r × (tree_of types store.now r ≡ put_first types store.now count (tree_of types store.now id))) }
{
    if store.has_bound_cells(id) {
        memo.answer(id, count)
    } else {
        Some(id)
    }
}

/// Keeps the answer for each of the terms, and gives it back.
fn keep_for_all(
    memo: &mut Memo,
    ids: &[TermId],
    count: usize,
    answer: TermId,
) -> Result<TermId, AllocError>
    ensures answer { IfOk result (λ r. r ≡ answer) }
    ensures memo { (types : Table) (store : Contents) → KeepsPut types store memo.old → Holds store answer →
        All (Becomes types store count (tree_of types store answer)) ids.now → KeepsPut types store memo.new }
{
    for id in ids {
        memo.keep(*id, count, answer)?;
    }
    Ok(answer)
}

/// The term with the first bindings put in, so many of them. A bound cell at the head gives way, and so on in what
/// comes of it, as long as there is one: chains of bindings may be long, so this is no recursion.
#[cycle(resolved)]
pub(crate) fn resolve<L>(
    alloc: Global,
    types: &TypeTable,
    store: &mut Store,
    count: usize,
    id: TermId,
    memo: &mut Memo,
    steps: &mut Steps<L>,
) -> Result<TermId, AllocError>
    requires types { IsTable types.now }
    requires store { IsTypedBy types.now store.old }
    requires count { count ≤ length store.old.bindings }
    requires id { Holds store.old id }
    requires memo { KeepsPut types.now store.old memo.old }
    ensures adds { AddsTerms store.old store.new }
    ensures held { IfOk result (λ r. Holds store.new r) }
    ensures tree { IfOk result (λ r.
        tree_of types.now store.new r ≡ put_first types.now store.old count (tree_of types.now store.old id)) }
    ensures memo { OnOk result (KeepsPut types.now store.new memo.new) }
    ensures steps { steps.old ≤ steps.new }
{
    let mut passed = Vec::new(alloc);
    let mut here = id;
    'heads: loop {
        steps.tick();
        if let Some(answer) = kept_answer(store, count, here, memo) {
            return keep_for_all(memo, &passed, count, answer);
        }
        match resolve_node(alloc, types, store, count, here, memo, steps)? {
            Turn::Made(made) => {
                memo.keep(here, count, made)?;
                return keep_for_all(memo, &passed, count, made);
            }
            Turn::Passed(next) => {
                passed.push(here)?;
                here = next;
            }
        }
    }
}

/// The term with the first bindings put in, unless its head is one of their cells: then what comes of that.
#[cycle(resolved)]
fn resolve_node<L>(
    alloc: Global,
    types: &TypeTable,
    store: &mut Store,
    count: usize,
    id: TermId,
    memo: &mut Memo,
    steps: &mut Steps<L>,
) -> Result<Turn, AllocError>
    requires types { IsTable types.now }
    requires store { IsTypedBy types.now store.old }
    requires count { count ≤ length store.old.bindings }
    requires id { Holds store.old id }
    requires memo { KeepsPut types.now store.old memo.old }
    ensures adds { AddsTerms store.old store.new }
    ensures turn { IfOk result (IsTurn types.now store.old store.new count id) }
    ensures memo { OnOk result (KeepsPut types.now store.new memo.new) }
    ensures steps { steps.old ≤ steps.new }
{
    match store.view(id).copy(alloc)? {
        Node::Lam(ty, hint, body) => {
            let inner = resolve(alloc, types, store, count, body, memo, steps)?;
            Ok(Turn::Made(lam_again(store, id, ty, hint, body, inner)?))
        }
        Node::Spine(head, args) => match place_of(store, head, count) {
            None => {
                let given = resolve_all(alloc, types, store, count, args.as_slice(), memo, steps)?;
                Ok(Turn::Made(spine_again(store, id, head, given)?))
            }
            Some(place) => {
                let own = place + 1;
                let given = resolve_all(alloc, types, store, own, args.as_slice(), memo, steps)?;
                let next = put_binding(alloc, types, store, place, &given, steps)?;
                Ok(Turn::Passed(next))
            }
        },
    }
}

/// The terms with the first bindings put in, so many of them.
#[cycle(resolved)]
fn resolve_all<L>(
    alloc: Global,
    types: &TypeTable,
    store: &mut Store,
    count: usize,
    ids: &[TermId],
    memo: &mut Memo,
    steps: &mut Steps<L>,
) -> Result<Vec<TermId>, AllocError>
    requires types { IsTable types.now }
    requires store { IsTypedBy types.now store.old }
    requires count { count ≤ length store.old.bindings }
    requires ids { All (Holds store.old) ids.now }
    requires memo { KeepsPut types.now store.old memo.old }
    ensures adds { AddsTerms store.old store.new }
    ensures held { IfOk result (λ rs. All (Holds store.new) rs.items) }
    ensures trees { IfOk result (λ rs.
        map (tree_of types.now store.new) rs.items
        ≡ map (λ t. put_first types.now store.old count (tree_of types.now store.old t)) ids.now) }
    ensures memo { OnOk result (KeepsPut types.now store.new memo.new) }
    ensures steps { steps.old ≤ steps.new }
{
    let mut made = Vec::new(alloc);
    for id in ids {
        made.push(resolve(alloc, types, store, count, *id, memo, steps)?)?;
    }
    Ok(made)
}
