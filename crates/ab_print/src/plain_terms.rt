//! Terms are taken out of a store.
ghost use Rattle.std.specs.Prelude.{◌≡◌, ◌≤◌, ◌<◌, ◌+◌, ◌^◌, ◌++◌, ℕ, List, [], ◌∷◌, length, map, All, IfOk, OnOk, if◌then◌else◌};
ghost use Rattle.ab_term.specs.Terms as tree;
ghost use Rattle.ab_store.specs.Trees.{Holds, tree_of};
ghost use Rattle.ab_store.specs.Naming.{IsTypedBy};
ghost use Rattle.ab_print.specs.PrintedNames.{free_heads, free_heads_of_all};
ghost use Rattle.ab_print.specs.declared.drawings.Seen.{Seen as SeenHead};
ghost use Rattle.ab_print.specs.Drawings.{term_of, terms_of, bound_so_far, Puts, IsSound, AreSound};
ghost use Rattle.ab_print.specs.Places.{is_bound_at};

use crate::drawings::{Drawing, Drawings, Part, Seen};
use crate::eta::alone;
use ab_store::types::TypeTable;
use ab_store::{Head, Node, Store, TermId};
use std::alloc::{AllocError, Global};

/// Puts the place of a bound name behind the others of its binder. Those of the innermost binder stand last.
fn mark(head: Head, place: usize, bound: &mut Vec<Vec<usize>>) -> Result<(), AllocError>
    ensures around { OnOk result (length bound.new.items ≡ length bound.old.items) }
    ensures bound { OnOk result ((k : ℕ) → k < length bound.old.items → bound_so_far bound.new.items k ≡ bound_so_far bound.old.items k ++
        (if is_bound_at k (record { head = head; binders = length bound.old.items }) then (place ∷ []) else [])) }
{
    match head {
        Head::Index(index) if index < bound.len() => {
            let binder = bound.len() - 1 - index;
            bound[binder].push(place)?;
            Ok(())
        }
        _ => Ok(()),
    }
}

/// Takes a term out that stands under so many binders, puts its heads behind those that were seen, and the places of bound
/// names behind those of the binders that are open.
#[cycle(drawn)]
pub(crate) fn draw(
    alloc: Global,
    types: &TypeTable,
    store: &Store,
    id: TermId,
    binders: usize,
    seen: &mut Vec<Seen>,
    bound: &mut Vec<Vec<usize>>,
) -> Result<Drawing, AllocError>
    requires typed { IsTypedBy types.now store.now }
    requires held { Holds store.now id }
    requires room { binders + id.0 < 2 ^ 64 }
    requires around { length bound.old.items ≡ binders }
    ensures reads { IfOk result (λ d. term_of types.now store.now d ≡ tree_of types.now store.now id) }
    ensures sound { IfOk result (λ d. (later : List SeenHead) (start end : ℕ) → start ≤ length seen.old.items → length seen.new.items ≤ end → IsSound types.now store.now (seen.new.items ++ later) binders start end d) }
    ensures seen { OnOk result (Puts types.now store.now binders seen.old.items seen.new.items bound.old.items bound.new.items (free_heads (tree_of types.now store.now id))) }
{
    match store.view(id) {
        Node::Lam(ty, hint, body) => {
            let start = seen.len();
            let empty = Vec::new(alloc);
            bound.push(empty)?;
            let body = draw(alloc, types, store, *body, binders + 1, seen, bound)?;
            let own = bound.pop().unwrap();
            let end = seen.len();
            let part = Part {
                start,
                end,
                bound: own,
            };
            let hint = hint.copy(alloc)?;
            Ok(Drawing::Lam(*ty, hint, part, Box::new(alloc, body)?))
        }
        Node::Spine(head, args) => {
            let place = seen.len();
            mark(*head, place, bound)?;
            seen.push(Seen {
                head: *head,
                binders,
            })?;
            let args = draw_all(alloc, types, store, args.as_slice(), binders, seen, bound)?;
            Ok(Drawing::Spine(*head, Box::new(alloc, args)?))
        }
    }
}

/// Takes terms out in the same way.
#[cycle(drawn)]
fn draw_all(
    alloc: Global,
    types: &TypeTable,
    store: &Store,
    ids: &[TermId],
    binders: usize,
    seen: &mut Vec<Seen>,
    bound: &mut Vec<Vec<usize>>,
) -> Result<Drawings, AllocError>
    requires typed { IsTypedBy types.now store.now }
    requires held { All (Holds store.now) ids.now }
    requires room { All (λ t. binders + t.0 < 2 ^ 64) ids.now }
    requires around { length bound.old.items ≡ binders }
    ensures reads { IfOk result (λ ds. terms_of types.now store.now ds ≡ tree.terms_of (map (tree_of types.now store.now) ids.now)) }
    ensures sound { IfOk result (λ ds. (later : List SeenHead) (start end : ℕ) → start ≤ length seen.old.items → length seen.new.items ≤ end → AreSound types.now store.now (seen.new.items ++ later) binders start end ds) }
    ensures seen { OnOk result (Puts types.now store.now binders seen.old.items seen.new.items bound.old.items bound.new.items (free_heads_of_all (tree.terms_of (map (tree_of types.now store.now) ids.now)))) }
{
    match ids {
        [] => Ok(Drawings::End),
        [first, rest @ ..] => {
            let name = alone(store, *first);
            let drawing = draw(alloc, types, store, *first, binders, seen, bound)?;
            let others = draw_all(alloc, types, store, rest, binders, seen, bound)?;
            Ok(Drawings::More(Box::new(alloc, drawing)?, name, Box::new(alloc, others)?))
        }
    }
}
