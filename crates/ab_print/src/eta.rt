//! Which terms are names in their eta-long form.
ghost use Rattle.std.specs.Prelude.{◌≡◌, ℕ, List, ◌&&◌, ◌+◌, ◌<◌, ◌^◌, map, All, IfSome};
ghost use Rattle.std.specs.Option.{option_map};
ghost use Rattle.ab_term.specs.Terms.{Terms, spine, terms_of};
ghost use Rattle.ab_store.specs.ab_types.specs.Entries.{Table};
ghost use Rattle.ab_store.specs.Trees.{Contents, Holds, tree_of, head_reading};
ghost use Rattle.ab_store.specs.Naming.{IsTypedBy};
ghost use Rattle.ab_print.specs.NameAssignment as plain;
ghost use Rattle.ab_print.specs.Drawings.{IsHeld};

use ab_store::{Head, Node, Store, TermId};

/// A head, where it stands under this many binders and outside them, where it is a name that can stand alone.
fn outside(binders: usize, head: Head) -> Option<Head>
    ensures outside { (types : Table) (store : Contents) → option_map (head_reading types store) result ≡ plain.outside binders (head_reading types store head) }
    ensures held { (types : Table) (store : Contents) → IsHeld types store head → IfSome result (IsHeld types store) }
{
    match head {
        Head::Logic(_) => None,
        Head::Index(i) if i < binders => None,
        Head::Index(i) => Some(Head::Index(i - binders)),
        _ => Some(head),
    }
}

/// Whether the terms are the last bound names, as many as there are binders, in order, each in its eta-long form.
#[cycle(lasts)]
fn are_last(store: &Store, binders: usize, ids: &[TermId]) -> bool
    requires held { All (Holds store.now) ids.now }
    requires room { All (λ t. binders + t.0 < 2 ^ 64) ids.now }
    ensures { (types : Table) → result ≡ plain.are_last binders (terms_of (map (tree_of types store.now) ids.now)) }
{
    match ids {
        [] => binders == 0,
        [first, rest @ ..] => {
            if binders == 0 {
                return false;
            }
            is_bound_name(store, 0, binders - 1, *first) && are_last(store, binders - 1, rest)
        }
    }
}

/// Whether the term, so many abstractions of it taken off, is the eta-long form of the bound name of that index.
#[cycle(lasts)]
fn is_bound_name(store: &Store, binders: usize, index: usize, id: TermId) -> bool
    requires held { Holds store.now id }
    requires room { binders + id.0 < 2 ^ 64 }
    requires index { index + id.0 < 2 ^ 64 }
    ensures { (types : Table) → result ≡ plain.is_bound_name binders index (tree_of types store.now id) }
{
    match store.view(id) {
        Node::Lam(_, _, body) => is_bound_name(store, binders + 1, index + 1, *body),
        Node::Spine(head, args) => {
            if is_index(*head, index) {
                are_last(store, binders, args.as_slice())
            } else {
                false
            }
        }
    }
}

/// Whether the head is the bound name of that index.
fn is_index(head: Head, index: usize) -> bool
    ensures { (types : Table) (store : Contents) (binders : ℕ) (ts : Terms ℕ (List ℕ)) →
        plain.is_bound_name binders index (spine (head_reading types store head) ts) ≡ (result && plain.are_last binders ts) }
{
    match head {
        Head::Index(i) => i == index,
        _ => false,
    }
}

/// The name of which the term is the eta-long form, so many abstractions of it taken off, where it is one of a name.
fn alone_under(store: &Store, binders: usize, id: TermId) -> Option<Head>
    requires held { Holds store.now id }
    requires room { binders + id.0 < 2 ^ 64 }
    ensures alone { (types : Table) → option_map (head_reading types store.now) result ≡ plain.alone binders (tree_of types store.now id) }
    ensures held { (types : Table) → IsTypedBy types store.now → IfSome result (IsHeld types store.now) }
{
    match store.view(id) {
        Node::Lam(_, _, body) => alone_under(store, binders + 1, *body),
        Node::Spine(head, args) => {
            if are_last(store, binders, args.as_slice()) {
                outside(binders, *head)
            } else {
                None
            }
        }
    }
}

/// The name of which the term is the eta-long form, where it is one of a name.
pub(crate) fn alone(store: &Store, id: TermId) -> Option<Head>
    requires held { Holds store.now id }
    ensures alone { (types : Table) → option_map (head_reading types store.now) result ≡ plain.alone 0 (tree_of types store.now id) }
    ensures held { (types : Table) → IsTypedBy types store.now → IfSome result (IsHeld types store.now) }
{
    let _ = store.view(id);
    alone_under(store, 0, id)
}
