//! What is taken off a formula next.
ghost use Rattle.std.specs.Prelude.{◌≡◌, ◌<◌, ℕ, All, bytes_eq, map};
ghost use Rattle.ab_term.specs.Terms.{terms_of};
ghost use Rattle.ab_norm.specs.ab_types.specs.Entries.{Table};
ghost use Rattle.ab_norm.specs.ab_types.specs.Ids.{type_of, HoldsType};
ghost use Rattle.ab_norm.specs.ab_store.specs.Naming.{IsTypedBy, LogicalIsTyped};
ghost use Rattle.ab_norm.specs.ab_store.specs.Trees.{Holds, tree_of, logical_of};
ghost use Rattle.ab_uses.specs.Layers.{hint_of, under_universal, under_nabla, layer_by, layer_of, layer_read, PartsBelow, LayerIsTyped};

use ab_norm::name::Name;
use ab_norm::store::{Head, Logical, Node, Store, TermId};
use ab_norm::types::TypeId;

/// What is taken off a formula next.
#[derive(Clone, Copy)]
pub enum Layer {
    /// A `forall`: the type of its name, the abstraction over it, and what stands under that.
    Universal(TypeId, TermId, TermId),
    /// A `nabla`: the type of its name, and what stands under it.
    Nabla(TypeId, TermId),
    /// An antecedent, and what stands behind it.
    Implication(TermId, TermId),
    /// There is nothing to take off.
    Last,
}

/// A `forall` with the term that it is given.
fn under_universal(store: &Store, ty: TypeId, scope: TermId) -> Layer
    requires { Holds store.now scope }
    ensures reads { (types : Table) → layer_read types store.now result ≡ under_universal (type_of types ty) (tree_of types store.now scope) }
    ensures below { (n : ℕ) → scope.0 < n → PartsBelow n result }
    ensures typed { (types : Table) → HoldsType types ty → LayerIsTyped types result }
{
    match store.view(scope) {
        Node::Lam(_, _, inner) => Layer::Universal(ty, scope, *inner),
        Node::Spine(_, _) => Layer::Last,
    }
}

/// A `nabla` with the term that it is given.
fn under_nabla(store: &Store, ty: TypeId, scope: TermId) -> Layer
    requires { Holds store.now scope }
    ensures reads { (types : Table) → layer_read types store.now result ≡ under_nabla (type_of types ty) (tree_of types store.now scope) }
    ensures below { (n : ℕ) → scope.0 < n → PartsBelow n result }
    ensures typed { (types : Table) → HoldsType types ty → LayerIsTyped types result }
{
    match store.view(scope) {
        Node::Lam(_, _, inner) => Layer::Nabla(ty, *inner),
        Node::Spine(_, _) => Layer::Last,
    }
}

/// A constant with the terms that it is given.
fn look_by(store: &Store, logical: Logical, args: &[TermId]) -> Layer
    requires { All (Holds store.now) args.now }
    ensures reads { (types : Table) → layer_read types store.now result ≡ layer_by (logical_of types logical) (terms_of (map (tree_of types store.now) args.now)) }
    ensures below { (n : ℕ) → All (λ t. t.0 < n) args.now → PartsBelow n result }
    ensures typed { (types : Table) → LogicalIsTyped types logical → LayerIsTyped types result }
{
    match logical {
        Logical::Forall(ty) => {
            if args.len() == 1 {
                under_universal(store, ty, args[0])
            } else {
                Layer::Last
            }
        }
        Logical::Nabla(ty) => {
            if args.len() == 1 {
                under_nabla(store, ty, args[0])
            } else {
                Layer::Last
            }
        }
        Logical::Arrow => {
            if args.len() == 2 {
                Layer::Implication(args[0], args[1])
            } else {
                Layer::Last
            }
        }
        _ => Layer::Last,
    }
}

/// What is taken off the formula next.
pub fn look_at(store: &Store, id: TermId) -> Layer
    requires { Holds store.now id }
    ensures reads { (types : Table) → layer_read types store.now result ≡ layer_of (tree_of types store.now id) }
    ensures below { PartsBelow id.0 result }
    ensures typed { (types : Table) → IsTypedBy types store.now → LayerIsTyped types result }
{
    match store.view(id) {
        Node::Lam(_, _, _) => Layer::Last,
        Node::Spine(head, args) => match *head {
            Head::Logic(logical) => look_by(store, logical, args.as_slice()),
            _ => Layer::Last,
        },
    }
}

/// Whether the name of the abstraction is written so.
pub fn is_named(store: &Store, scope: TermId, name: &Name) -> bool
    requires { Holds store.now scope }
    ensures { (types : Table) → result ≡ bytes_eq (hint_of (tree_of types store.now scope)) name.now }
{
    match store.view(scope) {
        Node::Lam(_, hint, _) => *hint == *name,
        Node::Spine(_, _) => name.as_str().is_empty(),
    }
}
