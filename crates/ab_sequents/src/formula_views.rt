//! A formula as it is seen where it is given a size.
ghost use Rattle.std.specs.Prelude.{◌≡◌, ◌<◌, ℕ, List, All, IfSome, map};
ghost use Rattle.std.specs.Option.{option_map};
ghost use Rattle.ab_term.specs.Terms.{terms_of};
ghost use Rattle.ab_norm.specs.ab_types.specs.Entries.{Table};
ghost use Rattle.ab_norm.specs.ab_store.specs.Trees.{Holds, tree_of, head_in, logical_of};
ghost use Rattle.ab_norm.specs.ab_store.specs.declared.node.CellEntry.{CellEntry};
ghost use Rattle.ab_sequents.specs.SizeViews.{body_of, role_read, role_of, role_of_constant, outer_read, outer_of, outer_by, PartsBelow, OfHead};
ghost use Rattle.ab_norm.specs.ab_store.specs.Naming.{IsTypedBy, HoldsHead, HeadIsTyped};

use ab_norm::store::{Head, Logical, Node, Store, TermId};

/// What a head does in a formula that is given a size.
#[derive(Clone, Copy)]
pub enum Role {
    /// It is a quantifier of the prefix.
    Quantifier,
    /// It is the implication.
    Arrow,
    /// It is neither.
    Neither,
}

/// A formula by its outermost constant.
#[derive(Clone, Copy)]
pub enum Outer {
    /// A quantifier of the prefix, with the abstraction that it is given.
    Under(Head, TermId),
    /// An implication.
    Arrow(TermId, TermId),
    /// Neither.
    Other,
}

/// What a logical constant does.
fn role_of_constant(logical: Logical) -> Role
    ensures { (types : Table) → role_read result ≡ role_of_constant (logical_of types logical) }
{
    match logical {
        Logical::Forall(_) | Logical::Nabla(_) => Role::Quantifier,
        Logical::Arrow => Role::Arrow,
        _ => Role::Neither,
    }
}

/// What the head does.
fn role_of(head: Head) -> Role
    ensures { (types : Table) (cells : List CellEntry) → role_read result ≡ role_of (head_in types cells head) }
{
    match head {
        Head::Logic(logical) => role_of_constant(logical),
        _ => Role::Neither,
    }
}

/// A head with arguments, by what the head does.
fn look_by(store: &Store, role: Role, head: Head, args: &[TermId]) -> Outer
    ensures reads { (types : Table) → outer_read types store.now result
        ≡ outer_by (role_read role) (head_in types store.now.cells head) (terms_of (map (tree_of types store.now) args.now)) }
    ensures below { (n : ℕ) → All (λ t. t.0 < n) args.now → PartsBelow n result }
    ensures head { OfHead (λ h. h ≡ head) result }
{
    let _ = store;
    match role {
        Role::Quantifier => {
            if args.len() == 1 {
                Outer::Under(head, args[0])
            } else {
                Outer::Other
            }
        }
        Role::Arrow => {
            if args.len() == 2 {
                Outer::Arrow(args[0], args[1])
            } else {
                Outer::Other
            }
        }
        Role::Neither => Outer::Other,
    }
}

/// The formula by its outermost constant.
pub(crate) fn look_at(store: &Store, id: TermId) -> Outer
    requires { Holds store.now id }
    ensures reads { (types : Table) → outer_read types store.now result ≡ outer_of (tree_of types store.now id) }
    ensures below { PartsBelow id.0 result }
    ensures held { OfHead (HoldsHead store.now) result }
    ensures typed { (types : Table) → IsTypedBy types store.now → OfHead (HeadIsTyped types) result }
{
    match store.view(id) {
        Node::Lam(_, _, _) => Outer::Other,
        Node::Spine(head, args) => look_by(store, role_of(*head), *head, args.as_slice()),
    }
}

/// The body of an abstraction.
pub(crate) fn body_of(store: &Store, id: TermId) -> Option<TermId>
    requires { Holds store.now id }
    ensures reads { (types : Table) → option_map (tree_of types store.now) result ≡ body_of (tree_of types store.now id) }
    ensures below { IfSome result (λ b. b.0 < id.0) }
{
    match store.view(id) {
        Node::Lam(_, _, body) => Some(*body),
        Node::Spine(_, _) => None,
    }
}
