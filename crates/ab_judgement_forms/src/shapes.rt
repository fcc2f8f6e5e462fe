//! A formula of the specification logic by its outermost connective.
ghost use Rattle.std.specs.Prelude.{◌≡◌, ◌<◌, ℕ, All, map};
ghost use Rattle.ab_term.specs.Terms.{terms_of};
ghost use Rattle.ab_norm.specs.ab_types.specs.Entries.{Table};
ghost use Rattle.ab_norm.specs.ab_store.specs.Trees.{Holds, tree_of, head_in, logical_of};
ghost use Rattle.ab_norm.specs.ab_store.specs.Naming.{IsTypedBy, HeadIsTyped, LogicalIsTyped};
ghost use Rattle.ab_judgement_forms.specs.Shapes.{shape_of, shape_headed, shape_by};
ghost use Rattle.ab_judgement_forms.specs.ShapeReadings.{shape_read, PartsBelow, ShapeIsTyped};

use ab_norm::store::{Head, Logical, Node, Store, TermId};
use ab_norm::types::TypeId;

/// A formula of the specification logic by its outermost connective.
#[derive(Clone, Copy)]
pub(crate) enum Shape {
    /// `pi` over the type, with the abstraction that it is given.
    Pi(TypeId, TermId),
    /// `=>`.
    Imply(TermId, TermId),
    /// `&`.
    With(TermId, TermId),
    /// None of these.
    Other,
}

/// The connective with what it is given.
fn shape_by(store: &Store, logical: Logical, args: &[TermId]) -> Shape
    ensures reads { (types : Table) → shape_read types store.now result ≡ shape_by (logical_of types logical) (terms_of (map (tree_of types store.now) args.now)) }
    ensures below { (n : ℕ) → All (λ t. t.0 < n) args.now → PartsBelow n result }
    ensures typed { (types : Table) → LogicalIsTyped types logical → ShapeIsTyped types result }
{
    let _ = store;
    match logical {
        Logical::Pi(ty) => {
            if args.len() == 1 {
                Shape::Pi(ty, args[0])
            } else {
                Shape::Other
            }
        }
        Logical::Imply => {
            if args.len() == 2 {
                Shape::Imply(args[0], args[1])
            } else {
                Shape::Other
            }
        }
        Logical::With => {
            if args.len() == 2 {
                Shape::With(args[0], args[1])
            } else {
                Shape::Other
            }
        }
        _ => Shape::Other,
    }
}

/// The head with what it is given.
fn shape_headed(store: &Store, head: Head, args: &[TermId]) -> Shape
    ensures reads { (types : Table) → shape_read types store.now result ≡ shape_headed (head_in types store.now.cells head) (terms_of (map (tree_of types store.now) args.now)) }
    ensures below { (n : ℕ) → All (λ t. t.0 < n) args.now → PartsBelow n result }
    ensures typed { (types : Table) → HeadIsTyped types head → ShapeIsTyped types result }
{
    match head {
        Head::Logic(logical) => shape_by(store, logical, args),
        _ => Shape::Other,
    }
}

/// The formula by its outermost connective.
pub(crate) fn shape_of(store: &Store, formula: TermId) -> Shape
    requires { Holds store.now formula }
    ensures reads { (types : Table) → shape_read types store.now result ≡ shape_of (tree_of types store.now formula) }
    ensures below { PartsBelow formula.0 result }
    ensures typed { (types : Table) → IsTypedBy types store.now → ShapeIsTyped types result }
{
    match store.view(formula) {
        Node::Lam(_, _, _) => Shape::Other,
        Node::Spine(head, args) => shape_headed(store, *head, args.as_slice()),
    }
}
