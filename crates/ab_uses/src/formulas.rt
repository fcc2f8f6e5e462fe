//! The outermost quantifier or implication of a formula is taken off.
ghost use Rattle.std.specs.Prelude.{◌≡◌, ◌≤◌, IfOk, IfSome, None};
ghost use Rattle.ab_term.specs.Substitution.{instance};
ghost use Rattle.ab_norm.specs.ab_types.specs.Entries.{Table};
ghost use Rattle.ab_term.specs.Terms.{Read};
ghost use Rattle.ab_norm.specs.ab_store.specs.Trees.{Holds, tree_of};
ghost use Rattle.ab_norm.specs.ab_store.specs.Naming.{IsTypedBy};
ghost use Rattle.ab_norm.specs.NodeGrowth.{AddsTerms};
ghost use Rattle.ab_theory.specs.Uses as spec;
ghost use Rattle.ab_theory.specs.Uses.{left_side, right_side};

use ab_norm::instantiate;
use ab_norm::store::{Node, Store, TermId};
use ab_norm::types::{Steps, TypeTable};
use std::alloc::{AllocError, Global};

/// What a head is given, where that is one term.
fn only_argument(store: &Store, id: TermId) -> Option<TermId>
    requires { Holds store.now id }
    ensures held { IfSome result (λ f. Holds store.now f) }
    ensures some { IfSome result (λ f. (types : Table) (u : Read) → spec.with_term (tree_of types store.now id) u ≡ instance (tree_of types store.now f) u) }
    ensures none { result ≡ None → (types : Table) (u : Read) → spec.with_term (tree_of types store.now id) u ≡ tree_of types store.now id }
{
    match store.view(id) {
        Node::Lam(_, _, _) => None,
        Node::Spine(_, args) => {
            let args = args.as_slice();
            if args.len() == 1 { Some(args[0]) } else { None }
        }
    }
}

/// The quantified formula with the term for its bound name.
pub(crate) fn with_term<L>(
    alloc: Global,
    types: &TypeTable,
    store: &mut Store,
    formula: TermId,
    term: TermId,
    steps: &mut Steps<L>,
) -> Result<TermId, AllocError>
    requires store { IsTypedBy types.now store.old }
    requires formula { Holds store.old formula }
    requires term { Holds store.old term }
    ensures held { IfOk result (λ r. Holds store.new r) }
    ensures tree { IfOk result (λ r. tree_of types.now store.new r ≡ spec.with_term (tree_of types.now store.old formula) (tree_of types.now store.old term)) }
    ensures adds { AddsTerms store.old store.new }
    ensures steps { steps.old ≤ steps.new }
{
    match only_argument(store, formula) {
        Some(scope) => instantiate(alloc, types, store, scope, &[term], steps),
        None => Ok(formula),
    }
}

/// The two sides of an implication.
#[derive(Clone, Copy)]
pub(crate) struct Sides {
    pub(crate) left: TermId,
    pub(crate) right: TermId,
}

/// The two sides of the implication.
pub(crate) fn sides_of(store: &Store, formula: TermId) -> Sides
    requires { Holds store.now formula }
    ensures left_held { Holds store.now result.left }
    ensures right_held { Holds store.now result.right }
    ensures left { (types : Table) → tree_of types store.now result.left ≡ left_side (tree_of types store.now formula) }
    ensures right { (types : Table) → tree_of types store.now result.right ≡ right_side (tree_of types store.now formula) }
{
    let whole = Sides {
        left: formula,
        right: formula,
    };
    match store.view(formula) {
        Node::Lam(_, _, _) => whole,
        Node::Spine(_, args) => {
            let args = args.as_slice();
            if args.len() == 2 {
                Sides {
                    left: args[0],
                    right: args[1],
                }
            } else {
                whole
            }
        }
    }
}
