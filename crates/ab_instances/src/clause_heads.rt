//! Heads of clauses: their prefix is taken off, and their arguments are looked at.
ghost use Rattle.std.specs.Prelude.{◌≡◌, ◌≤◌, ◌∷◌, ℕ, List, Some, None, All, IfOk, IfSome};
ghost use Rattle.ab_term.specs.Terms.{Head, spine, term, no_terms, Read};
ghost use Rattle.ab_norm.specs.ab_types.specs.Entries.{Table};
ghost use Rattle.ab_norm.specs.ab_store.specs.Trees.{Holds, tree_of};
ghost use Rattle.ab_norm.specs.ab_store.specs.Naming.{IsTypedBy};
ghost use Rattle.ab_norm.specs.NodeGrowth.{AddsTerms};
ghost use Rattle.ab_unifiers.specs.Prefixes as prefixes;
ghost use Rattle.ab_instances.specs.ListReadings.{trees_at, given_at};

use ab_norm::instantiate;
use ab_norm::store::{Node, Store, TermId};
use ab_norm::types::{Steps, TypeTable};
use std::alloc::{AllocError, Global};

/// What a head is given, where that is one term.
fn only_argument(store: &Store, id: TermId) -> Option<TermId>
    requires { Holds store.now id }
    ensures held { IfSome result (λ f. Holds store.now f) }
    ensures some { IfSome result (λ f. (types : Table) → (h : Head ℕ) × (tree_of types store.now id ≡ spine h (term (tree_of types store.now f) no_terms))) }
    ensures none { result ≡ None → (types : Table) (u : Read) (us : List Read) → prefixes.opened (tree_of types store.now id) (u ∷ us) ≡ tree_of types store.now id }
{
    match store.view(id) {
        Node::Lam(_, _, _) => None,
        Node::Spine(_, args) => {
            let args = args.as_slice();
            if args.len() == 1 { Some(args[0]) } else { None }
        }
    }
}

/// A quantified formula, with the terms for its outermost bound names.
pub(crate) fn open<L>(
    alloc: Global,
    types: &TypeTable,
    store: &mut Store,
    formula: TermId,
    names: &[TermId],
    steps: &mut Steps<L>,
) -> Result<TermId, AllocError>
    requires store { IsTypedBy types.now store.old }
    requires formula { Holds store.old formula }
    requires names { All (Holds store.old) names.now }
    ensures held { IfOk result (λ r. Holds store.new r) }
    ensures tree { IfOk result (λ r. tree_of types.now store.new r ≡ prefixes.opened (tree_of types.now store.old formula) (trees_at types.now store.old names.now)) }
    ensures adds { AddsTerms store.old store.new }
    ensures steps { steps.old ≤ steps.new }
{
    match names {
        [] => Ok(formula),
        [first, rest @ ..] => match only_argument(store, formula) {
            Some(scope) => {
                let opened = instantiate(alloc, types, store, scope, &[*first], steps)?;
                open(alloc, types, store, opened, rest, steps)
            }
            None => Ok(formula),
        },
    }
}

/// What a head is given.
pub(crate) fn arguments_of(
    alloc: Global,
    store: &Store,
    id: TermId,
) -> Result<Vec<TermId>, AllocError>
    requires { Holds store.now id }
    ensures held { IfOk result (λ list. All (Holds store.now) list.items) }
    ensures trees { IfOk result (λ list. (types : Table) → given_at types store.now list.items ≡ prefixes.arguments_of (tree_of types store.now id)) }
{
    match store.view(id) {
        Node::Lam(_, _, _) => Ok(Vec::new(alloc)),
        Node::Spine(_, args) => Ok(args.copy(alloc)?.into_vec()),
    }
}
