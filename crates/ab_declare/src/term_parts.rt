//! Terms that are taken apart.
ghost use Rattle.std.specs.Prelude.{◌≡◌, ℕ, MatchOption};
ghost use Rattle.ab_term.specs.Terms as tree;
ghost use Rattle.ab_term.specs.Terms.{spine, no_terms, term, Read};
ghost use Rattle.ab_norm.specs.ab_types.specs.Entries.{Table};
ghost use Rattle.ab_norm.specs.ab_store.specs.Trees.{Holds, tree_of};
ghost use Rattle.ab_declare.specs.JoinedRows.{IsPair};
ghost use Rattle.ab_declare.specs.ClauseMeanings as meanings;

use ab_norm::store::{Head, Logical, Node, Store, TermId};

/// The two terms that the head of a term is given.
pub(crate) fn two_of(store: &Store, id: TermId) -> Option<(TermId, TermId)>
    requires { Holds store.now id }
    ensures { (types : Table) (h : tree.Head ℕ) (t u : Read) → tree_of types store.now id ≡ spine h (term t (term u no_terms)) →
        MatchOption result ⊥ (IsPair types store.now t u) }
{
    match store.view(id) {
        Node::Lam(..) => None,
        Node::Spine(_, args) => match args.as_slice() {
            [first, second] => Some((*first, *second)),
            _ => None,
        },
    }
}

/// Whether a term stands under a `nabla`.
pub(crate) fn is_under_nabla(store: &Store, id: TermId) -> bool
    requires { Holds store.now id }
    ensures { (types : Table) → result ≡ meanings.is_under_nabla (tree_of types store.now id) }
{
    match store.view(id) {
        Node::Spine(Head::Logic(Logical::Nabla(_)), _) => true,
        Node::Lam(..) | Node::Spine(..) => false,
    }
}
