//! Atoms of focused formulas whose heads aren't determined.
ghost use Rattle.std.specs.Prelude.{◌≡◌};
ghost use Rattle.std.specs.List.{list_any};
ghost use Rattle.ab_norm.specs.ab_types.specs.Entries.{Table};
ghost use Rattle.ab_norm.specs.ab_store.specs.Trees.{Holds, tree_of};
ghost use Rattle.ab_theory.specs.Opening as plain;
ghost use Rattle.ab_theory.specs.Parts.{Part, parts_of};
ghost use Rattle.ab_judgement_forms.specs.KindReadings.{kind_read};

use crate::kinds::{Kind, kind_of};
use crate::shapes::{Shape, shape_of};
use ab_norm::store::{Node, Store, TermId};

/// Whether it is neither made of others nor an atom.
pub fn is_undetermined(kind: Kind) -> bool
    ensures { result ≡ plain.is_undetermined (kind_read kind) }
{
    match kind {
        Kind::Undetermined => true,
        Kind::Compound | Kind::Atomic => false,
    }
}

/// Whether an atom of the formula, when it is taken apart, is undetermined.
pub fn has_undetermined_atom(store: &Store, formula: TermId) -> bool
    requires { Holds store.now formula }
    ensures { (types : Table) → result ≡ list_any (λ (p : Part). plain.is_undetermined (plain.kind_of p.atom)) (parts_of (tree_of types store.now formula)) }
{
    match shape_of(store, formula) {
        Shape::Pi(_, abstraction) => match store.view(abstraction) {
            Node::Lam(_, _, body) => has_undetermined_atom(store, *body),
            Node::Spine(_, _) => is_undetermined(kind_of(store, formula)),
        },
        Shape::Imply(_, inner) => has_undetermined_atom(store, inner),
        Shape::With(left, right) => {
            if has_undetermined_atom(store, left) {
                true
            } else {
                has_undetermined_atom(store, right)
            }
        }
        Shape::Other => is_undetermined(kind_of(store, formula)),
    }
}
