//! What a formula of the specification logic is by its head.
ghost use Rattle.std.specs.Prelude.{◌≡◌, List};
ghost use Rattle.ab_norm.specs.ab_types.specs.Entries.{Table};
ghost use Rattle.ab_norm.specs.ab_store.specs.Trees.{Holds, tree_of, head_in};
ghost use Rattle.ab_norm.specs.ab_store.specs.declared.node.CellEntry.{CellEntry};
ghost use Rattle.ab_theory.specs.Opening.{kind_of, kind_of_head};
ghost use Rattle.ab_judgement_forms.specs.KindReadings.{kind_read};

use ab_norm::store::{Head, Node, Store, TermId};

/// What a formula of the specification logic is by its head.
#[derive(Clone, Copy)]
pub enum Kind {
    /// It is made of others.
    Compound,
    /// It is an atom.
    Atomic,
    /// It is neither, since its head is a variable or a bound name.
    Undetermined,
}

/// What a formula with the head is.
fn kind_of_head(head: Head) -> Kind
    ensures { (types : Table) (cells : List CellEntry) → kind_read result ≡ kind_of_head (head_in types cells head) }
{
    match head {
        Head::Const(_) | Head::Nominal(_, _) => Kind::Atomic,
        Head::Logic(_) => Kind::Compound,
        Head::Cell(_) | Head::Index(_) => Kind::Undetermined,
    }
}

/// What the formula is.
pub fn kind_of(store: &Store, formula: TermId) -> Kind
    requires { Holds store.now formula }
    ensures { (types : Table) → kind_read result ≡ kind_of (tree_of types store.now formula) }
{
    match store.view(formula) {
        Node::Lam(_, _, _) => Kind::Undetermined,
        Node::Spine(head, _) => kind_of_head(*head),
    }
}
