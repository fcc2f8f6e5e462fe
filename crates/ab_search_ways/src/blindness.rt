//! Whether a search can look into a formula.
ghost use Rattle.std.specs.Prelude.{◌≡◌, ◌<◌, ◌||◌, ℕ, map, All, IfSome};
ghost use Rattle.std.specs.Option.{option_map};
ghost use Rattle.std.specs.List.{list_any};
ghost use Rattle.ab_term.specs.Types.{Ty};
ghost use Rattle.ab_term.specs.Logical.{spec_universal};
ghost use Rattle.ab_term.specs.Terms.{logical, spine, term, no_terms, terms_of};
ghost use Rattle.ab_norm.specs.ab_types.specs.Entries.{Table};
ghost use Rattle.ab_norm.specs.ab_store.specs.Trees.{Holds, tree_of, head_in, logical_of};
ghost use Rattle.ab_unifiers.specs.Replacements.{is_flexible};
ghost use Rattle.ab_theory.specs.Parts.{Part, parts_of};
ghost use Rattle.ab_unify.specs.Problem.{variables_read};
ghost use Rattle.ab_search_trees.specs.Judgements as plain;
ghost use Rattle.ab_search_ways.specs.Blindness.{IsSeen, IsBelow, hashed};

use ab_norm::store::{CellId, Head, Logical, Node, Store, TermId};

/// Whether the head is one of the cells.
fn is_flexible(store: &Store, flexible: &[CellId], head: Head) -> bool
    ensures { (types : Table) → result ≡ is_flexible (variables_read types store.now flexible.now) (head_in types store.now.cells head) }
{
    let _ = store;
    match head {
        Head::Cell(cell) => flexible.contains(&cell),
        _ => false,
    }
}

/// How a formula in focus is taken apart.
#[derive(Clone, Copy)]
enum Seen {
    /// It is an atom.
    Atom,
    /// It is this under a name, or behind a goal.
    Under(TermId),
    /// It is both of these.
    Both(TermId, TermId),
}

/// How the formula that is made of the arguments by the constant is taken apart.
fn seen_by(store: &Store, constant: Logical, args: &[TermId]) -> Seen
    requires { All (Holds store.now) args.now }
    ensures seen { (types : Table) → IsSeen types store.now (spine (logical (logical_of types constant)) (terms_of (map (tree_of types store.now) args.now))) result }
    ensures below { (n : ℕ) → All (λ t. t.0 < n) args.now → IsBelow n result }
{
    match constant {
        Logical::With => {
            if args.len() == 2 {
                Seen::Both(args[0], args[1])
            } else {
                Seen::Atom
            }
        }
        Logical::Imply => {
            if args.len() == 2 {
                Seen::Under(args[1])
            } else {
                Seen::Atom
            }
        }
        Logical::Pi(_) => {
            if args.len() == 1 {
                under_pi(store, args[0])
            } else {
                Seen::Atom
            }
        }
        _ => Seen::Atom,
    }
}

/// The body of the abstraction that `pi` is given.
fn under_pi(store: &Store, abstraction: TermId) -> Seen
    requires { Holds store.now abstraction }
    ensures seen { (types : Table) (A : Ty) → IsSeen types store.now (spine (logical (spec_universal A)) (term (tree_of types store.now abstraction) no_terms)) result }
    ensures below { (n : ℕ) → abstraction.0 < n → IsBelow n result }
{
    match store.view(abstraction) {
        Node::Lam(_, _, body) => Seen::Under(*body),
        Node::Spine(_, _) => Seen::Atom,
    }
}

/// How the formula is taken apart.
fn taken_apart(store: &Store, formula: TermId) -> Seen
    requires { Holds store.now formula }
    ensures seen { (types : Table) → IsSeen types store.now (tree_of types store.now formula) result }
    ensures below { IsBelow formula.0 result }
{
    match store.view(formula) {
        Node::Lam(_, _, _) => Seen::Atom,
        Node::Spine(head, args) => match *head {
            Head::Logic(constant) => seen_by(store, constant, args.as_slice()),
            _ => Seen::Atom,
        },
    }
}

/// Whether the term has one of the cells for its head.
fn hides_head(store: &Store, flexible: &[CellId], term: TermId) -> bool
    requires term { Holds store.now term }
    ensures { (types : Table) → result ≡ plain.hides_head (variables_read types store.now flexible.now) (tree_of types store.now term) }
{
    match store.view(term) {
        Node::Lam(_, _, _) => false,
        Node::Spine(head, _) => is_flexible(store, flexible, *head),
    }
}

/// Whether an atom of the formula, when it is taken apart, has one of the cells for its head.
fn hides_an_atom(store: &Store, flexible: &[CellId], formula: TermId) -> bool
    requires formula { Holds store.now formula }
    ensures { (types : Table) → result ≡ list_any (λ (p : Part). plain.hides_head (variables_read types store.now flexible.now) p.atom) (parts_of (tree_of types store.now formula)) }
{
    match taken_apart(store, formula) {
        Seen::Atom => hides_head(store, flexible, formula),
        Seen::Under(body) => hides_an_atom(store, flexible, body),
        Seen::Both(left, right) => {
            if hides_an_atom(store, flexible, left) {
                true
            } else {
                hides_an_atom(store, flexible, right)
            }
        }
    }
}

/// The same of a formula in focus and an atom.
fn hides_in_focus(store: &Store, flexible: &[CellId], formula: TermId, atom: TermId) -> bool
    requires formula { Holds store.now formula }
    requires atom { Holds store.now atom }
    ensures { (types : Table) → let ys = variables_read types store.now flexible.now in
        result ≡ (list_any (λ (p : Part). plain.hides_head ys p.atom) (parts_of (tree_of types store.now formula)) || plain.hides_head ys (tree_of types store.now atom)) }
{
    if hides_an_atom(store, flexible, formula) {
        true
    } else {
        hides_head(store, flexible, atom)
    }
}

/// Whether the constant makes of the arguments a judgement whose goal, or a part of whose formula in focus, has such a head.
fn hides_by(store: &Store, flexible: &[CellId], constant: Logical, args: &[TermId]) -> bool
    requires { All (Holds store.now) args.now }
    ensures { (types : Table) → result ≡ plain.hides (variables_read types store.now flexible.now) (spine (logical (logical_of types constant)) (terms_of (map (tree_of types store.now) args.now))) }
{
    match constant {
        Logical::Judge => {
            if args.len() == 2 {
                hides_head(store, flexible, args[1])
            } else {
                false
            }
        }
        Logical::Focus => {
            if args.len() == 3 {
                hides_in_focus(store, flexible, args[1], args[2])
            } else {
                false
            }
        }
        _ => false,
    }
}

/// Whether the formula is a judgement whose goal, or a part of whose formula in focus, has such a head.
fn hides(store: &Store, flexible: &[CellId], formula: TermId) -> bool
    requires formula { Holds store.now formula }
    ensures { (types : Table) → result ≡ plain.hides (variables_read types store.now flexible.now) (tree_of types store.now formula) }
{
    match store.view(formula) {
        Node::Lam(_, _, _) => false,
        Node::Spine(head, args) => match *head {
            Head::Logic(constant) => hides_by(store, flexible, constant, args.as_slice()),
            _ => false,
        },
    }
}

/// What is marked `#`, where the constant makes that of the arguments.
fn hashed_by(store: &Store, constant: Logical, args: &[TermId]) -> Option<TermId>
    requires { All (Holds store.now) args.now }
    ensures reads { (types : Table) → option_map (tree_of types store.now) result ≡ hashed (spine (logical (logical_of types constant)) (terms_of (map (tree_of types store.now) args.now))) }
    ensures held { IfSome result (Holds store.now) }
{
    let _ = store;
    match constant {
        Logical::Hash(_) => { if args.len() == 1 { Some(args[0]) } else { None } }
        _ => None,
    }
}

/// What is marked `#`, where the formula is that.
fn below_hash(store: &Store, formula: TermId) -> Option<TermId>
    requires formula { Holds store.now formula }
    ensures reads { (types : Table) → option_map (tree_of types store.now) result ≡ hashed (tree_of types store.now formula) }
    ensures held { IfSome result (Holds store.now) }
{
    match store.view(formula) {
        Node::Lam(_, _, _) => None,
        Node::Spine(head, args) => match *head {
            Head::Logic(constant) => hashed_by(store, constant, args.as_slice()),
            _ => None,
        },
    }
}

/// Whether the search can't look into the formula, where these cells may be bound: it is a judgement, unmarked or marked `#`,
/// and its goal, or a part of the formula in focus, has one of them for its head.
pub fn is_blind(store: &Store, flexible: &[CellId], formula: TermId) -> bool
    requires formula { Holds store.now formula }
    ensures { (types : Table) → result ≡ plain.is_blind (variables_read types store.now flexible.now) (tree_of types store.now formula) }
{
    match below_hash(store, formula) {
        Some(inner) => hides(store, flexible, inner),
        None => hides(store, flexible, formula),
    }
}
