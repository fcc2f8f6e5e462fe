//! Whether the marks of one formula serve another.
ghost use Rattle.std.specs.Prelude.{◌≡◌, ◌↔◌, ◌<◌, ℕ, IsTrue, List, All, map, length};
ghost use Rattle.ab_norm.specs.ab_types.specs.Entries.{Table};
ghost use Rattle.ab_term.specs.Terms.{terms_of, logical};
ghost use Rattle.ab_norm.specs.ab_store.specs.Trees.{Contents, Holds, tree_of, head_in, logical_of};
ghost use Rattle.ab_logic.specs.Forms.{sign_of};
ghost use Rattle.ab_formulas.specs.Marks.{at_atom, at_judgement, making_of, marks_made, marked, marks_of, marks_of_all, marks_of_head, Agree, MarksServe, MarksServeIn};
ghost use Rattle.ab_logic.specs.Worlds.{Holds as HoldsIn, read};
ghost use Rattle.ab_sequents.specs.HeadMarks.{marks_seen, making_read, PartsBelow};

use crate::head_marks::{Making, making_of};
use ab_logic::{Sign, World, marks_serve};
use ab_norm::store::{Head, Logical, Node, Store, TermId};

/// Where the marks of a formula stand.
#[derive(Clone, Copy)]
pub enum Seen {
    Nowhere,
    AtAtom(Sign),
    AtJudgement(Sign),
    Below(TermId),
    InBoth(TermId, TermId),
}

/// Whether the marks of the formula that is given serve those of the one that is asked for.
pub fn marks_serve_in(world: &World, asked: TermId, given: TermId) -> bool
    requires asked { HoldsIn world.now asked }
    requires given { HoldsIn world.now given }
    ensures { IsTrue result ↔ MarksServeIn (read world.now asked) (read world.now given) }
{
    let asked = look_at(&world.store, asked);
    let given = look_at(&world.store, given);
    serve(&world.store, asked, given)
}

/// Whether the marks that are given serve those that are asked for.
fn serve(store: &Store, asked: Seen, given: Seen) -> bool
    requires asked { PartsBelow (length store.now.nodes) asked }
    requires given { PartsBelow (length store.now.nodes) given }
    ensures { (types : Table) → IsTrue result ↔ MarksServe (marks_seen types store.now asked) (marks_seen types store.now given) }
{
    match asked {
        Seen::AtAtom(mark) => serve_atom(mark, given),
        Seen::AtJudgement(mark) => serve_judgement(mark, given),
        Seen::Nowhere => true,
        Seen::Below(inner) => match given {
            Seen::Below(other) => agree(store, inner, other),
            _ => true,
        },
        Seen::InBoth(left, right) => match given {
            Seen::InBoth(first, second) => agree_both(store, left, right, first, second),
            _ => true,
        },
    }
}

/// Whether the marks that are given serve an atom with the mark.
fn serve_atom(mark: Sign, given: Seen) -> bool
    ensures { (types : Table) (store : Contents) → IsTrue result ↔ MarksServe (at_atom (sign_of mark)) (marks_seen types store given) }
{
    match given {
        Seen::AtAtom(other) => marks_serve(mark, other),
        Seen::AtJudgement(other) => is_same_mark(mark, other),
        Seen::Nowhere | Seen::Below(_) | Seen::InBoth(_, _) => true,
    }
}

/// Whether the marks that are given serve a judgement with the mark.
fn serve_judgement(mark: Sign, given: Seen) -> bool
    ensures { (types : Table) (store : Contents) → IsTrue result ↔ MarksServe (at_judgement (sign_of mark)) (marks_seen types store given) }
{
    match given {
        Seen::AtJudgement(other) => marks_serve(mark, other),
        Seen::AtAtom(other) => is_same_mark(mark, other),
        Seen::Nowhere | Seen::Below(_) | Seen::InBoth(_, _) => true,
    }
}

/// Whether an atom or a judgement with the mark agrees with what is seen.
fn has_mark(mark: Sign, seen: Seen) -> bool
    ensures atom { (types : Table) (store : Contents) → IsTrue result ↔ Agree (at_atom (sign_of mark)) (marks_seen types store seen) }
    ensures judgement { (types : Table) (store : Contents) → IsTrue result ↔ Agree (at_judgement (sign_of mark)) (marks_seen types store seen) }
{
    match seen {
        Seen::AtAtom(other) => is_same_mark(mark, other),
        Seen::AtJudgement(other) => is_same_mark(mark, other),
        Seen::Nowhere | Seen::Below(_) | Seen::InBoth(_, _) => true,
    }
}

/// Whether the two marks are the same.
fn is_same_mark(a: Sign, b: Sign) -> bool
    ensures { IsTrue result ↔ (sign_of a ≡ sign_of b) }
{
    match a {
        Sign::Plain => match b {
            Sign::Plain => true,
            _ => false,
        },
        Sign::Star(level) => match b {
            Sign::Star(other) => level == other,
            _ => false,
        },
        Sign::At(level) => match b {
            Sign::At(other) => level == other,
            _ => false,
        },
        Sign::Plus(level) => match b {
            Sign::Plus(other) => level == other,
            _ => false,
        },
        Sign::Hash(level) => match b {
            Sign::Hash(other) => level == other,
            _ => false,
        },
    }
}

/// Whether the marks of two terms are equal wherever both have an atom or a judgement.
#[cycle(agreeing)]
fn agree(store: &Store, a: TermId, b: TermId) -> bool
    requires a { Holds store.now a }
    requires b { Holds store.now b }
    ensures { (types : Table) → IsTrue result ↔ Agree (marks_of (tree_of types store.now a)) (marks_of (tree_of types store.now b)) }
{
    let other = look_at(store, b);
    match look_at(store, a) {
        Seen::Nowhere => true,
        Seen::AtAtom(mark) => has_mark(mark, other),
        Seen::AtJudgement(mark) => has_mark(mark, other),
        Seen::Below(inner) => match other {
            Seen::Below(at) => agree(store, inner, at),
            _ => true,
        },
        Seen::InBoth(left, right) => match other {
            Seen::InBoth(first, second) => agree_both(store, left, right, first, second),
            _ => true,
        },
    }
}

/// The same of two pairs of terms.
#[cycle(agreeing)]
fn agree_both(store: &Store, a: TermId, b: TermId, c: TermId, d: TermId) -> bool
    requires a { Holds store.now a }
    requires b { Holds store.now b }
    requires c { Holds store.now c }
    requires d { Holds store.now d }
    ensures { (types : Table) → IsTrue result ↔ (Agree (marks_of (tree_of types store.now a)) (marks_of (tree_of types store.now c))
        × Agree (marks_of (tree_of types store.now b)) (marks_of (tree_of types store.now d))) }
{
    if agree(store, a, c) {
        agree(store, b, d)
    } else {
        false
    }
}

/// The mark at an atom or a judgement, by its head.
fn at_head(head: Head, mark: Sign) -> Seen
    ensures seen { (types : Table) (store : Contents) → marks_seen types store result ≡ marks_of_head (sign_of mark) (head_in types store.cells head) }
    ensures below { (n : ℕ) → PartsBelow n result }
{
    match head {
        Head::Const(_) => Seen::AtAtom(mark),
        Head::Nominal(_, _) => Seen::AtAtom(mark),
        Head::Logic(constant) => at_constant(constant, mark),
        Head::Cell(_) => Seen::Nowhere,
        Head::Index(_) => Seen::Nowhere,
    }
}

/// The mark at a judgement, by its logical constant.
fn at_constant(constant: Logical, mark: Sign) -> Seen
    ensures seen { (types : Table) (store : Contents) → marks_seen types store result ≡ marks_of_head (sign_of mark) (logical (logical_of types constant)) }
    ensures below { (n : ℕ) → PartsBelow n result }
{
    match constant {
        Logical::Judge => Seen::AtJudgement(mark),
        Logical::Focus => Seen::AtJudgement(mark),
        _ => Seen::Nowhere,
    }
}

/// The mark at what is marked.
fn at_marked(store: &Store, id: TermId, mark: Sign) -> Seen
    requires { Holds store.now id }
    ensures seen { (types : Table) → marks_seen types store.now result ≡ marked (sign_of mark) (tree_of types store.now id) }
    ensures below { (n : ℕ) → PartsBelow n result }
{
    match store.view(id) {
        Node::Lam(_, _, _) => Seen::Nowhere,
        Node::Spine(head, _) => at_head(*head, mark),
    }
}

/// Where the marks of a head with arguments stand, by how the head makes them.
fn marks_under_head(store: &Store, making: Making, head: Head, args: &[TermId]) -> Seen
    requires making { (types : Table) → making_read making ≡ making_of (head_in types store.now.cells head) }
    requires args { All (Holds store.now) args.now }
    ensures seen { (types : Table) → marks_seen types store.now result
        ≡ marks_made (making_of (head_in types store.now.cells head)) (head_in types store.now.cells head) (terms_of (map (tree_of types store.now) args.now)) (marks_of_all (terms_of (map (tree_of types store.now) args.now))) }
    ensures below { (n : ℕ) → All (λ t. t.0 < n) args.now → PartsBelow n result }
{
    match making {
        Making::ByHead => at_head(head, Sign::Plain),
        Making::ByMark(mark) => {
            if args.len() == 0 {
                Seen::Nowhere
            } else {
                at_marked(store, args[0], mark)
            }
        }
        Making::ByScope => {
            if args.len() == 1 {
                Seen::Below(args[0])
            } else {
                Seen::Nowhere
            }
        }
        Making::ByParts => {
            if args.len() == 2 {
                Seen::InBoth(args[0], args[1])
            } else {
                Seen::Nowhere
            }
        }
    }
}

/// Where the marks of a formula stand. Those of an abstraction are those of its body.
pub fn look_at(store: &Store, id: TermId) -> Seen
    requires { Holds store.now id }
    ensures seen { (types : Table) → marks_seen types store.now result ≡ marks_of (tree_of types store.now id) }
    ensures below { PartsBelow id.0 result }
{
    match store.view(id) {
        Node::Lam(_, _, body) => look_at(store, *body),
        Node::Spine(head, args) => marks_under_head(
            store,
            making_of(*head),
            *head,
            args.as_slice(),
        ),
    }
}
