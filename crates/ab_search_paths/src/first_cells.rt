//! The variable that a search put for the name of a `forall`, read off what came of it.
ghost use Rattle.std.specs.Prelude.{◌+◌, ◌<◌, ◌^◌, All, IfSome};
ghost use Rattle.ab_norm.specs.ab_store.specs.declared.node.TermId.{TermId as AnId};
ghost use Rattle.ab_norm.specs.ab_store.specs.Trees.{Holds, HoldsCell};
ghost use Rattle.ab_search_paths.specs.Frames.{HoldsPair};

use ab_norm::store::{CellId, Head, Node, Store, TermId};

/// What two terms have at one place.
enum Pair {
    /// A name of this many binders further out on one side, and the cell on the other.
    Found(CellId),
    /// These have the name in them.
    Inside(TermId, TermId, usize),
    /// Nothing.
    Nowhere,
}

/// Of the arguments the first that the name of so many binders further out stands in, on both sides.
fn first_inside(store: &Store, body: &[TermId], made: &[TermId], depth: usize) -> Pair
    requires body { All (Holds store.now) body.now }
    requires made { All (Holds store.now) made.now }
    ensures { (whole : AnId) → All (λ t. t.0 < whole.0) body.now → HoldsPair store.now whole depth result }
{
    for place in 0..body.len() {
        if place < made.len() && store.reach(body[place]) > depth {
            return Pair::Inside(body[place], made[place], depth);
        }
    }
    Pair::Nowhere
}

/// What stands in the second term where the first has the name of so many binders further out.
fn look_under(store: &Store, body: TermId, made: TermId, depth: usize) -> Pair
    requires body { Holds store.now body }
    requires made { Holds store.now made }
    requires depth { depth + body.0 < 2 ^ 64 }
    ensures { HoldsPair store.now body depth result }
{
    match (store.view(body), store.view(made)) {
        (Node::Lam(_, _, inner), Node::Lam(_, _, other)) => {
            Pair::Inside(*inner, *other, depth + 1)
        }
        (Node::Spine(head, args), Node::Spine(other, others)) => match (*head, *other) {
            (Head::Index(index), Head::Cell(cell)) if index == depth => Pair::Found(cell),
            _ => first_inside(store, args.as_slice(), others.as_slice(), depth),
        },
        _ => Pair::Nowhere,
    }
}

/// The cell that stands in the second term where the first has the name of so many binders further out.
fn cell_between(store: &Store, body: TermId, made: TermId, depth: usize) -> Option<CellId>
    requires body { Holds store.now body }
    requires made { Holds store.now made }
    requires depth { depth + body.0 < 2 ^ 64 }
    ensures { IfSome result (HoldsCell store.now) }
{
    match look_under(store, body, made, depth) {
        Pair::Found(cell) => Some(cell),
        Pair::Nowhere => None,
        Pair::Inside(left, right, further) => cell_between(store, left, right, further),
    }
}

/// The cell that stands in the instance for the name that the body binds, if that stands anywhere.
pub(crate) fn cell_for_name(store: &Store, body: TermId, made: TermId) -> Option<CellId>
    requires body { Holds store.now body }
    requires made { Holds store.now made }
    ensures { IfSome result (HoldsCell store.now) }
{
    let Node::Lam(_, _, inner) = store.view(body) else {
        return None;
    };
    if store.reach(*inner) == 0 {
        return None;
    }
    cell_between(store, *inner, made, 0)
}
