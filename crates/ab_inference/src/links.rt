//! The variable at the end of a row of links.
ghost use Rattle.std.specs.Prelude.{◌≡◌, ◌≤◌, ◌<◌, length};
ghost use Rattle.ab_store.specs.ab_types.specs.Entries.{Table};
ghost use Rattle.ab_inference.specs.declared.shape.Shape.TheVariants.{Link};
ghost use Rattle.ab_inference.specs.Solutions.{AreFormed, AreHeld, IsRoot, shape_at, loose, Leads, Same, KeepsRoots};

use crate::shape::Shape;

/// A link of a variable to a linked one leads on from there.
fn shorten(shapes: &mut [Shape], here: usize, next: usize)
    requires formed { AreFormed shapes.old }
    requires here_in { here < length shapes.old }
    requires links { shape_at shapes.old here ≡ Link next }
    ensures formed { AreFormed shapes.new }
    ensures held { (types : Table) → AreHeld types shapes.old → AreHeld types shapes.new }
    ensures same { (types : Table) → Same types shapes.old shapes.new }
    ensures roots { KeepsRoots shapes.old shapes.new }
    ensures as_many { loose shapes.new ≡ loose shapes.old }
{
    if let Shape::Link(after) = shapes[next] {
        shapes[here] = Shape::Link(after);
    }
}

/// The variable at the end of the links from this one.
pub(crate) fn find(shapes: &mut [Shape], i: usize) -> usize
    requires formed { AreFormed shapes.old }
    requires i_in { i < length shapes.old }
    ensures formed { AreFormed shapes.new }
    ensures held { (types : Table) → AreHeld types shapes.old → AreHeld types shapes.new }
    ensures below { result ≤ i }
    ensures root { IsRoot (shape_at shapes.new result) }
    ensures leads { (types : Table) → Leads types shapes.new i result }
    ensures same { (types : Table) → Same types shapes.old shapes.new }
    ensures roots { KeepsRoots shapes.old shapes.new }
    ensures as_many { loose shapes.new ≡ loose shapes.old }
{
    let mut here = i;
    while let Shape::Link(next) = shapes[here] {
        shorten(shapes, here, next);
        here = next;
    }
    here
}
