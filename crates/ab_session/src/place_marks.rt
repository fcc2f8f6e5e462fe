//! Places that are marked.
ghost use Rattle.std.specs.Prelude.{◌≡◌, ◌++◌, ℕ, List, length, IfOk};
ghost use Rattle.ab_theory.specs.Assumptions.{in_order};
ghost use Rattle.ab_session.specs.PlaceMarks.{Marks};

use std::alloc::{AllocError, Global};

/// Marks these places, those that have a mark.
pub(crate) fn mark_places(marks: &mut [bool], places: &[usize])
    ensures length { length marks.new ≡ length marks.old }
    ensures marked { (js : List ℕ) → Marks marks.old js → Marks marks.new (js ++ places.now) }
{
    for place in places {
        if *place < marks.len() {
            marks[*place] = true;
        }
    }
}

/// The places that are marked, in growing order.
pub(crate) fn marked_places(alloc: Global, marks: &[bool]) -> Result<Vec<usize>, AllocError>
    ensures { (js : List ℕ) → Marks marks.now js → IfOk result (λ places. places.items ≡ in_order (length marks.now) js) }
{
    let mut places = Vec::new(alloc);
    for (place, is_marked) in marks.iter().enumerate() {
        if *is_marked {
            places.push(place)?;
        }
    }
    Ok(places)
}
