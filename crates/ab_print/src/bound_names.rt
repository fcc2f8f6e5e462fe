//! The name that a bound name is printed with.
ghost use Rattle.std.specs.Prelude.{◌≡◌, ◌≤◌, ◌<◌, ◌+◌, ◌-◌, ◌^◌, ℕ, List, length, IfOk, ◌++◌, decimal};
ghost use Rattle.ab_print.specs.PrintedNames as spec;
ghost use Rattle.ab_print.specs.PrintedNames.{is_in, fresh};
ghost use Rattle.ab_print.specs.Places.{places_at, any_within, IsInOrder};

use crate::drawings::Part;
use crate::places::{Places, is_used};
use itoa::Buffer;
use std::alloc::{AllocError, Global};

/// The name without the digits at its end.
fn stem(name: &[u8]) -> &[u8]
    ensures { result.now ≡ spec.stem name.now }
{
    match name {
        [front @ .., last] if last.is_ascii_digit() => stem(front),
        _ => name,
    }
}

/// The stem with a number.
fn numbered_stem(alloc: Global, stem: &[u8], number: usize) -> Result<Vec<u8>, AllocError>
    ensures { IfOk result (λ name. name.items ≡ stem.now ++ decimal number) }
{
    let mut name = Vec::from_slice(alloc, stem)?;
    let mut buffer = Buffer::new();
    name.extend_from_slice(buffer.format(number).as_bytes())?;
    Ok(name)
}

/// The name of a binder: its hint where no head in its part is called so, else the hint's stem and the first number from 1
/// on that makes such a name.
pub(crate) fn choose(
    alloc: Global,
    places: &Places,
    part: &Part,
    hint: &[u8],
) -> Result<Vec<u8>, AllocError>
    requires order { (x : List ℕ) → IsInOrder (places_at places.now x) }
    requires part { part.now.start ≤ part.now.end }
    requires short { part.now.end + 1 < 2 ^ 64 - 1 }
    ensures { IfOk result (λ name. (used : List (List ℕ)) → length used ≤ part.now.end - part.now.start →
        ((x : List ℕ) → is_in used x ≡ any_within (places_at places.now x) part.now.start part.now.end) → name.items ≡ fresh used hint.now) }
{
    if !is_used(places, part, hint) {
        let same = Vec::from_slice(alloc, hint)?;
        return Ok(same);
    }
    let stem = stem(hint);
    let most = part.end - part.start;
    for number in 1..most + 1 {
        let name = numbered_stem(alloc, stem, number)?;
        if !is_used(places, part, &name) {
            return Ok(name);
        }
    }
    let name = numbered_stem(alloc, stem, most + 1)?;
    Ok(name)
}
