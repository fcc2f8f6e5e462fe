//! Refusals of what stands in a file.
ghost use Rattle.std.specs.Prelude.{◌≡◌};
ghost use Rattle.ab_specification.specs.FileDeclarations as told;

use ab_declare::{Place, Refusal};
use ab_norm::name::Name;

/// The refusal, with the file in which that stands which is refused.
pub(crate) fn in_file(refusal: Refusal, file: Name) -> Refusal
    ensures { result ≡ told.in_file file refusal }
{
    match refusal {
        Refusal::Syntax(place) => Refusal::Syntax(place_in(place, file)),
        Refusal::Unknown(name, _) => Refusal::Unknown(name, Some(file)),
        Refusal::Clash(name, _) => Refusal::Clash(name, Some(file)),
        Refusal::TypeClash(place) => Refusal::TypeClash(place_in(place, file)),
        Refusal::Untyped(place) => Refusal::Untyped(place_in(place, file)),
        Refusal::BadHead(number, _) => Refusal::BadHead(number, Some(file)),
        Refusal::TooNested(place) => Refusal::TooNested(place_in(place, file)),
        other => other,
    }
}

/// The place, in the file.
fn place_in(place: Place, file: Name) -> Place
    ensures { result ≡ told.place_in file place }
{
    Place {
        at: place.at,
        file: Some(file),
    }
}
