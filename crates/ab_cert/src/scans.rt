//! The bytes of a text: whether one is next, and how far names and numbers go.
ghost use Rattle.std.specs.Prelude.{◌≡◌, ◌≤◌, ◌^◌, length, drop};
ghost use Rattle.ab_cert.specs.Reading.{is_led};
ghost use Rattle.ab_cert.specs.Shapes.{IsNameScan};
ghost use Rattle.ab_cert.specs.Counts.{IsCountScan};

use crate::count::Count;
use crate::shape::Shape;

/// Whether this byte stands at the place.
pub(crate) fn is_next(bytes: &[u8], at: usize, byte: u8) -> bool
    requires { at ≤ length bytes.now }
    ensures { result ≡ is_led (drop at bytes.now) byte }
{
    at < bytes.len() && bytes[at] == byte
}

/// How far a name goes from `start` on, and what was read of it.
pub(crate) fn scan_name(bytes: &[u8], start: usize) -> (usize, Shape)
    requires { start ≤ length bytes.now }
    ensures { IsNameScan bytes.now start result.0 result.1 }
{
    let mut at = start;
    let mut shape = Shape::Start;
    'name: while at < bytes.len() {
        match shape.next(bytes[at]) {
            Some(next) => {
                shape = next;
                at += 1;
            }
            None => return (at, shape),
        }
    }
    (at, shape)
}

/// How far a number below the limit goes from `start` on, and what was read of it.
pub(crate) fn scan_number(bytes: &[u8], start: usize, limit: u128) -> (usize, Count)
    requires start { start ≤ length bytes.now }
    requires limit { limit ≤ 10 ^ 30 }
    ensures { IsCountScan limit bytes.now start result.0 result.1 }
{
    let mut at = start;
    let mut count = Count::Nothing;
    'number: while at < bytes.len() {
        match count.next(bytes[at], limit) {
            Some(next) => {
                count = next;
                at += 1;
            }
            None => return (at, count),
        }
    }
    (at, count)
}
