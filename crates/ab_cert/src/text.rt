//! The pieces of a text, one after another.
ghost use Rattle.std.specs.Prelude.{◌≡◌, drop, decimal};
ghost use Rattle.ab_cert.specs.Tables.{IsLong, IsCount};
ghost use Rattle.ab_cert.specs.Splits.{is_plain as is_plain_byte, first_piece};
ghost use Rattle.ab_cert.specs.Forms.{left_of, Takes};

use crate::count::Count;
use crate::scans::scan_number;

/// Numbers of thirty digits are below this.
const LONG_LIMIT: u128 = 1_000_000_000_000_000_000_000_000_000_000;

/// What is still to be read of a text that is known to be good.
#[derive(Drop)]
pub(crate) struct Text<'a> {
    pub rest: &'a [u8],
}

/// Whether a byte is neither a space nor a line feed.
fn is_plain(byte: u8) -> bool
    ensures { result ≡ is_plain_byte byte }
{
    byte != b' ' && byte != b'\n'
}

/// Takes the next piece, and the byte behind it.
pub(crate) fn next_piece<'a>(text: &mut Text<'a>) -> &'a [u8]
    ensures piece { result.now ≡ first_piece (left_of text.old) }
    ensures left { left_of text.new ≡ drop 1 (left_of text.old) }
{
    let rest = text.rest;
    let mut end = 0;
    'piece: while end < rest.len() {
        if !is_plain(rest[end]) {
            text.rest = &rest[end + 1..];
            return &rest[..end];
        }
        end += 1;
    }
    text.rest = &rest[end..];
    rest
}

/// Takes a number of thirty digits at most.
pub(crate) fn next_number(text: &mut Text<'_>) -> u128
    ensures { Takes IsLong decimal (left_of text.old) result (left_of text.new) }
{
    match scan_number(next_piece(text), 0, LONG_LIMIT).1 {
        Count::Value(value) => value,
        Count::Nothing => 0,
    }
}

/// Takes a number of 64 bits.
pub(crate) fn next_count(text: &mut Text<'_>) -> usize
    ensures { Takes IsCount decimal (left_of text.old) result (left_of text.new) }
{
    usize::try_from(next_number(text)).unwrap_or(0)
}
