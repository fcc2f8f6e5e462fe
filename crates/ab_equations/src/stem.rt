//! Names without the digits at their end.
ghost use Rattle.std.specs.Prelude.{◌≡◌, ℕ, ◌-◌, ◌<◌, ◌≤◌, IfOk, length, slice_index, true, false};
ghost use Rattle.ab_formulas.specs.NewNames.{IsDigit, IsStem};

use ab_norm::name::Name;
use std::alloc::{AllocError, Global};

/// Where the digits at the end of the bytes begin.
fn stem_end(bytes: &[u8]) -> usize
    ensures within { result ≤ length bytes.now }
    ensures digits { (i : ℕ) → result ≤ i → i < length bytes.now → IsDigit (slice_index bytes.now i) }
    ensures stops { 0 < result → ¬ IsDigit (slice_index bytes.now (result - 1)) }
{
    let mut end = bytes.len();
    while end > 0 && is_digit(bytes[end - 1]) {
        end -= 1;
    }
    end
}

/// Whether the byte is a digit.
fn is_digit(byte: u8) -> bool
    ensures yes { result ≡ true → IsDigit byte }
    ensures no { result ≡ false → ¬ IsDigit byte }
{
    byte >= b'0' && byte <= b'9'
}

/// The name without the digits at its end.
pub(crate) fn stem(alloc: Global, name: &Name) -> Result<Name, AllocError>
    ensures { IfOk result (λ stem. IsStem name.now stem) }
{
    let text = name.as_str();
    let end = stem_end(text.as_bytes());
    Name::from_text(alloc, &text[..end])
}
