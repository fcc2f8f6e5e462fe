//! Numbers, and the nominal names that hold one.
ghost use Rattle.std.specs.Prelude.{◌≡◌, ◌≤◌, ◌<◌, ◌↔◌, ℕ, IsTrue, MatchOption};
ghost use Rattle.std.specs.List.{list_all};
ghost use Rattle.std.specs.Char.{is_ascii_digit};
ghost use Rattle.std.specs.Str.Parse.{digits_value};
ghost use Rattle.ab_grammar.specs.CommandTable.{IsNominal, IsDeclarable};
ghost use Rattle.ab_expressions.specs.Digits.{IsShort, IsPositive, HasNominalForm};

/// Whether all bytes are decimal digits.
pub(crate) fn are_digits(bytes: &[u8]) -> bool
    ensures { result ≡ list_all is_ascii_digit bytes.now }
{
    bytes.iter().all(u8::is_ascii_digit)
}

/// The number that at most nine digits write.
pub(crate) fn value(digits: &[u8]) -> u32
    requires { IsShort digits.now }
    ensures value { result ≡ digits_value 10 digits.now }
    ensures below { result ≤ 999999999 }
{
    let mut value: u32 = 0;
    for digit in digits {
        value = value * 10 + (*digit - b'0') as u32;
    }
    value
}

/// Whether bytes write a number from 1 to 999,999,999 without a leading zero.
fn is_positive(bytes: &[u8]) -> bool
    ensures { IsTrue result ↔ IsPositive bytes.now }
{
    !bytes.is_empty() && bytes.len() <= 9 && bytes[0] != b'0' && are_digits(bytes)
}

/// Whether a word is `n` and such a number.
fn is_nominal(word: &[u8]) -> bool
    ensures { IsTrue result ↔ HasNominalForm word.now }
{
    word.len() > 1 && word[0] == b'n' && is_positive(&word[1..])
}

/// The number of a nominal name.
pub(crate) fn nominal(word: &[u8]) -> Option<u32>
    ensures { MatchOption result ((n : ℕ) → IsNominal word.now n → ⊥) (IsNominal word.now) }
{
    if !is_nominal(word) {
        return None;
    }
    Some(value(&word[1..]))
}

/// Whether a word may name a kind, a constant or a predicate: it begins with a small letter and is no nominal name.
pub(crate) fn is_declarable(word: &[u8]) -> bool
    ensures { IsTrue result ↔ IsDeclarable word.now }
{
    !word.is_empty() && word[0].is_ascii_lowercase() && nominal(word).is_none()
}
