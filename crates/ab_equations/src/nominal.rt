//! Names of nominal constants.
ghost use Rattle.std.specs.Prelude.{◌≡◌, ◌↔◌, IsTrue};
ghost use Rattle.std.specs.List.{list_all};
ghost use Rattle.std.specs.Char.{is_ascii_digit};
ghost use Rattle.ab_formulas.specs.NewNames.{IsNominalName};
ghost use Rattle.ab_formulas.specs.NominalDigits.{IsPositive, HasNominalForm};

use ab_norm::name::Name;

/// Whether all bytes are decimal digits.
fn are_digits(bytes: &[u8]) -> bool
    ensures { result ≡ list_all is_ascii_digit bytes.now }
{
    bytes.iter().all(|byte| byte.is_ascii_digit())
}

/// Whether bytes write a number from 1 to 999,999,999 without a leading zero.
fn is_positive(bytes: &[u8]) -> bool
    ensures { IsTrue result ↔ IsPositive bytes.now }
{
    !bytes.is_empty() && bytes.len() <= 9 && bytes[0] != b'0' && are_digits(bytes)
}

/// Whether the bytes are `n` and such a number.
fn has_nominal_form(word: &[u8]) -> bool
    ensures { IsTrue result ↔ HasNominalForm word.now }
{
    word.len() > 1 && word[0] == b'n' && is_positive(&word[1..])
}

/// Whether the name is that of a nominal constant.
pub(crate) fn is_nominal_name(name: &Name) -> bool
    ensures { IsTrue result ↔ IsNominalName name.now }
{
    has_nominal_form(name.as_str().as_bytes())
}
