//! A token, with its bytes and its place.
ghost use Rattle.std.specs.Prelude.{◌≡◌, ◌<◌, All};
ghost use Rattle.ab_expressions.specs.declared.kind.Kind.TheVariants.{Number, Text};
ghost use Rattle.ab_expressions.specs.Kinds.{IsWordKind};
ghost use Rattle.ab_expressions.specs.Digits.{IsShort, IsQuoted};

use crate::kind::Kind;

/// A token, as the grammar sees it, with its bytes and its place. A word is ASCII, a number is made of digits, and a quoted text has its quotes.
#[derive(Clone, Copy, Drop)]
pub struct Seen<'a> {
    pub kind: Kind,
    pub written: &'a [u8],
    pub place: usize,
    ghost spelled: { IsWordKind kind → All (λ b. b < 128) written.now },
    ghost short: { kind ≡ Number → IsShort written.now },
    ghost quoted: { kind ≡ Text → IsQuoted written.now },
}
