//! The tokens of a text, as the grammar sees them.
ghost use Rattle.std.specs.Prelude.{◌≡◌, ◌≤◌, ℕ, length};
ghost use Rattle.std.specs.List.{list_all};
ghost use Rattle.ab_expressions.specs.Tokens.{token_by, is_text_byte as is_text_byte_of};
ghost use Rattle.ab_expressions.specs.Kinds.{meaning};

use crate::words::lookup;
use ab_lex::TokenKind;

/// A token, as the grammar sees it, without its bytes and its place.
#[derive(Clone, Copy, PartialEq, Eq)]
pub enum Kind {
    /// A word that isn't reserved.
    Word,
    /// `true` or `false`
    Truth,
    Forall,
    Exists,
    Nabla,
    Pi,
    Arrow,
    Or,
    And,
    Equal,
    Imply,
    /// `&`
    Both,
    Cons,
    LeftParen,
    RightParen,
    LeftBrace,
    RightBrace,
    LeftBracket,
    RightBracket,
    Turnstile,
    Backslash,
    Comma,
    Colon,
    Stop,
    Semicolon,
    /// `:=`
    Becomes,
    /// `:-`
    From,
    Star,
    /// `#back`
    Back,
    /// `#reset`
    Reset,
    By,
    To,
    With,
    On,
    Type,
    /// A number of at most nine digits.
    Number,
    /// A quoted text.
    Text,
    /// A number of ten digits or more, or a quoted text with a byte that it may not hold.
    Unusable,
}

const RESERVED: [(&[u8], Kind); 11] = [
    (b"forall", Kind::Forall),
    (b"exists", Kind::Exists),
    (b"nabla", Kind::Nabla),
    (b"true", Kind::Truth),
    (b"false", Kind::Truth),
    (b"pi", Kind::Pi),
    (b"by", Kind::By),
    (b"to", Kind::To),
    (b"with", Kind::With),
    (b"on", Kind::On),
    (b"type", Kind::Type),
];

const SIGNS: [(&[u8], Kind); 24] = [
    (b"->", Kind::Arrow),
    (b"\\/", Kind::Or),
    (b"/\\", Kind::And),
    (b"=", Kind::Equal),
    (b"=>", Kind::Imply),
    (b"&", Kind::Both),
    (b"::", Kind::Cons),
    (b"(", Kind::LeftParen),
    (b")", Kind::RightParen),
    (b"{", Kind::LeftBrace),
    (b"}", Kind::RightBrace),
    (b"[", Kind::LeftBracket),
    (b"]", Kind::RightBracket),
    (b"|-", Kind::Turnstile),
    (b"\\", Kind::Backslash),
    (b",", Kind::Comma),
    (b":", Kind::Colon),
    (b".", Kind::Stop),
    (b";", Kind::Semicolon),
    (b":=", Kind::Becomes),
    (b":-", Kind::From),
    (b"*", Kind::Star),
    (b"#back", Kind::Back),
    (b"#reset", Kind::Reset),
];

/// Whether a quoted text may hold the byte.
fn is_text_byte(byte: &u8) -> bool
    ensures { result ≡ is_text_byte_of byte.now }
{
    byte.is_ascii_alphanumeric() || b"_-./".contains(byte)
}

/// Whether a quoted text may hold these bytes.
fn is_text(bytes: &[u8]) -> bool
    ensures { result ≡ list_all is_text_byte_of bytes.now }
{
    bytes.iter().all(is_text_byte)
}

/// A token that the lexer gives, as the grammar sees it.
pub(crate) fn kind_of(kind: TokenKind, written: &[u8]) -> Kind
    requires { kind ≡ TokenKind.Text → 2 ≤ length written.now }
    ensures { (p : ℕ) → token_by kind written.now p ≡ meaning result written.now p }
{
    match kind {
        TokenKind::Word => lookup(&RESERVED, written).unwrap_or(Kind::Word),
        TokenKind::Number if written.len() <= 9 => Kind::Number,
        TokenKind::Text if is_text(&written[1..written.len() - 1]) => Kind::Text,
        TokenKind::Sign => lookup(&SIGNS, written).unwrap_or(Kind::Unusable),
        TokenKind::Number | TokenKind::Text => Kind::Unusable,
    }
}
