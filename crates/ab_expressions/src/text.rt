//! A text that is read token by token.
ghost use Rattle.std.specs.Prelude.{◌≡◌, ◌<◌, length, All, IfOk, IsTrue, Some, ◌↔◌, option_map};
ghost use Rattle.ab_grammar.specs.Language.{Key};
ghost use Rattle.ab_grammar.proofs.Following.{Anything, first};
ghost use Rattle.ab_expressions.specs.Tokens.{IsTokenOf, StandIn, token_of};
ghost use Rattle.ab_expressions.specs.Kinds.{key_of, IsKey, IsWordKind};
ghost use Rattle.ab_expressions.specs.Reader.{AreSeen, place_of, seen, rest, next_or_stop as next_or_stop_of, Found, IsTaken, IsClosedBy};

use crate::kind::{Kind, kind_of};
use crate::located_tokens::Seen;
use crate::stop::Stop;
use ab_lex::Token;
use ab_name::Name;
use std::alloc::{AllocError, Global};

/// The tokens of a text as the grammar sees them, the place behind them all, and the memory for what is read of them.
#[derive(Clone, Copy, Drop)]
pub struct Text<'a> {
    pub alloc: Global,
    pub tokens: &'a [Seen<'a>],
    pub end: usize,
}

/// A token of the bytes, as the grammar sees it.
pub fn see<'a>(bytes: &'a [u8], origin: usize, token: Token) -> Seen<'a>
    requires { IsTokenOf bytes.now origin token }
    ensures token { seen result ≡ token_of bytes.now origin token }
    ensures place { result.place ≡ place_of origin token }
{
    let written = &bytes[token.span.start..token.span.end];
    Seen {
        kind: kind_of(token.kind, written),
        written,
        place: token.span.start - origin,
    }
}

/// All tokens of a text, as the grammar sees them. Places are counted from `origin`.
pub fn see_all<'a>(
    alloc: Global,
    bytes: &'a [u8],
    tokens: &[Token],
    origin: usize,
) -> Result<Vec<Seen<'a>>, AllocError>
    requires { StandIn bytes.now origin tokens.now }
    ensures { IfOk result (λ all. AreSeen bytes.now origin tokens.now all.items) }
{
    let mut all = Vec::new(alloc);
    for token in tokens {
        all.push(see(bytes, origin, *token))?;
    }
    Ok(all)
}

/// The next token, if there is one.
pub fn next<'a>(text: &Text<'a>, here: usize) -> Option<Seen<'a>>
    ensures { option_map seen result ≡ first (rest text.now here) }
{
    if here < text.tokens.len() {
        Some(text.tokens[here])
    } else {
        None
    }
}

/// The next token; behind them all a full stop, with which no expression and no type goes on.
pub(crate) fn next_or_stop<'a>(text: &Text<'a>, here: usize) -> Seen<'a>
    ensures { seen result ≡ next_or_stop_of (rest text.now here) }
{
    if here < text.tokens.len() {
        text.tokens[here]
    } else {
        Seen {
            kind: Kind::Stop,
            written: b"",
            place: 0,
        }
    }
}

/// Whether the next token is the key.
pub fn is_next(text: &Text<'_>, here: usize, key: Kind) -> bool
    requires { IsKey key }
    ensures next { IsTrue result ↔ (first (rest text.now here) ≡ Some (key_of key)) }
    ensures within { IsTrue result → here < length text.now.tokens.now }
{
    here < text.tokens.len() && text.tokens[here].kind == key
}

/// Takes the next token where it is the key, and says whether it is.
pub fn takes(text: &Text<'_>, here: &mut usize, key: Kind) -> bool
    requires { IsKey key }
    ensures { IsTaken (key_of key) (rest text.now here.old) (rest text.now here.new) result }
{
    let there = is_next(text, *here, key);
    if there {
        *here += 1;
    }
    there
}

/// Takes the next token, if it is the key.
pub fn expect(text: &Text<'_>, here: &mut usize, key: Kind) -> Result<(), Stop>
    requires { IsKey key }
    ensures { Found (Key (key_of key)) Anything (λ u. u) (rest text.now here.old) (rest text.now here.new) result }
{
    if takes(text, here, key) {
        Ok(())
    } else {
        Err(Stop::Syntax)
    }
}

/// Takes the key behind a part, if that was read.
pub fn close_part<T: Drop>(
    text: &Text<'_>,
    here: &mut usize,
    key: Kind,
    part: Result<T, Stop>,
) -> Result<T, Stop>
    requires { IsKey key }
    ensures { IsClosedBy (key_of key) (rest text.now here.old) (rest text.now here.new) part result }
{
    match part {
        Ok(value) => match expect(text, here, key) {
            Ok(()) => Ok(value),
            Err(stop) => Err(stop),
        },
        Err(stop) => Err(stop),
    }
}

/// A word that is ASCII, as a name.
pub fn spell(alloc: Global, written: &[u8]) -> Result<Name, AllocError>
    requires { All (λ b. b < 128) written.now }
    ensures { IfOk result (λ name. name ≡ written.now) }
{
    match str::from_utf8(written) {
        Ok(word) => Name::from_text(alloc, word),
        Err(_) => unreachable!(),
    }
}

/// The name of a token that is a word.
pub fn name_of(alloc: Global, token: Seen<'_>) -> Result<Name, AllocError>
    requires { IsWordKind token.kind }
    ensures { IfOk result (λ name. name ≡ token.entry.written.now) }
{
    spell(alloc, token.written)
}
