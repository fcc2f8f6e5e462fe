//! Reads the tokens of a text, piece by piece: blanks, comments and tokens.

ghost use Rattle.std.specs.Prelude.{true, ◌≡◌, ◌<◌, ◌≤◌, ◌+◌, ◌∷◌, length, drop, take, IfOk, IfErr, All, AllPairs};
ghost use Rattle.ab_lex.specs.Units.{quote, LineEnds};
ghost use Rattle.ab_lex.specs.Tokens.{is_word_byte as is_word_byte_of, TokensOf, Explains, BeginsAt, StandsIn, Follows};
ghost use Rattle.ab_lex.specs.Reader.{tail_size, begins_alphanumeric, is_single as is_single_of, is_pair as is_pair_of, sign_size as sign_size_of, opens_at, IsPlainByte, StandsAt};
ghost use Rattle.std.specs.Char.{is_ascii_digit};
ghost use Rattle.std.specs.List.{prefix_len};

use crate::scanner::{Mode, is_blank, unit_end};
use crate::token::{LexFault, Span, Token, TokenKind};
use std::alloc::{AllocError, Global};

/// What stands at the front of bytes, with the number of its bytes.
#[derive(Clone, Copy)]
enum Piece {
    /// A blank or a whole comment.
    Gap(usize),
    Token(TokenKind, usize),
    BadByte,
    OpenString,
    OpenComment,
}

/// A letter, a digit, `_` or `'`.
fn is_word_byte(byte: u8) -> bool
    ensures { result ≡ is_word_byte_of byte }
{
    byte.is_ascii_alphanumeric() || byte == b'_' || byte == b'\''
}

/// How many bytes at the front go on with a word.
fn word_tail(bytes: &[u8]) -> usize
    ensures size { result ≡ tail_size bytes.now }
    ensures within { result ≤ length bytes.now }
{
    for (i, byte) in bytes.iter().enumerate() {
        let joins = *byte == b'-' && i + 1 < bytes.len() && bytes[i + 1].is_ascii_alphanumeric();
        if !is_word_byte(*byte) && !joins {
            return i;
        }
    }
    bytes.len()
}

/// How many digits stand at the front.
fn digits(bytes: &[u8]) -> usize
    ensures size { result ≡ prefix_len is_ascii_digit bytes.now }
    ensures within { result ≤ length bytes.now }
{
    for (i, byte) in bytes.iter().enumerate() {
        if !byte.is_ascii_digit() {
            return i;
        }
    }
    bytes.len()
}

fn is_single(byte: u8) -> bool
    ensures { result ≡ is_single_of byte }
{
    b"(){}[],;:=\\&*.".contains(&byte)
}

fn is_pair(first: u8, second: u8) -> bool
    ensures { result ≡ is_pair_of first second }
{
    match first {
        b':' => matches!(second, b'=' | b'-' | b':'),
        b'-' | b'=' => second == b'>',
        b'/' => second == b'\\',
        b'\\' => second == b'/',
        b'|' => second == b'-',
        _ => false,
    }
}

/// How many bytes the longest sign has that begins with `first`; none is 0. A comment that begins at a sign's second
/// byte takes that byte away.
fn sign_size(first: u8, rest: &[u8]) -> usize
    ensures { result ≡ sign_size_of first rest.now }
{
    if first == b'#' && rest.starts_with(b"reset") {
        return 6;
    }
    if first == b'#' && rest.starts_with(b"back") {
        return 5;
    }
    match rest {
        [second, behind @ ..] if is_pair(first, *second) && !opens_comment(*second, behind) => 2,
        _ => is_single(first) as usize,
    }
}

/// How many bytes a line comment has behind its `%`.
fn line_comment(bytes: &[u8]) -> usize
    ensures within { result ≤ length bytes.now }
    ensures ends { LineEnds bytes.now (drop result bytes.now) }
{
    unit_end(Mode::Line, bytes).unwrap_or(bytes.len())
}

/// Whether a block comment begins with `first`.
fn opens_comment(first: u8, rest: &[u8]) -> bool
    ensures { result ≡ opens_at first rest.now }
{
    first == b'/' && !rest.is_empty() && rest[0] == b'*'
}

fn string_at(first: u8, rest: &[u8]) -> Piece
    requires { first ≡ quote }
    ensures { StandsAt (first ∷ rest.now) result }
{
    match unit_end(Mode::Quoted, rest) {
        Some(size) => Piece::Token(TokenKind::Text, 1 + size),
        None => Piece::OpenString,
    }
}

fn comment_at(first: u8, rest: &[u8]) -> Piece
    requires { opens_at first rest.now ≡ true }
    ensures { StandsAt (first ∷ rest.now) result }
{
    match unit_end(Mode::Block(0), &rest[1..]) {
        Some(size) => Piece::Gap(2 + size),
        None => Piece::OpenComment,
    }
}

/// What stands where neither a blank nor a comment nor a string begins.
fn token_at(first: u8, rest: &[u8]) -> Piece
    requires { IsPlainByte first rest.now }
    ensures { StandsAt (first ∷ rest.now) result }
{
    if first.is_ascii_alphabetic() {
        return Piece::Token(TokenKind::Word, 1 + word_tail(rest));
    }
    if first == b'_' {
        return Piece::Token(TokenKind::Word, 1);
    }
    if first.is_ascii_digit() {
        return Piece::Token(TokenKind::Number, 1 + digits(rest));
    }
    let size = sign_size(first, rest);
    if size == 0 {
        Piece::BadByte
    } else {
        Piece::Token(TokenKind::Sign, size)
    }
}

/// What stands at the front of `first` and the bytes behind it.
fn piece_at(first: u8, rest: &[u8]) -> Piece
    ensures { StandsAt (first ∷ rest.now) result }
{
    if is_blank(first) {
        return Piece::Gap(1);
    }
    if first == b'%' {
        return Piece::Gap(1 + line_comment(rest));
    }
    if first == b'"' {
        return string_at(first, rest);
    }
    if opens_comment(first, rest) {
        return comment_at(first, rest);
    }
    token_at(first, rest)
}

/// The tokens of a text, in order, or the first byte that is at fault.
pub fn tokens(alloc: Global, bytes: &[u8]) -> Result<Vec<Token>, LexFault>
    ensures tokens { IfOk result (λ ts. TokensOf bytes.now ts.items) }
    ensures fault { IfErr result (λ fault. Explains bytes.now fault) }
    ensures form { IfOk result (λ ts. All (StandsIn bytes.now) ts.items) }
    ensures order { IfOk result (λ ts. AllPairs Follows ts.items) }
{
    let mut tokens = Vec::new(alloc);
    let mut place = 0;
    while place < bytes.len() {
        match piece_at(bytes[place], &bytes[place + 1..]) {
            Piece::Gap(size) => place += size,
            Piece::Token(kind, size) => {
                let span = Span {
                    start: place,
                    end: place + size,
                };
                if tokens.push(Token { kind, span }).is_err() {
                    return Err(LexFault::Memory(AllocError));
                }
                place += size;
            }
            Piece::BadByte => return Err(LexFault::BadByte(place)),
            Piece::OpenString => return Err(LexFault::OpenString(place)),
            Piece::OpenComment => return Err(LexFault::OpenComment(place)),
        }
    }
    Ok(tokens)
}

/// The place of the first byte that is in no blank and no whole comment; where there is none, the number of bytes.
pub fn first_place(bytes: &[u8]) -> usize
    ensures { BeginsAt bytes.now result }
{
    let mut place = 0;
    while place < bytes.len() {
        match piece_at(bytes[place], &bytes[place + 1..]) {
            Piece::Gap(size) => place += size,
            _ => return place,
        }
    }
    place
}
