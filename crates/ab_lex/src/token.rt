//! What the tokens of a text are called, and what may be wrong with its bytes.

use std::alloc::AllocError;
use thiserror::Error;

/// A range of bytes: from `start` up to, and not including, `end`.
#[derive(Clone, Copy)]
pub struct Span {
    pub start: usize,
    pub end: usize,
}

#[derive(Clone, Copy)]
pub enum TokenKind {
    /// A letter with the letters, digits, `_`, `'` and inner `-` behind it, or `_` alone.
    Word,
    /// A run of decimal digits.
    Number,
    /// A string, its quotes included.
    Text,
    /// A sign of one byte or two, `#back` or `#reset`.
    Sign,
}

/// A token, and where it stands among the bytes that were read.
#[derive(Clone, Copy)]
pub struct Token {
    pub kind: TokenKind,
    pub span: Span,
}

/// Why bytes have no tokens: the place of the first byte that is at fault.
#[derive(Clone, Copy, Debug, Drop, Error)]
pub enum LexFault {
    /// A byte that begins no token.
    #[error("BadByte")]
    BadByte(usize),
    /// The opening quote of a string that doesn't end.
    #[error("OpenString")]
    OpenString(usize),
    /// The first byte of a block comment that doesn't end.
    #[error("OpenComment")]
    OpenComment(usize),
    /// There was no memory for the tokens.
    #[error("Memory")]
    Memory(AllocError),
}
