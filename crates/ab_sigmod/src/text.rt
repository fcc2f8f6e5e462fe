//! The text of a file, as it is read.

use ab_lex::Token;

/// The text of a file, and how many of its tokens were read.
#[derive(Drop)]
pub(crate) struct FileText {
    pub(crate) bytes: Vec<u8>,
    pub(crate) tokens: Vec<Token>,
    pub(crate) here: usize,
}
