//! Splits a text into commands as its bytes come, and reads the tokens of a command.
//!
//! A [`Splitter`] is fed the text in pieces of any size and gives its commands one by one, whatever the
//! pieces. [`tokens`] reads one command's bytes.
#![tactic(auto)]

mod laws;
mod scanner;
mod splitter;
mod token;
mod tokenizer;

pub use laws::{
    one_beginning, one_list_is_awaited, one_reading, one_row_of_units, one_splitting,
    only_strings_are_more_than_ascii, same_for_every_cut, spacing_changes_no_token,
};
pub use splitter::{Next, Splitter};
pub use token::{LexFault, Span, Token, TokenKind};
pub use tokenizer::{first_place, tokens};

/// A command of more bytes than this, its full stop included, is not given but told to be too long.
pub const COMMAND_LIMIT: usize = 1_048_576;
