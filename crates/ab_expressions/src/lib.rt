//! Expressions and types as trees, read from tokens by a machine whose stack is a list: no nesting of the text can be too deep for it.
#![tactic(auto)]

mod binder_tokens;
mod build;
mod closed_brackets;
mod fault;
mod frame;
mod items;
mod kind;
mod located_tokens;
mod machine;
mod nesting;
mod stack;
mod step;
mod stop;
mod text;
mod tree;
mod types;
mod words;

pub use build::{new_box, place_of};
pub use fault::ParseFault;
pub use items::Items;
pub use kind::Kind;
pub use located_tokens::Seen;
pub use step::read_expression;
pub use stop::Stop;
pub use text::{Text, close_part, expect, is_next, name_of, next, see, see_all, spell, takes};
pub use tree::{Binder, Parse, TypeParse};
pub use types::read_type;
pub use words::{COMMANDS, PROOF_COMMANDS, lookup, takes_label};
