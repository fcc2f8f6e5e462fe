//! The syntax of commands, expressions, types, and of titles and items of specification files: what a list of tokens says, as a tree.
#![tactic(auto)]

mod answer;
mod block;
mod command;
mod command_heads;
mod file_items;
mod form;
mod goal_commas;
mod leaf;
mod list;
mod numbers;
mod parser;
mod part;
mod proof_row;
mod row;
mod spec_item;

pub use ab_expressions::{Binder, Items, Parse, ParseFault, TypeParse};
pub use command::{Argument, ClauseParse, Command, Defined, Instance, ProofCommand};
pub use command_heads::{stand_of, stand_of_from};
pub use file_items::{parse_item, parse_title};
pub use goal_commas::sentence_len;
pub use parser::{
    parse_command, parse_command_from, parse_expr, parse_expr_from, parse_type, parse_type_from,
};
pub use spec_item::{FileItem, SpecItem};
