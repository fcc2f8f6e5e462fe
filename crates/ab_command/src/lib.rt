//! What the bytes of a command say, where a proof is open or none is.
#![tactic(auto)]

mod built_commands;
mod command_reader;
mod fault;
pub mod laws;

pub use command_reader::read_command;
pub use fault::{Cause, Unread};
