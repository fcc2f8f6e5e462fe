//! A script as a text that is edited: after each edit the replay stands at the longest kept prefix of the text's
//! commands, and the commands before the edit aren't run again.
#![tactic(auto)]

mod document;
mod laws;
mod moves;
mod text;

pub use document::{Document, EditFault};
pub use laws::no_longer_prefix;
