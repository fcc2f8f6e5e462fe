//! What the line of words that the program is called with asks for, and which lines are refused.
#![tactic(auto)]

mod line;
mod words;

pub use line::{Line, Script, read_line};
pub use words::LineFault;
