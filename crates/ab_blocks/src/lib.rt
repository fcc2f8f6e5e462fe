//! The block that answers a command, as bytes.
#![tactic(auto)]

mod goals;
mod refusals;
mod replies;

pub use replies::block;
