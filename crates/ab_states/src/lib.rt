//! What a session is to whoever reads its replies: states, replies and the effect of each command.
#![tactic(auto)]

pub mod laws;
mod names;
mod reply;

pub use ab_kernel as kernel;
pub use ab_specification as specification;
pub use names::Names;
pub use reply::Reply;
