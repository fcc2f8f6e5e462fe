//! What the files of a specification declare over a world, or the first item of them that is refused.
#![tactic(auto)]

mod clause;
mod files;
mod item;
mod refusal;
pub mod specification_laws;

pub use ab_declare as declare;
pub use files::declare_specification;
