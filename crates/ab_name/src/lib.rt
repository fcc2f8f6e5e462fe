//! Names, on which the readers and the layers of terms both stand.
#![tactic(auto)]

mod name;

pub use name::Name;
