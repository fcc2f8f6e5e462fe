//! Names for what is new, and equations of a goal that are solved.
#![tactic(auto)]

mod carried_goals;
mod cases;
mod cells;
mod label;
pub mod laws;
mod nominal;
mod solutions;
mod stand_ins;
mod stem;
mod variable;

pub use cases::{CaseSolution, solve_case};
pub use cells::goals_are_over_cells;
pub use label::{Label, name_by};
pub use solutions::{Solution, solve_in};
pub use variable::variable_name;
