//! Judgements as formulas on shared terms: the judgement that a formula is, goals opened in a list, whether its rules are known,
//! the parts of a formula in focus, and scopes that are put together of names and terms. What all this means is told by `ab_theory`.
#![tactic(auto)]

mod cut_lists;
mod focus_parts;
mod goal_names;
mod goals;
mod judgements;
mod kinds;
mod list_items;
mod named_scopes;
mod opened_goals;
mod opened_scopes;
mod part_names;
mod raised_terms;
mod shapes;
mod undetermined_atoms;
mod unfocused_goals;
mod unused_names;
mod wider_lists;

pub use cut_lists::cut_list;
pub use focus_parts::{Part, parts};
pub use goal_names::{Sides, sides_of};
pub use goals::{cons_of, open_goal};
pub use judgements::{Judgement, as_judgement};
pub use kinds::{Kind, kind_of};
pub use list_items::{Membership, some_item, some_item_by, words_of};
pub use named_scopes::{put_over, stand_ins, under_cells};
pub use opened_goals::{Manner, open};
pub use opened_scopes::{Opening, demand_body};
pub use part_names::{PartName, copy_names, under_all};
pub use undetermined_atoms::{has_undetermined_atom, is_undetermined};
pub use unfocused_goals::{as_unfocused, judgement_of};
pub use wider_lists::{is_within, list_type};
