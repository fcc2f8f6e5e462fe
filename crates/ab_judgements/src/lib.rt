//! Judgements of the specification logic on shared terms: the judgement that a formula is, goals opened in a list, whether it
//! is known by which rules a judgement may hold, and what may be analysed and unfolded; the parts of a formula in focus, and
//! what is put together of them. What all this means is told by `ab_theory`.
#![tactic(auto)]

mod clause_demands;
mod constants;
mod demands;
mod first_ways;
mod part_cells;
mod part_demands;
mod part_instances;
mod replaced_constants;
mod rule_cases;
mod rule_matches;
mod rule_places;
mod rule_unfoldings;
mod rules;
mod subject_marks;
mod subject_splits;
mod subject_unfoldings;
mod subjects;

pub use ab_alternatives as alternatives;
pub use ab_judgement_forms::{
    Judgement, Kind, Part, PartName, as_judgement, as_unfocused, cut_list, is_within, judgement_of,
    kind_of, list_type, open_goal, parts, some_item,
};
pub use constants::judgement_constants;
pub use demands::{DemandTerm, Rule, make_demand};
pub use first_ways::first_way;
pub use replaced_constants::replace_constants;
pub use rule_places::{Ruled, Source, last_place, rule_at, with_rules};
pub use rules::knows_rules;
pub use subject_marks::sign_of;
pub use subject_splits::split_subject;
pub use subject_unfoldings::unfold_subject_at;
pub use subjects::{Subject, subject_of};
