//! Answers exist: each text has a report.
#![tactic(auto)]

pub mod report_laws;
