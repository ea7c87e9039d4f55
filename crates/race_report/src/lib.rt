//! The report of a run.
//!
//! [`report`] writes one JSON object: whether the run is clean, the number of its entries, what each memory holds, and each refusal with
//! its witness. Its contract says which text that is: the compact text of the JSON value `report_told` of `specs/ReportText`.
//! [`laws::schedules_law`] says what the report of a clean run promises of all runs of the program.
#![tactic(auto)]

mod json_report;
pub mod laws;
mod printer;
mod refusal;

pub use json_report::report;
