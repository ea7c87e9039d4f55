//! The races of a run or of a trace as JSON or SARIF, for programs.
//!
//! [`run_record`] and [`trace_record`] write what [`race_explanations`] tells a person: their contracts say that the bytes are the text of
//! one JSON value, which is a function in `specs/` of the same pairs, places and encounters, and of the warnings of a program; or of the
//! SARIF log of that value ([`sarif_logs`]). [`Records`] does so for several traces, and keeps the findings that
//! [`race_explanations::Findings`] keeps.
#![tactic(auto)]

mod access;
mod advice;
mod document;
mod form;
mod race;
mod several;
mod site;
mod unjudged;
mod value;
mod warning;

pub use document::{Outcome, run_record, trace_record};
pub use form::RecordForm;
pub use several::Records;
pub use unjudged::{faults_record, illegal_record};
pub use value::text_value;
