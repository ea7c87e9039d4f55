//! SARIF 2.1.0 of a record: what `explain --format json` prints, for code scanning and editors.
//!
//! [`log_value`] makes the log of a record. Its contract says that the log is `log_told` of the record, a function in `specs/Logs` from one
//! JSON value to another. So a log tells nothing that its record does not.
#![tactic(auto)]

mod access;
mod list;
mod log;
mod message;
mod object;
mod place;
mod reading;
mod related;
mod result;
mod rule;
mod words;

pub use log::log_value;
pub use object::Object;
