//! All faults of a text that can be told apart, and what is told of them to a person.
//!
//! A text that means nothing has one fault: its first faulty line, with the lowest cause in it. [`faults_message`] tells that one and those
//! behind it: a line that is told is taken as a blank one, and what is left has its own first fault. What may follow from an earlier fault
//! is not told: `specs/Doubts` says what does, by the names on the lines, and `specs/FaultLists` which faults are listed, in which order.
#![tactic(auto)]

mod doubt;
mod fault;
mod list;
mod message;
mod names;
mod opening;

pub use fault::Fault;
pub use list::{Others, list_others};
pub use message::faults_message;
