//! Histories of requests with their answers, and how a gate replies to requests.
//!
//! An [`Entry`] is a request with its [`Answer`]. A gate is asked one request after another; to each there is one [`Reply`]: a
//! [`Receipt`] of the entry that it made, or a [`GateFault`], which changes nothing. `specs/` says which lists of entries are legal
//! histories and what a list of replies says of the gate before and after it, whatever judges the requests; whether an answer is right is
//! for `model_races`. In this order:
//!
//! - `Entries`: which event of control an entry is, so that a history of entries has a dag.
//! - `Shapes`: how many cells and which reducers there are, and the limits.
//! - `Legal`: which answers belong to an act, and which histories are legal.
//! - `Extensions`: longer histories, finished ones, and clean ones, in which nothing was refused.
//! - `States`: what a gate shows, and how it begins.
//! - `Faults`: why a request is not answered: the first of six causes.
//! - `Replies`: one reply to each request, by which the history grows by one entry or stays.
//! - `Admission`: each request that some answer may follow gets an entry, but for a fault of the gate itself.
#![tactic(auto)]

mod answer;
mod fault;
mod reply;

pub use answer::{Answer, Entry};
pub use fault::GateFault;
pub use reply::{Receipt, Reply};
