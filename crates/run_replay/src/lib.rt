//! Replays of runs: whether the entries of a history are a run of a program.
//!
//! [`replay`] carries the theorem in its contract: it is Ok only on a finished run, and otherwise says how far the entries are one. One
//! frame for each spawned function asks, and a fresh core of the gate answers, which keeps no entries; an entry is strange where it is
//! another request, or has another answer. [`follow`] says the same of entries that are known to be judged, by the frames alone.
//! [`find_wraps`] tells which indexes wrap in them.
#![tactic(auto)]

mod frame_table;
mod replays;
mod turn;
mod wraps;

pub use replays::{ReplayFault, follow, replay};
pub use turn::Misfit;
pub use wraps::{Wraps, find_wraps};
