//! The judge of a serial run: which accesses of a C program race, as they come.
//!
//! A [`SerialJudge`] is told of each call, spawn, sync and return of a run in which each child is done before its spawner goes on.
//! [`SerialJudge::access`] carries the theorem in its contract: over every run that the judge follows, and every list of accesses that a
//! cell remembers, it answers a race exactly where an access of the list is of a conflicting kind and of a parallel strand of the dag, names
//! such an access, and gives a cell that remembers the list with the new access at its end. In a serial run, of parallel strands one is in a
//! child that has returned and that no sync has followed; since what accesses leave is numbered in the order of the run, those of such a
//! child are a span of numbers. `laws::later_law` says that what is remembered stays as the run goes on, and `laws::moved_law` that it stays
//! where records are given up ([`SerialJudge::end_mark`]).
#![tactic(auto)]

mod cell;
mod fault;
mod judge;
pub mod laws;
mod reads;
mod reclaim;
mod records;
mod scope;
mod spans;

pub use cell::{Cell, Judged, Race};
pub use fault::Fault;
pub use judge::SerialJudge;
pub use model_serial_runs::AccessKind;
pub use reclaim::{Marks, Moves};
