//! Runs of a program to their end, by many workers or by one in the serial order.
//!
//! [`run_by_workers`] has the workers of [`steal_workers`] ask one gate behind its lock, each request through a [`Door`], and gathers what
//! they bring back; [`run_in_serial_order`] gives the same run each time. The contract of both is that an answer is a finished run of the
//! program within the limit, with its memory and whether it is clean, and that each fault of an [`UnfinishedRun`] has its cause in the gate
//! that was left. Nothing here reads or writes a text.
#![tactic(auto)]

mod door;
mod running;

pub use door::{Door, OpenDoor};
pub use running::{UnfinishedRun, run_by_workers, run_in_serial_order};
