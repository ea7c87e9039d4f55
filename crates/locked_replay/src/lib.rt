//! A gate behind its lock, and what the workers that ask it bring back.
//!
//! Any thread may ask a [`LockedGate`]. What lies under its lock is a gate with the total of all that was asked, and that total is the
//! length of the gate's history, which is judged. Each worker counts what it asked on a [`Seat`], a share of the total, and keeps the
//! receipts of the answers. [`gather`] takes the gate out of its lock, and answers Ok only where the receipts of all workers are the
//! history's entries, each once, and the history is a finished run of the program. Where nothing was refused in it, it is the program's
//! serial elision, and every run of the program agrees with it; [`laws::whole_law`] says so over the definitions alone. [`open_gate`]
//! makes the gate of a program.
#![tactic(auto)]

mod fault;
mod finishing;
pub mod laws;
mod locked;
mod logs;
mod opening;
mod receipts;
mod same;
mod seat;
mod whole;
mod worker;

pub use fault::RunFault;
pub use finishing::finished_logs;
pub use locked::{Ask, LockedGate};
pub use logs::check_logs;
pub use opening::open_gate;
pub use packed_history::Entries;
pub use run_replay::{ReplayFault, replay};
pub use seat::Seat;
pub use whole::{Whole, check_run, gather, is_clean, whole_of_gate};
pub use worker::WorkerLog;
