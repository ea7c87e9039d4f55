//! Workers that run a program together: what each of them does, and how what they bring back is put together.
//!
//! A [`Task`] is a frame of the program and the strand on which it goes on. A worker asks a gate for one task after another. At a spawn
//! the child's frame becomes a task of the worker's own deque, from which the others steal, and the spawner goes on; at a sync that waits,
//! the task is parked in the [`Lot`] under its join, where the last child wakes it. By the contract of `Worker::step`, a step that goes
//! well has asked what its task can go on with, and nothing else, and has kept that receipt; by the rule of each deque, `Lossless`, its
//! tasks are those that were pushed and not yet taken, each as often. `Worker::run` says that a join which is met twice shows in the last
//! receipt.
//!
//! [`run`] starts a thread for each worker but the first, which works on the thread of the caller, and joins them. Its contract carries the
//! theorem: it answers the logs of the workers, one for each, with a receipt of the run's end among them, and as many receipts as were
//! asked for on their seats; or the first of their faults. Whether the receipts are the gate's history is for `gather` of `locked_replay` to
//! say. That two workers run at once, and who gets a task that was stolen, is shown by tests and not proved. [`run_serially`] runs a program
//! by one worker that enters each child at its spawn.
#![tactic(auto)]

mod fault;
mod joining;
mod lot;
mod pass_log;
mod pool;
mod serial;
mod steal_handle;
mod task;
mod worker;
mod worker_deques;

pub use fault::{first_of, thread_fault_of};
pub use joining::Collection;
pub use lot::{Lot, LotFault};
pub use pool::run;
pub use serial::run_serially;
pub use task::Task;
pub use worker::Worker;
pub use worker_deques::{WorkerDeques, make_worker_deques};
