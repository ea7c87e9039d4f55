//! What one worker brings back.

use crate::seat::Seat;
use packed_history::Receipts;
use std::alloc::{Allocator, Global};
use std::sync::ledger::Ledger;

/// What one worker brings back: the seat on which it asked, and the receipts that it got, in the order in which it got them.
#[derive(Drop)]
pub struct WorkerLog<L: Ledger, A: Allocator = Global> {
    /// The seat on which it asked.
    pub seat: Seat<L>,
    /// The receipts that it got.
    pub receipts: Receipts<A>,
}
