//! A gate of the tests.

use locked_replay::{Ask, LockedGate, Seat};
use race_gate::{GateFault, Receipt};
use std::sync::Wait;
use std::sync::atomic::{AtomicBool, Ordering};
use std::sync::ledger::Ledger;
use std::thread;
use text_words::Request;

const TURNS: u32 = 1_000_000;

/// Holds, before the lock, whichever of strands 1 and 2 asks first until the other has asked too.
#[derive(Drop)]
pub struct Meeting<'a, L: Ledger> {
    locked: &'a LockedGate<L>,
    first: AtomicBool,
    second: AtomicBool,
    /// Who came first has gone on alone, so that who comes later meets nobody.
    given_up: AtomicBool,
    met: AtomicBool,
}

impl<'a, L: Ledger> Meeting<'a, L> {
    pub fn new(locked: &'a LockedGate<L>) -> Meeting<'a, L> {
        Meeting {
            locked,
            first: AtomicBool::new(false),
            second: AtomicBool::new(false),
            given_up: AtomicBool::new(false),
            met: AtomicBool::new(false),
        }
    }

    pub fn is_met_by_both(&self) -> bool {
        self.met.load(Ordering::SeqCst)
    }

    fn hold(&self, strand: u32) {
        let (mine, other) = match strand {
            1 => (&self.first, &self.second),
            2 => (&self.second, &self.first),
            _ => return,
        };
        if mine.swap(true, Ordering::SeqCst) {
            return;
        }
        for _ in 0..TURNS {
            if other.load(Ordering::SeqCst) {
                if !self.given_up.load(Ordering::SeqCst) {
                    self.met.store(true, Ordering::SeqCst);
                }
                return;
            }
            thread::yield_now();
        }
        self.given_up.store(true, Ordering::SeqCst);
    }
}

impl<'a, L: Ledger> Ask<L> for Meeting<'a, L> {
    fn ask<R: Wait>(
        &self,
        rt: &R,
        seat: &mut Seat<L>,
        request: Request,
    ) -> Result<Receipt, GateFault> {
        self.hold(request.strand);
        self.locked.ask(rt, seat, request)
    }

    fn stop<R: Wait>(&self, rt: &R) {
        self.locked.stop(rt);
    }
}
