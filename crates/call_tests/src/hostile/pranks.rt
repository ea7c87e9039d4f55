//! Gates round a gate behind its lock, and doors before it, which play a prank.

ghost use Rattle.std.specs.Prelude.{◌≡◌, ◌+◌, MatchResult};

use locked_replay::{Ask, LockedGate, Seat};
use race_gate::{GateFault, Receipt};
use std::alloc::Allocator;
use std::sync::Wait;
use std::sync::atomic::{AtomicU64, Ordering};
use std::sync::ledger::Ledger;
use std::{hint, thread};
use text_words::Request;
use tool_commands::Door;

/// What a gate does beside its work. A number is that of a request, in the order in which they come.
#[derive(Clone, Copy, Debug)]
pub enum Prank {
    /// It turns up to 1,000 times before each request, and lets another thread go on.
    Turns,
    /// It stops the gate before this request.
    Stops(u64),
    /// It answers that this request has no memory.
    Starves(u64),
    /// It answers this request with the receipt of another.
    Swaps(u64),
    /// It answers this request with a receipt that has the number of the entry behind.
    Tears(u64),
}

/// A gate that plays a prank.
#[derive(Drop)]
pub struct Prankster<'a, L: Ledger> {
    /// The gate that it asks.
    pub locked: &'a LockedGate<L>,
    /// What it does.
    pub prank: Prank,
    /// How many requests have come.
    pub asked: AtomicU64,
}

/// What is done before a request, and what the gate is asked then.
fn prepare_request<L: Ledger, A: Allocator + Clone, R: Wait>(
    rt: &R,
    locked: &LockedGate<L, A>,
    prank: Prank,
    number: u64,
    request: Request,
) -> Request {
    let mut asked = request;
    match prank {
        Prank::Turns => {
            // Other times for other numbers.
            let turns = number.wrapping_mul(0x9E37_79B9_7F4A_7C15) >> 32;
            for _ in 0..turns % 1_000 {
                hint::spin_loop();
            }
            thread::yield_now();
        }
        Prank::Stops(at) => {
            if number == at {
                locked.stop(rt);
            }
        }
        Prank::Swaps(at) => {
            if number == at {
                asked.line = 0;
            }
        }
        Prank::Starves(_) | Prank::Tears(_) => {}
    }
    asked
}

/// Asks a gate so that a prank is played. The count is of the requests before.
fn ask_with_prank<L: Ledger, A: Allocator + Clone, R: Wait>(
    rt: &R,
    locked: &LockedGate<L, A>,
    prank: Prank,
    count: &AtomicU64,
    seat: &mut Seat<L>,
    request: Request,
) -> Result<Receipt, GateFault>
    ensures parts { seat.new.parts ≡ seat.old.parts }
    ensures asked { MatchResult result (λ _. seat.new.asked ≡ seat.old.asked + 1) (λ _. seat.new.asked ≡ seat.old.asked) }
{
    let number = count.fetch_add(1, Ordering::SeqCst).wrapping_add(1);
    if matches!(prank, Prank::Starves(at) if at == number) {
        return Err(GateFault::Memory);
    }
    let asked = prepare_request(rt, locked, prank, number, request);
    match locked.ask(rt, seat, asked) {
        Ok(mut receipt) => {
            if matches!(prank, Prank::Tears(at) if at == number) {
                receipt.number = receipt.number.wrapping_add(1);
            }
            Ok(receipt)
        }
        Err(fault) => Err(fault),
    }
}

impl<'a, L: Ledger> Ask<L> for Prankster<'a, L> {
    fn ask<R: Wait>(
        &self,
        rt: &R,
        seat: &mut Seat<L>,
        request: Request,
    ) -> Result<Receipt, GateFault> {
        ask_with_prank(rt, self.locked, self.prank, &self.asked, seat, request)
    }

    fn stop<R: Wait>(&self, rt: &R) {
        self.locked.stop(rt);
    }
}

/// A door that plays a prank.
#[derive(Drop)]
pub struct PrankDoor {
    /// What it does.
    pub prank: Prank,
    /// How many requests have come.
    pub asked: AtomicU64,
}

impl Door for PrankDoor {
    fn before<R: Wait>(&self, _rt: &R, _strand: u32) {}

    fn let_in<L: Ledger, A: Allocator + Clone, R: Wait>(
        &self,
        rt: &R,
        locked: &LockedGate<L, A>,
        seat: &mut Seat<L>,
        request: Request,
    ) -> Result<Receipt, GateFault> {
        ask_with_prank(rt, locked, self.prank, &self.asked, seat, request)
    }
}
