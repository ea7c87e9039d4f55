//! A gate behind its lock.

ghost use Rattle.std.specs.Prelude.{◌≡◌, ◌+◌, ◌<◌, [], ◌∷◌, true, length, MatchResult, IfOk};
ghost use Rattle.model_races.specs.Judged.{IsJudged};
ghost use Rattle.model_races.specs.Memory.{IsMemory};
ghost use Rattle.model_histories.specs.Replies.{Judges, reply_of};

use crate::seat::Seat;
use race_gate::{GateFault, Receipt, ShortGate};
use std::alloc::{Allocator, Global};
use std::sync::atomic::AtomicU64;
use std::sync::ledger::{Blank, Book, Ledger};
use std::sync::{Mutex, MutexGuard, Wait};
use std::time::Duration;
use text_words::Request;

/// For how many microseconds an asker dozes that finds the lock held: at first, and at most.
const DOZE: u64 = 1_600;

const LONGEST_DOZE: u64 = 3_200;

/// Who asks does not know what stands behind it: a gate's lock, or something round one.
pub trait Ask<L: Ledger> {
    /// Asks on this seat. At Ok one more was asked on it, and at Err as much as before.
    fn ask<R: Wait>(
        &self,
        rt: &R,
        seat: &mut Seat<L>,
        request: Request,
    ) -> Result<Receipt, GateFault>
        ensures parts { seat.new.parts ≡ seat.old.parts }
        ensures asked { MatchResult result (λ _. seat.new.asked ≡ seat.old.asked + 1) (λ _. seat.new.asked ≡ seat.old.asked) };

    /// Stops the gate.
    fn stop<R: Wait>(&self, rt: &R);
}

/// What lies under the lock: a gate, whose history is judged and whose memory is what that leaves, since it is a gate; and the total of
/// what was asked on all seats, which is the length of the history.
#[derive(Drop)]
struct CountedGate<L: Ledger, A: Allocator + Clone> {
    gate: ShortGate<A>,
    total: Book<L>,
    ghost counted: { total.total ≡ length gate.history },
}

impl<L: Ledger, A: Allocator + Clone> CountedGate<L, A> {
    /// The gate judges the request, and the receipt is of the entry that is then its newest.
    fn judge(&mut self, seat: &mut Seat<L>, request: Request) -> Result<Receipt, GateFault>
        ensures replies { Judges self.old.gate request (reply_of result) self.new.gate }
        ensures receipt { IfOk result (λ receipt. receipt.request ≡ request) }
        ensures parts { seat.new.parts ≡ seat.old.parts }
        ensures asked { MatchResult result (λ _. seat.new.asked ≡ seat.old.asked + 1) (λ _. seat.new.asked ≡ seat.old.asked) }
    {
        let CountedGate { gate, total } = self;
        let Seat {
            asked,
            parts: _,
            share,
        } = seat;
        // Among all that was asked, what was asked on this seat is at most the length of the history.
        total.audit(share);
        let receipt = gate.judge(request)?;
        total.add(share, 1);
        *asked += 1;
        Ok(receipt)
    }

    fn stop(&mut self)
        ensures { self.new.gate ≡ record self.old.gate { stopped = true } }
    {
        self.gate.stop();
    }
}

/// A gate that any thread may ask.
#[derive(Drop)]
pub struct LockedGate<L: Ledger, A: Allocator + Clone = Global> {
    round: Mutex<CountedGate<L, A>>,
    /// What askers doze on. It is 0 for good.
    calm: AtomicU64,
}

impl<L: Ledger, A: Allocator + Clone> LockedGate<L, A> {
    /// The gate behind its lock, and a seat on which nothing was asked, with all parts of the blank, which are so many.
    pub fn new(gate: ShortGate<A>, blank: Blank, parts: u64) -> (LockedGate<L, A>, Seat<L>)
        requires empty { gate.history ≡ [] }
        requires name { blank.name ≡ L.name }
        requires all { blank.parts ≡ L.parts }
        requires parts { blank.parts ≡ parts }
        requires some { 0 < parts }
        ensures { (result.1.asked ≡ 0) × (result.1.parts ≡ parts) }
    {
        let (total, share) = blank.open::<L>();
        let seat = Seat {
            asked: 0,
            parts,
            share,
        };
        let round = Mutex::new(CountedGate { gate, total });
        let calm = AtomicU64::new(0);
        (LockedGate { round, calm }, seat)
    }

    /// Takes the lock as soon as it is found free. Until then it dozes, each time for longer, and does not stand in the lock's line: those
    /// that ask in turns would hand all that a gate keeps from one processor to another at each request.
    #[cold]
    #[inline(never)]
    fn take_when_free<R: Wait>(&self, rt: &R) -> MutexGuard<'_, CountedGate<L, A>> {
        let mut doze = DOZE;
        for _ in rt.forever() {
            self.calm.park_timeout(rt, 0, Duration::from_micros(doze));
            if let Some(round) = self.round.try_lock() {
                return round;
            }
            doze = doze.saturating_mul(2).min(LONGEST_DOZE);
        }
        unreachable!()
    }

    /// Takes the lock.
    fn take<R: Wait>(&self, rt: &R) -> MutexGuard<'_, CountedGate<L, A>> {
        match self.round.try_lock() {
            Some(round) => round,
            None => self.take_when_free(rt),
        }
    }

    /// As [`Ask::ask`], and the receipt is of that request.
    pub fn ask<R: Wait>(
        &self,
        rt: &R,
        seat: &mut Seat<L>,
        request: Request,
    ) -> Result<Receipt, GateFault>
        ensures receipt { IfOk result (λ receipt. receipt.request ≡ request) }
        ensures parts { seat.new.parts ≡ seat.old.parts }
        ensures asked { MatchResult result (λ _. seat.new.asked ≡ seat.old.asked + 1) (λ _. seat.new.asked ≡ seat.old.asked) }
    {
        self.take(rt).judge(seat, request)
    }

    /// Stops the gate.
    pub fn stop<R: Wait>(&self, rt: &R) {
        self.round.lock(rt).stop();
    }

    /// The gate that lies under the lock, whose history is judged and whose memory is what that leaves.
    pub fn into_gate(self) -> ShortGate<A>
        ensures judged { IsJudged result.shape result.history }
        ensures values { IsMemory result.shape.cells result.history result.memory }
    {
        let LockedGate { round, calm: _ } = self;
        let CountedGate { gate, total: _ } = round.into_inner();
        // What is known of each gate is known of this one from here on.
        let _entries = gate.kept_history();
        let _cells = gate.memory();
        gate
    }
}

impl<L: Ledger, A: Allocator + Clone> Ask<L> for LockedGate<L, A> {
    fn ask<R: Wait>(
        &self,
        rt: &R,
        seat: &mut Seat<L>,
        request: Request,
    ) -> Result<Receipt, GateFault> {
        LockedGate::ask(self, rt, seat, request)
    }

    fn stop<R: Wait>(&self, rt: &R) {
        LockedGate::stop(self, rt)
    }
}
