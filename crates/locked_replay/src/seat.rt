//! On what a worker asks, which counts that.

ghost use Rattle.std.specs.Prelude.{◌≡◌, ◌↔◌, ◌+◌, ◌<◌, IsTrue, length};
ghost use Rattle.locked_replay.specs.Asking.{KeepsReceipt};

use crate::fault::RunFault;
use crate::locked::Ask;
use packed_history::Receipts;
use race_gate::Answer;
use std::alloc::Allocator;
use std::sync::Wait;
use std::sync::ledger::{Ledger, Share};
use text_words::{Act, Request};

/// A share of what was asked of one gate. It has some of the parts into which the right to ask is cut.
#[derive(Drop)]
pub struct Seat<L: Ledger> {
    pub(crate) asked: u64,
    pub(crate) parts: u64,
    pub(crate) share: Share<L>,
    ghost amount: { share.amount ≡ asked },
    ghost parted: { share.parts ≡ parts },
    ghost has_part: { 0 < parts },
}

fn is_same_act(one: Act, other: Act) -> bool
    ensures { IsTrue result ↔ one ≡ other }
{
    one == other
}

/// Whether the two are one request. Field by field, since the search for one proof of all of them passes its limit.
fn is_same_request(one: Request, other: Request) -> bool
    ensures { IsTrue result ↔ one ≡ other }
{
    one.strand == other.strand && one.line == other.line && is_same_act(one.act, other.act)
}

impl<L: Ledger> Seat<L> {
    /// How much was asked on this seat.
    pub fn asked(&self) -> u64
        ensures { result ≡ self.now.asked }
    {
        self.asked
    }

    /// How many parts this seat has.
    pub fn parts(&self) -> u64
        ensures { result ≡ self.now.parts }
    {
        self.parts
    }

    /// A new seat on which nothing was asked, with one of this seat's parts.
    pub fn split(&mut self) -> Seat<L>
        requires { 1 < self.old.parts }
        ensures new { (result.asked ≡ 0) × (result.parts ≡ 1) }
        ensures left { (self.new.asked ≡ self.old.asked) × (self.new.parts + 1 ≡ self.old.parts) }
    {
        let Seat {
            asked: _,
            parts,
            share,
        } = self;
        let share = share.split_off(1, 0);
        *parts -= 1;
        Seat {
            asked: 0,
            parts: 1,
            share,
        }
    }

    /// Asks the gate, and keeps the receipt. `Strange` where the receipt is of another request; it is kept then. A fault of the gate is told
    /// as the run's, and `Memory` where there is no room for a receipt; nothing is kept then.
    #[inline(always)]
    pub fn ask<A: Allocator, G: Ask<L>, R: Wait>(
        &mut self,
        rt: &R,
        gate: &G,
        receipts: &mut Receipts<A>,
        request: Request,
    ) -> Result<Answer, RunFault>
        ensures kept { KeepsReceipt request receipts.old.items receipts.new.items result }
        ensures counted { self.new.asked + length receipts.old.items ≡ self.old.asked + length receipts.new.items }
    {
        receipts.reserve()?;
        let receipt = gate.ask(rt, self, request)?;
        receipts.push_reserved(receipt);
        if is_same_request(receipt.request, request) {
            Ok(receipt.answer)
        } else {
            Err(RunFault::Strange)
        }
    }
}
