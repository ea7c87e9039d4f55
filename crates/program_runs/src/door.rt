//! What stands before the gate.

ghost use Rattle.std.specs.Prelude.{◌≡◌, ◌+◌, MatchResult};

use locked_replay::{Ask, LockedGate, Seat};
use race_gate::{GateFault, Receipt};
use std::alloc::Allocator;
use std::sync::Wait;
use std::sync::ledger::Ledger;
use text_words::Request;

/// What each request of a run passes before it comes to the gate.
pub trait Door {
    /// A request of this strand comes.
    fn before<R: Wait>(&self, rt: &R, strand: u32);

    /// Lets a request in: `before`, and then the gate answers. A door that cheats its workers has one of its own. At Ok one more was asked
    /// on the seat, and at Err as much as before.
    fn let_in<L: Ledger, A: Allocator + Clone, R: Wait>(
        &self,
        rt: &R,
        locked: &LockedGate<L, A>,
        seat: &mut Seat<L>,
        request: Request,
    ) -> Result<Receipt, GateFault>
        ensures parts { seat.new.parts ≡ seat.old.parts }
        ensures asked { MatchResult result (λ _. seat.new.asked ≡ seat.old.asked + 1) (λ _. seat.new.asked ≡ seat.old.asked) }
    {
        self.before(rt, request.strand);
        locked.ask(rt, seat, request)
    }
}

/// A door that lets each request pass at once.
#[derive(Clone, Copy)]
pub struct OpenDoor;

impl Door for OpenDoor {
    fn before<R: Wait>(&self, _rt: &R, _strand: u32) {}
}

/// A gate behind its lock, and a door before it.
#[derive(Drop)]
pub(crate) struct DoorGate<'a, D, L: Ledger, A: Allocator + Clone> {
    /// What each request passes.
    pub door: &'a D,
    /// What answers it then.
    pub locked: &'a LockedGate<L, A>,
}

impl<'a, D: Door, L: Ledger, A: Allocator + Clone> Ask<L> for DoorGate<'a, D, L, A> {
    fn ask<R: Wait>(
        &self,
        rt: &R,
        seat: &mut Seat<L>,
        request: Request,
    ) -> Result<Receipt, GateFault> {
        self.door.let_in(rt, self.locked, seat, request)
    }

    fn stop<R: Wait>(&self, rt: &R) {
        self.locked.stop(rt);
    }
}
