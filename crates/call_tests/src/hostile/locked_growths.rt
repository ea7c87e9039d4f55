//! A growth refused of a gate behind its lock, or of what is gathered of it, over a heap of the test.

ghost use Rattle.std.specs.Prelude.{◌≡◌};

use crate::hostile::receipts::PAIR_REQUESTS;
use crate::hostile::rounds::gate_for;
use crate::refusing::Refusing;
use locked_replay::{LockedGate, RunFault, Seat, Whole, WorkerLog, gather};
use packed_history::Receipts;
use program_text::Program;
use race_gate::GateFault;
use std::alloc::Global;
use std::marker::Brand;
use std::sync::Wait;
use std::sync::ledger::{Blank, Ledger};
use text_words::Request;

/// A heap of which one growth is refused.
pub type Heap = Refusing<Global>;

/// What is found of a call: whether a growth was refused, and whether the call answered Memory.
pub type Found = (bool, bool);

/// Asks on the seat, and keeps the receipt. Whether there was memory; where there was none, nothing was asked.
fn ask_and_keep<L: Ledger, R: Wait>(
    rt: &R,
    locked: &LockedGate<L, &Heap>,
    seat: &mut Seat<L>,
    receipts: &mut Receipts<&Heap>,
    request: Request,
) -> Option<bool> {
    let asked = seat.asked();
    if receipts.reserve().is_err() {
        return Some(false);
    }
    match locked.ask(rt, seat, request) {
        Ok(receipt) => {
            receipts.push_reserved(receipt);
            Some(true)
        }
        Err(GateFault::Memory) => (seat.asked() == asked).then_some(false),
        Err(_) => None,
    }
}

/// Asks what PAIR asks, once more where there was no memory. Whether there was none for a request.
fn ask_pair<L: Ledger, R: Wait>(
    rt: &R,
    locked: &LockedGate<L, &Heap>,
    seat: &mut Seat<L>,
    receipts: &mut Receipts<&Heap>,
) -> Option<bool> {
    let mut is_told = false;
    for request in PAIR_REQUESTS {
        if !ask_and_keep(rt, locked, seat, receipts, *request)? {
            is_told = true;
            if !ask_and_keep(rt, locked, seat, receipts, *request)? {
                return None;
            }
        }
    }
    Some(is_told)
}

/// The log of a worker who asks what PAIR asks, alone in a list. Its growth of this number is refused.
fn ask_refused<'h, L: Ledger, R: Wait>(
    rt: &R,
    heap: &'h Heap,
    locked: &LockedGate<L, &'h Heap>,
    mut seat: Seat<L>,
    number: u64,
) -> Option<(Vec<WorkerLog<L, &'h Heap>, &'h Heap>, Found)> {
    let mut receipts = Receipts::new(heap);
    heap.refuse(number);
    let is_told = ask_pair(rt, locked, &mut seat, &mut receipts)?;
    let was_refused = heap.has_refused();
    heap.refuse(0);
    let Ok(mut logs) = Vec::with_capacity(heap, 1) else {
        return None;
    };
    logs.push_reserved(WorkerLog { seat, receipts });
    Some((logs, (was_refused, is_told)))
}

/// Whether there was no memory to gather a run, which is clean or not, has so many entries and leaves this memory.
pub fn lacks_whole(
    gathered: Result<Whole<&Heap>, RunFault>,
    clean: bool,
    entries: usize,
    memory: &[u64],
) -> Option<bool> {
    match gathered {
        Ok(whole) => {
            let is_right = whole.clean == clean
                && whole.entries.len() == entries
                && whole.memory.as_slice() == memory;
            is_right.then_some(false)
        }
        Err(RunFault::Memory) => Some(true),
        Err(_) => None,
    }
}

/// PAIR's run is asked and gathered, in which the child writes 7 and the spawner's read is refused. The growth of one number is refused
/// while it is asked, and that of the other while it is gathered.
fn gathers<L: Ledger, R: Wait>(
    rt: &R,
    heap: &Heap,
    pair: &Program<Global>,
    asking: u64,
    gathering: u64,
    blank: Blank,
) -> Option<(Found, Found)>
    requires name { blank.name ≡ L.name }
    requires all { blank.parts ≡ L.parts }
    requires parts { blank.parts ≡ 1 }
{
    let Ok(gate) = gate_for(heap, pair) else {
        return None;
    };
    let (locked, seat) = LockedGate::<L, &Heap>::new(gate, blank, 1);
    let (logs, asked) = ask_refused(rt, heap, &locked, seat, asking)?;
    heap.refuse(gathering);
    let gathered = gather(heap, pair, locked, logs);
    let was_refused = heap.has_refused();
    heap.refuse(0);
    let is_told = lacks_whole(gathered, false, 7, &[7, 0])?;
    Some((asked, (was_refused, is_told)))
}

/// Does so, and once more with all memory. Of asking and gathering that of which no growth is refused has memory.
pub fn found_of<R: Wait>(
    rt: &R,
    heap: &Heap,
    pair: &Program<Global>,
    number: u64,
    is_gathering: bool,
) -> Option<Found> {
    let (asking, gathering) = if is_gathering {
        (0, number)
    } else {
        (number, 0)
    };
    let (asked, gathered) = gathers::<Brand, R>(rt, heap, pair, asking, gathering, Blank::new(1))?;
    let again = gathers::<Brand, R>(rt, heap, pair, 0, 0, Blank::new(1))?;
    let (found, other) = if is_gathering {
        (gathered, asked)
    } else {
        (asked, gathered)
    };
    (!other.1 && !again.0.1 && !again.1.1).then_some(found)
}
