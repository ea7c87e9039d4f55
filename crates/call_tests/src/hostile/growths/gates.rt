//! Growths of gates, of lists of replies, and of verdict lines.

use super::{Asked, Heap, Told, note};
use crate::refusing::Refusing;
use model_accesses::{Kind, Rule};
use race_gate::{Answer, Entry, Gate, GateFault, Receipt, Reply, judge_all};
use shadow_history::Witness;
use sp_labels::Spawned;
use std::alloc::{AllocError, Global};
use text_words::{Act, Monoid, Monoids, Request, Shape};
use verdict_lines::verdict_lines;

/// What strands ask of one cell and one reducer, which sums, and what they are answered: a put, an update by
/// a child, a get that has other peers than the put, one that has not, and a write and a read round a call.
const ENTRIES: &[Entry] = &[
    entry!(0, Act::Put(0, 0), 1, Answer::Granted),
    entry!(
        0,
        Act::Spawn,
        1,
        Answer::Split(Spawned {
            child: 1,
            next: 2,
            join: 3,
            first: true,
        }),
    ),
    entry!(1, Act::Update(0, 5), 1, Answer::Granted),
    entry!(
        2,
        Act::Get(0),
        1,
        Answer::Refused {
            rule: Rule::View,
            witness: Witness {
                entry: 1,
                strand: 0,
                kind: Kind::Put,
            },
        },
    ),
    entry!(1, Act::Return, 1, Answer::Ended),
    entry!(2, Act::Sync, 1, Answer::Joined(3)),
    entry!(3, Act::Get(0), 1, Answer::Value(5)),
    entry!(3, Act::Write(0, 4), 1, Answer::Granted),
    entry!(3, Act::Call, 1, Answer::Same),
    entry!(3, Act::Return, 1, Answer::Resumed),
    entry!(3, Act::Read(0), 1, Answer::Value(4)),
];

/// The entries, in a function of their own, so that no proof but its own is about the places of the table.
fn entries() -> &'static [Entry] {
    ENTRIES
}

/// A new gate of one cell and one reducer.
fn open_gate<'h>(alloc: Global, heap: &'h Heap) -> Result<Gate<&'h Heap>, AllocError> {
    let monoids = Vec::from_slice(alloc, &[Monoid::Sum])?;
    let shape = Shape {
        cells: 1,
        monoids: Monoids::new(monoids),
    };
    Gate::new(heap, &shape, 1_000)
}

/// The gate has these entries, its cell holds this number, and it was not stopped.
fn keeps(gate: &Gate<&Heap>, entries: &[Entry], number: u64) -> bool {
    gate.history() == entries
        && gate.memory() == [number].as_slice()
        && gate.limit() == 1_000
        && !gate.is_stopped()
}

/// The reply that there was no memory.
const WANTING: Reply = Reply::Illegal(GateFault::Memory);

/// What the gate replies to the request.
fn ask(gate: &mut Gate<&Heap>, request: Request) -> Reply {
    match gate.judge(request) {
        Ok(receipt) => Reply::Done(receipt),
        Err(fault) => Reply::Illegal(fault),
    }
}

/// The gate answers the request of the entry of this number so. Where there is no memory, it has the entries before this one still, and its
/// cell holds what they left.
fn asks(gate: &mut Gate<&Heap>, number: u32, entry: Entry, told: &mut Told) -> bool {
    let Entry { request, answer } = entry;
    let mut found = ask(gate, request);
    if note(told, "Gate::judge", found == WANTING) {
        let entries = entries();
        let count = (number.saturating_sub(1) as usize).min(entries.len());
        let cell = if number > 8 { 4 } else { 0 };
        if keeps(gate, entries.split_at(count).0, cell) {
            found = ask(gate, request);
        }
    }
    let receipt = Receipt {
        number,
        request,
        answer,
    };
    found == Reply::Done(receipt)
}

/// The gate answers all requests.
fn asks_all(gate: &mut Gate<&Heap>, told: &mut Told) -> bool {
    let mut is_right = keeps(gate, &[], 0);
    let mut number = 0u32;
    for entry in entries() {
        number = number.saturating_add(1);
        is_right &= asks(gate, number, *entry, told);
    }
    is_right && keeps(gate, entries(), 4)
}

/// The requests of the entries.
const REQUESTS: &[Request] = &[
    request!(0, Act::Put(0, 0), 1),
    request!(0, Act::Spawn, 1),
    request!(1, Act::Update(0, 5), 1),
    request!(2, Act::Get(0), 1),
    request!(1, Act::Return, 1),
    request!(2, Act::Sync, 1),
    request!(3, Act::Get(0), 1),
    request!(3, Act::Write(0, 4), 1),
    request!(3, Act::Call, 1),
    request!(3, Act::Return, 1),
    request!(3, Act::Read(0), 1),
];

/// Asks a gate one request after another, but for those to which there was no memory, and it replies to each as here. How many it was not
/// asked.
fn replies_alike(gate: &mut Gate<&Heap>, replies: &[Reply]) -> Option<usize> {
    let mut left_out = 0usize;
    for (place, request) in REQUESTS.iter().enumerate() {
        let Some(reply) = replies.get(place) else {
            return None;
        };
        if *reply == WANTING {
            left_out = left_out.saturating_add(1);
        } else if *reply != ask(gate, *request) {
            return None;
        }
    }
    (replies.len() == REQUESTS.len()).then_some(left_out)
}

/// The gate has replied to all requests, or, where one of them found no memory, as another gate, which is not asked it and keeps the same.
fn are_replies(alloc: Global, gate: &Gate<&Heap>, replies: &[Reply], told: &mut Told) -> bool {
    let spare = Refusing::new(alloc);
    let Ok(mut other) = open_gate(alloc, &spare) else {
        return false;
    };
    let left_out = replies_alike(&mut other, replies);
    let is_wanting = note(told, "judge_all", left_out == Some(1));
    gate.history() == other.history()
        && gate.memory() == other.memory()
        && (is_wanting || left_out == Some(0) && keeps(gate, entries(), 4))
}

/// The gate replies to the list of requests, which it is asked once more where there was no room for the replies, and has no entry then.
fn replies_to_all(alloc: Global, heap: &Heap, gate: &mut Gate<&Heap>, told: &mut Told) -> bool {
    let replies = twice!(
        told,
        "judge_all",
        AllocError,
        judge_all(gate, heap, REQUESTS),
        keeps(gate, &[], 0)
    );
    match replies {
        Ok(replies) => are_replies(alloc, gate, replies.as_slice(), told),
        Err(AllocError) => false,
    }
}

/// Asks a new gate the requests, one by one, or in a list.
pub(super) fn call_gate(alloc: Global, heap: &Heap, is_list: bool, told: &mut Told) -> Asked {
    let Ok(mut gate) = open_gate(alloc, heap) else {
        return Err("Gate::new");
    };
    Ok(if is_list {
        replies_to_all(alloc, heap, &mut gate, told)
    } else {
        asks_all(&mut gate, told)
    })
}

/// Writes the verdict lines of replies.
pub(super) fn write_lines(heap: &Heap) -> Asked {
    match verdict_lines(heap, REPLIES) {
        Ok(lines) => Ok(lines.as_slice() == LINES),
        Err(AllocError) => Err("verdict_lines"),
    }
}

const LINES: &[u8] =
    b"1 refused unset\n2 value 18446744073709551615\nillegal not-running\nillegal memory\n";

/// A get and a read that a gate has answered, a request with a fault, and one without memory.
const REPLIES: &[Reply] = &[
    Reply::Done(Receipt {
        number: 1,
        request: Request {
            strand: 0,
            act: Act::Get(0),
            line: 1,
        },
        answer: Answer::Unset,
    }),
    Reply::Done(Receipt {
        number: 2,
        request: Request {
            strand: 0,
            act: Act::Read(0),
            line: 2,
        },
        answer: Answer::Value(18_446_744_073_709_551_615),
    }),
    Reply::Illegal(GateFault::NotRunning),
    Reply::Illegal(GateFault::Memory),
];
