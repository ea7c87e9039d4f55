//! Logs whose receipts are not those of the history, and histories that are none of the program's runs.

ghost use Rattle.std.specs.Prelude.{◌≡◌};

use crate::checks::equal;
use crate::hostile::rounds::gate_for;
use crate::hostile::worked::PAIR;
use locked_replay::{LockedGate, RunFault, Seat, WorkerLog, gather};
use packed_history::Receipts;
use program_text::Program;
use race_gate::{Answer, Receipt};
use std::alloc::Global;
use std::marker::Brand;
use std::process::Abort;
use std::sync::Wait;
use std::sync::ledger::{Blank, Ledger};
use std::test::Fail;
use text_words::{Act, Request};

/// What a strand asks on a line.
macro_rules! request {
    ($strand:literal, $act:expr, $line:literal) => {
        Request {
            strand: $strand,
            act: $act,
            line: $line,
        }
    };
}

/// What PAIR's functions ask, where the child writes before the spawner reads.
pub const PAIR_REQUESTS: &[Request] = &[
    request!(0, Act::Spawn, 5),
    request!(1, Act::Write(0, 7), 9),
    request!(2, Act::Read(0), 6),
    request!(1, Act::Sync, 10),
    request!(1, Act::Return, 10),
    request!(2, Act::Sync, 7),
    request!(3, Act::Return, 7),
];

/// What is changed of a receipt: its number, its answer, or its request.
enum Change {
    Nothing,
    Number(u32),
    Answer(Answer),
    Request(Request),
}

/// The receipt after the change.
fn alter(receipt: Receipt, change: &Change) -> Receipt {
    match change {
        Change::Nothing => receipt,
        Change::Number(number) => Receipt {
            number: *number,
            ..receipt
        },
        Change::Answer(answer) => Receipt {
            answer: *answer,
            ..receipt
        },
        Change::Request(request) => Receipt {
            request: *request,
            ..receipt
        },
    }
}

/// The log of a worker who asks these, of whose receipts the one at a place is changed so.
fn log_of<L: Ledger, R: Wait>(
    rt: &R,
    alloc: Global,
    locked: &LockedGate<L>,
    mut seat: Seat<L>,
    requests: &[Request],
    changed: &(usize, Change),
) -> Result<WorkerLog<L>, RunFault> {
    let (place, change) = changed;
    let mut receipts = Receipts::new(alloc);
    for (at, request) in requests.iter().enumerate() {
        receipts.reserve()?;
        match locked.ask(rt, &mut seat, *request) {
            Ok(receipt) => {
                let given = if at == *place {
                    alter(receipt, change)
                } else {
                    receipt
                };
                receipts.push_reserved(given);
            }
            Err(_) => return Err(RunFault::Limit),
        }
    }
    Ok(WorkerLog { seat, receipts })
}

/// Whether the run that is gathered of one log is clean.
fn is_clean<L: Ledger>(
    alloc: Global,
    program: &Program<Global>,
    locked: LockedGate<L>,
    log: WorkerLog<L>,
) -> Result<bool, RunFault> {
    let mut logs = Vec::with_capacity(alloc, 1)?;
    logs.push_reserved(log);
    match gather(alloc, program, locked, logs) {
        Ok(whole) => Ok(whole.clean),
        Err(fault) => Err(fault),
    }
}

/// The same, where these are asked and the log's receipts are changed so.
fn gather_changed<L: Ledger, R: Wait>(
    rt: &R,
    alloc: Global,
    blank: Blank,
    program: &Program<Global>,
    requests: &[Request],
    changed: &(usize, Change),
) -> Result<bool, RunFault>
    requires name { blank.name ≡ L.name }
    requires all { blank.parts ≡ L.parts }
    requires parts { blank.parts ≡ 1 }
{
    let gate = gate_for(alloc, program)?;
    let (locked, seat) = LockedGate::<L>::new(gate, blank, 1);
    match log_of(rt, alloc, &locked, seat, requests, changed) {
        Ok(log) => is_clean(alloc, program, locked, log),
        Err(fault) => Err(fault),
    }
}

/// This is gathered of the requests, with any of the changes of the receipt at a place.
fn check_changes<R: Abort + Wait>(
    rt: &R,
    alloc: Global,
    program: &Program<Global>,
    requests: &[Request],
    changes: &[(usize, Change)],
    wanted: Result<bool, RunFault>,
) {
    for changed in changes {
        let blank = Blank::new(1);
        let found = gather_changed::<Brand, R>(rt, alloc, blank, program, requests, changed);
        equal(rt, &changed.0, &found, &wanted);
    }
}

/// Receipts with other numbers, with other answers, and of other requests.
const CHANGES: &[(usize, Change)] = &[
    (0, Change::Number(0)),
    (6, Change::Number(8)),
    (0, Change::Number(8)),
    (3, Change::Number(0)),
    (6, Change::Number(4_294_967_295)),
    (0, Change::Answer(Answer::Same)),
    (1, Change::Answer(Answer::Same)),
    (2, Change::Answer(Answer::Value(7))),
    (3, Change::Answer(Answer::Granted)),
    (4, Change::Answer(Answer::EndedJoined(3))),
    (5, Change::Answer(Answer::Joined(4))),
    (6, Change::Answer(Answer::Ended)),
    (0, Change::Request(request!(0, Act::Spawn, 6))),
    (1, Change::Request(request!(1, Act::Write(0, 8), 9))),
    (2, Change::Request(request!(2, Act::Read(1), 6))),
    (3, Change::Request(request!(2, Act::Sync, 10))),
    (6, Change::Request(request!(3, Act::Sync, 7))),
];

/// A history that is no run of PAIR.
const OTHER_REQUESTS: &[Request] = &[
    request!(0, Act::Spawn, 3),
    request!(2, Act::Call, 4),
    request!(2, Act::Spawn, 5),
    request!(4, Act::Return, 6),
    request!(5, Act::Sync, 7),
    request!(6, Act::Return, 8),
    request!(6, Act::Sync, 9),
    request!(1, Act::Return, 10),
];

const UNCHANGED: &[(usize, Change)] = &[(0, Change::Nothing)];

#[test]
fn receipts_that_are_changed(rt: HostRuntime) -> Result<(), Fail> {
    let program = Program::parse(rt.alloc(), PAIR)?;
    let torn = Err(RunFault::Torn);
    check_changes(&rt, rt.alloc(), &program, PAIR_REQUESTS, CHANGES, torn);
    Ok(())
}

/// The requests of a run and of none have all their receipts.
#[test]
fn requests_of_a_run_and_of_none(rt: HostRuntime) -> Result<(), Fail> {
    let program = Program::parse(rt.alloc(), PAIR)?;
    let alloc = rt.alloc();
    check_changes(&rt, alloc, &program, PAIR_REQUESTS, UNCHANGED, Ok(false));
    let strange = Err(RunFault::Strange);
    check_changes(&rt, alloc, &program, OTHER_REQUESTS, UNCHANGED, strange);
    Ok(())
}
