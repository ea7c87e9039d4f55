//! Runs that are gathered from logs, entry by entry, and their reports.

ghost use Rattle.std.specs.Prelude.{◌≡◌, ◌<◌, [], IfOk};

use super::reports::is_reported;
use crate::openings::{gate_for, gate_of_cells};
use Act::{Get, Read, Return, Spawn, Sync, Write};
use Answer::{Ended, Finished, Granted, Joined, Refused, Same, Split, Unset};
use locked_replay::{LockedGate, RunFault, Seat, Whole, WorkerLog, gather};
use model_accesses::{Kind, Rule, Witness};
use model_strands::Spawned;
use packed_history::Receipts;
use program_text::Program;
use race_gate::{Answer, Entry, GateFault, ShortGate};
use std::alloc::{AllocError, Global};
use std::marker::Brand;
use std::process::Abort;
use std::sync::Wait;
use std::sync::ledger::{Blank, Ledger};
use text_words::{Act, Request};

/// A run of a program: what is asked and answered, what its cells hold at the end, and its report.
pub struct Run<'a> {
    pub text: &'a str,
    entries: &'a [Entry],
    memory: &'a [u64],
    told: &'a str,
}

/// Which run is asked for.
pub enum Asked {
    Race,
    Unset,
    Broken,
}

pub fn run_of(asked: &Asked) -> &'static Run<'static> {
    match asked {
        Asked::Race => &RACE,
        Asked::Unset => &UNSET,
        Asked::Broken => &BROKEN,
    }
}

/// Whose logs are gathered.
pub enum Logs {
    /// Those of both seats.
    Both,
    /// That of the first of two seats.
    First,
    /// That of the only seat.
    Only,
}

/// How many seats there are.
fn parts_of(logs: &Logs) -> u64
    ensures { 0 < result }
{
    match logs {
        Logs::Both | Logs::First => 2,
        Logs::Only => 1,
    }
}

/// A run, how it is asked, and what is gathered of it.
pub struct Case<'a> {
    pub asked: Asked,
    /// The requests at these places are asked on a second seat.
    pub second: &'a [usize],
    /// The first log keeps the receipts at these places, in that order.
    pub kept: &'a [usize],
    pub logs: Logs,
    /// The gate has three cells, and not those of the program.
    pub three_cells: bool,
    /// The gate is stopped once all was asked.
    pub stopped: bool,
    /// Why there is no run, where there is none.
    pub found: Result<(), RunFault>,
}

/// Whether the request is answered. The log takes its receipt.
fn ask<L: Ledger, R: Wait>(
    rt: &R,
    locked: &LockedGate<L>,
    log: &mut WorkerLog<L>,
    request: Request,
) -> bool {
    match locked.ask(rt, &mut log.seat, request) {
        Ok(receipt) => log.receipts.push(receipt).is_ok(),
        Err(_) => false,
    }
}

/// Whether all requests of the run are answered, those at these places on the second seat. The log of a seat takes its receipts.
fn ask_all<L: Ledger, R: Wait>(
    rt: &R,
    locked: &LockedGate<L>,
    logs: &mut [WorkerLog<L>],
    run: &Run<'_>,
    second: &[usize],
) -> bool {
    for at in 0..run.entries.len() {
        let seat = if second.contains(&at) { 1 } else { 0 };
        let Some(log) = logs.get_mut(seat) else {
            return false;
        };
        if !ask(rt, locked, log, run.entries[at].request) {
            return false;
        }
    }
    true
}

/// How much was asked on the seats.
fn count<L: Ledger>(logs: &[WorkerLog<L>]) -> u64 {
    let mut asked = 0u64;
    for log in logs {
        asked = asked.wrapping_add(log.seat.asked());
    }
    asked
}

/// Keeps the receipts at these places. Whether there is memory for it.
fn keep(alloc: Global, receipts: &mut Receipts, places: &[usize]) -> bool {
    let mut kept = Receipts::new(alloc);
    for place in places {
        if *place < receipts.len() && kept.push(receipts.get(*place)).is_err() {
            return false;
        }
    }
    *receipts = kept;
    true
}

/// What a stopped gate does not answer.
const ONE_MORE: Request = Request {
    strand: 0,
    act: Sync,
    line: 1,
};

/// Whether as many requests are asked on the seats as the run has. A stopped gate is stopped then. The first log keeps what the case says.
fn asks<L: Ledger, R: Wait>(
    rt: &R,
    alloc: Global,
    locked: &LockedGate<L>,
    logs: &mut [WorkerLog<L>],
    case: &Case<'_>,
) -> bool {
    let run = run_of(&case.asked);
    if !ask_all(rt, locked, logs, run, case.second) || count(logs) != run.entries.len() as u64 {
        return false;
    }
    let Some(first) = logs.first_mut() else {
        return false;
    };
    if case.stopped {
        locked.stop(rt);
        if locked.ask(rt, &mut first.seat, ONE_MORE) != Err(GateFault::Stopped) {
            return false;
        }
    }
    keep(alloc, &mut first.receipts, case.kept)
}

/// A log for the only seat, or for each of two seats, of which the second may be lost.
fn logs_of<L: Ledger>(
    alloc: Global,
    mut seat: Seat<L>,
    logs: &Logs,
) -> Result<Vec<WorkerLog<L>>, AllocError> {
    let mut made = Vec::with_capacity(alloc, 2)?;
    if 1 < seat.parts() {
        made.push_reserved(WorkerLog {
            seat: seat.split(),
            receipts: Receipts::new(alloc),
        });
    }
    if !matches!(logs, Logs::First) {
        made.push_reserved(WorkerLog {
            seat,
            receipts: Receipts::new(alloc),
        });
    }
    Ok(made)
}

/// A gate for the program, or one of three cells.
fn gate(
    alloc: Global,
    program: &Program<Global>,
    three_cells: bool,
) -> Result<ShortGate, AllocError>
    ensures { IfOk result (λ gate. gate.history ≡ []) }
{
    if three_cells {
        gate_of_cells(alloc, program, 3, 100)
    } else {
        gate_for(alloc, program, 100)
    }
}

/// Checks that this is the run, which is not clean.
fn check_whole(
    rt: &impl Abort,
    alloc: Global,
    whole: &Whole,
    run: &Run<'_>,
) -> Result<(), AllocError> {
    let entries = whole.entries.to_vec(alloc)?;
    assert!(rt; entries.as_slice() == run.entries && whole.memory.as_slice() == run.memory);
    assert!(rt; !whole.clean);
    Ok(())
}

/// What is gathered from these logs is this run, which is not clean, with its report.
fn is_gathered<L: Ledger>(
    rt: &impl Abort,
    alloc: Global,
    program: &Program<Global>,
    locked: LockedGate<L>,
    logs: Vec<WorkerLog<L>>,
    run: &Run<'_>,
) -> Result<(), RunFault> {
    let whole = gather(alloc, program, locked, logs)?;
    let reported = is_reported(alloc, program, &whole, run.told);
    check_whole(rt, alloc, &whole, run)?;
    assert!(rt; reported);
    Ok(())
}

/// All is as the case says where this gate is asked, but for the fault.
fn found_on<L: Ledger, R: Abort + Wait>(
    rt: &R,
    alloc: Global,
    blank: Blank,
    parts: u64,
    program: &Program<Global>,
    gate: ShortGate,
    case: &Case<'_>,
) -> Result<(), RunFault>
    requires empty { gate.history ≡ [] }
    requires name { blank.name ≡ L.name }
    requires all { blank.parts ≡ L.parts }
    requires parts { blank.parts ≡ parts }
    requires some { 0 < parts }
{
    let (locked, seat) = LockedGate::<L>::new(gate, blank, parts);
    let mut logs = logs_of(alloc, seat, &case.logs)?;
    assert!(rt; asks(rt, alloc, &locked, logs.as_mut_slice(), case));
    is_gathered(rt, alloc, program, locked, logs, run_of(&case.asked))
}

/// The same where the program's gate is asked, or one of three cells: the fault of the run, if there is none.
pub fn found_by<R: Abort + Wait>(
    rt: &R,
    alloc: Global,
    program: &Program<Global>,
    case: &Case<'_>,
) -> Result<(), RunFault> {
    let gate = gate(alloc, program, case.three_cells)?;
    let parts = parts_of(&case.logs);
    found_on::<Brand, R>(rt, alloc, Blank::new(parts), parts, program, gate, case)
}

/// An entry of a run.
macro_rules! entry {
    ($strand:literal, $act:expr, $line:literal, $answer:expr) => {
        Entry {
            request: Request {
                strand: $strand,
                act: $act,
                line: $line,
            },
            answer: $answer,
        }
    };
}

pub const SPLIT: Entry = entry!(
    0,
    Spawn,
    5,
    Split(Spawned {
        child: 1,
        next: 2,
        join: 3,
        first: true,
    })
);

pub const REFUSED: Answer = Refused {
    rule: Rule::Race,
    witness: Witness {
        entry: 2,
        strand: 1,
        kind: Kind::Write,
    },
};

pub const WRITTEN: Entry = entry!(1, Write(0, 7), 9, Granted);

pub const READ: Entry = entry!(2, Read(0), 6, REFUSED);

pub const SYNCED: Entry = entry!(1, Sync, 10, Same);

pub const ENDED: Entry = entry!(1, Return, 10, Ended);

pub const JOINED: Entry = entry!(2, Sync, 7, Joined(3));

pub const FINISHED: Entry = entry!(3, Return, 7, Finished);

/// The run of a program in which the child writes before the spawner reads.
const RACE: Run<'static> = Run {
    text: "cilk 1\nmem x\nmem y\nfunc main z\n  spawn f 7\n  read r x\nend\nfunc f v\n  write x v\nend\n",
    entries: &[SPLIT, WRITTEN, READ, SYNCED, ENDED, JOINED, FINISHED],
    memory: &[7, 0],
    told: "{\"clean\":false,\"entries\":7,\"memory\":{\"x\":7,\"y\":0},\"refusals\":[{\"entry\":3,\"line\":6,\"name\":\"x\",\"rule\":\"write-read\",\"strand\":2,\"witness\":{\"entry\":2,\"line\":9,\"strand\":1}}]}",
};

/// A get of a reducer that was not put, which is not clean.
const UNSET: Run<'static> = Run {
    text: "cilk 1\nreducer h sum\nfunc main z\nget r h\nend\n",
    entries: &[
        entry!(0, Get(0), 4, Unset),
        entry!(0, Sync, 5, Same),
        entry!(0, Return, 5, Finished),
    ],
    memory: &[],
    told: "{\"clean\":false,\"entries\":3,\"memory\":{},\"refusals\":[{\"entry\":1,\"line\":4,\"name\":\"h\",\"rule\":\"unset\",\"strand\":0,\"witness\":null}]}",
};

/// The same, but it breaks off.
const BROKEN: Run<'static> = Run {
    text: "cilk 1\nreducer h sum\nfunc main z\nget r h\nend\n",
    entries: &[entry!(0, Get(0), 4, Unset), entry!(0, Sync, 5, Same)],
    memory: &[],
    told: "",
};
