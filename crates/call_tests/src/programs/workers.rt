//! Tests of the lot, of single workers and of whole runs.

ghost use Rattle.std.specs.Prelude.{◌≡◌, ◌<◌, ◌≤◌};

use super::meeting::Meeting;
use crate::checks::equal;
use crate::openings::gate_of_cells;
use frame_steps::Frame;
use locked_replay::{LockedGate, Seat, WorkerLog};
use program_text::Program;
use race_gate::Answer;
use std::alloc::{AllocError, Global};
use std::marker::Brand;
use std::process::Abort;
use std::sync::Wait;
use std::sync::ledger::{Blank, Ledger};
use std::test::Fail;
use std::thread::Threads;
use steal_workers::{Lot, LotFault, Task, run};

const FIB: &[u8] =
    b"cilk 1\nmem x\nreducer h sum\nfunc main z\n  put h 0\n  call fib 10\n  get r h\n  write x r\nend\nfunc fib n\n  let t = n < 2\n  if t\n    update h n\n  else\n    let a = n - 1\n    let b = n - 2\n    spawn fib a\n    call fib b\n    sync\n  end\nend\n";

const PAIR: &[u8] =
    b"cilk 1\nmem x\nmem y\nfunc main z\n  spawn f 7\n  read r x\nend\nfunc f v\n  write x v\nend\n";

// The same behind 3,001 calls, while which other workers find nothing to do.
const LATE_PAIR: &[u8] =
    b"cilk 1\nmem x\nmem y\nfunc main z\n  call g 3000\n  spawn f 7\n  read r x\nend\nfunc f v\n  write x v\nend\nfunc g n\n  if n\n    let m = n - 1\n    call g m\n  end\nend\n";

// The parts of a seat, one for each worker that there may be.
const PARTS: u64 = 64;

// How many receipts the logs hold, and how many of them are answered Finished.
fn count_receipts<L: Ledger>(logs: &[WorkerLog<L>]) -> (usize, usize) {
    let mut receipts = 0usize;
    let mut finished = 0usize;
    for log in logs {
        receipts = receipts.wrapping_add(log.receipts.len());
        for at in 0..log.receipts.len() {
            if log.receipts.get(at).answer == Answer::Finished {
                finished = finished.wrapping_add(1);
            }
        }
    }
    (receipts, finished)
}

// Whether so many workers end the one run of the program before this gate, all of whose requests they bring back.
fn finish<L: Ledger + Send + Sync, R: Threads + Wait + Sync>(
    rt: &R,
    alloc: Global,
    program: &Program<Global>,
    locked: &LockedGate<L>,
    seat: Seat<L>,
    workers: usize,
) -> bool
    requires parts { seat.parts ≡ 64 }
    requires workers { (0 < workers) × (workers ≤ 64) }
{
    match run(rt, alloc, program, workers, locked, seat) {
        Ok(logs) => count_receipts(logs.as_slice()) == (713, 1),
        Err(_) => false,
    }
}

// Whether two of so many workers meet before this gate.
fn meet<L: Ledger + Send + Sync, R: Threads + Wait + Sync>(
    rt: &R,
    alloc: Global,
    program: &Program<Global>,
    locked: &LockedGate<L>,
    seat: Seat<L>,
    workers: usize,
) -> bool
    requires parts { seat.parts ≡ 64 }
    requires workers { (0 < workers) × (workers ≤ 64) }
{
    let meeting = Meeting::new(locked);
    run(rt, alloc, program, workers, &meeting, seat).is_ok() && meeting.is_met_by_both()
}

// What workers do.
enum Does {
    Finish,
    Meet,
}

// Whether so many workers do this before a gate of two cells that was asked nothing.
fn do_alike<L: Ledger + Send + Sync, R: Threads + Wait + Sync>(
    rt: &R,
    alloc: Global,
    program: &Program<Global>,
    blank: Blank,
    workers: usize,
    does: &Does,
) -> bool
    requires name { blank.name ≡ L.name }
    requires all { blank.parts ≡ L.parts }
    requires parts { blank.parts ≡ 64 }
    requires workers { (0 < workers) × (workers ≤ 64) }
{
    let Ok(gate) = gate_of_cells(alloc, program, 2, 10_000) else {
        return false;
    };
    let (locked, seat) = LockedGate::<L>::new(gate, blank, PARTS);
    match does {
        Does::Finish => finish(rt, alloc, program, &locked, seat, workers),
        Does::Meet => meet(rt, alloc, program, &locked, seat, workers),
    }
}

// The same of the program that a text means.
fn do_of_text<R: Threads + Wait + Sync>(
    rt: &R,
    alloc: Global,
    text: &[u8],
    workers: usize,
    does: &Does,
) -> bool
    requires workers { (0 < workers) × (workers ≤ 64) }
{
    match Program::parse(alloc, text) {
        Ok(program) => do_alike::<Brand, R>(rt, alloc, &program, Blank::new(PARTS), workers, does),
        Err(_) => false,
    }
}

#[test]
fn many_workers_finish_one_run(rt: HostRuntime) {
    for workers in [1usize, 2, 8] {
        assert!(rt;
            do_of_text(&rt, rt.alloc(), FIB, workers, &Does::Finish),
            "{workers} workers"
        );
    }
}

#[test]
fn two_at_once(rt: HostRuntime) {
    assert!(rt; do_of_text(&rt, rt.alloc(), PAIR, 2, &Does::Meet));
}

#[test]
fn an_idle_worker_stays(rt: HostRuntime) {
    assert!(rt; do_of_text(&rt, rt.alloc(), LATE_PAIR, 2, &Does::Meet));
}

// The task of `main`.
fn root<'p>(alloc: Global, program: &'p Program<Global>) -> Result<Task<'p>, AllocError> {
    let frame = Frame::new(alloc, program, program.main(), 0);
    Ok(Task {
        strand: 0,
        program,
        frame: Box::new(alloc, frame)?,
    })
}

// Who comes for a join.
enum Comes {
    Child(u32),
    Task(u32),
}

// The join whose task is found by who comes for a join.
fn come<'p, R: Wait>(
    rt: &R,
    alloc: Global,
    program: &'p Program<Global>,
    lot: &Lot<'p>,
    comes: &Comes,
) -> Result<Option<u32>, LotFault> {
    let found = match comes {
        Comes::Child(join) => lot.wake(rt, *join)?,
        Comes::Task(join) => {
            let Ok(task) = root(alloc, program) else {
                return Err(LotFault::Memory);
            };
            lot.park(rt, *join, task)?
        }
    };
    match found {
        Some(task) => Ok(Some(task.strand)),
        None => Ok(None),
    }
}

// Who comes for a join, and the join whose task is found: none where nobody waits, and Torn where the same call came before.
type Coming = (Comes, Result<Option<u32>, LotFault>);

const ROW: &[Coming] = &[
    (Comes::Child(3), Ok(None)),
    (Comes::Task(3), Ok(Some(3))),
    (Comes::Child(3), Err(LotFault::Torn)),
    (Comes::Child(6), Ok(None)),
    (Comes::Child(6), Err(LotFault::Torn)),
    (Comes::Task(4), Ok(None)),
    (Comes::Child(4), Ok(Some(4))),
    (Comes::Task(5), Ok(None)),
    (Comes::Task(5), Err(LotFault::Torn)),
    // Joins with greater numbers than a gate gives.
    (Comes::Task(4_194_304), Ok(None)),
    (Comes::Child(4_194_304), Ok(Some(4_194_304))),
    (Comes::Child(4_200_000), Ok(None)),
    (Comes::Task(4_200_000), Ok(Some(4_200_000))),
];

fn check_row<'p, R: Abort + Wait>(
    rt: &R,
    alloc: Global,
    program: &'p Program<Global>,
    lot: &Lot<'p>,
    row: &[Coming],
) {
    for (place, (comes, wanted)) in row.iter().enumerate() {
        let found = come(rt, alloc, program, lot, comes);
        equal(rt, &place, &found, wanted);
    }
}

// A lot is closed once it is told to be, and not before.
#[test]
fn second_comer_gets_the_task(rt: HostRuntime) -> Result<(), Fail> {
    let program = Program::parse(rt.alloc(), PAIR)?;
    let lot = Lot::new(rt.alloc());
    check_row(&rt, rt.alloc(), &program, &lot, ROW);
    assert!(rt; !lot.look(&rt));
    lot.close(&rt);
    assert!(rt; lot.look(&rt));
    Ok(())
}
