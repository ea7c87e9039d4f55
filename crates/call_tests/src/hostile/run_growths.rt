//! Growths refused of a gate behind its lock, of what is gathered, of the lot, of runs and of the command, over a heap of the test: each in
//! turn where one worker runs, whose growths have an order, and some where more workers run, whose growths have none.

ghost use Rattle.std.specs.Prelude.{◌≡◌, ◌<◌, ◌≤◌};

use crate::checks::equal;
use crate::hostile::locked_growths::{Found, Heap, found_of, lacks_whole};
use crate::hostile::rounds::gate_for;
use crate::hostile::worked::{PAIR, SMALL_FIB};
use crate::refusing::Refusing;
use frame_steps::Frame;
use locked_replay::{LockedGate, RunFault, Whole, gather};
use program_text::Program;
use std::alloc::{Allocator, Global};
use std::marker::Brand;
use std::process::Abort;
use std::sync::Wait;
use std::sync::ledger::{Blank, Ledger};
use std::test::Fail;
use std::thread::Threads;
use steal_workers::{Lot, LotFault, Task, run, run_serially};
use tool_commands::{CliFault, OpenDoor, Watched, run_text};

/// The parts of a seat, one for each worker that there may be.
const PARTS: u64 = 64;

/// A call of which a growth is refused.
#[derive(Debug)]
enum Call {
    /// PAIR's requests are asked.
    Ask,
    /// PAIR's run is gathered.
    Gather,
    /// The task, or else the last child, comes for a join, and then the other one.
    Meet(bool),
    /// A program is run by one worker.
    Run(Kind),
}

/// How a program is run.
#[derive(Debug)]
enum Kind {
    ByWorkers,
    Serially,
    /// As the command does.
    Told,
}

/// The join for which a task waits.
const JOIN: u32 = 5;

/// The task of `main`.
fn task_of<'h, 'p>(
    heap: &'h Heap,
    program: &'p Program<Global>,
) -> Result<Task<'p, &'h Heap>, LotFault> {
    match Box::new(heap, Frame::new(heap, program, program.main(), 0)) {
        Ok(frame) => Ok(Task {
            strand: 0,
            program,
            frame,
        }),
        Err(_) => Err(LotFault::Memory),
    }
}

/// The task of `main`, or else the last child, comes for the join. The strand of the task that goes on behind it, where both came.
fn come<'h, 'p, R: Wait>(
    rt: &R,
    heap: &'h Heap,
    program: &'p Program<Global>,
    lot: &Lot<'p, &'h Heap>,
    is_task: bool,
) -> Result<Option<u32>, LotFault> {
    let met = if is_task {
        lot.park(rt, JOIN, task_of(heap, program)?)?
    } else {
        lot.wake(rt, JOIN)?
    };
    Ok(met.map(|task| task.strand))
}

/// The task or the last child comes for a join, once more where there was no memory, and then the other one.
fn meet<'p, R: Wait>(
    rt: &R,
    heap: &Heap,
    program: &'p Program<Global>,
    number: u64,
    is_task: bool,
) -> Option<Found> {
    let lot = Lot::new(heap);
    heap.refuse(number);
    let mut first = come(rt, heap, program, &lot, is_task);
    let was_refused = heap.has_refused();
    heap.refuse(0);
    let is_told = first == Err(LotFault::Memory);
    if is_told {
        first = come(rt, heap, program, &lot, is_task);
    }
    let second = come(rt, heap, program, &lot, !is_task);
    (first == Ok(None) && second == Ok(Some(JOIN))).then_some((was_refused, is_told))
}

/// A run of the program that is gathered.
fn run_and_gather<
    L: Ledger + Send + Sync,
    A: Allocator + Copy + Send + Sync,
    R: Threads + Wait + Sync,
>(
    rt: &R,
    alloc: A,
    program: &Program<Global>,
    workers: usize,
    blank: Blank,
) -> Result<Whole<A>, RunFault>
    requires workers { (0 < workers) × (workers ≤ 64) }
    requires name { blank.name ≡ L.name }
    requires all { blank.parts ≡ L.parts }
    requires parts { blank.parts ≡ 64 }
{
    let gate = gate_for(alloc, program)?;
    let (locked, seat) = LockedGate::<L, A>::new(gate, blank, PARTS);
    let logs = run(rt, alloc, program, workers, &locked, seat)?;
    gather(alloc, program, locked, logs)
}

/// Whether there is no memory for a run by so many workers. Every schedule is clean, has as many entries, and leaves the same memory.
fn lacks_run<R: Threads + Wait + Sync>(
    rt: &R,
    heap: &Heap,
    program: &Program<Global>,
    workers: usize,
) -> Option<bool>
    requires { (0 < workers) × (workers ≤ 64) }
{
    let blank = Blank::new(PARTS);
    let gathered = run_and_gather::<Brand, &Heap, R>(rt, heap, program, workers, blank);
    lacks_whole(gathered, true, 65, &[5])
}

/// Whether a run in the serial order, which asks a gate of its own, leaves that memory.
fn is_serial(heap: &Heap, program: &Program<Global>) -> Result<bool, RunFault> {
    let mut gate = gate_for(heap, program)?;
    run_serially(heap, program, &mut gate)?;
    Ok(gate.memory() == [5].as_slice())
}

/// Whether there is no memory for it.
fn lacks_serially(heap: &Heap, program: &Program<Global>) -> Option<bool> {
    match is_serial(heap, program) {
        Ok(is_right) => is_right.then_some(false),
        Err(RunFault::Memory) => Some(true),
        Err(_) => None,
    }
}

/// What the command writes of it.
const REPORT: &[u8] =
    b"{\"clean\":true,\"entries\":65,\"memory\":{\"x\":5},\"refusals\":[],\"schedules\":\"clean for every schedule\"}\n";

/// Whether there is no memory for the command, which writes nothing then.
fn lacks_command<R: Threads + Wait + Sync>(
    rt: &R,
    alloc: Global,
    heap: &Heap,
    workers: usize,
) -> Option<bool>
    requires { (0 < workers) × (workers ≤ 64) }
{
    let mut program = Watched::new(SMALL_FIB);
    let mut output = Watched::new(Vec::new(alloc));
    let answer = run_text(
        rt,
        heap,
        alloc,
        &mut program,
        workers,
        &OpenDoor,
        &mut output,
        1_000_000,
    );
    let told = output.into_inner();
    match answer {
        Ok(status) => (status == 0 && told.as_slice() == REPORT).then_some(false),
        Err(CliFault::Memory) => told.is_empty().then_some(true),
        Err(_) => None,
    }
}

/// Whether there is no memory for a run of this kind by so many workers.
fn lacks<R: Threads + Wait + Sync>(
    rt: &R,
    alloc: Global,
    heap: &Heap,
    program: &Program<Global>,
    kind: &Kind,
    workers: usize,
) -> Option<bool>
    requires { (0 < workers) × (workers ≤ 64) }
{
    match kind {
        Kind::ByWorkers => lacks_run(rt, heap, program, workers),
        Kind::Serially => lacks_serially(heap, program),
        Kind::Told => lacks_command(rt, alloc, heap, workers),
    }
}

/// Runs where the growth of this number is refused, and once more with all memory.
fn run_twice<R: Threads + Wait + Sync>(
    rt: &R,
    alloc: Global,
    heap: &Heap,
    program: &Program<Global>,
    number: u64,
    kind: &Kind,
    workers: usize,
) -> Option<Found>
    requires { (0 < workers) × (workers ≤ 64) }
{
    heap.refuse(number);
    let is_told = lacks(rt, alloc, heap, program, kind, workers)?;
    let was_refused = heap.has_refused();
    heap.refuse(0);
    let again = lacks(rt, alloc, heap, program, kind, workers)?;
    (!again).then_some((was_refused, is_told))
}

/// Where the growths of a call have no end.
const ENDLESS: u64 = 10_000;

/// Refuses the call's first growth, its second, and so on until none is refused. How many refusals it told, or behind how many growths
/// something was not as it is to be.
fn tell_in_turn<R: Threads + Wait + Sync>(
    rt: &R,
    alloc: Global,
    pair: &Program<Global>,
    program: &Program<Global>,
    call: &Call,
) -> Result<u64, u64> {
    // A run keeps ended frames in reserve, and memory is released before a run is gathered and on the way, for which a list may be moved.
    // They do without what is refused then; the other calls tell each refused growth.
    let may_do_without = matches!(call, Call::Gather | Call::Run(_));
    let mut told = 0u64;
    for growths in 0..ENDLESS {
        let heap = Refusing::new(alloc);
        let number = growths.saturating_add(1);
        let found = match call {
            Call::Ask => found_of(rt, &heap, pair, number, false),
            Call::Gather => found_of(rt, &heap, pair, number, true),
            Call::Meet(is_task) => meet(rt, &heap, program, number, *is_task),
            Call::Run(kind) => run_twice(rt, alloc, &heap, program, number, kind, 1),
        };
        match found {
            Some((false, false)) => return Ok(told),
            Some((true, true)) => told = told.saturating_add(1),
            Some((true, false)) if may_do_without => {}
            _ => return Err(growths),
        }
    }
    Err(ENDLESS)
}

/// Calls, and how many refusals each tells at least.
const CALLS: &[(Call, u64)] = &[
    (Call::Ask, 1),
    (Call::Gather, 1),
    (Call::Meet(true), 3),
    (Call::Meet(false), 1),
    (Call::Run(Kind::ByWorkers), 20),
    (Call::Run(Kind::Serially), 10),
    (Call::Run(Kind::Told), 20),
];

#[test]
fn calls_whose_growths_are_refused(rt: HostRuntime) -> Result<(), Fail> {
    let pair = Program::parse(rt.alloc(), PAIR)?;
    let program = Program::parse(rt.alloc(), SMALL_FIB)?;
    for (call, least) in CALLS {
        let told = tell_in_turn(&rt, rt.alloc(), &pair, &program, call);
        let is_right = matches!(told, Ok(count) if *least <= count);
        equal(&rt, &(call, told), &is_right, &true);
    }
    Ok(())
}

/// How many runs by each number of workers have a growth refused.
const RUNS: u64 = 30;

/// Most numbers of growths that are refused are below this one.
const NUMBERS: u64 = 100;

/// Runs of this kind by so many workers, each with another growth refused, in no order, go well or tell it.
fn check_runs<R: Abort + Threads + Wait + Sync>(
    rt: &R,
    alloc: Global,
    program: &Program<Global>,
    kind: &Kind,
    workers: usize,
)
    requires { (0 < workers) × (workers ≤ 64) }
{
    for run in 0..RUNS {
        let mixed = run.wrapping_mul(0x9E37_79B9_7F4A_7C15) >> 32;
        let number = (mixed % NUMBERS).saturating_add(1);
        let heap = Refusing::new(alloc);
        let found = run_twice(rt, alloc, &heap, program, number, kind, workers);
        let is_right = matches!(found, Some((was_refused, is_told)) if was_refused || !is_told);
        equal(rt, &(kind, workers, number), &is_right, &true);
    }
}

#[test]
fn runs_by_more_workers(rt: HostRuntime) -> Result<(), Fail> {
    let program = Program::parse(rt.alloc(), SMALL_FIB)?;
    for kind in &[Kind::ByWorkers, Kind::Told] {
        check_runs(&rt, rt.alloc(), &program, kind, 2);
        check_runs(&rt, rt.alloc(), &program, kind, 8);
    }
    Ok(())
}
