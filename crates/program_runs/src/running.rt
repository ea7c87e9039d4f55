//! From a program to a finished run of it.

ghost use Rattle.std.specs.Prelude.{◌≡◌, ◌<◌, ◌≤◌, ◌≢◌, IfOk, IfErr};
ghost use Rattle.model_histories.specs.Shapes.{most_entries};
ghost use Rattle.race_gate.specs.States.{IsRight};
ghost use Rattle.program_text.specs.Shapes.{shape_in};
ghost use Rattle.program_runs.specs.Runs.{IsWholeRun, LacksRun};

use crate::door::{Door, DoorGate};
use locked_replay::{
    LockedGate, ReplayFault, RunFault, Seat, Whole, WorkerLog, check_run, gather, open_gate,
    replay, whole_of_gate,
};
use program_text::Program;
use race_gate::ShortGate;
use std::alloc::{Allocator, Global};
use std::marker::Brand;
use std::sync::Wait;
use std::sync::ledger::{Blank, Ledger};
use std::thread::Threads;
use steal_workers::{run, run_serially};

/// The parts of a seat, one for each worker that there may be.
const PARTS: u64 = 64;

/// A run that did not come to its end.
#[derive(Drop)]
pub struct UnfinishedRun<A: Allocator + Clone = Global> {
    /// Why.
    pub fault: RunFault,
    /// The gate that the workers left, where they brought no logs.
    pub gate: Option<ShortGate<A>>,
}

/// What the workers bring back that ask this gate through the door.
fn run_through<
    L: Ledger + Send + Sync,
    A: Allocator + Copy + Send + Sync,
    D: Door + Sync,
    R: Threads + Wait + Sync,
>(
    rt: &R,
    alloc: A,
    program: &Program<Global>,
    workers: usize,
    door: &D,
    locked: &LockedGate<L, A>,
    seat: Seat<L>,
) -> Result<Vec<WorkerLog<L, A>, A>, RunFault>
    requires workers { (0 < workers) × (workers ≤ 64) }
    requires parts { seat.parts ≡ 64 }
{
    let gate = DoorGate { door, locked };
    run(rt, alloc, program, workers, &gate, seat)
}

/// What the gate shows behind workers that brought no logs: that its history is no finished run, or that it is one which nobody brought.
fn diagnose_unfinished<A: Allocator + Copy>(
    alloc: A,
    program: &Program<Global>,
    gate: &ShortGate<A>,
    limit: u32,
) -> RunFault
    requires { IsRight gate.now }
    ensures { LacksRun program.now.functions (shape_in program.now) limit result }
{
    match check_run(alloc, program, gate) {
        Ok(()) => RunFault::Torn,
        Err(fault) => fault,
    }
}

/// Limit where the gate's history is a run of the program that has come to the limit, and is not at its end.
fn diagnose_limit<A: Allocator + Copy>(
    alloc: A,
    program: &Program<Global>,
    gate: &ShortGate<A>,
    limit: u32,
) -> RunFault
    requires { IsRight gate.now }
    ensures { LacksRun program.now.functions (shape_in program.now) limit result }
{
    let entries = gate.kept_history();
    if entries.len() < limit as usize {
        return diagnose_unfinished(alloc, program, gate, limit);
    }
    let Ok(entries) = entries.to_vec(alloc) else {
        return RunFault::Memory;
    };
    match replay(alloc, program, entries.as_slice()) {
        Err(ReplayFault::Unfinished) => RunFault::Limit,
        Err(ReplayFault::Memory) => RunFault::Memory,
        Ok(()) | Err(ReplayFault::Strange(_)) => {
            diagnose_unfinished(alloc, program, gate, limit)
        }
    }
}

/// The fault where a worker that met it stopped the gate.
fn diagnose_stopped<A: Allocator + Copy>(
    alloc: A,
    program: &Program<Global>,
    gate: &ShortGate<A>,
    limit: u32,
    fault: RunFault,
) -> RunFault
    requires right { IsRight gate.now }
    requires other { fault ≢ RunFault.Limit }
    ensures { LacksRun program.now.functions (shape_in program.now) limit result }
{
    if gate.is_stopped() {
        fault
    } else {
        diagnose_unfinished(alloc, program, gate, limit)
    }
}

/// What a run answers whose workers met this fault and brought no logs: the fault, where the gate bears it out, and else what the gate
/// shows.
fn diagnose_fault<A: Allocator + Copy>(
    alloc: A,
    program: &Program<Global>,
    gate: &ShortGate<A>,
    limit: u32,
    fault: RunFault,
) -> RunFault
    requires { IsRight gate.now }
    ensures { LacksRun program.now.functions (shape_in program.now) limit result }
{
    match fault {
        RunFault::Limit => diagnose_limit(alloc, program, gate, limit),
        RunFault::Memory => RunFault::Memory,
        RunFault::Stopped | RunFault::Torn | RunFault::Strange => {
            diagnose_stopped(alloc, program, gate, limit, fault)
        }
    }
}

/// The finished run that the workers brought back, of at most `limit` entries.
fn gather_run<L: Ledger, A: Allocator + Copy>(
    alloc: A,
    program: &Program<Global>,
    locked: LockedGate<L, A>,
    logs: Vec<WorkerLog<L, A>, A>,
    limit: u32,
) -> Result<Whole<A>, RunFault>
    ensures whole { IfOk result (IsWholeRun program.now limit) }
    ensures fault { IfErr result (LacksRun program.now.functions (shape_in program.now) limit) }
{
    let whole = gather(alloc, program, locked, logs)?;
    if whole.entries.len() > limit as usize {
        return Err(RunFault::Limit);
    }
    Ok(whole)
}

/// As [`run_by_workers`], over a ledger of the caller's.
fn run_over_ledger<
    L: Ledger + Send + Sync,
    A: Allocator + Copy + Send + Sync,
    D: Door + Sync,
    R: Threads + Wait + Sync,
>(
    rt: &R,
    alloc: A,
    program: &Program<Global>,
    workers: usize,
    door: &D,
    limit: u32,
    blank: Blank,
) -> Result<Whole<A>, UnfinishedRun<A>>
    requires workers { (0 < workers) × (workers ≤ 64) }
    requires limit { limit ≤ most_entries }
    requires name { blank.name ≡ L.name }
    requires all { blank.parts ≡ L.parts }
    requires parts { blank.parts ≡ 64 }
    ensures whole { IfOk result (IsWholeRun program.now limit) }
    ensures fault { IfErr result (λ cut. LacksRun program.now.functions (shape_in program.now) limit cut.fault) }
{
    let Ok(gate) = open_gate(alloc, program, limit) else {
        return Err(UnfinishedRun {
            fault: RunFault::Memory,
            gate: None,
        });
    };
    let (locked, seat) = LockedGate::<L, A>::new(gate, blank, PARTS);
    let logs = match run_through(rt, alloc, program, workers, door, &locked, seat) {
        Ok(logs) => logs,
        Err(fault) => {
            let gate = locked.into_gate();
            let fault = diagnose_fault(alloc, program, &gate, limit, fault);
            return Err(UnfinishedRun {
                fault,
                gate: Some(gate),
            });
        }
    };
    match gather_run(alloc, program, locked, logs, limit) {
        Ok(whole) => Ok(whole),
        Err(fault) => Err(UnfinishedRun { fault, gate: None }),
    }
}

/// Runs a program by so many workers, which ask a gate with this limit on the entries of its history. Before each request the door is told
/// its strand. It answers a finished run of at most `limit` entries, or what there is of a run without its end: Limit only where some run
/// of the program wants more entries than the limit, Stopped, Torn or Strange where the workers brought no finished run, and Memory where
/// a growth was refused or a thread could not be started.
pub fn run_by_workers<A: Allocator + Copy + Send + Sync, D: Door + Sync, R: Threads + Wait + Sync>(
    rt: &R,
    alloc: A,
    program: &Program<Global>,
    workers: usize,
    door: &D,
    limit: u32,
) -> Result<Whole<A>, UnfinishedRun<A>>
    requires workers { (0 < workers) × (workers ≤ 64) }
    requires limit { limit ≤ most_entries }
    ensures whole { IfOk result (IsWholeRun program.now limit) }
    ensures fault { IfErr result (λ cut. LacksRun program.now.functions (shape_in program.now) limit cut.fault) }
{
    let blank = Blank::new(PARTS);
    run_over_ledger::<Brand, A, D, R>(rt, alloc, program, workers, door, limit, blank)
}

/// The finished run whose history the gate has, of at most `limit` entries.
fn take_run<A: Allocator + Copy>(
    alloc: A,
    program: &Program<Global>,
    gate: ShortGate<A>,
    limit: u32,
) -> Result<Whole<A>, RunFault>
    requires { IsRight gate }
    ensures whole { IfOk result (IsWholeRun program.now limit) }
    ensures fault { IfErr result (LacksRun program.now.functions (shape_in program.now) limit) }
{
    let taken = whole_of_gate(alloc, program, gate)?;
    if taken.entries.len() > limit as usize {
        return Err(RunFault::Limit);
    }
    Ok(taken)
}

/// As [`run_by_workers`], by one worker that runs each child before what follows its spawn, so that it is the same run each time.
pub fn run_in_serial_order<A: Allocator + Copy>(
    alloc: A,
    program: &Program<Global>,
    limit: u32,
) -> Result<Whole<A>, UnfinishedRun<A>>
    requires limit { limit ≤ most_entries }
    ensures whole { IfOk result (IsWholeRun program.now limit) }
    ensures fault { IfErr result (λ cut. LacksRun program.now.functions (shape_in program.now) limit cut.fault) }
{
    let Ok(mut gate) = open_gate(alloc, program, limit) else {
        return Err(UnfinishedRun {
            fault: RunFault::Memory,
            gate: None,
        });
    };
    let ran = run_serially(alloc, program, &mut gate);
    // What is known of each gate is known of this one from here on.
    let _entries = gate.kept_history();
    let _cells = gate.memory();
    if let Err(fault) = ran {
        let fault = diagnose_fault(alloc, program, &gate, limit, fault);
        return Err(UnfinishedRun {
            fault,
            gate: Some(gate),
        });
    }
    match take_run(alloc, program, gate, limit) {
        Ok(whole) => Ok(whole),
        Err(fault) => Err(UnfinishedRun { fault, gate: None }),
    }
}
