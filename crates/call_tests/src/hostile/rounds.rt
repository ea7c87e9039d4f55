//! Runs whose workers ask a gate with a prank.

ghost use Rattle.std.specs.Prelude.{◌≡◌, ◌<◌, ◌≤◌, [], IfOk};

use crate::hostile::pranks::{Prank, Prankster};
use locked_replay::{LockedGate, RunFault, Seat, Whole, WorkerLog, gather};
use program_text::Program;
use race_gate::ShortGate;
use std::alloc::{AllocError, Allocator, Global};
use std::marker::Brand;
use std::sync::Wait;
use std::sync::atomic::AtomicU64;
use std::sync::ledger::{Blank, Ledger};
use std::thread::Threads;
use steal_workers::run;

/// The parts of a seat, one for each worker that there may be.
const PARTS: u64 = 64;

/// A gate of the program, which was asked nothing.
pub fn gate_for<A: Allocator + Copy, B: Allocator>(
    alloc: A,
    program: &Program<B>,
) -> Result<ShortGate<A>, AllocError>
    ensures { IfOk result (λ gate. gate.history ≡ []) }
{
    let shape = program.shape(alloc)?;
    ShortGate::new(alloc, &shape, 1_000_000)
}

/// What the workers bring back that ask a gate with a prank.
fn logs_of<L: Ledger + Send + Sync, R: Threads + Wait + Sync>(
    rt: &R,
    alloc: Global,
    program: &Program<Global>,
    workers: usize,
    prank: Prank,
    locked: &LockedGate<L>,
    seat: Seat<L>,
) -> Result<Vec<WorkerLog<L>>, RunFault>
    requires workers { (0 < workers) × (workers ≤ 64) }
    requires parts { seat.parts ≡ 64 }
{
    let gate = Prankster {
        locked,
        prank,
        asked: AtomicU64::new(0),
    };
    run(rt, alloc, program, workers, &gate, seat)
}

/// The run of the program that is gathered, by so many workers that ask a gate with a prank, or its fault, and whether the gate within is
/// stopped where the workers bring one back.
fn end_of<L: Ledger + Send + Sync, R: Threads + Wait + Sync>(
    rt: &R,
    alloc: Global,
    program: &Program<Global>,
    workers: usize,
    prank: Prank,
    blank: Blank,
) -> Result<(Result<Whole, RunFault>, bool), AllocError>
    requires workers { (0 < workers) × (workers ≤ 64) }
    requires name { blank.name ≡ L.name }
    requires all { blank.parts ≡ L.parts }
    requires parts { blank.parts ≡ 64 }
{
    let gate = gate_for(alloc, program)?;
    let (locked, seat) = LockedGate::<L>::new(gate, blank, PARTS);
    match logs_of(rt, alloc, program, workers, prank, &locked, seat) {
        Ok(logs) => Ok((gather(alloc, program, locked, logs), false)),
        Err(fault) => Ok((Err(fault), locked.into_gate().is_stopped())),
    }
}

/// The same, whose workers' ledger nobody else has.
pub fn end_with_brand<R: Threads + Wait + Sync>(
    rt: &R,
    alloc: Global,
    program: &Program<Global>,
    workers: usize,
    prank: Prank,
) -> Result<(Result<Whole, RunFault>, bool), AllocError>
    requires { (0 < workers) × (workers ≤ 64) }
{
    end_of::<Brand, R>(rt, alloc, program, workers, prank, Blank::new(PARTS))
}

/// The run that is gathered.
pub fn play<R: Threads + Wait + Sync>(
    rt: &R,
    alloc: Global,
    program: &Program<Global>,
    workers: usize,
    prank: Prank,
) -> Result<Whole, RunFault>
    requires { (0 < workers) × (workers ≤ 64) }
{
    let (whole, _) = end_with_brand(rt, alloc, program, workers, prank)?;
    whole
}
