//! Runs of a program whose gate stops, wants memory, or answers another request.

use crate::checks::equal;
use crate::hostile::pranks::Prank;
use crate::hostile::rounds::end_with_brand;
use crate::hostile::worked::FIB;
use locked_replay::RunFault;
use program_text::Program;
use std::alloc::Global;
use std::process::Abort;
use std::sync::Wait;
use std::test::Fail;
use std::thread::Threads;

/// A prank at a request, and the fault of the runs whose gate plays it.
type Case = (Prank, RunFault);

/// By each number of workers the run has this fault, and the gate is stopped.
fn check_fault<R: Abort + Threads + Wait + Sync>(
    rt: &R,
    alloc: Global,
    program: &Program<Global>,
    case: Case,
) -> Result<(), Fail> {
    let (prank, fault) = case;
    for workers in &[1usize, 2, 8, 64] {
        assert!(rt; 0 < *workers && *workers <= 64);
        let (found, is_stopped) = end_with_brand(rt, alloc, program, *workers, prank)?;
        let told = (found.err(), is_stopped);
        equal(rt, &(prank, *workers), &told, &(Some(fault), true));
    }
    Ok(())
}

const CASES: &[Case] = &[
    // It stops.
    (Prank::Stops(1), RunFault::Stopped),
    (Prank::Stops(100), RunFault::Stopped),
    (Prank::Stops(713), RunFault::Stopped),
    // It wants memory.
    (Prank::Starves(1), RunFault::Memory),
    (Prank::Starves(100), RunFault::Memory),
    (Prank::Starves(713), RunFault::Memory),
    // It answers another request.
    (Prank::Swaps(1), RunFault::Strange),
    (Prank::Swaps(100), RunFault::Strange),
    (Prank::Swaps(713), RunFault::Strange),
];

#[test]
fn a_gate_that_plays_a_prank(rt: HostRuntime) -> Result<(), Fail> {
    let program = Program::parse(rt.alloc(), FIB)?;
    for case in CASES {
        check_fault(&rt, rt.alloc(), &program, *case)?;
    }
    Ok(())
}
