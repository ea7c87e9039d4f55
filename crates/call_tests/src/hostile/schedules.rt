//! Clean programs leave one memory by any schedule: runs whose gate turns before each request.

ghost use Rattle.std.specs.Prelude.{◌<◌, ◌≤◌};

use crate::hostile::pranks::Prank;
use crate::hostile::rounds::play;
use crate::hostile::worked::{FIB, LASTS, TURNS};
use program_text::Program;
use std::alloc::Global;
use std::process::Abort;
use std::sync::Wait;
use std::test::Fail;
use std::thread::Threads;

/// A clean program, how many entries a run of it has, the memory that each leaves, and how often it is run by each number of workers.
struct Clean<'a> {
    text: &'a [u8],
    entries: usize,
    memory: &'a [u64],
    times: u32,
    workers: &'a [usize],
}

/// Each run by so many workers has so many entries, is clean, and leaves this memory.
fn check_runs<R: Abort + Threads + Wait + Sync>(
    rt: &R,
    alloc: Global,
    program: &Program<Global>,
    clean: &Clean<'_>,
    workers: usize,
)
    requires { (0 < workers) × (workers ≤ 64) }
{
    for _ in 0..clean.times {
        let is_right = match play(rt, alloc, program, workers, Prank::Turns) {
            Ok(whole) => {
                whole.clean
                    && whole.entries.len() == clean.entries
                    && whole.memory.as_slice() == clean.memory
            }
            Err(_) => false,
        };
        assert!(rt; is_right);
    }
}

/// So it is by each number of workers.
fn check<R: Abort + Threads + Wait + Sync>(
    rt: &R,
    alloc: Global,
    clean: &Clean<'_>,
) -> Result<(), Fail> {
    let program = Program::parse(alloc, clean.text)?;
    for workers in clean.workers {
        assert!(rt; 0 < *workers && *workers <= 64);
        check_runs(rt, alloc, &program, clean, *workers);
    }
    Ok(())
}

/// The tenth Fibonacci number, updates of which the last counts, and turns of a loop.
const PROGRAMS: &[Clean<'static>] = &[
    Clean {
        text: FIB,
        entries: 713,
        memory: &[55],
        times: 50,
        workers: &[1, 2, 8],
    },
    Clean {
        text: LASTS,
        entries: 11,
        memory: &[3],
        times: 50,
        workers: &[1, 2, 8, 64],
    },
    Clean {
        text: TURNS,
        entries: 19,
        memory: &[0, 1, 2, 3],
        times: 50,
        workers: &[1, 2, 8, 64],
    },
];

#[test]
fn programs_by_any_number(rt: HostRuntime) -> Result<(), Fail> {
    for clean in PROGRAMS {
        check(&rt, rt.alloc(), clean)?;
    }
    Ok(())
}

const BY_ALL: Clean<'static> = Clean {
    text: FIB,
    entries: 713,
    memory: &[55],
    times: 25,
    workers: &[64],
};

#[test]
fn fibonacci_by_all(rt: HostRuntime) -> Result<(), Fail> {
    check(&rt, rt.alloc(), &BY_ALL)
}

// In two parts, since many threads take long where other work is done.
#[test]
fn fibonacci_by_all_once_more(rt: HostRuntime) -> Result<(), Fail> {
    check(&rt, rt.alloc(), &BY_ALL)
}
