//! The limits of texts, histories and replays, at the limit and one past it.

use crate::checks::equal;
use crate::hostile::texts::{found_of, meant_by};
use crate::hostile::worked::ENDLESS;
use program_text::{Cause, Program};
use race_gate::{Answer, Entry, Gate, GateFault};
use run_replay::{ReplayFault, replay};
use std::alloc::{AllocError, Global};
use std::process::Abort;
use std::test::Fail;
use text_words::{Act, Monoids, Request, Shape};

/// A text that begins so, with so many lines of one kind behind that and then this end, and what it means as a program or as a trace.
struct Lines {
    first: &'static str,
    line: &'static str,
    count: u32,
    end: &'static str,
    is_program: bool,
    wanted: Result<usize, (u32, Cause)>,
}

fn check(rt: &impl Abort, alloc: Global, lines: &Lines) -> Result<(), AllocError> {
    let mut text = String::from_str(alloc, lines.first)?;
    for _ in 0..lines.count {
        text.push_str(lines.line)?;
    }
    text.push_str(lines.end)?;
    let found = if lines.is_program {
        meant_by(alloc, text.as_bytes())
    } else {
        found_of(alloc, text.as_bytes())
    };
    equal(rt, &lines.count, &found, &Some(lines.wanted));
    Ok(())
}

/// A trace of so many lines of one kind.
macro_rules! trace_of {
    ($line:literal, $count:literal, $wanted:expr) => {
        Lines {
            first: "cilk 1\n",
            line: $line,
            count: $count,
            end: "",
            is_program: false,
            wanted: $wanted,
        }
    };
}

/// A program that calls `g` on its third line, and has so many blank lines before `g` begins.
macro_rules! program_of {
    ($count:literal, $wanted:expr) => {
        Lines {
            first: "cilk 1\nfunc main z\ncall g 0\nend\n",
            line: "\n",
            count: $count,
            end: "func g z\nend\n",
            is_program: true,
            wanted: $wanted,
        }
    };
}

const TEXTS: &[Lines] = &[
    // Requests and lines of a trace.
    trace_of!("sync 0\n", 2_000_000, Ok(2_000_000)),
    trace_of!("sync 0\n", 2_000_001, Err((2_000_002, Cause::TooMany))),
    trace_of!("\n", 3_999_999, Ok(0)),
    trace_of!("\n", 4_000_000, Err((4_000_001, Cause::TooMany))),
    // A function is known also where it begins past the last line that a program may have, so the call of it is no fault.
    program_of!(3_999_994, Ok(2)),
    program_of!(3_999_996, Err((4_000_001, Cause::TooMany))),
];

#[test]
fn requests_and_lines_of_a_text(rt: HostRuntime) -> Result<(), Fail> {
    for lines in TEXTS {
        check(&rt, rt.alloc(), lines)?;
    }
    Ok(())
}

const CALL: Request = Request {
    strand: 0,
    act: Act::Call,
    line: 3,
};

/// What is replayed of a program that calls itself so often.
fn replay_calls(
    alloc: Global,
    program: &Program<Global>,
    count: u32,
) -> Result<Result<(), ReplayFault>, AllocError> {
    let mut entries = Vec::new(alloc);
    for _ in 0..count {
        entries.push(Entry {
            request: CALL,
            answer: Answer::Same,
        })?;
    }
    Ok(replay(alloc, program, entries.as_slice()))
}

/// How often a program calls itself, and the fault of the replay.
const CALLS: &[(u32, ReplayFault)] = &[
    (1_000_000, ReplayFault::Unfinished),
    (1_000_001, ReplayFault::Strange(1_000_001)),
];

#[test]
fn entries_of_a_replay(rt: HostRuntime) -> Result<(), Fail> {
    let program = Program::parse(rt.alloc(), ENDLESS)?;
    for (count, fault) in CALLS {
        let found = replay_calls(rt.alloc(), &program, *count)?;
        equal(&rt, count, &found, &Err(*fault));
    }
    Ok(())
}

/// A gate of no cells whose history has at most 1,000,000 entries.
fn large_gate(alloc: Global) -> Result<Gate<Global>, AllocError> {
    let shape = Shape {
        cells: 0,
        monoids: Monoids::new(Vec::new(alloc)),
    };
    Gate::new(alloc, &shape, 1_000_000)
}

/// The gate answers as many requests as there may be, and no more.
fn is_filled(gate: &mut Gate<Global>) -> bool {
    for _ in 0..1_000_000 {
        if gate.judge(CALL).is_err() {
            return false;
        }
    }
    matches!(gate.judge(CALL), Err(GateFault::Limit)) && gate.history().len() == 1_000_000
}

#[test]
fn entries_of_a_history(rt: HostRuntime) -> Result<(), Fail> {
    let mut gate = large_gate(rt.alloc())?;
    assert!(rt; is_filled(&mut gate));
    Ok(())
}
