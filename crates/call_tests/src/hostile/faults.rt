//! The faults of the commands: their texts and statuses, and those of a run whose gate stops, tears or answers strangely, which writes
//! nothing.

ghost use Rattle.std.specs.Prelude.{◌<◌, ◌≤◌};

use crate::checks::equal;
use crate::hostile::pranks::{Prank, PrankDoor};
use crate::hostile::worked::FIB;
use std::alloc::Global;
use std::process::Abort;
use std::sync::Wait;
use std::sync::atomic::AtomicU64;
use std::test::Fail;
use std::thread::Threads;
use text_words::{Cause, TextFault};
use tool_commands::{CliFault, Watched, run_text};

/// A fault has this text behind the program's name, and this status.
fn check_told(rt: &impl Abort, alloc: Global, fault: CliFault, text: &str, status: u8) {
    match format!(in alloc; "{fault}") {
        Ok(told) => {
            let found = (told.as_str(), fault.status());
            equal(rt, &text, &found, &(text, status));
        }
        Err(_) => assert!(rt; false, "no memory for {text}"),
    }
}

/// A fault of a text at its third line.
macro_rules! third {
    ($why:expr) => {
        TextFault::At {
            line: 3,
            why: $why,
        }
    };
}

/// Each fault has the text and status that docs/FORMATS.md gives.
#[test]
fn each_fault_has_its_text_and_status(rt: HostRuntime) -> Result<(), Fail> {
    let alloc = rt.alloc();
    // Faults of the arguments, of want of memory, of what is read and of what is written.
    let words = "no such option".to_string(alloc)?;
    check_told(&rt, alloc, CliFault::Usage(words), "no such option", 2);
    let memory = CliFault::from(TextFault::Memory);
    check_told(&rt, alloc, memory, "memory", 3);
    check_told(&rt, alloc, CliFault::Read, "read", 2);
    check_told(&rt, alloc, CliFault::Write, "write", 2);
    check_told(&rt, alloc, CliFault::Unwritten, "cannot write OUT", 2);
    check_told(&rt, alloc, CliFault::TooLong, "too long", 2);
    // Faults of texts.
    let trace = CliFault::Trace(third!(Cause::BadWord));
    check_told(&rt, alloc, trace, "trace line 3: BadWord", 2);
    let trace = CliFault::Trace(TextFault::Memory);
    check_told(&rt, alloc, trace, "trace memory", 3);
    let program = CliFault::Program(third!(Cause::BadNesting));
    check_told(&rt, alloc, program, "program line 3: BadNesting", 2);
    let program = CliFault::Program(TextFault::Memory);
    check_told(&rt, alloc, program, "program memory", 3);
    check_told(&rt, alloc, CliFault::Shape, "shape", 2);
    check_told(&rt, alloc, CliFault::Illegal(7), "illegal request 7", 2);
    // Faults of runs, and limits.
    let most = "too many strands to draw: 10000 at most";
    check_told(&rt, alloc, CliFault::Limit, "limit", 4);
    check_told(&rt, alloc, CliFault::TooManyStrands, most, 4);
    check_told(&rt, alloc, CliFault::Stopped, "stopped", 4);
    check_told(&rt, alloc, CliFault::Torn, "torn", 4);
    check_told(&rt, alloc, CliFault::Strange, "strange", 4);
    check_told(&rt, alloc, CliFault::Memory, "memory", 3);
    Ok(())
}

/// A prank that a door plays to the workers of `run_text`, and the text and status of the fault that is told.
type Case = (Prank, &'static str, u8);

const CASES: &[Case] = &[
    (Prank::Stops(1), "stopped", 4),
    (Prank::Stops(100), "stopped", 4),
    (Prank::Stops(713), "stopped", 4),
    (Prank::Tears(1), "torn", 4),
    (Prank::Tears(100), "torn", 4),
    (Prank::Tears(713), "torn", 4),
    (Prank::Swaps(1), "strange", 4),
    (Prank::Swaps(100), "strange", 4),
    (Prank::Swaps(713), "strange", 4),
    (Prank::Starves(1), "memory", 3),
    (Prank::Starves(713), "memory", 3),
];

/// Runs FIB by so many workers through a door that plays the prank. What `run_text` answers, and what it has written to.
fn run_fib<R: Threads + Wait + Sync>(
    rt: &R,
    alloc: Global,
    workers: usize,
    prank: Prank,
) -> (Result<u8, CliFault>, Watched<Vec<u8>>)
    requires { (0 < workers) × (workers ≤ 64) }
{
    let mut program = Watched::new(FIB);
    let mut output = Watched::new(Vec::new(alloc));
    let door = PrankDoor {
        prank,
        asked: AtomicU64::new(0),
    };
    let answer = run_text(
        rt,
        alloc,
        alloc,
        &mut program,
        workers,
        &door,
        &mut output,
        1_000_000,
    );
    (answer, output)
}

/// A run by so many workers tells the fault, and nothing is written.
fn check_case<R: Abort + Threads + Wait + Sync>(rt: &R, alloc: Global, workers: usize, case: Case) {
    assert!(rt; 0 < workers && workers <= 64);
    let (prank, text, status) = case;
    let (answer, output) = run_fib(rt, alloc, workers, prank);
    equal(rt, &(prank, workers), &output.calls(), &0);
    match answer {
        Ok(found) => equal(rt, &(prank, workers), &Some(found), &None),
        Err(fault) => check_told(rt, alloc, fault, text, status),
    }
}

#[test]
fn a_run_whose_gate_is_cheated_tells_it_and_writes_nothing(rt: HostRuntime) {
    for case in CASES {
        for workers in &[1usize, 2, 8, 64] {
            check_case(&rt, rt.alloc(), *workers, *case);
        }
    }
}

/// A door that lets each request in as others do, in its own way, changes nothing.
#[test]
fn a_run_whose_gate_is_turned_round_is_told(rt: HostRuntime) {
    let (answer, output) = run_fib(&rt, rt.alloc(), 8, Prank::Turns);
    equal(&rt, &"status", &answer.ok(), &Some(0));
    let told = output.into_inner();
    let wanted =
        "{\"clean\":true,\"entries\":713,\"memory\":{\"x\":55},\"refusals\":[],\"schedules\":\"clean for every schedule\"}\n";
    equal(&rt, &"report", &told.as_slice(), &wanted.as_bytes());
}
