//! Reports of what a gate answered.

ghost use Rattle.std.specs.Prelude.{◌≡◌, ◌↔◌, IsTrue, IfOk, OnOk, length, reverse};
ghost use Rattle.std.specs.List.{All};
ghost use Rattle.text_words.specs.Declarations.{cells_of};
ghost use Rattle.program_text.specs.Programs.{contents};
ghost use Rattle.model_histories.specs.Extensions.{IsClean};
ghost use Rattle.race_report.specs.Conditions.{shape_known, AreTellable};
ghost use Rattle.verdict_lines.specs.VerdictText.{HasWords};

use crate::openings::gate_for;
use locked_replay::{Whole, is_clean};
use program_text::Program;
use race_gate::{Answer, GateFault, Receipt, Reply, ShortGate};
use race_report::report;
use std::alloc::{AllocError, Global};
use std::test::Fail;
use text_words::{Act, Request};
use verdict_lines::verdict_lines;

/// Whether the gate answers these.
fn answers(gate: &mut ShortGate, requests: &[Request]) -> bool
    ensures { IsTrue result → gate.new.shape ≡ gate.old.shape }
{
    for request in requests {
        let Ok(_receipt) = gate.judge(*request) else {
            return false;
        };
    }
    true
}

/// What the gate of this program keeps.
fn whole_of(program: &Program<Global>, gate: ShortGate) -> Whole
    requires { gate.shape ≡ shape_known (contents program.now).known }
    ensures entries { AreTellable (shape_known (contents program.now).known) result.entries.items }
    ensures memory { length result.memory.items ≡ cells_of program.now.mems }
    ensures clean { IsTrue result.clean ↔ IsClean (reverse result.entries.items) }
{
    let (entries, memory) = gate.into_parts();
    let clean = is_clean(&entries);
    Whole {
        entries,
        memory,
        clean,
    }
}

/// Whether this is the report of a run of this program.
pub fn is_reported(alloc: Global, program: &Program<Global>, whole: &Whole, wanted: &str) -> bool
    requires entries { AreTellable (shape_known (contents program.now).known) whole.now.entries.items }
    requires memory { length whole.now.memory.items ≡ cells_of program.now.mems }
    requires clean { IsTrue whole.now.clean ↔ IsClean (reverse whole.now.entries.items) }
{
    match report(alloc, program, whole) {
        Ok(told) => told.as_slice() == wanted.as_bytes(),
        Err(_) => false,
    }
}

/// Whether this is the report of what a gate of this program answers to these requests.
fn is_report(
    alloc: Global,
    program: &Program<Global>,
    requests: &[Request],
    wanted: &str,
) -> Result<bool, AllocError> {
    let mut gate = gate_for(alloc, program, 1_000)?;
    if !answers(&mut gate, requests) {
        return Ok(false);
    }
    let whole = whole_of(program, gate);
    Ok(is_reported(alloc, program, &whole, wanted))
}

/// What a strand asks on a line.
macro_rules! asked {
    ($strand:literal, $act:expr, $line:literal) => {
        Request {
            strand: $strand,
            act: $act,
            line: $line,
        }
    };
}

/// A program's text, what a gate of the program is asked, and the report.
type Case<'a> = (&'a str, &'a [Request], &'a str);

const CASES: &[Case<'static>] = &[
    (
        "cilk 1\nreducer h sum\nfunc main z\n  get r h\nend\n",
        &[
            asked!(0, Act::Put(0, 1), 1),
            asked!(0, Act::Spawn, 2),
            asked!(2, Act::Get(0), 3),
            asked!(1, Act::Get(0), 4),
        ],
        "{\"clean\":false,\"entries\":4,\"memory\":{},\"refusals\":[{\"entry\":3,\"line\":3,\"name\":\"h\",\"rule\":\"view-read\",\"strand\":2,\"witness\":{\"entry\":1,\"line\":1,\"strand\":0}},{\"entry\":4,\"line\":4,\"name\":\"h\",\"rule\":\"view-read\",\"strand\":1,\"witness\":{\"entry\":1,\"line\":1,\"strand\":0}}]}",
    ),
    (
        "cilk 1\nmem b 1\nmem a 4\nmem c\nfunc main z\nend\n",
        &[
            asked!(0, Act::Write(2, 1), 1),
            asked!(0, Act::Write(3, 2), 1),
            asked!(0, Act::Write(4, 3), 1),
            asked!(0, Act::Spawn, 1),
            asked!(1, Act::Read(4), 2),
            asked!(2, Act::Write(4, 9), 3),
        ],
        "{\"clean\":false,\"entries\":6,\"memory\":{\"a\":[0,1,2,3],\"b\":[0],\"c\":0},\"refusals\":[{\"entry\":6,\"line\":3,\"name\":\"a[3]\",\"rule\":\"read-write\",\"strand\":2,\"witness\":{\"entry\":5,\"line\":2,\"strand\":1}}]}",
    ),
];

#[test]
fn reducers_and_arrays(rt: HostRuntime) -> Result<(), Fail> {
    for (text, requests, wanted) in CASES {
        let program = Program::parse(rt.alloc(), text.as_bytes())?;
        assert!(rt;
            is_report(rt.alloc(), &program, requests, wanted)?,
            "{wanted}"
        );
    }
    Ok(())
}

/// The reply to a get that finds nothing, with this number.
macro_rules! unset {
    ($number:literal) => {
        Reply::Done(Receipt {
            number: $number,
            request: Request {
                strand: 0,
                act: Act::Get(0),
                line: 1,
            },
            answer: Answer::Unset,
        })
    };
}

/// Whether the verdict lines of these replies are these.
fn are_lines(alloc: Global, replies: &[Reply], wanted: &str) -> bool
    requires { All HasWords replies.now }
{
    match verdict_lines(alloc, replies) {
        Ok(lines) => lines.as_slice() == wanted.as_bytes(),
        Err(_) => false,
    }
}

const REPLIES: [Reply; 4] = [
    unset!(1),
    Reply::Illegal(GateFault::Stopped),
    Reply::Illegal(GateFault::BadName),
    Reply::Illegal(GateFault::Memory),
];

const COUNTED: [Reply; 5] = [unset!(9), unset!(10), unset!(11), unset!(99), unset!(100)];

const DISTANT: [Reply; 5] = [
    unset!(1_000_000),
    unset!(10),
    unset!(0),
    unset!(4_294_967_295),
    unset!(7),
];

const FAULTS: &str = "1 refused unset\nillegal stopped\nillegal bad-name\nillegal memory\n";

const COUNTED_LINES: &str =
    "9 refused unset\n10 refused unset\n11 refused unset\n99 refused unset\n100 refused unset\n";

const DISTANT_LINES: &str =
    "1000000 refused unset\n10 refused unset\n0 refused unset\n4294967295 refused unset\n7 refused unset\n";

// Numbers that count up, and numbers that are distant.
#[test]
fn lines_of_replies(rt: HostRuntime) {
    assert!(rt; are_lines(rt.alloc(), &REPLIES, FAULTS));
    assert!(rt; are_lines(rt.alloc(), &COUNTED, COUNTED_LINES));
    assert!(rt; are_lines(rt.alloc(), &DISTANT, DISTANT_LINES));
}
