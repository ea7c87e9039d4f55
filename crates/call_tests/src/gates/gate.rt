//! What a gate answers from its begin to its limit or end, and its faults.

/// The strand's act, on line 1.
macro_rules! asked {
    ($strand:literal, $act:expr) => {
        Request {
            strand: $strand,
            act: $act,
            line: 1,
        }
    };
}

/// What the strand's act on line 1 is answered under this number.
macro_rules! receipt {
    ($number:literal, $strand:literal, $act:expr, $answer:expr) => {
        Receipt {
            number: $number,
            request: asked!($strand, $act),
            answer: $answer,
        }
    };
}

use crate::checks::equal;
use crate::openings::gate_of;
use Act::{Get, Read, Return, Spawn, Sync, Write};
use Answer::{Finished, Granted, Same, Split, Value};
use race_gate::{Answer, Gate, GateFault, Receipt, Reply, judge_all, laws};
use sp_labels::Spawned;
use std::alloc::{AllocError, Global};
use std::process::Abort;
use std::test::Fail;
use text_words::{Act, Request};

/// A request, and what the gate makes of it.
type Outcome = (Request, Result<Receipt, GateFault>);

/// A list of requests, and the reply to each.
type Listed<'a> = (&'a [Request], &'a [Reply]);

/// How many entries a gate has, whether it has finished, and the number in its cell.
type End = (usize, bool, u64);

/// What a new gate is asked with this limit: one request after another, and then a list. Its end stays when it is stopped.
struct Case {
    limit: u32,
    outcomes: &'static [Outcome],
    listed: Listed<'static>,
    end: End,
}

/// Whether the gate makes of each request what stands beside it.
fn judges(gate: &mut Gate<Global>, outcomes: &[Outcome]) -> bool {
    for (request, outcome) in outcomes {
        if gate.judge(*request) != *outcome {
            return false;
        }
    }
    true
}

/// Whether the gate has its end, its limit and one cell, and is stopped or not.
fn ends(gate: &Gate<Global>, case: &Case, is_stopped: bool) -> bool {
    let (entries, is_finished, number) = case.end;
    gate.history().len() == entries
        && gate.is_finished() == is_finished
        && gate.memory() == [number].as_slice()
        && gate.is_stopped() == is_stopped
        && gate.limit() == case.limit
        && gate.shape().cells == 1
}

/// What a stopped gate makes of a request.
const STOPPED: &[Outcome] = &[(asked!(0, Sync), Err(GateFault::Stopped))];

/// Checks that the gate replies to the list as it is to.
fn check_replies(
    rt: &impl Abort,
    alloc: Global,
    gate: &mut Gate<Global>,
    case: &Case,
) -> Result<(), AllocError> {
    let (requests, wanted) = case.listed;
    let replies = judge_all(gate, alloc, requests)?;
    equal(rt, &case.limit, &replies.as_slice(), &wanted);
    Ok(())
}

/// Checks that the gate answers as it is to, and has its end, which stays when it is stopped.
fn check(
    rt: &impl Abort,
    alloc: Global,
    gate: &mut Gate<Global>,
    case: &Case,
) -> Result<(), AllocError> {
    assert!(rt; judges(gate, case.outcomes), "limit {}", case.limit);
    check_replies(rt, alloc, gate, case)?;
    assert!(rt; ends(gate, case, false), "limit {}", case.limit);
    gate.stop();
    assert!(rt;
        judges(gate, STOPPED) && ends(gate, case, true),
        "limit {}",
        case.limit
    );
    Ok(())
}

/// The first fault of each request, by a gate of the limit 2.
const FAULTS: &[Outcome] = &[
    (asked!(0, Read(1)), Err(GateFault::BadName)),
    (asked!(9, Read(1)), Err(GateFault::NotRunning)),
    (asked!(0, Get(0)), Err(GateFault::BadName)),
    (
        asked!(0, Spawn),
        Ok(receipt!(
            1,
            0,
            Spawn,
            Split(Spawned {
                child: 1,
                next: 2,
                join: 3,
                first: true,
            })
        )),
    ),
    (asked!(2, Return), Err(GateFault::Unsynced)),
    (asked!(2, Read(0)), Ok(receipt!(2, 2, Read(0), Value(0)))),
    (asked!(9, Read(1)), Err(GateFault::Limit)),
];

/// Four writes, by a gate of the limit 3.
const WRITES: Listed<'static> = (
    &[
        asked!(0, Write(0, 1)),
        asked!(0, Write(0, 2)),
        asked!(0, Write(0, 3)),
        asked!(0, Write(0, 4)),
    ],
    &[
        Reply::Done(receipt!(1, 0, Write(0, 1), Granted)),
        Reply::Done(receipt!(2, 0, Write(0, 2), Granted)),
        Reply::Done(receipt!(3, 0, Write(0, 3), Granted)),
        Reply::Illegal(GateFault::Limit),
    ],
);

/// The root function returns, and its strand asks once more.
const RETURNS: Listed<'static> = (
    &[asked!(0, Sync), asked!(0, Return), asked!(0, Read(0))],
    &[
        Reply::Done(receipt!(1, 0, Sync, Same)),
        Reply::Done(receipt!(2, 0, Return, Finished)),
        Reply::Illegal(GateFault::NotRunning),
    ],
);

const CASES: &[Case] = &[
    // A gate begins without entries.
    Case {
        limit: 7,
        outcomes: &[],
        listed: (&[], &[]),
        end: (0, false, 0),
    },
    // Faults come in their order.
    Case {
        limit: 2,
        outcomes: FAULTS,
        listed: (&[], &[]),
        end: (2, false, 0),
    },
    // A list has one reply to each request.
    Case {
        limit: 3,
        outcomes: &[],
        listed: WRITES,
        end: (3, false, 3),
    },
    // The root function finishes.
    Case {
        limit: 1_000_000,
        outcomes: &[],
        listed: RETURNS,
        end: (2, true, 0),
    },
];

#[test]
fn a_gate_enters_from_its_begin_to_its_limit_or_end(rt: HostRuntime) -> Result<(), Fail> {
    for case in CASES {
        assert!(rt; case.limit <= 1_000_000);
        let mut gate = gate_of(rt.alloc(), 1, &[], case.limit)?;
        check(&rt, rt.alloc(), &mut gate, case)?;
    }
    laws::race_law();
    laws::verdict_law();
    laws::read_law();
    laws::value_law();
    laws::admission_law();
    laws::examples_law();
    Ok(())
}
