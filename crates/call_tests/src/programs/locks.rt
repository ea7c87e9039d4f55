//! Gates that are asked on seats, and what is gathered of them.

use super::gathered::{Asked, Case, Logs, found_by, run_of};
use crate::checks::equal;
use locked_replay::RunFault;
use program_text::Program;
use std::test::Fail;

/// A case of a gate that has the program's cells and is not stopped.
macro_rules! case {
    ($asked:expr, $second:expr, $kept:expr, $logs:expr, $found:expr) => {
        Case {
            asked: $asked,
            second: $second,
            kept: $kept,
            logs: $logs,
            three_cells: false,
            stopped: false,
            found: $found,
        }
    };
}

const ALL: &[usize] = &[0, 1, 2, 3, 4, 5, 6];

const TORN: Result<(), RunFault> = Err(RunFault::Torn);

const CASES: &[Case<'static>] = &[
    case!(Asked::Race, &[], ALL, Logs::Both, Ok(())),
    case!(Asked::Race, &[], ALL, Logs::First, Ok(())),
    // On the only seat.
    case!(Asked::Race, &[], ALL, Logs::Only, Ok(())),
    // On two seats.
    case!(Asked::Race, &[1, 3, 4], &[0, 1, 2, 3], Logs::Both, Ok(())),
    // By a gate of another number of cells.
    Case {
        asked: Asked::Race,
        second: &[],
        kept: ALL,
        logs: Logs::Both,
        three_cells: true,
        stopped: false,
        found: Err(RunFault::Strange),
    },
    // By a gate that is stopped once all was asked.
    Case {
        asked: Asked::Race,
        second: &[],
        kept: ALL,
        logs: Logs::Both,
        three_cells: false,
        stopped: true,
        found: Err(RunFault::Stopped),
    },
    // An unset get is not clean, be there an empty log beside it or none.
    case!(Asked::Unset, &[], &[0, 1, 2], Logs::Both, Ok(())),
    case!(Asked::Unset, &[], &[0, 1, 2], Logs::First, Ok(())),
    // A run that breaks off is strange.
    case!(
        Asked::Broken,
        &[],
        &[0, 1],
        Logs::Both,
        Err(RunFault::Strange)
    ),
    // Receipts that are not the history.
    case!(Asked::Race, &[], &[], Logs::Both, TORN),
    case!(Asked::Race, &[], &[0, 1, 2, 4, 5, 6], Logs::Both, TORN),
    case!(Asked::Race, &[], &[0, 2, 1, 3, 4, 5, 6], Logs::Both, TORN),
    case!(
        Asked::Race,
        &[],
        &[0, 1, 1, 2, 3, 4, 5, 6],
        Logs::Both,
        TORN
    ),
];

#[test]
fn a_run_with_a_race_is_gathered(rt: HostRuntime) -> Result<(), Fail> {
    for (place, case) in CASES.iter().enumerate() {
        let program = Program::parse(rt.alloc(), run_of(&case.asked).text.as_bytes())?;
        let found = found_by(&rt, rt.alloc(), &program, case);
        equal(&rt, &place, &found, &case.found);
    }
    Ok(())
}
