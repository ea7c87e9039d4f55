//! An elision of many cells, to writers that take it or not.

use super::Command::Elide;
use super::Wanted::Filled;
use super::{Takes, check};
use std::alloc::{AllocError, Global};
use std::test::Fail;

/// A program of 20,001 cells.
const WIDE: &str = "cilk 1\nmem a 20000\nmem x\nfunc main z\nwrite a[19999] 5\nwrite x 6\nend\n";

/// What it leaves: 10 lines of 7 bytes, 90 of 8, 900 of 9, 9,000 of 10 and 10,000 of 11, and two of 4 and 11. These are 208,905 bytes, more
/// than wait to be written at any time.
fn write_wide_memory(alloc: Global) -> Result<String, AllocError> {
    let mut lines = String::new(alloc);
    for index in 0..19_999u32 {
        write!(lines, "a[{index}] 0\n")?;
    }
    lines.push_str("a[19999] 5\nx 6\nrequests 4\n")?;
    Ok(lines)
}

/// Writers that go along with fewer calls than the lines of WIDE take, or with enough.
const WRITERS: &[Takes] = &[
    Takes::All,
    Takes::CallsThenErrors(0),
    Takes::Calls(1),
    Takes::CallsThenErrors(65_000),
    Takes::CallsThenErrors(65_536),
    Takes::Calls(100_001),
    Takes::CallsThenErrors(150_000),
    Takes::CallsThenErrors(208_904),
    Takes::Calls(208_905),
    Takes::CallsThenErrors(208_906),
    Takes::Calls(300_001),
];

/// Its elision is these lines, which are written to a writer just where it goes along with enough calls.
#[test]
fn an_elision_of_many_cells_that_can_be_written_or_not(rt: HostRuntime) -> Result<(), Fail> {
    let lines = write_wide_memory(rt.alloc())?;
    for takes in WRITERS {
        let wanted = Filled(*takes, 208_906, lines.as_str());
        check(&rt, rt.alloc(), Elide, WIDE.as_bytes(), wanted);
    }
    Ok(())
}
