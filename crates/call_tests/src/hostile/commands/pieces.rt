//! Traces that are longer than the pieces in which they are read.

use super::Command::Judge;
use super::Wanted::{Fault, Text, Unread};
use super::{Command, Wanted, check};
use crate::hostile::devices::Breaking;
use std::alloc::{AllocError, Global};
use std::io::ErrorKind;
use std::process::Abort;
use std::sync::Wait;
use std::test::Fail;
use std::thread::Threads;

/// A head, lines that are repeated, and a tail.
pub(super) struct Long {
    pub(super) head: &'static str,
    pub(super) repeated: &'static str,
    pub(super) times: u32,
    pub(super) tail: &'static str,
}

impl Long {
    /// The whole text.
    pub(super) fn text(&self, alloc: Global) -> Result<String, AllocError> {
        let mut text = String::new(alloc);
        text.push_str(self.head)?;
        for _ in 0..self.times {
            text.push_str(self.repeated)?;
        }
        text.push_str(self.tail)?;
        Ok(text)
    }
}

/// How many bytes a reader gives the judge at each read at most.
const PIECES: &[usize] = &[1, 7, 131_072];

/// The command over this text does what is wanted, in pieces of whichever of these lengths it comes.
pub(super) fn check_pieces<R: Abort + Threads + Wait + Sync>(
    rt: &R,
    alloc: Global,
    command: Command<'_>,
    text: &[u8],
    pieces: &[usize],
    wanted: Wanted<'_>,
) {
    for most in pieces {
        let reader = Breaking::into_pieces(text, *most);
        check(rt, alloc, command, reader, wanted);
    }
}

/// The text asks for so many reads of a cell that was never written.
fn check_zeros<R: Abort + Threads + Wait + Sync>(
    rt: &R,
    alloc: Global,
    long: &Long,
    reads: u32,
) -> Result<(), Fail> {
    let text = long.text(alloc)?;
    let mut lines = String::new(alloc);
    for number in 0..reads {
        write!(lines, "{} value 0\n", number + 1)?;
    }
    let wanted = Text(0, lines.as_str());
    check_pieces(rt, alloc, Judge, text.as_bytes(), PIECES, wanted);
    Ok(())
}

/// Declarations that go on behind the first piece.
pub(super) const LATE: Long = Long {
    head: "cilk 1\nmem a\n",
    repeated: "# no request yet\n",
    times: 10_000,
    tail: "mem x\nread 0 x\n",
};

/// A line longer than a piece.
pub(super) const WIDE: Long = Long {
    head: "cilk 1\nmem x\nread 0 x\n#",
    repeated: " a remark without an end",
    times: 20_000,
    tail: "\nread 0 x\n",
};

/// Lines of which one ends with its carriage return in one piece and its line feed in the next.
pub(super) const RETURNS: Long = Long {
    head: "cilk 1\r\nmem x\r\n#12345\r\n",
    repeated: "read 0 x\r\n",
    times: 20_000,
    tail: "read 0 x",
};

/// Texts, and for how many reads each asks.
const READS: &[(Long, u32)] = &[(LATE, 1), (WIDE, 2), (RETURNS, 20_001)];

#[test]
fn long_traces(rt: HostRuntime) -> Result<(), Fail> {
    for (long, reads) in READS {
        check_zeros(&rt, rt.alloc(), long, *reads)?;
    }
    Ok(())
}

const FAULTY: Long = Long {
    head: "cilk 1\nmem x\n",
    repeated: "read 0 x\n",
    times: 20_000,
    tail: "mem y\nread 0\nread 0 x\n",
};

/// The first fault is told, with the number of its line among all.
#[test]
fn a_fault_behind_the_first_piece(rt: HostRuntime) -> Result<(), Fail> {
    let text = FAULTY.text(rt.alloc())?;
    let wanted = Fault(2, "trace line 20003: BadNesting");
    check_pieces(&rt, rt.alloc(), Judge, text.as_bytes(), PIECES, wanted);
    Ok(())
}

/// A reader of this text that fails behind so many reads is told.
pub(super) fn check_broken<R: Abort + Threads + Wait + Sync>(
    rt: &R,
    alloc: Global,
    command: Command<'_>,
    long: &Long,
    left: u32,
) -> Result<(), Fail> {
    let text = long.text(alloc)?;
    let reader = Breaking {
        text: text.as_bytes(),
        most: 1,
        left,
        error: ErrorKind::Other,
    };
    check(rt, alloc, command, reader, Unread);
    Ok(())
}

/// A reader that fails behind the faulty lines, which are 180,035 bytes, is told in place of their fault.
#[test]
fn a_failure_behind_a_fault(rt: HostRuntime) -> Result<(), Fail> {
    check_broken(&rt, rt.alloc(), Judge, &FAULTY, 180_035)
}
