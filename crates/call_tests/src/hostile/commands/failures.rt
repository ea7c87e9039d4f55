//! Readers and writers that fail under each command.

use super::Command::{Draw, Elide, Follow, Judge, Replay, Run, Trace};
use super::Wanted::{Filled, Interrupted, Text, TooLong, Unread};
use super::{Command, Takes, check};
use crate::hostile::devices::{Breaking, Spaces};
use std::alloc::Global;
use std::io::{self, ErrorKind};
use std::process::Abort;
use std::sync::Wait;
use std::thread::Threads;

/// A command over a short text, of so many bytes, and the text that it writes, in so many calls: one for each byte, and the flush.
struct Short {
    command: Command<'static>,
    read: &'static str,
    bytes: u32,
    written: &'static str,
    calls: u32,
}

/// The commands whose two texts, of which one is read through a device, are a program's and a trace's have a row for each.
const SHORT: &[Short] = &[
    Short {
        command: Judge,
        read: "cilk 1\nmem x\nread 0 x\n",
        bytes: 22,
        written: "1 value 0\n",
        calls: 11,
    },
    Short {
        command: Elide,
        read: "cilk 1\nmem x\nfunc main z\nend\n",
        bytes: 29,
        written: "x 0\nrequests 2\n",
        calls: 16,
    },
    Short {
        command: Run(2),
        read: "cilk 1\nfunc main z\nend\n",
        bytes: 23,
        written: "{\"clean\":true,\"entries\":2,\"memory\":{},\"refusals\":[],\"schedules\":\"clean for every schedule\"}\n",
        calls: 93,
    },
    Short {
        command: Trace,
        read: "cilk 1\nfunc main z\nend\n",
        bytes: 23,
        written: "cilk 1\nsync 0 @3\nreturn 0 @3\n",
        calls: 30,
    },
    Short {
        command: Replay("cilk 2\nsync 0 @3\nreturn 0 @3\n"),
        read: "cilk 1\nfunc main z\nend\n",
        bytes: 23,
        written: "replayed 2\n",
        calls: 12,
    },
    Short {
        command: Follow("cilk 1\nfunc main z\nend\n"),
        read: "cilk 2\nsync 0 @3\nreturn 0 @3\n",
        bytes: 29,
        written: "replayed 2\n",
        calls: 12,
    },
    Short {
        command: Draw,
        read: "cilk 1\n",
        bytes: 7,
        written: "digraph trace {\n  0 [label=\"0\\l\"];\n}\n",
        calls: 38,
    },
];

/// A reader that fails before the text has ended is told, and one that would fail later is as good as another.
fn check_reader<R: Abort + Threads + Wait + Sync>(rt: &R, alloc: Global, short: &Short) {
    let text = short.read.as_bytes();
    assert!(rt; text.len() == short.bytes as usize);
    for left in 0..short.bytes.saturating_add(3) {
        let wanted = if left <= short.bytes {
            Unread
        } else {
            Text(0, short.written)
        };
        let reader = Breaking {
            text,
            most: 1,
            left,
            error: ErrorKind::Other,
        };
        check(rt, alloc, short.command, reader, wanted);
    }
    let reader = Breaking {
        text,
        most: usize::MAX,
        left: 0,
        error: ErrorKind::Interrupted,
    };
    check(rt, alloc, short.command, reader, Interrupted);
}

/// A writer that takes nothing behind some calls, or answers an error behind them, fails just where it goes along with too few.
fn check_writer<R: Abort + Threads + Wait + Sync>(rt: &R, alloc: Global, short: &Short) {
    let text = short.read.as_bytes();
    for left in 0..short.calls.saturating_add(1) {
        for takes in &[Takes::Calls(left), Takes::CallsThenErrors(left)] {
            let wanted = Filled(*takes, short.calls, short.written);
            check(rt, alloc, short.command, text, wanted);
        }
    }
}

#[test]
fn readers_and_writers_that_fail(rt: HostRuntime) {
    for short in SHORT {
        check_reader(&rt, rt.alloc(), short);
        check_writer(&rt, rt.alloc(), short);
    }
}

/// Readers that give a byte at each read, and are asked as often as a reader may be, and one that fills what it is given.
#[test]
fn readers_that_never_end(rt: HostRuntime) {
    for short in SHORT {
        let wanted = TooLong(67_108_865, 67_108_865);
        check(&rt, rt.alloc(), short.command, Spaces, wanted);
    }
    let reader = io::repeat(b' ');
    check(&rt, rt.alloc(), Judge, reader, TooLong(0, 999));
}
