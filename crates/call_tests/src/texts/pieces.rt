//! Traces that are read in pieces.

use super::checks::{Given, reading_of};
use crate::checks::equal;
use std::alloc::Global;
use text_words::{Cause, TextFault};
use trace_text::BegunTrace;

/// Where the first request of a head ends, if it has one.
fn find_begin(alloc: Global, head: &[u8]) -> Result<Option<usize>, TextFault> {
    match BegunTrace::begin(alloc, head) {
        Ok(Some((_, end))) => Ok(Some(end)),
        Ok(None) => Ok(None),
        Err(fault) => Err(fault),
    }
}

/// A head, and where its first request ends.
type Head = (&'static [u8], Given<Option<usize>>);

const HEADS: &[Head] = &[
    (b"cilk 1\nspawn 0\nspa", Ok(Some(15))),
    (b"cilk 1\nmem x\nspawn 0", Ok(None)),
    (b"cilk 1", Ok(None)),
    (b"", Ok(None)),
    (b"cilk 3\nspawn 0\n", Err((1, Cause::BadHeader))),
    (b"cilk 1\nspawn\nmem", Err((2, Cause::BadWord))),
];

/// How many requests there are behind a head of two, a piece of which so many bytes are whole lines, and a tail.
fn requests(alloc: Global, piece: &[u8], tail: &[u8], whole: usize) -> Result<usize, TextFault> {
    let Some((mut begun, _)) = BegunTrace::begin(alloc, b"cilk 1\nmem x\nspawn 0\nsync 0\n")? else {
        return Ok(0);
    };
    if begun.take(piece)? != whole {
        return Ok(0);
    }
    let trace = begun.end(tail)?;
    Ok(trace.lines.len())
}

/// A piece, how many of its bytes are whole lines, a tail, and how many requests there are.
type Piece = (&'static [u8], usize, &'static [u8], Given<usize>);

const PIECES: &[Piece] = &[
    (b"read 0 x @7\nwri", 12, b"write 0 x 1", Ok(4)),
    (b"wri", 0, b"write 0 x 1\r\n", Ok(3)),
    (b"", 0, b"", Ok(2)),
    (b"# a\n\nmem y\n", 0, b"", Err((7, Cause::BadNesting))),
    (b"sync 0\n", 7, b"read 0 y", Err((6, Cause::UnknownName))),
    (b"read 0\nmem y\n", 0, b"", Err((5, Cause::BadWord))),
];

/// A piece, and the plain lines at its head.
type PlainPiece = (&'static [u8], &'static [u8]);

const PLAIN: &[PlainPiece] = &[
    (
        b"read 0 x @7\nwrite 0 x 10\nwri",
        b"read 0 x @7\nwrite 0 x 10\n",
    ),
    (b"sync 0\n\nsync 0\n", b"sync 0\n"),
    (b"read 0 x\nread 0 x\r\n", b"read 0 x\n"),
    (b"write 0 x 007\n", b""),
    (b"read 00 x\n", b""),
    (b"read 0  x\n", b""),
    (b"read 0 x # a\n", b""),
    (b"read 0 x", b""),
    (b"read 0 y\n", b""),
];

/// The whole lines at a head are read, where a request stands among them. Lines go on where they ended, and a fault has the number of its
/// line among all.
#[test]
fn heads_and_pieces(rt: HostRuntime) {
    for (head, wanted) in HEADS {
        let found = reading_of(find_begin(rt.alloc(), head));
        equal(&rt, head, &found, &Some(*wanted));
    }
    for (piece, whole, tail, wanted) in PIECES {
        let found = reading_of(requests(rt.alloc(), piece, tail, *whole));
        equal(&rt, piece, &found, &Some(*wanted));
    }
}

/// Whether these are the plain lines at the head of the piece, behind a head of two requests, as they are printed.
fn are_plain(alloc: Global, piece: &[u8], wanted: &[u8]) -> bool {
    let Ok(Some((mut begun, _))) = BegunTrace::begin(alloc, b"cilk 1\nmem x\nspawn 0\nsync 0\n")
    else {
        return false;
    };
    let count = begun.request_count();
    let rest = begun.take_plain(piece).len();
    match begun.into_trace().print_requests(alloc, count) {
        Ok(lines) => {
            lines.as_slice() == wanted && rest.checked_add(wanted.len()) == Some(piece.len())
        }
        Err(_) => false,
    }
}

/// Plain lines are printed as they stand, and the first line of another form ends them.
#[test]
fn plain_pieces(rt: HostRuntime) {
    for (piece, wanted) in PLAIN {
        equal(&rt, piece, &are_plain(rt.alloc(), piece, wanted), &true);
    }
}
