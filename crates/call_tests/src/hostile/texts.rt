//! Texts that break off: each part of a text, byte by byte.

use crate::checks::equal;
use crate::hostile::worked::{FIB, PAIR, PAIR_TRACE, TURNS};
use program_text::{Cause, Program, TextFault};
use std::alloc::Global;
use std::process::Abort;
use trace_text::Trace;

/// What a program's text means: so many functions, or a fault at a line.
pub(crate) fn meant_by(alloc: Global, text: &[u8]) -> Option<Result<usize, (u32, Cause)>> {
    match Program::parse(alloc, text) {
        Ok(program) => Some(Ok(program.functions.as_slice().len())),
        Err(TextFault::At { line, why }) => Some(Err((line, why))),
        Err(TextFault::Memory) => None,
    }
}

/// A text's program, printed with each line in its place. Programs that are printed alike are one.
fn print_program(alloc: Global, text: &[u8]) -> Option<Vec<u8>> {
    match Program::parse(alloc, text) {
        Ok(program) => program.print(alloc).ok(),
        Err(_) => None,
    }
}

/// The text without its last byte.
fn without_last(text: &[u8]) -> &[u8] {
    match text.split_last() {
        Some((_, rest)) => rest,
        None => text,
    }
}

/// No part of the text means a program but that which lacks the last line feed alone, and means the same.
fn check_program(rt: &impl Abort, alloc: Global, text: &[u8]) {
    let cut = without_last(text);
    for end in 0..cut.len() {
        let is_faulty = matches!(meant_by(alloc, &cut[..end]), Some(Err(_)));
        equal(rt, &end, &is_faulty, &true);
    }
    let printed = print_program(alloc, text);
    assert!(rt; printed.is_some() && printed == print_program(alloc, cut));
}

#[test]
fn parts_of_programs(rt: HostRuntime) {
    check_program(&rt, rt.alloc(), FIB);
    check_program(&rt, rt.alloc(), PAIR);
    check_program(&rt, rt.alloc(), TURNS);
}

/// What a trace's text means: so many requests, or a fault at a line.
pub(crate) fn found_of(alloc: Global, text: &[u8]) -> Option<Result<usize, (u32, Cause)>> {
    match Trace::parse(alloc, text) {
        Ok(trace) => Some(Ok(trace.lines.len())),
        Err(TextFault::At { line, why }) => Some(Err((line, why))),
        Err(TextFault::Memory) => None,
    }
}

/// The lines of PAIR's trace, and of each how many bytes are the least that mean something.
const PARTS: &[(&str, usize)] = &[
    ("cilk 1", 6),
    ("mem x", 5),
    ("mem y", 5),
    ("spawn 0 @5", 7),
    ("write 1 x 7 @9", 11),
    ("read 2 x @6", 8),
    ("sync 1 @10", 6),
    ("return 1 @10", 8),
    ("sync 2 @7", 6),
    ("return 3 @7", 8),
];

/// How many of the lines up to this number ask for something: all behind the third.
fn requests_to(number: u32) -> usize {
    number.saturating_sub(3) as usize
}

/// What the text means whose line of this number breaks off behind so many bytes.
fn meaning_of(line: &str, least: usize, number: u32, end: usize) -> Result<usize, (u32, Cause)> {
    if end < least && number == 1 {
        Err((1, Cause::BadHeader))
    } else if end == 0 {
        Ok(requests_to(number.saturating_sub(1)))
    } else if end < least {
        Err((number, Cause::BadWord))
    } else if line.as_bytes().get(end - 1) == Some(&b'@') {
        Err((number, Cause::BadNumber))
    } else {
        Ok(requests_to(number))
    }
}

/// The line of this number stands in the trace behind so many bytes, and so it is wherever it breaks off.
fn check_line(rt: &impl Abort, alloc: Global, part: &(&str, usize), number: u32, start: usize) {
    let (line, least) = *part;
    let rest = PAIR_TRACE.get(start..).unwrap_or(&[]);
    assert!(rt; rest.starts_with(line.as_bytes()));
    for end in 0..line.len().saturating_add(1) {
        let length = start.saturating_add(end).min(PAIR_TRACE.len());
        let found = found_of(alloc, &PAIR_TRACE[..length]);
        let wanted = Some(meaning_of(line, least, number, end));
        equal(rt, &(number, end), &found, &wanted);
    }
}

/// Whether a text means PAIR's trace, printed with each line in its place.
fn means_pair(alloc: Global, text: &[u8]) -> bool {
    match Trace::parse(alloc, text) {
        Ok(trace) => matches!(trace.print(alloc), Ok(printed) if printed.as_slice() == PAIR_TRACE),
        Err(_) => false,
    }
}

#[test]
fn parts_of_a_trace(rt: HostRuntime) {
    let mut start = 0usize;
    let mut number = 1u32;
    for part in PARTS {
        check_line(&rt, rt.alloc(), part, number, start);
        start = start.saturating_add(part.0.len()).saturating_add(1);
        number = number.saturating_add(1);
    }
    assert!(rt; start == PAIR_TRACE.len());
    assert!(rt; means_pair(rt.alloc(), without_last(PAIR_TRACE)));
    assert!(rt; means_pair(rt.alloc(), PAIR_TRACE));
}
