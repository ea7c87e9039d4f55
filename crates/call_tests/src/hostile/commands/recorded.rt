//! Runs that are recorded, whose trace or report can't be written.

use super::{MOST, Takes};
use crate::hostile::devices::Filling;
use std::alloc::Global;
use std::process::Abort;
use std::sync::Wait;
use std::thread::Threads;
use tool_commands::{CliFault, OpenDoor, Watched, run_traced_text};

/// A program of two requests, the text of the trace of its one run, and the report of it.
const SHORT: &str = "cilk 1\nfunc main z\nend\n";

const SHORT_TRACE: &str = "cilk 1\nsync 0 @3\nreturn 0 @3\n";

const SHORT_REPORT: &str =
    "{\"clean\":true,\"entries\":2,\"memory\":{},\"refusals\":[],\"schedules\":\"clean for every schedule\"}\n";

/// Whether the command has ended with status 0, or tells that the trace or the report is cut.
fn is_told(answer: &Result<u8, CliFault>, is_trace_cut: bool, is_report_cut: bool) -> bool {
    match answer {
        Ok(status) => *status == 0 && !is_trace_cut && !is_report_cut,
        Err(CliFault::Unwritten) => is_trace_cut,
        Err(CliFault::Write) => is_report_cut,
        Err(_) => false,
    }
}

/// The writer of the trace holds the whole text. Where the trace is cut, the writer has failed and holds its front.
fn check_trace(rt: &impl Abort, trace: Watched<Filling>, is_cut: bool) {
    assert!(rt; trace.failed() == is_cut && trace.is_delivered() != is_cut);
    let trace = trace.into_inner();
    let written = trace.held.as_slice();
    let is_begun = SHORT_TRACE.as_bytes().starts_with(written);
    assert!(rt;
        is_begun && (is_cut || written.len() == SHORT_TRACE.len()),
        "it wrote {written:?}"
    );
}

/// The writer of the report holds the whole text. Where the report is cut, the writer has failed; where the trace is, it holds nothing.
fn check_report(rt: &impl Abort, output: Watched<Filling>, is_trace_cut: bool, is_cut: bool) {
    assert!(rt; output.failed() == is_cut);
    let output = output.into_inner();
    let written = output.held.as_slice();
    let is_reported = written == SHORT_REPORT.as_bytes();
    assert!(rt;
        is_cut || is_trace_cut && written.is_empty() || !is_trace_cut && is_reported,
        "it wrote {written:?}"
    );
}

/// Runs SHORT by two workers, and writes the trace of the run and its report to writers that take what is written so. That of the trace
/// takes 30 calls, one for each byte, and the flush; that of the report takes 93. Where they go along with fewer calls it is told, and behind
/// a trace that is cut no report is written.
fn check_recorded<R: Abort + Threads + Wait + Sync>(
    rt: &R,
    alloc: Global,
    of_trace: Takes,
    of_report: Takes,
) {
    let is_trace_cut = of_trace.calls() < 30;
    let is_report_cut = !is_trace_cut && of_report.calls() < 93;
    let mut program = Watched::new(SHORT.as_bytes());
    let mut trace = Watched::new(of_trace.writer(alloc));
    let mut output = Watched::new(of_report.writer(alloc));
    let answer = run_traced_text(
        rt,
        alloc,
        &mut program,
        2,
        &OpenDoor,
        &mut trace,
        &mut output,
        MOST,
    );
    assert!(rt; is_told(&answer, is_trace_cut, is_report_cut));
    check_trace(rt, trace, is_trace_cut);
    check_report(rt, output, is_trace_cut, is_report_cut);
}

#[test]
fn a_trace_or_its_report_that_cannot_be_written(rt: HostRuntime) {
    for left in 0..32u32 {
        for takes in &[Takes::CallsThenErrors(left), Takes::Calls(left)] {
            check_recorded(&rt, rt.alloc(), *takes, Takes::All);
        }
    }
    for left in 0..93u32 {
        check_recorded(&rt, rt.alloc(), Takes::All, Takes::CallsThenErrors(left));
    }
}
