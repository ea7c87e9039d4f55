//! Running a program, with the trace of the run.

ghost use Rattle.std.specs.Prelude.{◌≡◌, ◌↔◌, ◌<◌, ◌≤◌, ◌≢◌, ◌+◌, true, false, IfOk, IfErr, OnOk, IsErrOf, IsTrue};
ghost use Rattle.std.specs.Io.KnownBytes.{Appends};
ghost use Rattle.trace_text.specs.Grammar.{TextMeans};
ghost use Rattle.trace_text.specs.Printing.{plain_text};
ghost use Rattle.run_traces.specs.Traces.{trace_contents};
ghost use Rattle.run_traces.specs.Laws.{IsRunOf};
ghost use Rattle.program_text.specs.Programs.{contents};
ghost use Rattle.model_histories.specs.Shapes.{most_entries};
ghost use Rattle.command_streams.specs.Devices.{LeavesDevices};
ghost use Rattle.command_streams.specs.Watched.{held, has_failed, is_delivered, calls_of, IsCalledAtMost};
ghost use Rattle.command_streams.specs.Streams.{most_reads};
ghost use Rattle.command_streams.specs.Readings.{reading};
ghost use Rattle.tool_commands.specs.Runs.{IsRunFault};
ghost use Rattle.tool_commands.specs.Traced.{writing, TellsTraced, IsReadTraced, IsTraced, StopsRun, StopsTelling};
ghost use Rattle.tool_commands.specs.Traced.{HasTracedCause, TellsTrace, IsTraceWritten, HasTraceCause};

use crate::outcome::{whole_status, write_told};
use crate::program::read_program;
use crate::run::{report_line, whole_run};
use command_streams::{CliFault, Watched, write_text};
use locked_replay::Whole;
use program_runs::Door;
use program_text::Program;
use run_traces::trace_of;
use std::alloc::{AllocError, Global};
use std::io::{Read, Write};
use std::sync::Wait;
use std::thread::Threads;

/// What is told of a run.
#[derive(Drop)]
pub struct TracedRun {
    /// The report of the run and a line feed.
    pub line: Vec<u8>,
    /// The text of its trace.
    pub trace: Vec<u8>,
    /// The exit status: 1 where an entry is refused or unset, else 0.
    pub status: u8,
}

/// The text of the trace of a run.
fn trace_text(
    alloc: Global,
    program: &Program<Global>,
    whole: &Whole,
) -> Result<Vec<u8>, AllocError>
    ensures plain { IfOk result (λ text. text.items ≡ plain_text (trace_contents (contents program.now) whole.now.entries.items)) }
    ensures means { IfOk result (λ text. IsRunOf (contents program.now) whole.now.entries.items →
        ∥ TextMeans text.items (trace_contents (contents program.now) whole.now.entries.items) ∥₁) }
{
    let entries = whole.entries.to_vec(alloc)?;
    trace_of(alloc, program, entries.as_slice())
}

/// Runs a program by so many workers, which ask a gate with this limit on the entries of its history, and tells the run: its report, and
/// the text of its trace, which means the trace of that run. A fault comes where [`run_text`](crate::run::run_text) answers it for the program.
pub fn trace_run<D: Door + Sync, R: Threads + Wait + Sync>(
    rt: &R,
    alloc: Global,
    program: &Program<Global>,
    workers: usize,
    door: &D,
    limit: u32,
) -> Result<TracedRun, CliFault>
    requires workers { (0 < workers) × (workers ≤ 64) }
    requires limit { limit ≤ most_entries }
    ensures ok { IfOk result (λ told. TellsTraced (contents program.now) limit told.line.items told.trace.items told.status) }
    ensures fault { IfErr result (IsRunFault (contents program.now) limit) }
{
    let whole = whole_run(rt, alloc, program, workers, door, limit)?;
    let line = report_line(alloc, program, &whole)?;
    let trace = trace_text(alloc, program, &whole)?;
    let status = whole_status(&whole);
    Ok(TracedRun {
        line,
        trace,
        status,
    })
}

/// Reads a program to its end and runs it, as [`trace_run`] does. A fault comes where [`run_text`](crate::run::run_text) answers it, but for
/// those of writing.
pub fn trace_run_of_text<D: Door + Sync, P: Read, R: Threads + Wait + Sync>(
    rt: &R,
    alloc: Global,
    program: &mut Watched<P>,
    workers: usize,
    door: &D,
    limit: u32,
) -> Result<TracedRun, CliFault>
    requires reader { has_failed program.old ≡ false }
    requires workers { (0 < workers) × (workers ≤ 64) }
    requires limit { limit ≤ most_entries }
    ensures ok { IfOk result (λ told. IsReadTraced (reading (P.remaining (held program.old)) (P.remaining (held program.new)))
        limit told.line.items told.trace.items told.status) }
    ensures fault { IfErr result (StopsRun (reading (P.remaining (held program.old)) (P.remaining (held program.new))) limit) }
    ensures read_failed { IsErrOf result CliFault.Read ↔ IsTrue (has_failed program.new) }
    ensures reads { IsCalledAtMost most_reads (calls_of program.old) (calls_of program.new) }
{
    let program = read_program(alloc, program)?;
    trace_run(rt, alloc, &program, workers, door, limit)
}

/// Writes what is told of a run: its trace, and once that is delivered its report. It answers the exit status of the run.
///
/// It answers [`CliFault::Unwritten`] exactly where the trace's writer has failed, and [`CliFault::Write`] exactly where the report's has.
/// Of the report nothing is written at the first, and a part at the second.
pub fn write_traced_run<T: Write, W: Write>(
    told: &TracedRun,
    trace: &mut Watched<T>,
    output: &mut Watched<W>,
) -> Result<u8, CliFault>
    requires trace { has_failed trace.old ≡ false }
    requires writer { has_failed output.old ≡ false }
    ensures status { IfOk result (λ status. status ≡ told.now.status) }
    ensures kept { OnOk result (Appends (T.contents (held trace.old)) (T.contents (held trace.new)) told.now.trace.items) }
    ensures written { OnOk result (Appends (W.contents (held output.old)) (W.contents (held output.new)) told.now.line.items) }
    ensures fault { IfErr result (StopsTelling (writing (T.contents (held trace.old)) (T.contents (held trace.new)))
        (writing (W.contents (held output.old)) (W.contents (held output.new))) told.now.trace.items told.now.line.items) }
    ensures delivered { OnOk result (is_delivered output.new ≡ true) }
    ensures trace_delivered { OnOk result (is_delivered trace.new ≡ true) }
    ensures trace_first { IsErrOf result CliFault.Write → is_delivered trace.new ≡ true }
    ensures trace_failed { IsErrOf result CliFault.Unwritten ↔ IsTrue (has_failed trace.new) }
    ensures write_failed { IsErrOf result CliFault.Write ↔ IsTrue (has_failed output.new) }
    ensures unwritten { IfErr result (λ fault. fault ≢ CliFault.Write → output.new ≡ output.old) }
{
    match write_text(trace, told.trace.as_slice()) {
        Ok(()) => {}
        Err(_) => return Err(CliFault::Unwritten),
    }
    match write_text(output, told.line.as_slice()) {
        Ok(()) => Ok(told.status),
        Err(fault) => Err(fault),
    }
}

/// Reads a program to its end, runs it as [`run_text`](crate::run::run_text) does, and tells one finished run of it: the text of its trace is
/// written to `trace`, and once that is delivered its report and a line feed to `output`. It answers the exit status: 1 where an entry is
/// refused or unset, else 0.
///
/// It answers [`CliFault::Unwritten`] exactly where the trace's writer has failed, and each other fault where `run_text` does. Nothing is
/// written to `trace` but at that fault a part, and at [`CliFault::Write`] the whole; and nothing to `output` but at
/// [`CliFault::Write`] a part.
pub fn run_traced_text<D: Door + Sync, P: Read, T: Write, W: Write, R: Threads + Wait + Sync>(
    rt: &R,
    alloc: Global,
    program: &mut Watched<P>,
    workers: usize,
    door: &D,
    trace: &mut Watched<T>,
    output: &mut Watched<W>,
    limit: u32,
) -> Result<u8, CliFault>
    requires reader { has_failed program.old ≡ false }
    requires trace { has_failed trace.old ≡ false }
    requires writer { has_failed output.old ≡ false }
    requires workers { (0 < workers) × (workers ≤ 64) }
    requires limit { limit ≤ most_entries }
    ensures answered { IfOk result (IsTraced (reading (P.remaining (held program.old)) (P.remaining (held program.new)))
        (writing (T.contents (held trace.old)) (T.contents (held trace.new)))
        (writing (W.contents (held output.old)) (W.contents (held output.new))) limit) }
    ensures fault { IfErr result (HasTracedCause (reading (P.remaining (held program.old)) (P.remaining (held program.new)))
        (writing (T.contents (held trace.old)) (T.contents (held trace.new)))
        (writing (W.contents (held output.old)) (W.contents (held output.new))) limit) }
    ensures devices { LeavesDevices result (has_failed program.new) output.old output.new }
    ensures trace_delivered { OnOk result (is_delivered trace.new ≡ true) }
    ensures trace_first { IsErrOf result CliFault.Write → is_delivered trace.new ≡ true }
    ensures trace_failed { IsErrOf result CliFault.Unwritten ↔ IsTrue (has_failed trace.new) }
    ensures reads { IsCalledAtMost most_reads (calls_of program.old) (calls_of program.new) }
    ensures untraced { IfErr result (λ fault. fault ≢ CliFault.Unwritten → fault ≢ CliFault.Write → trace.new ≡ trace.old) }
{
    let told = match trace_run_of_text(rt, alloc, program, workers, door, limit) {
        Ok(told) => told,
        Err(fault) => return Err(fault),
    };
    write_traced_run(&told, trace, output)
}

/// The text of the trace of a run of the program, and the exit status.
fn run_and_trace<D: Door + Sync, R: Threads + Wait + Sync>(
    rt: &R,
    alloc: Global,
    program: &Program<Global>,
    workers: usize,
    door: &D,
    limit: u32,
) -> Result<(Vec<u8>, u8), CliFault>
    requires workers { (0 < workers) × (workers ≤ 64) }
    requires limit { limit ≤ most_entries }
    ensures ok { IfOk result (λ told. TellsTrace (contents program.now) limit told.0.items told.1) }
    ensures fault { IfErr result (IsRunFault (contents program.now) limit) }
{
    let whole = whole_run(rt, alloc, program, workers, door, limit)?;
    let text = trace_text(alloc, program, &whole)?;
    Ok((text, whole_status(&whole)))
}

/// Reads a program to its end, runs it as [`run_text`](crate::run::run_text) does, and writes the text of the trace of that run in place of
/// its report. Exit status and faults are those of `run_text`. Nothing is written at a fault, but at [`CliFault::Write`] a part.
pub fn write_run_trace<D: Door + Sync, P: Read, W: Write, R: Threads + Wait + Sync>(
    rt: &R,
    alloc: Global,
    program: &mut Watched<P>,
    workers: usize,
    door: &D,
    output: &mut Watched<W>,
    limit: u32,
) -> Result<u8, CliFault>
    requires reader { has_failed program.old ≡ false }
    requires writer { has_failed output.old ≡ false }
    requires workers { (0 < workers) × (workers ≤ 64) }
    requires limit { limit ≤ most_entries }
    ensures answered { IfOk result (IsTraceWritten (reading (P.remaining (held program.old)) (P.remaining (held program.new)))
        (W.contents (held output.old)) (W.contents (held output.new)) limit) }
    ensures fault { IfErr result (HasTraceCause (reading (P.remaining (held program.old)) (P.remaining (held program.new)))
        (W.contents (held output.old)) (W.contents (held output.new)) limit) }
    ensures devices { LeavesDevices result (has_failed program.new) output.old output.new }
    ensures reads { IsCalledAtMost most_reads (calls_of program.old) (calls_of program.new) }
{
    let program = read_program(alloc, program)?;
    write_told(
        output,
        run_and_trace(rt, alloc, &program, workers, door, limit),
    )
}
