//! Running the program that a reader gives by many workers.

ghost use Rattle.std.specs.Prelude.{◌≡◌, ◌↔◌, ◌<◌, ◌≤◌, false, reverse, IfOk, IfErr, IsTrue};
ghost use Rattle.program_text.specs.Programs.{contents};
ghost use Rattle.model_histories.specs.Shapes.{most_entries};
ghost use Rattle.model_races.specs.Memory.{IsMemory};
ghost use Rattle.model_histories.specs.Extensions.{IsClean};
ghost use Rattle.program_text.specs.Shapes.{shape_in};
ghost use Rattle.model_runs.specs.Runs.{IsFinishedRun};
ghost use Rattle.command_streams.specs.Devices.{LeavesDevices};
ghost use Rattle.command_streams.specs.Watched.{held, has_failed, calls_of, IsCalledAtMost};
ghost use Rattle.command_streams.specs.Streams.{most_reads};
ghost use Rattle.command_streams.specs.Readings.{reading};
ghost use Rattle.program_runs.specs.Runs.{IsWholeRun};
ghost use Rattle.tool_commands.specs.Runs.{fault_of_run, run_line, IsRunFault, TellsRun, IsRan, HasRunCause};

use crate::outcome::{whole_status, write_told};
use crate::program::read_program;
use command_streams::{CliFault, Watched};
use locked_replay::{RunFault, Whole};
use program_runs::{Door, run_by_workers};
use program_text::Program;
use race_report::report;
use std::alloc::{AllocError, Allocator, Global};
use std::io::{Read, Write};
use std::sync::Wait;
use std::thread::Threads;
use text_buffers::push_words;

/// The fault of a run as one of the command.
pub(crate) fn fault_of(fault: RunFault) -> CliFault
    ensures { result ≡ fault_of_run fault }
{
    match fault {
        RunFault::Limit => CliFault::Limit,
        RunFault::Stopped => CliFault::Stopped,
        RunFault::Torn => CliFault::Torn,
        RunFault::Strange => CliFault::Strange,
        RunFault::Memory => CliFault::Memory,
    }
}

/// A finished run of the program by so many workers, of at most `limit` entries, or the fault of the command.
pub(crate) fn whole_run<
    A: Allocator + Copy + Send + Sync,
    D: Door + Sync,
    R: Threads + Wait + Sync,
>(
    rt: &R,
    alloc: A,
    program: &Program<Global>,
    workers: usize,
    door: &D,
    limit: u32,
) -> Result<Whole<A>, CliFault>
    requires workers { (0 < workers) × (workers ≤ 64) }
    requires limit { limit ≤ most_entries }
    ensures whole { IfOk result (IsWholeRun program.now limit) }
    ensures fault { IfErr result (IsRunFault (contents program.now) limit) }
{
    match run_by_workers(rt, alloc, program, workers, door, limit) {
        Ok(whole) => Ok(whole),
        Err(cut) => Err(fault_of(cut.fault)),
    }
}

/// The report of a finished run and a line feed.
pub(crate) fn report_line<A: Allocator>(
    alloc: Global,
    program: &Program<Global>,
    whole: &Whole<A>,
) -> Result<Vec<u8>, AllocError>
    requires run { IsFinishedRun program.now.functions (shape_in program.now) (reverse whole.now.entries.items) }
    requires memory { IsMemory (shape_in program.now).cells (reverse whole.now.entries.items) whole.now.memory.items }
    requires clean { IsTrue whole.now.clean ↔ IsClean (reverse whole.now.entries.items) }
    ensures { IfOk result (λ line. line.items ≡ run_line (contents program.now) whole.now.entries.items whole.now.memory.items) }
{
    let mut line = report(alloc, program, whole)?;
    push_words(&mut line, "\n")?;
    Ok(line)
}

/// The line that tells a finished run of the program by so many workers, and the exit status.
fn run_and_report<A: Allocator + Copy + Send + Sync, D: Door + Sync, R: Threads + Wait + Sync>(
    rt: &R,
    alloc: A,
    heap: Global,
    program: &Program<Global>,
    workers: usize,
    door: &D,
    limit: u32,
) -> Result<(Vec<u8>, u8), CliFault>
    requires workers { (0 < workers) × (workers ≤ 64) }
    requires limit { limit ≤ most_entries }
    ensures ok { IfOk result (λ told. TellsRun (contents program.now) limit told.0.items told.1) }
    ensures fault { IfErr result (IsRunFault (contents program.now) limit) }
{
    let whole = whole_run(rt, alloc, program, workers, door, limit)?;
    let line = report_line(heap, program, &whole)?;
    Ok((line, whole_status(&whole)))
}

/// Reads a program to its end, runs it by so many workers, which ask a gate with this limit on the entries of its history, and writes the
/// report of the run and a line feed. Before each request the door is told its strand. It answers the exit status: 1 where an entry is
/// refused or unset, else 0. The run grows on `alloc`; the program and the report are made on `heap`.
///
/// It answers [`CliFault::Read`] or [`CliFault::Write`] exactly where the reader or the writer has failed, [`CliFault::TooLong`] for more
/// than 67,108,864 bytes, [`CliFault::Program`] with the first fault of a text that means
/// no program, [`CliFault::Limit`] only where some run of the program wants more entries than the limit, [`CliFault::Stopped`],
/// [`CliFault::Torn`] or [`CliFault::Strange`] where the workers brought no finished run, and [`CliFault::Memory`] where a growth was
/// refused or a thread could not be started. Nothing is written then, but for the part that a failed write has taken. The reader is asked
/// at most 67,108,865 times, as its `calls` tells where it began with room for more than these.
pub fn run_text<
    A: Allocator + Copy + Send + Sync,
    D: Door + Sync,
    P: Read,
    W: Write,
    R: Threads + Wait + Sync,
>(
    rt: &R,
    alloc: A,
    heap: Global,
    program: &mut Watched<P>,
    workers: usize,
    door: &D,
    output: &mut Watched<W>,
    limit: u32,
) -> Result<u8, CliFault>
    requires reader { has_failed program.old ≡ false }
    requires writer { has_failed output.old ≡ false }
    requires workers { (0 < workers) × (workers ≤ 64) }
    requires limit { limit ≤ most_entries }
    ensures answered { IfOk result (IsRan (reading (P.remaining (held program.old)) (P.remaining (held program.new)))
        (W.contents (held output.old)) (W.contents (held output.new)) limit) }
    ensures fault { IfErr result (HasRunCause (reading (P.remaining (held program.old)) (P.remaining (held program.new)))
        (W.contents (held output.old)) (W.contents (held output.new)) limit) }
    ensures devices { LeavesDevices result (has_failed program.new) output.old output.new }
    ensures reads { IsCalledAtMost most_reads (calls_of program.old) (calls_of program.new) }
{
    let program = read_program(heap, program)?;
    write_told(
        output,
        run_and_report(rt, alloc, heap, &program, workers, door, limit),
    )
}
