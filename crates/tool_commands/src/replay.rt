//! Replaying the trace that a reader gives as a run of a program.

ghost use Rattle.std.specs.Prelude.{◌≡◌, ◌||◌, ◌⊎◌, false, IfOk, IfErr};
ghost use Rattle.trace_text.specs.Traces.{contents as trace_contents};
ghost use Rattle.program_text.specs.Programs.{contents};
ghost use Rattle.command_streams.specs.Devices.{LeavesDevices};
ghost use Rattle.command_streams.specs.Watched.{held, has_failed, calls_of, IsCalledAtMost};
ghost use Rattle.command_streams.specs.Streams.{most_reads};
ghost use Rattle.tool_commands.specs.Replays.{fault_of_request as request_fault_spec, AnswersAll, StopsGate};
ghost use Rattle.tool_commands.specs.Replays.{ReplaysContents, StopsReplay, IsReplayed, HasReplayCause};
ghost use Rattle.command_streams.specs.Readings.{reading};

use crate::ask::ask_all;
use crate::declarations::declare_same;
use crate::outcome::{outcome_line, outcome_of, outcome_status, write_told};
use crate::program::read_program;
use command_streams::{CliFault, Watched, read_trace};
use program_text::Program;
use race_gate::{Gate, GateFault};
use std::alloc::Allocator;
use std::io::{Read, Write};
use trace_text::Trace;

/// The fault of a command for an illegal request of this number.
pub(crate) fn fault_of_request(number: u32, fault: GateFault) -> CliFault
    ensures { result ≡ request_fault_spec number fault }
{
    match fault {
        GateFault::Limit => CliFault::Limit,
        GateFault::Memory => CliFault::Memory,
        _ => CliFault::Illegal(number),
    }
}

/// A gate that has answered all requests of a trace. The first that it does not answer decides which fault it is.
pub fn answer_all<A: Allocator + Copy>(alloc: A, trace: &Trace<A>) -> Result<Gate<A>, CliFault>
    ensures ok { IfOk result (AnswersAll (trace_contents trace.now)) }
    ensures fault { IfErr result (λ fault. (fault ≡ CliFault.Memory) ⊎ StopsGate (trace_contents trace.now) fault) }
{
    match ask_all(alloc, trace)? {
        (gate, None) => Ok(gate),
        (_, Some(stop)) => Err(fault_of_request(stop.number, stop.fault)),
    }
}

/// The line that tells what a trace is as a run of a program, and the exit status.
fn replay_trace<A: Allocator + Copy>(
    alloc: A,
    program: Program<A>,
    trace: Trace<A>,
) -> Result<(Vec<u8, A>, u8), CliFault>
    ensures ok { IfOk result (λ told. ReplaysContents (contents program) (trace_contents trace) told.0.items told.1) }
    ensures fault { IfErr result (StopsReplay (contents program) (trace_contents trace)) }
{
    if !declare_same(&program, &trace) {
        return Err(CliFault::Shape);
    }
    let gate = answer_all(alloc, &trace)?;
    drop(trace);
    let entries = gate.history();
    let outcome = outcome_of(alloc, &program, entries)?;
    let line = outcome_line(alloc, outcome)?;
    Ok((line, outcome_status(outcome, entries)))
}

/// Reads a program and then a trace to their ends, has a gate judge the requests of the trace in their order, replays the gate's entries
/// as a run of the program, and writes a line: `replayed N` where the N entries are a finished run, `unfinished` where they are a run
/// that is not finished, and else `strange N`, by the first entry that is none of the program's. It answers the exit status: of a
/// finished run 1 where an entry is refused or unset, else 0; and 4 where the entries are no finished run.
///
/// It answers [`CliFault::Read`] or [`CliFault::Write`] exactly where a reader or the writer has failed, [`CliFault::TooLong`] for more
/// than 67,108,864 bytes, [`CliFault::Program`] or [`CliFault::Trace`] with the first
/// fault of a text that means none, [`CliFault::Shape`] where the two do not declare the same, and by the first request that the gate does
/// not answer [`CliFault::Limit`] or [`CliFault::Illegal`] with the number of that request. [`CliFault::Memory`] comes where a growth was
/// refused. Nothing is written then, but for the part that a failed write has taken. Each reader is asked at most 67,108,865 times, as its
/// `calls` tells where it began with room for more than these.
pub fn replay_text<A: Allocator + Copy, P: Read, T: Read, W: Write>(
    alloc: A,
    program: &mut Watched<P>,
    trace: &mut Watched<T>,
    output: &mut Watched<W>,
) -> Result<u8, CliFault>
    requires program { has_failed program.old ≡ false }
    requires trace { has_failed trace.old ≡ false }
    requires writer { has_failed output.old ≡ false }
    ensures answered { IfOk result (IsReplayed (reading (P.remaining (held program.old)) (P.remaining (held program.new)))
        (reading (T.remaining (held trace.old)) (T.remaining (held trace.new)))
        (W.contents (held output.old)) (W.contents (held output.new))) }
    ensures fault { IfErr result (HasReplayCause (reading (P.remaining (held program.old)) (P.remaining (held program.new)))
        (reading (T.remaining (held trace.old)) (T.remaining (held trace.new)))
        (W.contents (held output.old)) (W.contents (held output.new))) }
    ensures devices { LeavesDevices result (has_failed program.new || has_failed trace.new) output.old output.new }
    ensures program_reads { IsCalledAtMost most_reads (calls_of program.old) (calls_of program.new) }
    ensures trace_reads { IsCalledAtMost most_reads (calls_of trace.old) (calls_of trace.new) }
{
    let program = read_program(alloc, program)?;
    let trace = read_trace(alloc, trace)?;
    write_told(output, replay_trace(alloc, program, trace))
}
