//! Drawing the dag of the trace that a reader gives.

ghost use Rattle.std.specs.Prelude.{◌≡◌, false, reverse, IfOk, IfErr};
ghost use Rattle.dag_drawing.specs.Walks.{IsLegalHistory};
ghost use Rattle.dag_drawing.specs.Drawn.{IsDrawing};
ghost use Rattle.command_streams.specs.Devices.{LeavesDevices};
ghost use Rattle.command_streams.specs.Watched.{held, has_failed, calls_of, IsCalledAtMost};
ghost use Rattle.command_streams.specs.Streams.{most_reads};
ghost use Rattle.command_streams.specs.Readings.{reading};
ghost use Rattle.tool_commands.specs.Drawings.{StopsEntries, DrawsText, StopsText, IsDrawn, HasDrawingCause};

use crate::explain_trace::notes_of;
use crate::outcome::{refusal_status, write_told};
use crate::replay::answer_all;
use command_streams::{CliFault, Watched, parse_trace, read_text};
use dag_drawing::{Drawing, Form, Names, draw, write_drawing};
use race_gate::Entry;
use std::alloc::Global;
use std::io::{Read, Write};

/// The drawing of entries, given from the oldest on.
fn drawing_of(alloc: Global, entries: &[Entry]) -> Result<Drawing, CliFault>
    requires { IsLegalHistory (reverse entries.now) }
    ensures ok { IfOk result (IsDrawing entries.now) }
    ensures fault { IfErr result (StopsEntries entries.now) }
{
    match draw(alloc, entries) {
        Ok(Some(drawing)) => Ok(drawing),
        Ok(None) => Err(CliFault::TooManyStrands),
        Err(_) => Err(CliFault::Memory),
    }
}

/// The text of the drawing of the trace that some bytes mean, and the exit status.
fn draw_trace(alloc: Global, form: Form, bytes: Vec<u8>) -> Result<(Vec<u8>, u8), CliFault>
    ensures ok { IfOk result (λ told. DrawsText form bytes.items told.0.items told.1) }
    ensures fault { IfErr result (StopsText bytes.items) }
{
    let notes = notes_of(alloc, bytes.as_slice())?;
    let trace = parse_trace(alloc, bytes)?;
    let gate = answer_all(alloc, &trace)?;
    let entries = gate.history();
    let drawing = drawing_of(alloc, entries)?;
    let mems = trace.mems.as_slice();
    let reducers = trace.reducers.as_slice();
    let names = Names {
        mems,
        reducers,
        notes: &notes,
    };
    let text = write_drawing(alloc, form, &names, &drawing)?;
    Ok((text, refusal_status(entries)))
}

/// Reads a trace to its end, has a gate judge its requests in their order, and writes the drawing of the gate's history in Graphviz's
/// language or as SVG: a node for each strand that has begun, with its accesses, an edge for each edge of the dag, and a red edge for each
/// refusal that has a witness. What the notes of the trace say of marks and names is told in their place. It answers the exit status: 1
/// where an entry is refused or unset, else 0.
///
/// It answers [`CliFault::Read`] or [`CliFault::Write`] exactly where the reader or the writer has failed, [`CliFault::TooLong`] for
/// more than 67,108,864 bytes, [`CliFault::Trace`] with the first fault of a text that means no trace, by the first request that the gate
/// does not answer [`CliFault::Limit`] or [`CliFault::Illegal`] with the number of that request, [`CliFault::TooManyStrands`] where more
/// than 10,000 strands have begun, which no drawing has, and [`CliFault::Memory`] where a growth was refused. Nothing is written then, but
/// for the part that a failed write has taken. The reader is asked at most 67,108,865 times, as its `calls` tells where it began with room
/// for more than these.
pub fn draw_text<R: Read, W: Write>(
    alloc: Global,
    form: Form,
    input: &mut Watched<R>,
    output: &mut Watched<W>,
) -> Result<u8, CliFault>
    requires reader { has_failed input.old ≡ false }
    requires writer { has_failed output.old ≡ false }
    ensures answered { IfOk result (IsDrawn form (reading (R.remaining (held input.old)) (R.remaining (held input.new)))
        (W.contents (held output.old)) (W.contents (held output.new))) }
    ensures fault { IfErr result (HasDrawingCause form (reading (R.remaining (held input.old)) (R.remaining (held input.new)))
        (W.contents (held output.old)) (W.contents (held output.new))) }
    ensures devices { LeavesDevices result (has_failed input.new) output.old output.new }
    ensures reads { IsCalledAtMost most_reads (calls_of input.old) (calls_of input.new) }
{
    let bytes = read_text(alloc, input)?;
    write_told(output, draw_trace(alloc, form, bytes))
}
