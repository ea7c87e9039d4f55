//! Writing the elision of the program that a reader gives.

ghost use Rattle.std.specs.Prelude.{◌≡◌, ◌↔◌, ◌≤◌, ◌+◌, ℕ, List, [], true, false, IfOk, IfErr, OnOk, IsErrOf, IsTrue};
ghost use Rattle.std.specs.List.{All};
ghost use Rattle.std.specs.Io.KnownBytes.{Appends};
ghost use Rattle.text_buffers.specs.Builders.{Adds};
ghost use Rattle.trace_text.specs.Shapes.{name_in};
ghost use Rattle.program_text.specs.Programs.{contents};
ghost use Rattle.model_histories.specs.Shapes.{most_entries};
ghost use Rattle.command_streams.specs.Devices.{LeavesDevices};
ghost use Rattle.command_streams.specs.Watched.{held, has_failed, is_delivered, calls_of, IsCalledAtMost};
ghost use Rattle.command_streams.specs.Streams.{most_reads, StopsWriting};
ghost use Rattle.command_streams.specs.ElisionText.{cell_lines, memory_text, elision_text, HasShortName};
ghost use Rattle.command_streams.specs.Tellings.{telling, TellsMore};
ghost use Rattle.tool_commands.specs.Elided.{ElidesContents, StopsElision, IsElided, HasElisionCause};

use crate::program::read_program;
use command_streams::{CliFault, LineBuffer, Watched, deliver};
use program_text::Program;
use serial_elision::{ElideFault, Elided, elide};
use std::alloc::Allocator;
use std::io::{Read, Write};
use text_buffers::TextBuilder;
use text_words::Mem;

/// Adds the name of a memory's cell with this index.
pub(crate) fn push_name(text: &mut TextBuilder, mem: &Mem, index: usize)
    ensures { Adds text.old (name_in mem.now index) text.new }
{
    text.push_words(mem.name.as_str());
    if mem.array {
        text.push_number("[", index as u64);
        text.push_words("]");
    }
}

/// Adds the lines of a memory's cells.
fn push_cells(text: &mut TextBuilder, mem: &Mem, values: &[u64])
    ensures { Adds text.old (cell_lines mem.now 0 values.now) text.new }
{
    for (index, value) in values.iter().enumerate() {
        push_name(text, mem, index);
        text.push_number(" ", *value);
        text.push_words("\n");
    }
}

/// Adds the lines of all cells.
pub(crate) fn push_memory(text: &mut TextBuilder, mems: &[Mem], values: &[u64])
    ensures { Adds text.old (memory_text mems.now values.now) text.new }
{
    let mut rest = values;
    for mem in mems {
        let (own, others) = rest.split_at(rest.len().min(mem.cells as usize));
        push_cells(text, mem, own);
        rest = others;
    }
}

/// The elision of a program.
fn elide_program<A: Allocator + Copy>(
    alloc: A,
    program: &Program<A>,
    limit: u32,
) -> Result<Elided<A>, CliFault>
    ensures ok { IfOk result (λ elided.
        ElidesContents (contents program.now) limit (elision_text program.now.mems elided.memory.items elided.requests)) }
    ensures fault { IfErr result (StopsElision (contents program.now) limit) }
{
    match elide(alloc, program, limit) {
        Ok(elided) => Ok(elided),
        Err(ElideFault::Limit) => Err(CliFault::Limit),
        Err(ElideFault::Memory) => Err(CliFault::Memory),
    }
}

/// Tells the lines of a memory's cells.
fn tell_cells<A: Allocator, W: Write>(
    output: &mut Watched<W>,
    lines: &mut LineBuffer<A>,
    mem: &Mem,
    values: &[u64],
)
    requires { HasShortName mem.now }
    ensures { TellsMore (telling (W.contents (held output.old)) (has_failed output.old) lines.old.text)
        (telling (W.contents (held output.new)) (has_failed output.new) lines.new.text) (cell_lines mem.now 0 values.now) }
{
    for (index, value) in values.iter().enumerate() {
        lines.tell_cell(output, mem, index, *value);
    }
}

/// Tells the lines of all cells.
fn tell_memory<A: Allocator, W: Write>(
    output: &mut Watched<W>,
    lines: &mut LineBuffer<A>,
    mems: &[Mem],
    values: &[u64],
)
    requires { All HasShortName mems.now }
    ensures { TellsMore (telling (W.contents (held output.old)) (has_failed output.old) lines.old.text)
        (telling (W.contents (held output.new)) (has_failed output.new) lines.new.text) (memory_text mems.now values.now) }
{
    let mut rest = values;
    for mem in mems {
        let (own, others) = rest.split_at(rest.len().min(mem.cells as usize));
        tell_cells(output, lines, mem, own);
        rest = others;
    }
}

/// Writes a line for each cell and one for the number of requests, through the room for lines that wait, and sees to it that all are
/// delivered.
fn write_elision<A: Allocator, W: Write>(
    output: &mut Watched<W>,
    mut lines: LineBuffer<A>,
    mems: &[Mem],
    values: &[u64],
    requests: u32,
) -> Result<(), CliFault>
    requires fresh { has_failed output.old ≡ false }
    requires none { lines.text ≡ [] }
    requires short { All HasShortName mems.now }
    ensures ok { OnOk result (Appends (W.contents (held output.old)) (W.contents (held output.new))
        (elision_text mems.now values.now requests)) }
    ensures fault { IfErr result (StopsWriting (W.contents (held output.old)) (W.contents (held output.new))
        (elision_text mems.now values.now requests)) }
    ensures delivered { OnOk result (is_delivered output.new ≡ true) }
    ensures failed { IsErrOf result CliFault.Write ↔ IsTrue (has_failed output.new) }
{
    tell_memory(output, &mut lines, mems, values);
    lines.tell_requests(output, requests);
    lines.write_out(output);
    if output.failed() {
        return Err(CliFault::Write);
    }
    deliver(output)
}

/// Reads a program to its end and writes what its serial elision leaves: a line with the name and the value of each cell, in order, and
/// then the number of requests. The status is 0.
///
/// It answers [`CliFault::Read`] or [`CliFault::Write`] exactly where the reader or the writer has failed, [`CliFault::TooLong`] for
/// more than 67,108,864 bytes, [`CliFault::Program`] with the first fault of a text
/// that means no program, [`CliFault::Limit`] only where the elision makes more requests than the limit, and [`CliFault::Memory`] where a
/// growth was refused. Nothing is written then, but for the part that a failed write has taken. The reader is asked at most 67,108,865
/// times, as its `calls` tells where it began with room for more than these.
pub fn elide_text<A: Allocator + Copy, R: Read, W: Write>(
    alloc: A,
    program: &mut Watched<R>,
    output: &mut Watched<W>,
    limit: u32,
) -> Result<u8, CliFault>
    requires reader { has_failed program.old ≡ false }
    requires writer { has_failed output.old ≡ false }
    requires limit { limit ≤ most_entries }
    ensures answered { IfOk result (λ status. (status ≡ 0)
        × IsElided (R.remaining (held program.old)) (R.remaining (held program.new))
        (W.contents (held output.old)) (W.contents (held output.new)) limit) }
    ensures fault { IfErr result (HasElisionCause (R.remaining (held program.old)) (R.remaining (held program.new))
        (W.contents (held output.old)) (W.contents (held output.new)) limit) }
    ensures devices { LeavesDevices result (has_failed program.new) output.old output.new }
    ensures reads { IsCalledAtMost most_reads (calls_of program.old) (calls_of program.new) }
{
    let program = read_program(alloc, program)?;
    let elided = elide_program(alloc, &program, limit)?;
    let lines = LineBuffer::new(alloc)?;
    write_elision(
        output,
        lines,
        program.mems.as_slice(),
        elided.memory.as_slice(),
        elided.requests,
    )?;
    Ok(0)
}
