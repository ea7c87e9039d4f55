//! Lines that wait to be written: verdicts of a trace, or the cells of an elision.

ghost use Rattle.std.specs.Prelude.{◌≡◌, ◌↔◌, ◌+◌, ◌≤◌, ◌++◌, [], length, take, IfOk, IsTrue};
ghost use Rattle.trace_text.specs.Shapes.{name_in};
ghost use Rattle.verdict_lines.specs.VerdictText.{HasWords, line_of_reply};
ghost use Rattle.command_streams.specs.ElisionText.{cell_line, requests_line, HasShortName};
ghost use Rattle.command_streams.specs.Watched.{held, has_failed};
ghost use Rattle.command_streams.specs.LineBuffers.{most_filled};
ghost use Rattle.command_streams.specs.Tellings.{telling, TellsMore};

use crate::streams::write_bytes;
use crate::watched::Watched;
use race_gate::Reply;
use std::alloc::{AllocError, Allocator};
use std::io::Write;
use std::marker::Model;
use text_words::Mem;
use verdict_lines::{DigitCache, LINE_ROOM, put_verdict, put_word, put_word_line};

/// How many bytes of lines wait at most before they are written.
const MOST_HELD: usize = 65_536;

/// Lines that wait to be written, in room that is taken once.
#[derive(Drop)]
pub struct LineBuffer<A: Allocator> {
    bytes: Vec<u8, A>,
    filled: usize,
    counted: DigitCache,
}

impl<A: Allocator> Model for LineBuffer<A> {
    ghost use Rattle.std.specs.Prelude.{◌≡◌, length, take};
    ghost use Rattle.command_streams.specs.LineBuffers.{Lines, most_held};

    ghost Value = { Lines };

    ghost view = { λ buffer. record { text = take buffer.filled buffer.bytes.items; filled = buffer.filled } };

    ghost invariant = { λ buffer. length buffer.bytes.items ≡ most_held };
}

/// Puts the name of a memory's cell with this index at a place, and answers the place behind it.
#[inline(always)]
fn put_name(out: &mut [u8], at: usize, mem: &Mem, index: usize, counted: &mut DigitCache) -> usize
    requires short { HasShortName mem.now }
    requires room { at + 58 ≤ length out.old }
    ensures end { result ≤ at + 56 }
    ensures len { length out.new ≡ length out.old }
    ensures put { take result out.new ≡ take at out.old ++ name_in mem.now index }
{
    let end = put_word(out, at, mem.name.as_str());
    if !mem.array {
        return end;
    }
    let from = put_word(out, end, "[");
    let behind = counted.put(out, from, index as u64);
    put_word(out, behind, "]")
}

/// Puts the line of a memory's cell with this index at a place, and answers the place behind it.
#[inline(always)]
fn put_cell(
    out: &mut [u8],
    at: usize,
    mem: &Mem,
    index: usize,
    value: u64,
    counted: &mut DigitCache,
) -> usize
    requires short { HasShortName mem.now }
    requires room { at + 80 ≤ length out.old }
    ensures len { length out.new ≡ length out.old }
    ensures put { take result out.new ≡ take at out.old ++ cell_line mem.now index value }
{
    let end = put_name(out, at, mem, index, counted);
    put_word_line(out, end, b" ", value)
}

impl<A: Allocator> LineBuffer<A> {
    /// No lines. It takes memory here and at no other call.
    pub fn new(alloc: A) -> Result<LineBuffer<A>, AllocError>
        ensures { IfOk result (λ buffer. buffer.text ≡ []) }
    {
        Ok(LineBuffer {
            bytes: vec![in alloc; 0; MOST_HELD]?,
            filled: 0,
            counted: DigitCache::new(),
        })
    }

    /// Whether there is room for one more line, however long.
    #[inline(always)]
    fn has_room(&self) -> bool
        ensures { IsTrue result ↔ (self.now.filled ≤ most_filled) }
    {
        self.filled <= MOST_HELD - LINE_ROOM
    }

    /// Adds the verdict line of a reply.
    #[inline(always)]
    fn add_verdict(&mut self, reply: &Reply)
        requires words { HasWords reply.now }
        requires room { self.old.filled ≤ most_filled }
        ensures { self.new.text ≡ self.old.text ++ line_of_reply reply.now }
    {
        self.filled = put_verdict(
            self.bytes.as_mut_slice(),
            self.filled,
            reply,
            &mut self.counted,
        );
    }

    /// Adds the line of a memory's cell with this index.
    #[inline(always)]
    fn add_cell(&mut self, mem: &Mem, index: usize, value: u64)
        requires short { HasShortName mem.now }
        requires room { self.old.filled ≤ most_filled }
        ensures { self.new.text ≡ self.old.text ++ cell_line mem.now index value }
    {
        self.filled = put_cell(
            self.bytes.as_mut_slice(),
            self.filled,
            mem,
            index,
            value,
            &mut self.counted,
        );
    }

    /// Adds the line of the number of requests.
    fn add_requests(&mut self, requests: u32)
        requires room { self.old.filled ≤ most_filled }
        ensures { self.new.text ≡ self.old.text ++ requests_line requests }
    {
        self.filled = put_word_line(
            self.bytes.as_mut_slice(),
            self.filled,
            b"requests ",
            u64::from(requests),
        );
    }

    /// The lines.
    fn as_slice(&self) -> &[u8]
        ensures { result.now ≡ self.now.text }
    {
        &self.bytes.as_slice()[..self.filled.min(MOST_HELD)]
    }

    /// Lets the lines go.
    fn clear(&mut self)
        ensures none { self.new.text ≡ [] }
        ensures room { self.new.filled ≤ most_filled }
    {
        self.filled = 0;
    }

    /// Writes the lines, where no write has failed, and lets them go. Out of line, since it is called once in a thousand lines.
    #[cold]
    #[inline(never)]
    pub fn write_out<W: Write>(&mut self, output: &mut Watched<W>)
        ensures told { TellsMore (telling (W.contents (held output.old)) (has_failed output.old) self.old.text)
            (telling (W.contents (held output.new)) (has_failed output.new) self.new.text) [] }
        ensures none { self.new.text ≡ [] }
        ensures room { self.new.filled ≤ most_filled }
    {
        if !output.failed() {
            // The writer notes where this fails.
            let _ = write_bytes(output, self.as_slice());
        }
        self.clear();
    }

    /// Sees to it that there is room for one more line, however long: the lines that wait are written first where there is not.
    #[inline(always)]
    fn make_room<W: Write>(&mut self, output: &mut Watched<W>)
        ensures told { TellsMore (telling (W.contents (held output.old)) (has_failed output.old) self.old.text)
            (telling (W.contents (held output.new)) (has_failed output.new) self.new.text) [] }
        ensures room { self.new.filled ≤ most_filled }
    {
        if !self.has_room() {
            self.write_out(output);
        }
    }

    /// Tells the verdict line of a reply.
    #[inline(always)]
    pub fn tell_verdict<W: Write>(&mut self, output: &mut Watched<W>, reply: &Reply)
        requires { HasWords reply.now }
        ensures { TellsMore (telling (W.contents (held output.old)) (has_failed output.old) self.old.text)
            (telling (W.contents (held output.new)) (has_failed output.new) self.new.text) (line_of_reply reply.now) }
    {
        self.make_room(output);
        self.add_verdict(reply);
    }

    /// Tells the line of a memory's cell with this index.
    #[inline(always)]
    pub fn tell_cell<W: Write>(
        &mut self,
        output: &mut Watched<W>,
        mem: &Mem,
        index: usize,
        value: u64,
    )
        requires { HasShortName mem.now }
        ensures { TellsMore (telling (W.contents (held output.old)) (has_failed output.old) self.old.text)
            (telling (W.contents (held output.new)) (has_failed output.new) self.new.text) (cell_line mem.now index value) }
    {
        self.make_room(output);
        self.add_cell(mem, index, value);
    }

    /// Tells the line of the number of requests.
    pub fn tell_requests<W: Write>(&mut self, output: &mut Watched<W>, requests: u32)
        ensures { TellsMore (telling (W.contents (held output.old)) (has_failed output.old) self.old.text)
            (telling (W.contents (held output.new)) (has_failed output.new) self.new.text) (requests_line requests) }
    {
        self.make_room(output);
        self.add_requests(requests);
    }
}
