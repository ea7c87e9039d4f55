//! Reading the texts that commands are given, and writing those that they answer.

ghost use Rattle.std.specs.Prelude.{◌≡◌, ◌↔◌, ◌≤◌, ◌++◌, ◌+◌, ◌-◌, ◌<◌, ℕ, List, [], true, false, take, drop, length};
ghost use Rattle.std.specs.Prelude.{IfOk, IfErr, OnOk, IsErrOf, IsTrue};
ghost use Rattle.std.specs.Io.KnownBytes.{Appends, Consumes, Keeps};
ghost use Rattle.text_words.specs.declared.fault.TextFault.{TextFault as SpecFault};
ghost use Rattle.trace_text.specs.Drafts.{IsTextFault};
ghost use Rattle.trace_text.specs.Grammar.{TextMeans as TraceMeans};
ghost use Rattle.trace_text.specs.Pieces.{IsBegun};
ghost use Rattle.trace_text.specs.Traces.{contents as trace_contents};
ghost use Rattle.command_streams.specs.Watched.{held, has_failed, is_delivered, calls_of, one_more, IsCalledAtMost};
ghost use Rattle.command_streams.specs.Streams.{most_bytes, most_reads, IsRead, IsMeant, IsMeantBehind, IsFaultOf};
ghost use Rattle.command_streams.specs.Streams.{buffered, TakesPiece, TakesPieces, StopsPiece, StopsReading, StopsTrace, StopsBehind, StopsWriting};

use crate::fault::CliFault;
use crate::watched::Watched;
use std::alloc::{AllocError, Allocator};
use std::io::{Read, Write};
use text_words::TextFault;
use trace_text::{BegunTrace, Trace};

/// The most bytes that are read.
pub(crate) const MOST_BYTES: usize = 67_108_864;
/// How many bytes are asked for at once.
pub(crate) const PIECE: usize = 131_072;
/// How many bytes of a whole text are asked for at once. Most texts are short, and the buffer is cleared first.
const TEXT_PIECE: usize = 16_384;

/// Reads a piece and adds it to the text, before which so many bytes were read. It says whether there was one: there is none at the end.
fn read_piece<A: Allocator, R: Read>(
    input: &mut Watched<R>,
    piece: &mut [u8],
    done: usize,
    text: &mut Vec<u8, A>,
) -> Result<bool, CliFault>
    requires fresh { has_failed input.old ≡ false }
    requires room { 0 < length piece.old }
    requires short { done ≤ most_bytes }
    ensures taken { IfOk result (λ more.
        TakesPiece done (buffered (R.remaining (held input.old)) text.old.items)
        (buffered (R.remaining (held input.new)) text.new.items) more) }
    ensures fault { IfErr result (StopsPiece (R.remaining (held input.old)) (R.remaining (held input.new)) done text.old.items) }
    ensures fresh { OnOk result (has_failed input.new ≡ false) }
    ensures failed { IsErrOf result CliFault.Read ↔ IsTrue (has_failed input.new) }
    ensures calls { calls_of input.new ≡ one_more (calls_of input.old) }
{
    let count = match input.read(piece) {
        Ok(count) => count,
        Err(_) => return Err(CliFault::Read),
    };
    if text.extend_from_slice(&piece[..count]).is_err() {
        return Err(CliFault::Memory);
    }
    if text.len() > MOST_BYTES - done {
        return Err(CliFault::TooLong);
    }
    Ok(count > 0)
}

/// Reads pieces until the text has so many bytes or the end is reached, and says whether there may be more. Each piece but the last has
/// a byte, so a reader that is asked too often has too many.
pub(crate) fn read_until<A: Allocator, R: Read>(
    input: &mut Watched<R>,
    piece: &mut [u8],
    done: usize,
    text: &mut Vec<u8, A>,
    size: usize,
) -> Result<bool, CliFault>
    requires fresh { has_failed input.old ≡ false }
    requires room { 0 < length piece.old }
    requires short { done + length text.old.items ≤ most_bytes }
    ensures taken { IfOk result (λ more.
        TakesPieces done size (buffered (R.remaining (held input.old)) text.old.items)
        (buffered (R.remaining (held input.new)) text.new.items) more) }
    ensures fault { IfErr result (StopsPiece (R.remaining (held input.old)) (R.remaining (held input.new)) done text.old.items) }
    ensures fresh { OnOk result (has_failed input.new ≡ false) }
    ensures failed { IsErrOf result CliFault.Read ↔ IsTrue (has_failed input.new) }
    ensures calls { IsCalledAtMost (most_reads - (done + length text.old.items)) (calls_of input.old) (calls_of input.new) }
    ensures counted { IfOk result (λ more. more ≡ true →
        IsCalledAtMost (length text.new.items - length text.old.items) (calls_of input.old) (calls_of input.new)) }
{
    while text.len() < size {
        if !read_piece(input, piece, done, text)? {
            return Ok(false);
        }
    }
    Ok(true)
}

/// Reads all that is left.
pub fn read_text<A: Allocator + Copy, R: Read>(
    alloc: A,
    input: &mut Watched<R>,
) -> Result<Vec<u8, A>, CliFault>
    requires { has_failed input.old ≡ false }
    ensures ok { IfOk result (λ text. IsRead (R.remaining (held input.old)) (R.remaining (held input.new)) text.items) }
    ensures fault { IfErr result (StopsReading (R.remaining (held input.old)) (R.remaining (held input.new))) }
    ensures failed { IsErrOf result CliFault.Read ↔ IsTrue (has_failed input.new) }
    ensures calls { IsCalledAtMost most_reads (calls_of input.old) (calls_of input.new) }
{
    let mut buffer = vec![in alloc; 0u8; TEXT_PIECE]?;
    let piece = buffer.as_mut_slice();
    let mut text = Vec::new(alloc);
    read_until(input, piece, 0, &mut text, MOST_BYTES + 1)?;
    Ok(text)
}

/// Reads all that is left behind so many bytes of a text with this fault, and keeps none of it. It gives the fault, or why reading stops.
fn skip_rest<R: Read>(
    input: &mut Watched<R>,
    piece: &mut [u8],
    done: usize,
    fault: TextFault,
) -> CliFault
    requires fresh { has_failed input.old ≡ false }
    requires room { 0 < length piece.old }
    requires short { done ≤ most_bytes }
    ensures fault { (bytes : List ℕ) → length bytes ≡ done → ((rest : List ℕ) → IsTextFault (bytes ++ rest) fault) →
        StopsBehind bytes (R.remaining (held input.old)) (R.remaining (held input.new)) result }
    ensures failed { result ≡ CliFault.Read ↔ IsTrue (has_failed input.new) }
    ensures calls { IsCalledAtMost (most_reads - done) (calls_of input.old) (calls_of input.new) }
{
    let mut count = done;
    while count <= MOST_BYTES {
        match input.read(piece) {
            Ok(0) => return CliFault::from(fault),
            Ok(more) => count += more,
            Err(_) => return CliFault::Read,
        }
    }
    CliFault::TooLong
}

/// Removes so many bytes at the head of a text.
pub(crate) fn remove_front<A: Allocator>(text: &mut Vec<u8, A>, count: usize)
    requires { count ≤ length text.old.items }
    ensures { text.new.items ≡ drop count text.old.items }
{
    let len = text.len();
    text.as_mut_slice().copy_within(count..len, 0);
    text.truncate(len - count);
}

/// Reads a trace to its end behind a head, of which the first `end` bytes were taken.
fn read_on<A: Allocator + Copy, R: Read>(
    alloc: A,
    input: &mut Watched<R>,
    piece: &mut [u8],
    mut begun: BegunTrace<'_, A>,
    head: &[u8],
    end: usize,
) -> Result<Trace<A>, CliFault>
    requires begun { (end ≤ length head.now) × IsBegun (take end head.now) begun }
    requires fresh { has_failed input.old ≡ false }
    requires room { 0 < length piece.old }
    requires short { length head.now ≤ most_bytes }
    ensures ok { IfOk result (λ trace.
        IsMeantBehind head.now (R.remaining (held input.old)) (R.remaining (held input.new)) (trace_contents trace)) }
    ensures fault { IfErr result (StopsBehind head.now (R.remaining (held input.old)) (R.remaining (held input.new))) }
    ensures failed { IsErrOf result CliFault.Read ↔ IsTrue (has_failed input.new) }
    ensures calls { IsCalledAtMost (most_reads - length head.now) (calls_of input.old) (calls_of input.new) }
{
    let mut text = copy_behind(alloc, head, end)?;
    let mut count = end;
    // Twice as many where no line ended, so that a long line is searched as often as it doubles.
    let mut size = text.len() + text.len().max(PIECE);
    while read_until(input, piece, count, &mut text, size)? {
        match begun.take(text.as_slice()) {
            Ok(taken) => {
                remove_front(&mut text, taken);
                count += taken;
                size = text.len() + text.len().max(PIECE);
            }
            Err(fault) => return Err(skip_rest(input, piece, count + text.len(), fault)),
        }
    }
    match begun.end(text.as_slice()) {
        Ok(trace) => Ok(trace),
        Err(fault) => Err(CliFault::from(fault)),
    }
}

/// The trace that a text means, which is cleared.
fn parse_text<A: Allocator + Copy>(alloc: A, text: &mut Vec<u8, A>) -> Result<Trace<A>, CliFault>
    ensures ok { IfOk result (λ trace. TraceMeans text.old.items (trace_contents trace)) }
    ensures fault { IfErr result (IsFaultOf text.old.items) }
{
    match Trace::parse(alloc, text.as_slice()) {
        Ok(trace) => {
            // Let go as one large block, it would have the C library's heap copy the lists that grow later, where it moves their pages.
            text.clear();
            text.shrink_to(1);
            Ok(trace)
        }
        Err(fault) => Err(CliFault::from(fault)),
    }
}

/// The trace that a text means, which is let go.
pub fn parse_trace<A: Allocator + Copy>(
    alloc: A,
    mut text: Vec<u8, A>,
) -> Result<Trace<A>, CliFault>
    ensures ok { IfOk result (λ trace. TraceMeans text.items (trace_contents trace)) }
    ensures fault { IfErr result (IsFaultOf text.items) }
{
    parse_text(alloc, &mut text)
}

/// What stands behind so many bytes, in a list of its own.
pub(crate) fn copy_behind<A: Allocator>(
    alloc: A,
    bytes: &[u8],
    end: usize,
) -> Result<Vec<u8, A>, AllocError>
    requires { end ≤ length bytes.now }
    ensures { IfOk result (λ text. text.items ≡ drop end bytes.now) }
{
    let mut text = Vec::new(alloc);
    text.extend_from_slice(&bytes[end..])?;
    Ok(text)
}

/// Reads a trace in pieces, behind the head, which is empty at first. Where the declarations go on behind it, it takes the whole text.
fn read_pieces<A: Allocator + Copy, R: Read>(
    alloc: A,
    input: &mut Watched<R>,
    piece: &mut [u8],
    head: &mut Vec<u8, A>,
) -> Result<Trace<A>, CliFault>
    requires fresh { has_failed input.old ≡ false }
    requires room { 0 < length piece.old }
    requires empty { head.old.items ≡ [] }
    ensures ok { IfOk result (λ trace. IsMeant (R.remaining (held input.old)) (R.remaining (held input.new)) (trace_contents trace)) }
    ensures fault { IfErr result (StopsTrace (R.remaining (held input.old)) (R.remaining (held input.new))) }
    ensures failed { IsErrOf result CliFault.Read ↔ IsTrue (has_failed input.new) }
    ensures calls { IsCalledAtMost most_reads (calls_of input.old) (calls_of input.new) }
{
    if !read_until(input, piece, 0, head, PIECE)? {
        return parse_text(alloc, head);
    }
    let bytes = head.as_slice();
    match BegunTrace::begin(alloc, bytes) {
        Ok(Some((begun, end))) => return read_on(alloc, input, piece, begun, bytes, end),
        Ok(None) => {}
        Err(fault) => return Err(skip_rest(input, piece, bytes.len(), fault)),
    }
    read_until(input, piece, 0, head, MOST_BYTES + 1)?;
    parse_text(alloc, head)
}

/// Reads a trace in pieces, behind a head. The head alone is kept while it is read: it has the declarations. Where these go on behind it, the
/// text is kept as a whole.
pub fn read_trace<A: Allocator + Copy, R: Read>(
    alloc: A,
    input: &mut Watched<R>,
) -> Result<Trace<A>, CliFault>
    requires { has_failed input.old ≡ false }
    ensures ok { IfOk result (λ trace. IsMeant (R.remaining (held input.old)) (R.remaining (held input.new)) (trace_contents trace)) }
    ensures fault { IfErr result (StopsTrace (R.remaining (held input.old)) (R.remaining (held input.new))) }
    ensures failed { IsErrOf result CliFault.Read ↔ IsTrue (has_failed input.new) }
    ensures calls { IsCalledAtMost most_reads (calls_of input.old) (calls_of input.new) }
{
    let mut buffer = vec![in alloc; 0u8; PIECE]?;
    let mut head = Vec::new(alloc);
    read_pieces(alloc, input, buffer.as_mut_slice(), &mut head)
}

/// Writes a text.
pub fn write_bytes<W: Write>(output: &mut Watched<W>, text: &[u8]) -> Result<(), CliFault>
    requires { has_failed output.old ≡ false }
    ensures ok { OnOk result (Appends (W.contents (held output.old)) (W.contents (held output.new)) text.now) }
    ensures fault { IfErr result (StopsWriting (W.contents (held output.old)) (W.contents (held output.new)) text.now) }
    ensures failed { IsErrOf result CliFault.Write ↔ IsTrue (has_failed output.new) }
{
    let mut rest = text;
    while !rest.is_empty() {
        match output.write(rest) {
            Ok(0) | Err(_) => return Err(CliFault::Write),
            Ok(count) => rest = rest.split_at(count).1,
        }
    }
    Ok(())
}

/// Sees to it that what was written is delivered.
pub fn deliver<W: Write>(output: &mut Watched<W>) -> Result<(), CliFault>
    requires { has_failed output.old ≡ false }
    ensures bytes { Keeps (W.contents (held output.old)) (W.contents (held output.new)) }
    ensures fault { IfErr result (λ fault. fault ≡ CliFault.Write) }
    ensures delivered { OnOk result (is_delivered output.new ≡ true) }
    ensures failed { IsErrOf result CliFault.Write ↔ IsTrue (has_failed output.new) }
{
    match output.flush() {
        Ok(()) => Ok(()),
        Err(_) => Err(CliFault::Write),
    }
}

/// Writes a text and sees to it that it is delivered.
pub fn write_text<W: Write>(output: &mut Watched<W>, text: &[u8]) -> Result<(), CliFault>
    requires { has_failed output.old ≡ false }
    ensures ok { OnOk result (Appends (W.contents (held output.old)) (W.contents (held output.new)) text.now) }
    ensures fault { IfErr result (StopsWriting (W.contents (held output.old)) (W.contents (held output.new)) text.now) }
    ensures delivered { OnOk result (is_delivered output.new ≡ true) }
    ensures failed { IsErrOf result CliFault.Write ↔ IsTrue (has_failed output.new) }
{
    write_bytes(output, text)?;
    deliver(output)
}
