//! Reading a text of which no more is kept than its trace cannot give again.

ghost use Rattle.std.specs.Prelude.{◌≡◌, ◌↔◌, ◌≤◌, ◌<◌, ◌++◌, ◌+◌, ◌-◌, ℕ, Option, List, true, false, drop, take, length};
ghost use Rattle.std.specs.Prelude.{IfOk, IfErr, OnOk, IsErrOf, IsTrue, IsNone};
ghost use Rattle.std.specs.Option.{IfSome};
ghost use Rattle.std.specs.Io.KnownBytes.{Consumes};
ghost use Rattle.trace_text.specs.Pieces.{IsBegun, TakesFront};
ghost use Rattle.trace_text.specs.Traces.{contents};
ghost use Rattle.command_streams.specs.Watched.{held, has_failed, calls_of, IsCalledAtMost};
ghost use Rattle.command_streams.specs.Streams.{most_bytes, most_reads, IsRead, StopsReading};
ghost use Rattle.command_streams.specs.PlainTexts.{rejoined, progress, IsReadFrom, StopsReadingFrom, StopsPlain};
ghost use Rattle.command_streams.specs.KeptTexts.{IsKept, text_of, restored, HasReadRequests, IsReadBehind};

use crate::fault::CliFault;
use crate::streams::{MOST_BYTES, PIECE, copy_behind, read_until, remove_front};
use crate::watched::Watched;
use std::alloc::{AllocError, Global};
use std::io::Read;
use text_words::TextFault;
use trace_text::{BegunTrace, Trace};

/// More bytes than this are not waited for until they are the plain line of a request.
const LONGEST: usize = 4096;

/// A text that means a trace, and of which the head alone is kept. Behind it stand the plain lines of the requests behind the first so
/// many.
pub struct PlainText {
    /// The whole lines at the head of the text.
    pub head: Vec<u8>,
    /// How many requests stand in the head.
    pub count: usize,
    /// What the text means.
    pub trace: Trace<Global>,
}

/// Written out, so that what lets it go calls one function.
impl Drop for PlainText {
    fn drop(self) {
        let PlainText {
            head: _,
            count: _,
            trace: _,
        } = self;
    }
}

/// Adds the plain lines of a trace's requests behind the first so many to a text.
fn push_requests(
    alloc: Global,
    text: &mut Vec<u8>,
    trace: &Trace<Global>,
    count: usize,
) -> Result<(), AllocError>
    ensures { OnOk result (text.new.items ≡ rejoined text.old.items count (contents trace.now)) }
{
    let lines = trace.print_requests(alloc, count)?;
    text.extend_from_slice(lines.as_slice())
}

impl PlainText {
    /// The text.
    pub fn to_text(&self, alloc: Global) -> Result<Vec<u8>, AllocError>
        ensures { IfOk result (λ text. text.items ≡ rejoined self.now.head.items self.now.count (contents self.now.trace)) }
    {
        let mut text = Vec::new(alloc);
        text.extend_from_slice(self.head.as_slice())?;
        push_requests(alloc, &mut text, &self.trace, self.count)?;
        Ok(text)
    }
}

/// A text that was read to its end.
#[derive(Drop)]
pub enum KeptText {
    /// As it stands.
    Whole(Vec<u8>),
    /// As a head and a trace.
    Plain(PlainText),
}

/// What was read behind the head of a text.
struct Tail {
    /// The trace of the whole lines that were read, those of the head among them.
    trace: Trace<Global>,
    /// How many bytes of the head are whole lines.
    end: usize,
    /// How many requests stand in these.
    count: usize,
    /// What stands behind the lines of the trace.
    waiting: Vec<u8>,
    /// Whether all is read.
    is_ended: bool,
}

/// Written out, so that what lets it go calls one function.
impl Drop for Tail {
    fn drop(self) {
        let Tail {
            trace: _,
            end: _,
            count: _,
            waiting: _,
            is_ended: _,
        } = self;
    }
}

impl Tail {
    /// The trace, and how many of its requests stand in the head.
    fn into_parts(self) -> (Trace<Global>, usize)
        ensures { (result.0 ≡ self.trace) × (result.1 ≡ self.count) }
    {
        let Tail {
            trace,
            end: _,
            count,
            waiting: _,
            is_ended: _,
        } = self;
        (trace, count)
    }
}

/// Takes the plain lines of requests at the head of what waits. It gives how many bytes they are.
fn take_front(begun: &mut BegunTrace<'_, Global>, waiting: &mut Vec<u8>) -> usize
    requires { (done : List ℕ) × IsBegun done begun.old }
    ensures count { length waiting.new.items + result ≡ length waiting.old.items }
    ensures taken { TakesFront begun.old waiting.old.items waiting.new.items begun.new }
{
    let text = waiting.as_slice();
    let taken = text.len() - begun.take_plain(text).len();
    remove_front(waiting, taken);
    taken
}

/// Reads on as long as what is read are plain lines of requests, behind so many bytes that were taken. It says whether all is read.
fn read_plain<R: Read>(
    input: &mut Watched<R>,
    piece: &mut [u8],
    begun: &mut BegunTrace<'_, Global>,
    done: usize,
    waiting: &mut Vec<u8>,
) -> Result<bool, CliFault>
    requires begun { (bytes : List ℕ) × IsBegun bytes begun.old }
    requires fresh { has_failed input.old ≡ false }
    requires room { 0 < length piece.old }
    requires short { done + length waiting.old.items ≤ most_bytes }
    ensures read { IfOk result (λ ended. (count : ℕ)
        × HasReadRequests (progress begun.old done waiting.old.items (R.remaining (held input.old)))
        (progress begun.new count waiting.new.items (R.remaining (held input.new))) (calls_of input.old) (calls_of input.new) ended) }
    ensures fault { IfErr result (StopsPlain done waiting.old.items (R.remaining (held input.old)) (R.remaining (held input.new))) }
    ensures fresh { OnOk result (has_failed input.new ≡ false) }
    ensures failed { IsErrOf result CliFault.Read ↔ IsTrue (has_failed input.new) }
    ensures calls { IsCalledAtMost (most_reads - (done + length waiting.old.items)) (calls_of input.old) (calls_of input.new) }
{
    let mut count = done;
    while waiting.len() <= LONGEST {
        let size = waiting.len() + PIECE;
        let more = read_until(input, piece, count, waiting, size)?;
        count += take_front(begun, waiting);
        if !more {
            return Ok(true);
        }
    }
    Ok(false)
}

/// Reads what stands behind the first `end` bytes of a head, as long as it is plain.
fn read_tail<R: Read>(
    alloc: Global,
    input: &mut Watched<R>,
    piece: &mut [u8],
    mut begun: BegunTrace<'_, Global>,
    head: &[u8],
    end: usize,
) -> Result<Tail, CliFault>
    requires begun { (end ≤ length head.now) × IsBegun (take end head.now) begun }
    requires fresh { has_failed input.old ≡ false }
    requires room { 0 < length piece.old }
    requires short { length head.now ≤ most_bytes }
    ensures found { IfOk result
        (IsReadBehind head.now (R.remaining (held input.old)) (R.remaining (held input.new)) (calls_of input.old) (calls_of input.new)) }
    ensures fault { IfErr result (StopsReadingFrom head.now (R.remaining (held input.old)) (R.remaining (held input.new))) }
    ensures fresh { OnOk result (has_failed input.new ≡ false) }
    ensures failed { IsErrOf result CliFault.Read ↔ IsTrue (has_failed input.new) }
    ensures calls { IsCalledAtMost (most_reads - length head.now) (calls_of input.old) (calls_of input.new) }
{
    let count = begun.request_count();
    let mut waiting = copy_behind(alloc, head, end)?;
    let is_ended = read_plain(input, piece, &mut begun, end, &mut waiting)?;
    Ok(Tail {
        trace: begun.into_trace(),
        end,
        count,
        waiting,
        is_ended,
    })
}

/// Reads what stands behind the head of a text, as long as it is plain. None where the whole lines of the head have no request, or a fault.
fn read_behind<R: Read>(
    alloc: Global,
    input: &mut Watched<R>,
    piece: &mut [u8],
    head: &[u8],
) -> Result<Option<Tail>, CliFault>
    requires fresh { has_failed input.old ≡ false }
    requires room { 0 < length piece.old }
    requires short { length head.now ≤ most_bytes }
    ensures found { IfOk result (λ found. IfSome found
        (IsReadBehind head.now (R.remaining (held input.old)) (R.remaining (held input.new)) (calls_of input.old) (calls_of input.new))) }
    ensures none { IfOk result (λ found. IsNone found → input.new ≡ input.old) }
    ensures fault { IfErr result (StopsReadingFrom head.now (R.remaining (held input.old)) (R.remaining (held input.new))) }
    ensures fresh { OnOk result (has_failed input.new ≡ false) }
    ensures failed { IsErrOf result CliFault.Read ↔ IsTrue (has_failed input.new) }
    ensures calls { IsCalledAtMost (most_reads - length head.now) (calls_of input.old) (calls_of input.new) }
{
    match BegunTrace::begin(alloc, head) {
        Ok(Some((begun, end))) => { Ok(Some(read_tail(alloc, input, piece, begun, head, end)?)) }
        Ok(None) | Err(TextFault::At { .. }) => Ok(None),
        Err(TextFault::Memory) => Err(CliFault::Memory),
    }
}

/// Makes of a head all that was read.
fn restore(alloc: Global, head: &mut Vec<u8>, found: Tail) -> Result<(), AllocError>
    ensures { OnOk result (head.new.items ≡ restored head.old.items found) }
{
    head.truncate(found.end);
    push_requests(alloc, head, &found.trace, found.count)?;
    head.extend_from_slice(found.waiting.as_slice())
}

/// Reads what is left behind these bytes of a text, which is kept as it stands.
fn read_rest<R: Read>(
    input: &mut Watched<R>,
    piece: &mut [u8],
    mut text: Vec<u8>,
) -> Result<KeptText, CliFault>
    requires fresh { has_failed input.old ≡ false }
    requires room { 0 < length piece.old }
    requires short { length text.items ≤ most_bytes }
    ensures ok { IfOk result (λ kept. IsReadFrom text.items (R.remaining (held input.old)) (R.remaining (held input.new)) (text_of kept)) }
    ensures kept { IfOk result IsKept }
    ensures fault { IfErr result (StopsReadingFrom text.items (R.remaining (held input.old)) (R.remaining (held input.new))) }
    ensures failed { IsErrOf result CliFault.Read ↔ IsTrue (has_failed input.new) }
    ensures calls { IsCalledAtMost (most_reads - length text.items) (calls_of input.old) (calls_of input.new) }
{
    read_until(input, piece, 0, &mut text, MOST_BYTES + 1)?;
    Ok(KeptText::Whole(text))
}

/// Keeps a text by its head and what was found behind it, and reads what is left where that is no plain text.
fn keep_found<R: Read>(
    alloc: Global,
    input: &mut Watched<R>,
    piece: &mut [u8],
    mut head: Vec<u8>,
    found: Tail,
) -> Result<KeptText, CliFault>
    requires fresh { has_failed input.old ≡ false }
    requires room { 0 < length piece.old }
    requires found { (before : Option (List ℕ)) × (called : ℕ)
        × IsReadBehind head.items before (R.remaining (held input.old)) called (calls_of input.old) found }
    ensures ok { IfOk result (λ kept. (before : Option (List ℕ)) (called : ℕ)
        → IsReadBehind head.items before (R.remaining (held input.old)) called (calls_of input.old) found
        → IsReadFrom head.items before (R.remaining (held input.new)) (text_of kept)) }
    ensures kept { IfOk result IsKept }
    ensures fault { IfErr result (λ fault. (before : Option (List ℕ)) (called : ℕ)
        → IsReadBehind head.items before (R.remaining (held input.old)) called (calls_of input.old) found
        → StopsReadingFrom head.items before (R.remaining (held input.new)) fault) }
    ensures failed { IsErrOf result CliFault.Read ↔ IsTrue (has_failed input.new) }
    ensures calls { (before : Option (List ℕ)) (called : ℕ)
        → IsReadBehind head.items before (R.remaining (held input.old)) called (calls_of input.old) found
        → IsCalledAtMost (most_reads - length head.items) called (calls_of input.new) }
{
    if found.is_ended && found.waiting.is_empty() {
        head.truncate(found.end);
        let (trace, count) = found.into_parts();
        return Ok(KeptText::Plain(PlainText { head, count, trace }));
    }
    let is_ended = found.is_ended;
    restore(alloc, &mut head, found)?;
    if is_ended {
        return Ok(KeptText::Whole(head));
    }
    read_rest(input, piece, head)
}

/// Reads all that is left. Of a trace whose lines behind the first piece are plain lines of requests, the head alone is kept.
pub fn read_kept<R: Read>(alloc: Global, input: &mut Watched<R>) -> Result<KeptText, CliFault>
    requires { has_failed input.old ≡ false }
    ensures ok { IfOk result (λ kept. IsRead (R.remaining (held input.old)) (R.remaining (held input.new)) (text_of kept)) }
    ensures kept { IfOk result IsKept }
    ensures fault { IfErr result (StopsReading (R.remaining (held input.old)) (R.remaining (held input.new))) }
    ensures failed { IsErrOf result CliFault.Read ↔ IsTrue (has_failed input.new) }
    ensures calls { IsCalledAtMost most_reads (calls_of input.old) (calls_of input.new) }
{
    let mut buffer = vec![in alloc; 0u8; PIECE]?;
    let piece = buffer.as_mut_slice();
    let mut head = Vec::new(alloc);
    if !read_until(input, piece, 0, &mut head, PIECE)? {
        return Ok(KeptText::Whole(head));
    }
    match read_behind(alloc, input, piece, head.as_slice())? {
        Some(found) => keep_found(alloc, input, piece, head, found),
        None => read_rest(input, piece, head),
    }
}
