//! What is kept of the entries of a trace or a run, for what is told of its races.

ghost use Rattle.std.specs.Prelude.{◌≡◌, ◌<◌, ◌≤◌, [], true, reverse, length, IfOk, IfSome, IsTrue};
ghost use Rattle.trace_text.specs.Traces.{contents as trace_contents};
ghost use Rattle.model_histories.specs.Shapes.{Shape, most_entries};
ghost use Rattle.model_races.specs.Judged.{IsJudged};
ghost use Rattle.packed_history.specs.Entries.{entry_of as entry_spec};
ghost use Rattle.race_pairs.specs.Digests.{IsDigest, is_of_own_lines, most_of};
ghost use Rattle.tool_commands.specs.Digested.{IsDigested};

use crate::clean::core_for;
use packed_history::Entries;
use race_gate::{Entry, GateFault, Receipt, Reply};
use race_pairs::Digest;
use std::alloc::{AllocError, Global};
use trace_text::Trace;

/// The entry that a receipt is of.
#[inline(always)]
fn entry_of(receipt: Receipt) -> Entry
    ensures { result ≡ entry_spec receipt }
{
    Entry {
        request: receipt.request,
        answer: receipt.answer,
    }
}

/// Whether a digest may take an entry on this line behind those up to a last line.
#[inline(always)]
fn may_follow(digest: &Digest, last: u32, line: u32) -> bool
    ensures { IsTrue result → is_of_own_lines digest.now ≡ true → last < line }
{
    !digest.has_own_lines() || last < line
}

/// Grows a digest by the entries of a trace, where a gate answers all its requests. None says nothing. No entry is kept. Errors where there
/// is no memory.
fn grow_digest(
    alloc: Global,
    trace: &Trace<Global>,
    mut digest: Digest,
) -> Result<Option<Digest>, AllocError>
    requires { IsDigest [] digest }
    ensures digested { IfOk result (λ found. IfSome found (IsDigested (trace_contents trace.now))) }
    ensures most { IfOk result (λ found. IfSome found (λ grown. most_of grown ≡ most_of digest)) }
{
    let mut core = core_for(alloc, trace)?;
    let mut last = 0;
    for line in trace.lines.iter() {
        if !may_follow(&digest, last, line.request.line) {
            return Ok(None);
        }
        last = line.request.line;
        match core.reply(line.request) {
            Reply::Done(receipt) => digest.add(entry_of(receipt))?,
            Reply::Illegal(GateFault::Memory) => return Err(AllocError),
            Reply::Illegal(_) => return Ok(None),
        }
    }
    Ok(Some(digest))
}

/// The digest of the entries of a trace, which keeps so many pairs, where a gate answers all its requests. None says nothing. Errors where
/// there is no memory.
pub(crate) fn digest_of_trace(
    alloc: Global,
    trace: &Trace<Global>,
    most: usize,
) -> Result<Option<Digest>, AllocError>
    ensures digested { IfOk result (λ found. IfSome found (IsDigested (trace_contents trace.now))) }
    ensures most { IfOk result (λ found. IfSome found (λ digest. most_of digest ≡ most)) }
{
    let count = trace.lines.len();
    let own = grow_digest(alloc, trace, Digest::with_own_lines(alloc, count, most)?)?;
    if own.is_some() {
        return Ok(own);
    }
    grow_digest(alloc, trace, Digest::new(alloc, count, most)?)
}

/// The digest of entries of a run, which keeps so many pairs. Errors where there is no memory.
pub(crate) fn digest_of_run(
    alloc: Global,
    entries: &Entries,
    most: usize,
) -> Result<Digest, AllocError>
    requires judged { (shape : Shape) × IsJudged shape (reverse entries.now.items) }
    requires few { length entries.now.items ≤ most_entries }
    ensures digest { IfOk result (IsDigest entries.now.items) }
    ensures most { IfOk result (λ digest. most_of digest ≡ most) }
{
    let mut digest = Digest::new(alloc, entries.len(), most)?;
    for at in 0..entries.len() {
        digest.add(entries.get(at))?;
    }
    Ok(digest)
}
