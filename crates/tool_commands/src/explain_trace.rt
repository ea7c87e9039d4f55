//! Explaining a trace.

ghost use Rattle.std.specs.Prelude.{◌≡◌, ◌++◌, ◌⊎◌, [], ℕ, List, IfOk, IfErr, OnOk, length, reverse, codes, flat_map, map, string_bytes};
ghost use Rattle.text_words.specs.Text.{lines};
ghost use Rattle.trace_text.specs.Traces.{contents as trace_contents};
ghost use Rattle.trace_text.specs.Grammar.{TextMeans as TraceMeans};
ghost use Rattle.trace_notes.specs.Notes.{AreNotes, kept_runs};
ghost use Rattle.model_histories.specs.declared.answer.Entry.{Entry};
ghost use Rattle.command_streams.specs.KeptTexts.{text_of, IsKept, KeepsTrace};
ghost use Rattle.race_pairs.specs.Digests.{IsDigest, most_of};
ghost use Rattle.race_explanations.specs.Extents.{most_pairs};
ghost use Rattle.tool_commands.specs.Outcomes.{refusal_status};
ghost use Rattle.tool_commands.specs.Cleanness.{IsAllClean};
ghost use Rattle.tool_commands.specs.Digested.{IsDigested};
ghost use Rattle.tool_commands.specs.Replays.{StopsAt, StopsGate};
ghost use Rattle.tool_commands.specs.Explanations.{clean_trace_words, recorded_line, judged_text, TellsEntries, IsTraceTold, IsIllegalTold, IsUnjudgedTold};
ghost use Rattle.tool_commands.specs.Explanations.{Manner as SpecManner, IsUntoldTrace, ending_of};
ghost use Rattle.tool_commands.specs.Explanations.{ExplainsTrace, TellsTrace, TellsIllegal, IsJudgedSo};

use crate::ask::{Stop, ask_all};
use crate::clean::clean_count;
use crate::explain::{Manner, Rendering, tell_faults};
use crate::judged::digest_of_trace;
use crate::replay::fault_of_request;
use command_streams::{CliFault, KeptText};
use fault_lists::Fault;
use memchr::memchr;
use race_explanations::{
    Illegality, find_illegality, illegal_explanation, most_pairs, trace_explanation,
};
use race_gate::Gate;
use race_pairs::Digest;
use race_records::{Outcome as Ending, illegal_record, trace_record};
use source_quotes::{Meant, push_count};
use std::alloc::{AllocError, Global};
use text_buffers::{TextBuilder, push_words};
use text_words::TextFault;
use trace_notes::Notes;
use trace_text::Trace;

/// What is told where nothing was refused.
fn clean_words() -> &'static str
    ensures { result.now ≡ clean_trace_words }
{
    "clean: no two of the accesses of this trace race, in whatever order its strands run\n"
}

/// What is told where nothing was refused among so many requests.
fn explain_clean(alloc: Global, count: usize) -> Result<Vec<u8>, AllocError>
    ensures { IfOk result (λ told. told.items ≡ clean_trace_words ++ judged_text count) }
{
    let mut told = TextBuilder::new(alloc);
    told.push_words(clean_words());
    told.push_words("judged: ");
    push_count(&mut told, count, "request");
    told.push_words("\n");
    told.end()
}

/// What a person is told of the entries of a trace.
fn explain_entries(
    alloc: Global,
    manner: &Manner<'_>,
    notes: &Notes,
    trace: &Trace<Global>,
    digest: &Digest,
) -> Result<Vec<u8>, AllocError>
    requires digest { (entries : List Entry) × IsDigest entries digest.now }
    requires most { most_of digest.now ≡ most_pairs manner.now.extent }
    ensures { IfOk result (λ told. (entries : List Entry) → IsDigest entries digest.now →
        TellsEntries manner.now notes.now (trace_contents trace.now) entries told.items) }
{
    if digest.refusals == 0 {
        return explain_clean(alloc, digest.lines.len());
    }
    trace_explanation(
        alloc,
        manner.is_painted,
        manner.extent,
        notes,
        trace,
        digest,
    )
}

/// Adds a line for each run that was recorded.
pub(crate) fn push_recorded(told: &mut Vec<u8>, runs: &[String]) -> Result<(), AllocError>
    ensures { OnOk result (told.new.items ≡ told.old.items ++ flat_map recorded_line (map string_bytes runs.now)) }
{
    for run in runs {
        push_words(told, "recorded: ")?;
        push_words(told, run.as_str())?;
        push_words(told, "\n")?;
    }
    Ok(())
}

/// The exit status of a trace: 1 where something was refused, else 0.
fn status_of(digest: &Digest) -> u8
    ensures { (entries : List Entry) → IsDigest entries digest.now → result ≡ refusal_status entries }
{
    if digest.refusals > 0 { 1 } else { 0 }
}

/// How a trace came out that was judged with this status.
fn ending_of(status: u8) -> Ending
    ensures { result ≡ ending_of status }
{
    match status {
        0 => Ending::Clean,
        _ => Ending::Raced,
    }
}

/// The notes of a text. A text without `#` has none, and its lines are not looked at one by one.
pub(crate) fn notes_of(alloc: Global, text: &[u8]) -> Result<Notes, AllocError>
    ensures { IfOk result (AreNotes (lines text.now)) }
{
    let mut notes = Notes::new(alloc);
    if memchr(b'#', text).is_none() {
        return Ok(notes);
    }
    notes.read(text)?;
    Ok(notes)
}

/// The notes of a text that is kept. Plain lines of requests are none.
pub(crate) fn notes_of_kept(alloc: Global, source: &KeptText) -> Result<Notes, AllocError>
    requires { IsKept source.now }
    ensures { IfOk result (AreNotes (lines (text_of source.now))) }
{
    match source {
        KeptText::Whole(text) => notes_of(alloc, text.as_slice()),
        KeptText::Plain(kept) => notes_of(alloc, kept.head.as_slice()),
    }
}

/// What is told of an illegal request.
fn tell_illegal(
    alloc: Global,
    manner: &Manner<'_>,
    text: &[u8],
    trace: &Trace<Global>,
    number: usize,
    why: Illegality,
) -> Result<Vec<u8>, AllocError>
    ensures { IfOk result (λ told. TellsIllegal manner.now text.now (trace_contents trace.now) number why told.items) }
{
    match manner.rendering {
        Rendering::Text => illegal_explanation(
            alloc,
            manner.is_painted,
            manner.file,
            text,
            trace,
            number,
            why,
        ),
        Rendering::Record(form) => {
            illegal_record(alloc, form, manner.file, text, trace, number, why)
        },
    }
}

/// What is told of the first request that a gate does not answer: why it is illegal. The fault of a command for one that is not illegal.
fn explain_stop(
    alloc: Global,
    manner: &Manner<'_>,
    text: &[u8],
    trace: &Trace<Global>,
    gate: &Gate<Global>,
    stop: Stop,
) -> Result<Vec<u8>, CliFault>
    requires means { TraceMeans text.now (trace_contents trace.now) }
    requires stops { StopsAt (trace_contents trace.now) gate.now stop }
    ensures ok { IfOk result (λ told. IsIllegalTold manner.now text.now told.items 2) }
    ensures fault { IfErr result (λ fault. (fault ≡ CliFault.Memory) ⊎ StopsGate (trace_contents trace.now) fault) }
{
    let entries = gate.history();
    match find_illegality(entries, stop.request, stop.fault) {
        Some(why) => {
            let told = tell_illegal(alloc, manner, text, trace, stop.number as usize, why)?;
            Ok(told)
        }
        None => Err(fault_of_request(stop.number, stop.fault)),
    }
}

/// The same of a text that is kept, which stands as a whole then.
fn explain_kept_stop(
    alloc: Global,
    manner: &Manner<'_>,
    source: &KeptText,
    trace: &Trace<Global>,
    gate: &Gate<Global>,
    stop: Stop,
) -> Result<Vec<u8>, CliFault>
    requires means { KeepsTrace source.now (trace_contents trace.now) }
    requires stops { StopsAt (trace_contents trace.now) gate.now stop }
    ensures ok { IfOk result (λ told. IsIllegalTold manner.now (text_of source.now) told.items 2) }
    ensures fault { IfErr result (λ fault. (fault ≡ CliFault.Memory) ⊎ StopsGate (trace_contents trace.now) fault) }
{
    match source {
        KeptText::Whole(text) => explain_stop(alloc, manner, text.as_slice(), trace, gate, stop),
        KeptText::Plain(kept) => {
            let text = kept.to_text(alloc)?;
            explain_stop(alloc, manner, text.as_slice(), trace, gate, stop)
        }
    }
}

/// What a person is told of the entries of a trace, and what was recorded.
fn verdict_text(
    alloc: Global,
    manner: &Manner<'_>,
    notes: &Notes,
    trace: &Trace<Global>,
    digest: &Digest,
) -> Result<Vec<u8>, AllocError>
    requires digest { (entries : List Entry) × IsDigest entries digest.now }
    requires most { most_of digest.now ≡ most_pairs manner.now.extent }
    ensures { IfOk result (λ told. (entries : List Entry) → IsDigest entries digest.now →
        ExplainsTrace manner.now notes.now (trace_contents trace.now) entries told.items) }
{
    let mut told = explain_entries(alloc, manner, notes, trace, digest)?;
    push_recorded(&mut told, notes.runs())?;
    Ok(told)
}

/// What is told of the entries of a trace, and what was recorded.
fn tell_verdict(
    alloc: Global,
    manner: &Manner<'_>,
    notes: &Notes,
    trace: &Trace<Global>,
    digest: &Digest,
) -> Result<Vec<u8>, AllocError>
    requires digest { (entries : List Entry) × IsDigest entries digest.now }
    requires most { most_of digest.now ≡ most_pairs manner.now.extent }
    ensures { IfOk result (λ told. (entries : List Entry) → IsDigest entries digest.now →
        TellsTrace manner.now notes.now (trace_contents trace.now) entries told.items) }
{
    match manner.rendering {
        Rendering::Text => verdict_text(alloc, manner, notes, trace, digest),
        Rendering::Record(form) => trace_record(
            alloc,
            form,
            ending_of(status_of(digest)),
            manner.extent,
            notes,
            trace,
            digest,
        ),
    }
}

/// What is told of a trace that a text means and whose requests a gate answered, and the exit status.
fn explain_judged(
    alloc: Global,
    manner: &Manner<'_>,
    source: &KeptText,
    trace: &Trace<Global>,
    digest: &Digest,
) -> Result<(Vec<u8>, u8), AllocError>
    requires means { KeepsTrace source.now (trace_contents trace.now) }
    requires digested { IsDigested (trace_contents trace.now) digest.now }
    requires most { most_of digest.now ≡ most_pairs manner.now.extent }
    ensures { IfOk result (λ told. IsTraceTold manner.now (text_of source.now) told.0.items told.1) }
{
    let notes = notes_of_kept(alloc, source)?;
    let told = tell_verdict(alloc, manner, &notes, trace, digest)?;
    Ok((told, status_of(digest)))
}

/// What a person is told of a trace that a text means, in which nothing is refused among so many requests.
fn explain_clean_trace(
    alloc: Global,
    source: &KeptText,
    trace: &Trace<Global>,
    count: usize,
) -> Result<Vec<u8>, AllocError>
    requires means { KeepsTrace source.now (trace_contents trace.now) }
    requires clean { IsAllClean (trace_contents trace.now) count }
    ensures { IfOk result (λ told. (manner : SpecManner) → manner.rendering ≡ Rendering.Text → IsTraceTold manner (text_of source.now) told.items 0) }
{
    let _trace = trace;
    let notes = notes_of_kept(alloc, source)?;
    let mut told = explain_clean(alloc, count)?;
    push_recorded(&mut told, notes.runs())?;
    Ok(told)
}

/// What comes of the requests of a trace.
#[derive(Drop)]
pub(crate) enum Judged {
    /// Each was answered, and this is the digest of the entries.
    Whole(Digest),
    /// What is told of the first illegal one.
    Stopped(Vec<u8>),
}

/// What comes of the requests of a trace that a text means. A history is kept only where a request is illegal.
pub(crate) fn judge_trace(
    alloc: Global,
    manner: &Manner<'_>,
    source: &KeptText,
    trace: &Trace<Global>,
) -> Result<Judged, CliFault>
    requires { KeepsTrace source.now (trace_contents trace.now) }
    ensures ok { IfOk result (IsJudgedSo manner.now (text_of source.now) (trace_contents trace.now)) }
    ensures fault { IfErr result (λ fault. (fault ≡ CliFault.Memory) ⊎ StopsGate (trace_contents trace.now) fault) }
{
    let most = most_pairs(manner.extent);
    if let Some(digest) = digest_of_trace(alloc, trace, most)? {
        return Ok(Judged::Whole(digest));
    }
    let (gate, stop) = ask_all(alloc, trace)?;
    match stop {
        None => Ok(Judged::Whole(Digest::of(alloc, gate.history(), most)?)),
        Some(stop) => {
            let told = explain_kept_stop(alloc, manner, source, trace, &gate, stop)?;
            Ok(Judged::Stopped(told))
        }
    }
}

/// What is told of a trace that a text means, and the exit status. Of a text for a person more than a count is kept only where something is
/// refused or illegal.
fn explain_trace(
    alloc: Global,
    manner: &Manner<'_>,
    source: &KeptText,
    trace: &Trace<Global>,
) -> Result<(Vec<u8>, u8), CliFault>
    requires { KeepsTrace source.now (trace_contents trace.now) }
    ensures ok { IfOk result (λ told. IsTraceTold manner.now (text_of source.now) told.0.items told.1 ⊎ IsUnjudgedTold manner.now (text_of source.now) told.0.items told.1) }
    ensures fault { IfErr result (λ fault. (fault ≡ CliFault.Memory) ⊎ StopsGate (trace_contents trace.now) fault) }
{
    if let Rendering::Text = manner.rendering {
        if let Some(count) = clean_count(alloc, trace)? {
            let told = explain_clean_trace(alloc, source, trace, count)?;
            return Ok((told, 0));
        }
    }
    match judge_trace(alloc, manner, source, trace)? {
        Judged::Whole(digest) => Ok(explain_judged(alloc, manner, source, trace, &digest)?),
        Judged::Stopped(told) => Ok((told, 2)),
    }
}

/// What is told of a text that stands as a whole and is to mean a trace, and the exit status.
fn explain_whole_text(
    alloc: Global,
    manner: &Manner<'_>,
    source: &KeptText,
    text: &[u8],
) -> Result<(Vec<u8>, u8), CliFault>
    requires whole { text_of source.now ≡ text.now }
    requires kept { IsKept source.now }
    ensures ok { IfOk result (λ told. IsTraceTold manner.now text.now told.0.items told.1 ⊎ IsUnjudgedTold manner.now text.now told.0.items told.1) }
    ensures fault { IfErr result (λ fault. (fault ≡ CliFault.Memory) ⊎ IsUntoldTrace text.now fault) }
{
    match Trace::parse(alloc, text) {
        Ok(trace) => explain_trace(alloc, manner, source, &trace),
        Err(TextFault::Memory) => Err(CliFault::Memory),
        Err(TextFault::At { line, why }) => {
            let told = tell_faults(alloc, manner, text, Meant::Trace, Fault { line, why })?;
            Ok((told, 2))
        }
    }
}

/// What is told of a text that is to mean a trace, and the exit status: the races of the trace, its first illegal request, or its
/// faults.
pub(crate) fn explain_trace_text(
    alloc: Global,
    manner: &Manner<'_>,
    source: &KeptText,
) -> Result<(Vec<u8>, u8), CliFault>
    requires { IsKept source.now }
    ensures ok { IfOk result (λ told. IsTraceTold manner.now (text_of source.now) told.0.items told.1 ⊎ IsUnjudgedTold manner.now (text_of source.now) told.0.items told.1) }
    ensures fault { IfErr result (λ fault. (fault ≡ CliFault.Memory) ⊎ IsUntoldTrace (text_of source.now) fault) }
{
    match source {
        KeptText::Whole(text) => explain_whole_text(alloc, manner, source, text.as_slice()),
        KeptText::Plain(kept) => explain_trace(alloc, manner, source, &kept.trace),
    }
}
