//! Explaining several traces together.

ghost use Rattle.std.specs.Prelude.{◌≡◌, ◌↔◌, ◌⊎◌, ◌==◌, [], true, false, IfOk, IfErr, OnOk, IsErrOf, IsTrue, List, ℕ, map, string_bytes};
ghost use Rattle.std.specs.List.{list_any};
ghost use Rattle.std.specs.Str.{bytes_eq};
ghost use Rattle.trace_text.specs.Traces.{contents as trace_contents};
ghost use Rattle.trace_notes.specs.Notes.{kept_runs};
ghost use Rattle.command_streams.specs.Watched.{held, has_failed};
ghost use Rattle.command_streams.specs.Readings.{reading};
ghost use Rattle.command_streams.specs.KeptTexts.{text_of, IsKept, KeepsTrace};
ghost use Rattle.tool_commands.specs.Digested.{IsDigested};
ghost use Rattle.tool_commands.specs.Replays.{StopsGate};
ghost use Rattle.tool_commands.specs.Explanations.{IsUntoldTrace};
ghost use Rattle.tool_commands.specs.Together.{together_of, none_together, with_runs, together_status, AddsFound, TellsTogether};
ghost use Rattle.model_histories.specs.declared.answer.Entry.{Entry};
ghost use Rattle.race_pairs.specs.Digests.{IsDigest, most_of};
ghost use Rattle.race_explanations.specs.Extents.{most_pairs};
ghost use Rattle.tool_commands.specs.Together.{AddsText, TakesText, TakesReading, StopsTaking};

use crate::explain::{Manner, Rendering, tell_faults};
use crate::explain_trace::{Judged, judge_trace, notes_of_kept, push_recorded};
use command_streams::{CliFault, KeptText, Watched, read_kept};
use fault_lists::Fault;
use race_explanations::{Extent, Findings, most_pairs};
use race_pairs::Digest;
use race_records::Records;
use source_quotes::Meant;
use std::alloc::{AllocError, Global};
use std::io::Read;
use text_words::TextFault;
use trace_notes::Notes;
use trace_text::Trace;

/// What is found in several traces, and what was recorded. The traces are not kept.
pub struct Traces {
    /// What is found where text is told.
    findings: Findings,
    /// What is found where a record is told.
    records: Records,
    runs: Vec<String>,
}

/// Written out, so that what lets it go calls one function.
impl Drop for Traces {
    fn drop(self) {
        let Traces {
            findings: _,
            records: _,
            runs: _,
        } = self;
    }
}

/// Whether a kept run is this one.
fn is_run(one: &String, run: &str) -> bool
    ensures { result ≡ bytes_eq run.now (string_bytes one.now) }
{
    run == one.as_str()
}

/// Whether a run is among others.
fn is_among(runs: &[String], run: &str) -> bool
    ensures { result ≡ list_any (bytes_eq run.now) (map string_bytes runs.now) }
{
    for one in runs {
        if is_run(one, run) {
            return true;
        }
    }
    false
}

/// Keeps what was recorded by some notes, each run once.
fn keep_runs(alloc: Global, runs: &mut Vec<String>, notes: &Notes) -> Result<(), AllocError>
    ensures { OnOk result (map string_bytes runs.new.items ≡ with_runs (map string_bytes runs.old.items) (kept_runs notes.now)) }
{
    for run in notes.runs() {
        if !is_among(runs.as_slice(), run.as_str()) {
            runs.push(String::from_str(alloc, run.as_str())?)?;
        }
    }
    Ok(())
}

impl Traces {
    /// No trace yet.
    pub fn new(alloc: Global) -> Traces
        ensures { together_of result ≡ none_together }
    {
        Traces {
            findings: Findings::new(alloc),
            records: Records::new(alloc),
            runs: Vec::new(alloc),
        }
    }

    /// Adds what is found in a trace with these notes, of whose entries this is the digest.
    fn add_entries(
        &mut self,
        alloc: Global,
        manner: &Manner<'_>,
        notes: &Notes,
        trace: &Trace<Global>,
        digest: &Digest,
    ) -> Result<(), AllocError>
        requires digest { (entries : List Entry) × IsDigest entries digest.now }
        requires most { most_of digest.now ≡ most_pairs manner.now.extent }
        ensures found { OnOk result ((entries : List Entry) → IsDigest entries digest.now →
            AddsFound manner.now notes.now (trace_contents trace.now) entries (together_of self.old) (together_of self.new)) }
        ensures runs { (together_of self.new).runs ≡ (together_of self.old).runs }
    {
        match manner.rendering {
            Rendering::Text => self.findings.add(
                alloc,
                manner.is_painted,
                manner.extent,
                manner.file,
                notes,
                trace,
                digest,
            ),
            Rendering::Record(_) => self
                .records
                .add(alloc, manner.extent, manner.file, notes, trace, digest),
        }
    }

    /// Adds a trace that a text means and whose requests a gate answered.
    fn add(
        &mut self,
        alloc: Global,
        manner: &Manner<'_>,
        source: &KeptText,
        trace: &Trace<Global>,
        digest: &Digest,
    ) -> Result<(), AllocError>
        requires means { KeepsTrace source.now (trace_contents trace.now) }
        requires digested { IsDigested (trace_contents trace.now) digest.now }
        requires most { most_of digest.now ≡ most_pairs manner.now.extent }
        ensures { OnOk result (AddsText manner.now (text_of source.now) (together_of self.old) (together_of self.new)) }
    {
        let notes = notes_of_kept(alloc, source)?;
        self.add_entries(alloc, manner, &notes, trace, digest)?;
        keep_runs(alloc, &mut self.runs, &notes)?;
        Ok(())
    }

    /// Adds a trace that a text means, or tells its first illegal request.
    fn take_trace(
        &mut self,
        alloc: Global,
        manner: &Manner<'_>,
        source: &KeptText,
        trace: &Trace<Global>,
    ) -> Result<Option<Vec<u8>>, CliFault>
        requires { KeepsTrace source.now (trace_contents trace.now) }
        ensures ok { IfOk result (TakesText manner.now (text_of source.now) (together_of self.old) (together_of self.new)) }
        ensures fault { IfErr result (λ fault. (fault ≡ CliFault.Memory) ⊎ StopsGate (trace_contents trace.now) fault) }
    {
        match judge_trace(alloc, manner, source, trace)? {
            Judged::Whole(digest) => {
                self.add(alloc, manner, source, trace, &digest)?;
                Ok(None)
            }
            Judged::Stopped(told) => Ok(Some(told)),
        }
    }

    /// Adds the trace that a text means which stands as a whole, or tells its first illegal request, or the faults of a text that means none.
    fn take_whole(
        &mut self,
        alloc: Global,
        manner: &Manner<'_>,
        source: &KeptText,
        text: &[u8],
    ) -> Result<Option<Vec<u8>>, CliFault>
        requires whole { text_of source.now ≡ text.now }
        requires kept { IsKept source.now }
        ensures ok { IfOk result (TakesText manner.now text.now (together_of self.old) (together_of self.new)) }
        ensures fault { IfErr result (λ fault. (fault ≡ CliFault.Memory) ⊎ IsUntoldTrace text.now fault) }
    {
        match Trace::parse(alloc, text) {
            Ok(trace) => self.take_trace(alloc, manner, source, &trace),
            Err(TextFault::Memory) => Err(CliFault::Memory),
            Err(TextFault::At { line, why }) => Ok(Some(tell_faults(
                alloc,
                manner,
                text,
                Meant::Trace,
                Fault { line, why },
            )?)),
        }
    }

    /// Adds the trace that a text means, or tells its first illegal request, or the faults of a text that means none.
    fn take_text(
        &mut self,
        alloc: Global,
        manner: &Manner<'_>,
        source: &KeptText,
    ) -> Result<Option<Vec<u8>>, CliFault>
        requires { IsKept source.now }
        ensures ok { IfOk result (TakesText manner.now (text_of source.now) (together_of self.old) (together_of self.new)) }
        ensures fault { IfErr result (λ fault. (fault ≡ CliFault.Memory) ⊎ IsUntoldTrace (text_of source.now) fault) }
    {
        match source {
            KeptText::Whole(text) => self.take_whole(alloc, manner, source, text.as_slice()),
            KeptText::Plain(kept) => self.take_trace(alloc, manner, source, &kept.trace),
        }
    }

    /// Reads a text to its end, and adds the trace that it means, by the name of its file. What is told of an illegal request, or of the
    /// faults of a text that means no trace, is the answer then.
    ///
    /// It answers [`CliFault::Read`] exactly where the reader has failed, [`CliFault::TooLong`] for more than 67,108,864 bytes,
    /// [`CliFault::Limit`] for more than 1,000,000 requests, and [`CliFault::Memory`] where a growth was refused.
    pub fn read<T: Read>(
        &mut self,
        alloc: Global,
        manner: &Manner<'_>,
        trace: &mut Watched<T>,
    ) -> Result<Option<Vec<u8>>, CliFault>
        requires { has_failed trace.old ≡ false }
        ensures ok { IfOk result (TakesReading manner.now (reading (T.remaining (held trace.old)) (T.remaining (held trace.new))) (together_of self.old) (together_of self.new)) }
        ensures fault { IfErr result (StopsTaking (reading (T.remaining (held trace.old)) (T.remaining (held trace.new)))) }
        ensures read_failed { IsErrOf result CliFault.Read ↔ IsTrue (has_failed trace.new) }
        ensures not_write { IsErrOf result CliFault.Write → ⊥ }
    {
        let source = read_kept(alloc, trace)?;
        self.take_text(alloc, manner, &source)
    }

    /// The exit status: 0 where nothing was refused, else 1.
    pub fn status(&self) -> u8
        ensures { result ≡ together_status (together_of self.now) }
    {
        if self.findings.is_clean() && self.records.is_clean() {
            0
        } else {
            1
        }
    }

    /// What is told of the traces together: each pair of places that raced, or that nothing was refused, and what was recorded.
    pub fn to_message(
        &self,
        alloc: Global,
        extent: Extent,
        rendering: Rendering,
    ) -> Result<Vec<u8>, AllocError>
        ensures { IfOk result (λ told. TellsTogether rendering extent (together_of self.now) told.items) }
    {
        match rendering {
            Rendering::Text => {
                let mut told = self.findings.to_message(alloc, extent)?;
                push_recorded(&mut told, self.runs.as_slice())?;
                Ok(told)
            }
            Rendering::Record(form) => {
                self.records
                    .record(alloc, form, extent, self.runs.as_slice())
            }
        }
    }
}
