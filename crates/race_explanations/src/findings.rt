//! What is found in several traces, told together.

ghost use Rattle.std.specs.Prelude.{◌≡◌, ◌++◌, ◌==◌, List, IfOk, OnOk, length, take};
ghost use Rattle.model_histories.specs.declared.answer.Entry.{Entry};
ghost use Rattle.race_pairs.specs.Digests.{IsDigest, most_of};
ghost use Rattle.trace_text.specs.Traces.{contents as trace_contents};
ghost use Rattle.text_buffers.specs.Builders.{Adds};
ghost use Rattle.race_explanations.specs.Explained.{trace_setting};
ghost use Rattle.race_explanations.specs.Extents.{most_pairs};
ghost use Rattle.race_explanations.specs.Findings.{found_of, nothing_found, untold_in, AddsTrace};
ghost use Rattle.race_explanations.specs.Findings.{requests_text, at_pairs, found_summary, clean_found_text, races_found_text, found_text};

use crate::extent::{Extent, most_pairs, most_shown, push_more_pairs};
use crate::finding::add_pairs;
use crate::found_told::tell_groups;
use crate::merge::FindingList;
use crate::settings::trace_scene;
use race_pairs::Digest;
use source_quotes::push_count;
use std::alloc::{AllocError, Global};
use text_buffers::TextBuilder;
use trace_notes::Notes;
use trace_text::Trace;

/// What is found in several traces: pairs of places that raced, each of those that are told alike once. Neither the traces nor their
/// entries are kept.
pub struct Findings {
    list: FindingList,
    /// Which traces had more pairs than are kept.
    untold: Vec<u8>,
    refusals: usize,
    requests: usize,
    traces: usize,
}

/// Written out, so that what lets it go calls one function.
impl Drop for Findings {
    fn drop(self) {
        let Findings {
            list: _,
            untold: _,
            refusals: _,
            requests: _,
            traces: _,
        } = self;
    }
}

/// Adds how many pairs of a trace are not kept.
fn push_untold(
    untold: &mut Vec<u8>,
    alloc: Global,
    file: &str,
    most: usize,
    count: usize,
) -> Result<(), AllocError>
    ensures { OnOk result (untold.new.items ≡ untold.old.items ++ untold_in file.now most count) }
{
    if count <= most {
        return Ok(());
    }
    let mut text = TextBuilder::new(alloc);
    text.push_words("and ");
    push_count(&mut text, count - most, "more pair");
    text.push_words(" of places in ");
    text.push_words(file);
    text.push_words("\n");
    let line = text.end()?;
    untold.extend_from_slice(line.as_slice())
}

/// Tells at how many pairs, where all are kept.
fn tell_pairs(text: &mut TextBuilder, untold: &[u8], count: usize)
    ensures { Adds text.old (at_pairs untold.now count) text.new }
{
    if !untold.is_empty() {
        return;
    }
    text.push_words(" at ");
    push_count(text, count, "pair");
    text.push_words(" of places");
}

impl Findings {
    /// Nothing is found.
    pub fn new(alloc: Global) -> Findings
        ensures { found_of result ≡ nothing_found }
    {
        Findings {
            list: FindingList::new(alloc),
            untold: Vec::new(alloc),
            refusals: 0,
            requests: 0,
            traces: 0,
        }
    }

    /// Adds what is found in a trace, of whose entries this is the digest: as many of its first pairs of places as the digest keeps, which is
    /// what the extent wants. Errors where there is no memory.
    pub fn add<'s>(
        &mut self,
        alloc: Global,
        is_painted: bool,
        extent: Extent,
        file: &str,
        notes: &'s Notes,
        trace: &'s Trace<Global>,
        digest: &'s Digest,
    ) -> Result<(), AllocError>
        requires digest { (entries : List Entry) × IsDigest entries digest.now }
        requires most { most_of digest.now ≡ most_pairs extent }
        ensures { OnOk result ((entries : List Entry) → IsDigest entries digest.now →
            AddsTrace extent file.now (trace_setting is_painted notes.now (trace_contents trace.now).known entries) entries (found_of self.old) (found_of self.new)) }
    {
        let scene = trace_scene(is_painted, notes, trace, digest);
        let count = add_pairs(alloc, &scene, self.traces, &mut self.list)?;
        push_untold(&mut self.untold, alloc, file, most_pairs(extent), count)?;
        self.refusals = self.refusals.saturating_add(digest.refusals);
        self.requests = self.requests.saturating_add(digest.lines.len());
        self.traces = self.traces.saturating_add(1);
        Ok(())
    }

    /// Whether nothing was refused.
    pub fn is_clean(&self) -> bool
        ensures { result ≡ ((found_of self.now).refusals == 0) }
    {
        self.refusals == 0
    }

    /// Tells how many requests there were, in how many traces.
    fn tell_requests(&self, text: &mut TextBuilder)
        ensures { Adds text.old (requests_text (found_of self.now)) text.new }
    {
        push_count(text, self.requests, "request");
        text.push_words(" in ");
        push_count(text, self.traces, "trace");
        text.push_words("\n");
    }

    /// Tells that nothing was refused.
    fn tell_clean(&self, text: &mut TextBuilder)
        ensures { Adds text.old (clean_found_text (found_of self.now)) text.new }
    {
        text.push_words("clean: in none of these ");
        push_count(text, self.traces, "trace");
        text.push_words(
            " do two of the accesses race, in whatever order its strands run\njudged: ",
        );
        self.tell_requests(text);
    }

    /// Tells how many refusals there were.
    fn tell_summary(&self, text: &mut TextBuilder)
        ensures { Adds text.old (found_summary (found_of self.now)) text.new }
    {
        push_count(text, self.refusals, "refusal");
        tell_pairs(text, self.untold.as_slice(), self.list.len());
        text.push_words(", among ");
        self.tell_requests(text);
    }

    /// Tells what raced.
    fn tell_races(&self, alloc: Global, extent: Extent, text: &mut TextBuilder)
        ensures { Adds text.old (races_found_text extent (found_of self.now)) text.new }
    {
        let most = most_pairs(extent);
        let (first, _) = self.list.as_slice().split_at(self.list.len().min(most));
        tell_groups(alloc, text, first, most_shown(extent));
        push_more_pairs(text, most, self.list.len(), " of places", "\n");
        text.push_bytes(self.untold.as_slice());
        self.tell_summary(text);
    }

    /// Tells what raced, or that nothing was refused.
    fn tell(&self, alloc: Global, extent: Extent, text: &mut TextBuilder)
        ensures { Adds text.old (found_text extent (found_of self.now)) text.new }
    {
        if self.is_clean() {
            self.tell_clean(text);
        } else {
            self.tell_races(alloc, extent, text);
        }
    }

    /// What is told of all traces: each of the first pairs of places, with the counts of all that are told alike, in groups of those that part at
    /// spawns that are told alike, as those of one trace; how many more there are, and how many refusals; or that nothing was refused.
    /// Errors where there is no memory.
    pub fn to_message(&self, alloc: Global, extent: Extent) -> Result<Vec<u8>, AllocError>
        ensures { IfOk result (λ text. text.items ≡ found_text extent (found_of self.now)) }
    {
        let mut text = TextBuilder::new(alloc);
        self.tell(alloc, extent, &mut text);
        text.end()
    }
}
