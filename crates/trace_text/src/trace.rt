//! A trace from its text.

ghost use Rattle.std.specs.Prelude.{◌≡◌, ◌≢◌, ◌<◌, ◌≤◌, ◌+◌, ◌∷◌, ℕ, List, [], length, codes, IsTrue, IfOk, OnErr, map, MatchOption, MatchResult};
ghost use Rattle.std.specs.List.{All};
ghost use Rattle.model_accesses.specs.Limits.{most_cells};
ghost use Rattle.model_reducers.specs.Limits.{most_reducers};
ghost use Rattle.text_words.specs.Limits.{most_requests, most_lines};
ghost use Rattle.trace_text.specs.Shapes.{is_numbered, IsWithin};
ghost use Rattle.text_words.specs.Text.{lines, words, IsTextLine};
ghost use Rattle.text_words.specs.Declarations.{cells_of};
ghost use Rattle.text_words.specs.declared.value.Version.{Version as SpecVersion};
ghost use Rattle.text_words.specs.Values.{version_spelling};
ghost use Rattle.trace_text.specs.Grammar.{Declared, Reduces, Asked, ItemMeans};
ghost use Rattle.trace_text.specs.Grammar.{LinesMean, TextMeans, nothing, IsHeader};
ghost use Rattle.trace_text.specs.Items.{item_of};
ghost use Rattle.trace_text.specs.Drafts.{so_far, AddsItem, IsRoomFault, IsLineFault, IsHeaderFault};
ghost use Rattle.trace_text.specs.Drafts.{IsLinesFault, IsBodyFault, IsTextFault, IsTaken, IsStopped, SaysSo};

use crate::line::{Item, read_line};
use crate::place::CELLS;
use packed_trace::TraceLines;
use std::alloc::{AllocError, Allocator};
use text_words::{
    Cause, Mem, Mems, Monoid, Monoids, Names, Reducer, Reducers, Shape, TextFault, TraceLine,
    Version, Words, as_text, split_line, without_return,
};

/// The most lines of a text.
pub const LINES: u32 = 4_000_000;
/// The most requests of a trace.
pub const REQUESTS: usize = 2_000_000;
/// The most reducers of a text.
pub const REDUCERS: usize = 256;

/// What was read so far.
pub(crate) struct Draft<'a, A: Allocator> {
    pub(crate) names: Names<'a, A>,
    pub(crate) lines: TraceLines<A>,
    /// Whether there was no memory for the request at which the last reading of plain lines ended, so that it is not asked for again.
    pub(crate) lacks_memory: bool,
}

/// Written out, so that what lets it go calls one function.
impl<'a, A: Allocator> Drop for Draft<'a, A> {
    fn drop(self) {
        let Draft {
            names: _,
            lines: _,
            lacks_memory: _,
        } = self;
    }
}

fn fault(line: u32, why: Cause) -> TextFault
    ensures { result ≡ TextFault.At line why }
{
    TextFault::At { line, why }
}

impl<'a, A: Allocator + Copy> Draft<'a, A> {
    /// The declarations and the requests.
    fn into_parts(self) -> (Names<'a, A>, TraceLines<A>)
        ensures { (result.0 ≡ self.entry.names) × (result.1 ≡ self.entry.lines) }
    {
        let Draft {
            names,
            lines,
            lacks_memory: _,
        } = self;
        (names, lines)
    }

    /// Adds a memory.
    fn declare(&mut self, at: u32, name: &'a str, length: Option<u32>) -> Result<(), TextFault>
        requires { SaysSo at self.old.names (Declared name.now length) }
        ensures { MatchResult result
            (λ _. AddsItem at (so_far self.old.names self.old.lines) (Declared name.now length) (so_far self.new.names self.new.lines))
            (IsRoomFault at (so_far self.old.names self.old.lines) (Declared name.now length)) }
    {
        if !self.lines.is_empty() {
            return Err(fault(at, Cause::BadNesting));
        }
        if at > LINES || u64::from(self.names.cells()) + u64::from(length.unwrap_or(1)) > CELLS {
            return Err(fault(at, Cause::TooMany));
        }
        match self.names.add_memory(at, name, length) {
            Ok(()) => Ok(()),
            Err(_) => Err(TextFault::Memory),
        }
    }

    /// Adds a reducer.
    fn reduce(&mut self, at: u32, name: &'a str, monoid: Monoid) -> Result<(), TextFault>
        requires { SaysSo at self.old.names (Reduces name.now monoid) }
        ensures { MatchResult result
            (λ _. AddsItem at (so_far self.old.names self.old.lines) (Reduces name.now monoid) (so_far self.new.names self.new.lines))
            (IsRoomFault at (so_far self.old.names self.old.lines) (Reduces name.now monoid)) }
    {
        if !self.lines.is_empty() {
            return Err(fault(at, Cause::BadNesting));
        }
        if at > LINES || self.names.reducer_count() >= REDUCERS {
            return Err(fault(at, Cause::TooMany));
        }
        match self.names.add_reducer(at, name, monoid) {
            Ok(()) => Ok(()),
            Err(_) => Err(TextFault::Memory),
        }
    }

    /// Adds a request.
    #[inline(always)]
    pub(crate) fn ask(&mut self, at: u32, line: TraceLine) -> Result<(), TextFault>
        ensures unchanged { OnErr result (so_far self.new.names self.new.lines ≡ so_far self.old.names self.old.lines) }
        ensures asked { MatchResult result
            (λ _. AddsItem at (so_far self.old.names self.old.lines) (Asked line) (so_far self.new.names self.new.lines))
            (IsRoomFault at (so_far self.old.names self.old.lines) (Asked line)) }
    {
        if at > LINES || self.lines.len() >= REQUESTS {
            return Err(fault(at, Cause::TooMany));
        }
        match self.lines.push(line) {
            Ok(()) => Ok(()),
            Err(_) => Err(TextFault::Memory),
        }
    }

    /// Adds what the line with the number `at` says.
    fn add(&mut self, at: u32, item: Item<'a>) -> Result<(), TextFault>
        requires { SaysSo at self.old.names (item_of item) }
        ensures { MatchResult result
            (λ _. AddsItem at (so_far self.old.names self.old.lines) (item_of item.entry) (so_far self.new.names self.new.lines))
            (IsRoomFault at (so_far self.old.names self.old.lines) (item_of item.entry)) }
    {
        match item {
            Item::Blank => {
                if at > LINES {
                    Err(fault(at, Cause::TooMany))
                } else {
                    Ok(())
                }
            }
            Item::Declared { name, length } => self.declare(at, name, length),
            Item::Reduces { name, monoid } => self.reduce(at, name, monoid),
            Item::Asked(line) => self.ask(at, line),
        }
    }

    /// Adds what the line with the number `at` says, behind a request.
    fn add_behind(&mut self, at: u32, item: Item<'_>) -> Result<(), TextFault>
        requires some { self.old.lines ≢ [] }
        ensures { MatchResult result
            (λ _. AddsItem at (so_far self.old.names self.old.lines) (item_of item.entry) (so_far self.new.names self.new.lines))
            (IsRoomFault at (so_far self.old.names self.old.lines) (item_of item.entry)) }
    {
        match item {
            Item::Blank => {
                if at > LINES {
                    Err(fault(at, Cause::TooMany))
                } else {
                    Ok(())
                }
            }
            Item::Declared { name: _, length: _ } => Err(fault(at, Cause::BadNesting)),
            Item::Reduces { name: _, monoid: _ } => Err(fault(at, Cause::BadNesting)),
            Item::Asked(line) => self.ask(at, line),
        }
    }

    /// What the line with the number `at` says, in its place or not.
    fn read_item<'b>(&self, at: u32, line: &'b [u8]) -> Result<Item<'b>, TextFault>
        ensures { MatchResult result
            (λ item. IsTextLine line.now × ItemMeans at self.now.names (words line.now) (item_of item))
            (IsLineFault at (so_far self.now.names self.now.lines) line.now) }
    {
        let Some(text) = as_text(line) else {
            return Err(fault(at, Cause::NotText));
        };
        match read_line(at, &self.names, &mut Words::of_line(text)) {
            Ok(item) => Ok(item),
            Err(why) => Err(fault(at, why)),
        }
    }

    /// Reads the first line of the text, which has the number `at`, and gives what stands behind it, or the fault of the line.
    fn take_first(&mut self, at: u32, text: &'a [u8]) -> (&'a [u8], Option<TextFault>)
        requires { 0 < length text.now }
        ensures { MatchOption result.1
            (IsTaken at (so_far self.old.names self.old.lines) text.now result.0.now (so_far self.new.names self.new.lines))
            (IsStopped at (so_far self.old.names self.old.lines) text.now) }
    {
        let (line, rest) = split_line(text);
        let item = match self.read_item(at, without_return(line)) {
            Ok(item) => item,
            Err(fault) => return (rest, Some(fault)),
        };
        match self.add(at, item) {
            Ok(()) => (rest, None),
            Err(fault) => (rest, Some(fault)),
        }
    }

    /// The same behind a request, where a name that the line declares need not last.
    #[inline(never)]
    fn take_other<'b>(&mut self, at: u32, text: &'b [u8]) -> (&'b [u8], Option<TextFault>)
        requires text { 0 < length text.now }
        requires some { self.old.lines ≢ [] }
        ensures { MatchOption result.1
            (IsTaken at (so_far self.old.names self.old.lines) text.now result.0.now (so_far self.new.names self.new.lines))
            (IsStopped at (so_far self.old.names self.old.lines) text.now) }
    {
        let (line, rest) = split_line(text);
        let item = match self.read_item(at, without_return(line)) {
            Ok(item) => item,
            Err(fault) => return (rest, Some(fault)),
        };
        match self.add_behind(at, item) {
            Ok(()) => (rest, None),
            Err(fault) => (rest, Some(fault)),
        }
    }

    /// Reads the lines of a text that stands behind a request and the line with the number `at`. It gives the number of the last line.
    pub(crate) fn take_lines(&mut self, at: u32, text: &[u8]) -> Result<u32, TextFault>
        requires few { at ≤ most_lines }
        requires some { self.old.lines ≢ [] }
        ensures { MatchResult result
            (λ last. LinesMean (at + 1) (so_far self.old.names self.old.lines) (lines text.now) (so_far self.new.names self.new.lines)
            × (last ≡ at + length (lines text.now)) × (last ≤ most_lines) × (self.new.lines ≢ []))
            (IsLinesFault (at + 1) (so_far self.old.names self.old.lines) (lines text.now)) }
    {
        let mut rest = text;
        let mut last = at;
        while !rest.is_empty() {
            let (behind, number) = self.take_plain_lines(last, rest);
            if self.lacks_memory {
                return Err(TextFault::Memory);
            }
            last = number;
            rest = behind;
            if !rest.is_empty() {
                last += 1;
                let (after, fault) = self.take_other(last, rest);
                if let Some(fault) = fault {
                    return Err(fault);
                }
                rest = after;
            }
        }
        Ok(last)
    }

    /// Reads the lines of a text that stand behind its first line. It gives the number of the last line.
    fn take_body(&mut self, text: &'a [u8]) -> Result<u32, TextFault>
        ensures { MatchResult result
            (λ last. LinesMean 2 (so_far self.old.names self.old.lines) (lines text.now) (so_far self.new.names self.new.lines)
            × (last ≡ 1 + length (lines text.now)) × (last ≤ most_lines))
            (IsLinesFault 2 (so_far self.old.names self.old.lines) (lines text.now)) }
    {
        let mut rest = text;
        let mut at = 1;
        while !rest.is_empty() {
            if !self.lines.is_empty() {
                return self.take_lines(at, rest);
            }
            at += 1;
            let (after, fault) = self.take_first(at, rest);
            if let Some(fault) = fault {
                return Err(fault);
            }
            rest = after;
        }
        Ok(at)
    }
}

/// The version that the words of the first line name.
fn version_named(words: &mut Words<'_>) -> Option<Version>
    ensures { MatchOption result
        ((version : SpecVersion) → words.old ≢ codes "cilk" ∷ version_spelling version ∷ [])
        (λ version. words.old ≡ codes "cilk" ∷ version_spelling version ∷ []) }
{
    let Some("cilk") = words.take() else {
        return None;
    };
    let version = match words.take() {
        Some("1") => Version::One,
        Some("2") => Version::Two,
        _ => return None,
    };
    match words.take() {
        None => Some(version),
        Some(_) => None,
    }
}

/// Reads the first line.
pub fn read_header(line: &[u8]) -> Result<Version, TextFault>
    ensures { MatchResult result (IsHeader line.now) (IsHeaderFault line.now) }
{
    let Some(text) = as_text(line) else {
        return Err(fault(1, Cause::NotText));
    };
    match version_named(&mut Words::of_line(text)) {
        Some(version) => Ok(version),
        None => Err(fault(1, Cause::BadHeader)),
    }
}

/// Reads the lines behind the first. It gives the number of the last line too.
fn read_body<'a, A: Allocator + Copy>(
    alloc: A,
    version: Version,
    text: &'a [u8],
) -> Result<(Draft<'a, A>, u32), TextFault>
    ensures { MatchResult result
        (λ r. LinesMean 2 (nothing version) (lines text.now) (so_far r.0.names r.0.lines)
        × (r.1 ≡ 1 + length (lines text.now)) × (r.1 ≤ most_lines))
        (IsBodyFault version text.now) }
{
    let mut draft = Draft {
        names: Names::new(alloc, version),
        lines: TraceLines::new(alloc),
        lacks_memory: false,
    };
    match draft.take_body(text) {
        Ok(last) => Ok((draft, last)),
        Err(fault) => Err(fault),
    }
}

/// Reads a text. It gives the number of its last line too.
pub(crate) fn read_whole<'a, A: Allocator + Copy>(
    alloc: A,
    bytes: &'a [u8],
) -> Result<(Draft<'a, A>, u32), TextFault>
    ensures { MatchResult result
        (λ r. TextMeans bytes.now (so_far r.0.names r.0.lines) × (r.1 ≡ length (lines bytes.now)) × (r.1 ≤ most_lines))
        (IsTextFault bytes.now) }
{
    if bytes.is_empty() {
        return Err(fault(1, Cause::BadHeader));
    }
    let (first, rest) = split_line(bytes);
    let version = match read_header(without_return(first)) {
        Ok(version) => version,
        Err(fault) => return Err(fault),
    };
    read_body(alloc, version, rest)
}

/// How many cells the memories have.
fn cells_in(mems: &[Mem]) -> u32
    requires few { cells_of mems.now ≤ most_cells }
    ensures { result ≡ cells_of mems.now }
{
    let mut cells = 0;
    for mem in mems {
        cells += mem.cells;
    }
    cells
}

/// The monoids of the reducers.
fn monoids_of<A: Allocator>(alloc: A, reducers: &[Reducer]) -> Result<Monoids<A>, AllocError>
    ensures { IfOk result (λ monoids. monoids ≡ map (λ reducer. reducer.monoid) reducers.now) }
{
    let mut monoids = Vec::new(alloc);
    for reducer in reducers {
        monoids.push(reducer.monoid)?;
    }
    Ok(Monoids::new(monoids))
}

/// The meaning of a text, made by [`Trace::parse`] and [`BegunTrace::end`] alone. Some text means it, its cells are numbered without a gap, and its requests
/// name cells and reducers that there are.
pub struct Trace<A: Allocator> {
    /// The version that the first line names.
    pub version: Version,
    /// The declared memories.
    pub mems: Mems<A>,
    /// The declared reducers.
    pub reducers: Reducers<A>,
    /// The requests.
    pub lines: TraceLines<A>,
    ghost meant: { ∥ ((text : List ℕ)
        × TextMeans text (record { known = record { version = version; mems = mems; reducers = reducers }; lines = lines })) ∥₁ },
    ghost numbered: { IsTrue (is_numbered 0 mems) },
    ghost few_cells: { cells_of mems ≤ most_cells },
    ghost few_reducers: { length reducers ≤ most_reducers },
    ghost few_lines: { length lines ≤ most_requests },
    ghost within: { All (IsWithin (cells_of mems) (length reducers)) lines },
}

/// Written out, so that what lets a trace go calls one function.
impl<A: Allocator> Drop for Trace<A> {
    fn drop(self) {
        let Trace {
            version: _,
            mems: _,
            reducers: _,
            lines: _,
        } = self;
    }
}

/// How many cells these memories have, and the monoids of these reducers.
pub fn shape_of<A: Allocator>(
    alloc: A,
    mems: &[Mem],
    reducers: &[Reducer],
) -> Result<Shape<A>, AllocError>
    requires few { cells_of mems.now ≤ most_cells }
    ensures cells { IfOk result (λ shape. shape.cells ≡ cells_of mems.now) }
    ensures monoids { IfOk result (λ shape. shape.monoids ≡ map (λ reducer. reducer.monoid) reducers.now) }
{
    let cells = cells_in(mems);
    match monoids_of(alloc, reducers) {
        Ok(monoids) => Ok(Shape { cells, monoids }),
        Err(error) => Err(error),
    }
}

impl<A: Allocator + Copy> Trace<A> {
    ghost use Rattle.trace_text.specs.Traces.{contents};

    /// The trace that was read.
    pub(crate) fn of_draft(draft: Draft<'_, A>) -> Trace<A>
        requires { (text : List ℕ) × TextMeans text (so_far draft.names draft.lines) }
        ensures { contents result ≡ so_far draft.entry.names draft.entry.lines }
    {
        let (names, lines) = draft.into_parts();
        let (version, mems, reducers) = names.into_parts();
        Trace {
            version,
            mems: Mems::new(mems),
            reducers: Reducers::new(reducers),
            lines,
        }
    }

    /// The trace that the bytes mean. Otherwise it answers the first faulty line with the lowest cause in it, or
    /// [`TextFault::Memory`] where a growth was refused.
    pub fn parse(alloc: A, bytes: &[u8]) -> Result<Trace<A>, TextFault>
        ensures { MatchResult result (λ trace. TextMeans bytes.now (contents trace)) (IsTextFault bytes.now) }
    {
        match read_whole(alloc, bytes) {
            Ok((draft, _)) => Ok(Trace::of_draft(draft)),
            Err(fault) => Err(fault),
        }
    }

    /// How many cells the trace declares, and the monoids of its reducers.
    pub fn shape<B: Allocator>(&self, alloc: B) -> Result<Shape<B>, AllocError>
        ensures cells { IfOk result (λ shape. shape.cells ≡ cells_of self.now.mems) }
        ensures monoids { IfOk result (λ shape. shape.monoids ≡ map (λ reducer. reducer.monoid) self.now.reducers) }
    {
        shape_of(alloc, self.mems.as_slice(), self.reducers.as_slice())
    }
}
