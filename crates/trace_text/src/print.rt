//! A trace as text.

ghost use Rattle.std.specs.Prelude.{◌≡◌, ◌++◌, ◌∷◌, ◌+◌, ◌-◌, ◌<◌, ◌≤◌, ℕ, [], List, OnOk};
ghost use Rattle.std.specs.Prelude.{IfOk, IsTrue, drop, replicate, string_bytes, codes, cond, map};
ghost use Rattle.std.specs.Fmt.{decimal};
ghost use Rattle.packed_trace.specs.Lines.{lines_left};
ghost use Rattle.text_words.specs.declared.value.Version.{Version as SpecVersion};
ghost use Rattle.text_words.specs.declared.value.Reducer.{Reducer};
ghost use Rattle.text_words.specs.Values.{Known, version_spelling};
ghost use Rattle.trace_text.specs.Shapes.{is_numbered, name_of_cell};
ghost use Rattle.trace_text.specs.Printing.{Entry, OfMemory, OfReducer, OfRequest, declarations, entry_text, name_of_reducer};
ghost use Rattle.trace_text.specs.Printing.{spaced, operand_text, known_of, text_from, requests_text, PrintsEntry, StartsPast, TakesReducers};

use crate::cell::{put_cell_name, reducer_name};
use crate::keyword::{keyword_for, keyword_word};
use crate::trace::Trace;
use packed_trace::{Iter, TraceLines};
use std::alloc::{AllocError, Allocator};
use std::fmt::Write;
use text_words::{Act, Mem, Reducer, TraceLine, Version, monoid_word, version_word};

/// Appends a space and a number.
pub fn put_number<A: Allocator>(out: &mut String<A>, number: u64) -> Result<(), AllocError>
    ensures { OnOk result (string_bytes out.new ≡ string_bytes out.old ++ 32 ∷ decimal number) }
{
    write!(out, " {number}")?;
    Ok(())
}

/// Appends a space and a word.
pub fn put_word<A: Allocator>(out: &mut String<A>, word: &str) -> Result<(), AllocError>
    ensures { OnOk result (string_bytes out.new ≡ string_bytes out.old ++ 32 ∷ word.now) }
{
    out.push_str(" ")?;
    out.push_str(word)
}

/// Appends a space and the name of the cell with this number. The memories are those of a trace or a program, or the first of them.
pub fn put_cell<A: Allocator>(
    out: &mut String<A>,
    mems: &[Mem],
    location: u32,
) -> Result<(), AllocError>
    requires numbered { IsTrue (is_numbered 0 mems.now) }
    ensures { OnOk result (string_bytes out.new ≡ string_bytes out.old ++ 32 ∷ name_of_cell mems.now location) }
{
    out.push_str(" ")?;
    put_cell_name(out, mems, location)
}

/// Appends a space and the name of a cell, and a value.
fn put_cell_and_value<A: Allocator>(
    out: &mut String<A>,
    mems: &[Mem],
    location: u32,
    value: u64,
) -> Result<(), AllocError>
    requires numbered { IsTrue (is_numbered 0 mems.now) }
    ensures { OnOk result (string_bytes out.new ≡ string_bytes out.old ++ 32 ∷ (name_of_cell mems.now location ++ 32 ∷ decimal value)) }
{
    put_cell(out, mems, location)?;
    put_number(out, value)
}

/// Appends a space and the name of a reducer, and a value.
fn put_reducer_and_value<A: Allocator>(
    out: &mut String<A>,
    reducers: &[Reducer],
    reducer: u32,
    value: u64,
) -> Result<(), AllocError>
    ensures { OnOk result
        (string_bytes out.new ≡ string_bytes out.old ++ 32 ∷ (name_of_reducer reducers.now reducer ++ 32 ∷ decimal value)) }
{
    put_word(out, reducer_name(reducers, reducer))?;
    put_number(out, value)
}

/// Appends what stands between the strand and the mark.
fn put_operands<A: Allocator>(
    out: &mut String<A>,
    mems: &[Mem],
    reducers: &[Reducer],
    act: Act,
) -> Result<(), AllocError>
    requires numbered { IsTrue (is_numbered 0 mems.now) }
    ensures { (version : SpecVersion) →
        OnOk result (string_bytes out.new ≡ string_bytes out.old ++ operand_text (known_of version mems.now reducers.now) act) }
{
    match act {
        Act::Spawn | Act::Sync | Act::Call | Act::Return => Ok(()),
        Act::Read(location) => put_cell(out, mems, location),
        Act::Write(location, value) | Act::Bump(location, value) => {
            put_cell_and_value(out, mems, location, value)
        }
        Act::Update(reducer, value) | Act::Put(reducer, value) => {
            put_reducer_and_value(out, reducers, reducer, value)
        }
        Act::Get(reducer) => put_word(out, reducer_name(reducers, reducer)),
    }
}

/// Appends the mark of a request.
fn put_mark<A: Allocator>(out: &mut String<A>, line: &TraceLine) -> Result<(), AllocError>
    ensures { OnOk result (string_bytes out.new
        ≡ string_bytes out.old ++ cond line.now.marked (32 ∷ 64 ∷ decimal line.now.request.line) []) }
{
    if line.marked {
        let mark = line.request.line;
        write!(out, " @{mark}")?;
    }
    Ok(())
}

/// Appends a request. The memories and reducers are those of a trace or a program.
pub fn put_request<A: Allocator>(
    out: &mut String<A>,
    mems: &[Mem],
    reducers: &[Reducer],
    line: &TraceLine,
) -> Result<(), AllocError>
    requires numbered { IsTrue (is_numbered 0 mems.now) }
    ensures { (version : SpecVersion) →
        OnOk result (string_bytes out.new
        ≡ string_bytes out.old ++ entry_text (known_of version mems.now reducers.now) (OfRequest line.now)) }
{
    out.push_str(keyword_word(keyword_for(line.request.act)))?;
    put_number(out, u64::from(line.request.strand))?;
    put_operands(out, mems, reducers, line.request.act)?;
    put_mark(out, line)
}

/// Appends the declaration of a memory.
pub fn put_memory<A: Allocator>(out: &mut String<A>, mem: &Mem) -> Result<(), AllocError>
    ensures { (known : Known) → OnOk result (string_bytes out.new ≡ string_bytes out.old ++ entry_text known (OfMemory mem.now)) }
{
    out.push_str("mem")?;
    put_word(out, mem.name.as_str())?;
    if mem.array {
        put_number(out, u64::from(mem.cells))
    } else {
        Ok(())
    }
}

/// Appends the declaration of a reducer.
pub fn put_reducer<A: Allocator>(out: &mut String<A>, reducer: &Reducer) -> Result<(), AllocError>
    ensures { (known : Known) → OnOk result (string_bytes out.new ≡ string_bytes out.old ++ entry_text known (OfReducer reducer.now)) }
{
    out.push_str("reducer")?;
    put_word(out, reducer.name.as_str())?;
    put_word(out, monoid_word(reducer.monoid))
}

#[tactic(auto, using(crate::proofs::Printed::one_more_feed))]
/// Appends a line feed for each line from the number `from` up to that before the number `to`.
pub fn put_feeds<A: Allocator>(out: &mut String<A>, from: u64, to: u64) -> Result<(), AllocError>
    ensures { OnOk result (string_bytes out.new ≡ string_bytes out.old ++ replicate (to - from) 10) }
{
    for _ in from..to {
        out.push_str("\n")?;
    }
    Ok(())
}

/// Appends the line feed of the line with this number, and gives the number of the line behind it.
pub fn put_end<A: Allocator>(out: &mut String<A>, line: u32) -> Result<u64, AllocError>
    ensures { IfOk result (λ next. (next ≡ line + 1) × (string_bytes out.new ≡ string_bytes out.old ++ 10 ∷ [])) }
{
    out.push_str("\n")?;
    Ok(u64::from(line) + 1)
}

/// Appends the line of a memory, where the next line has the number `at`, and gives the number of the line behind it.
fn put_memory_line<A: Allocator>(out: &mut String<A>, at: u64, mem: &Mem) -> Result<u64, AllocError>
    ensures { (known : Known) →
        IfOk result (λ next. PrintsEntry known (string_bytes out.old) at (OfMemory mem.now) (string_bytes out.new) next) }
{
    put_feeds(out, at, u64::from(mem.line))?;
    put_memory(out, mem)?;
    put_end(out, mem.line)
}

/// Appends the line of a reducer in the same way.
fn put_reducer_line<A: Allocator>(
    out: &mut String<A>,
    at: u64,
    reducer: &Reducer,
) -> Result<u64, AllocError>
    ensures { (known : Known) →
        IfOk result (λ next. PrintsEntry known (string_bytes out.old) at (OfReducer reducer.now) (string_bytes out.new) next) }
{
    put_feeds(out, at, u64::from(reducer.line))?;
    put_reducer(out, reducer)?;
    put_end(out, reducer.line)
}

/// Appends the line of a request in the same way.
fn put_request_line<A: Allocator>(
    out: &mut String<A>,
    at: u64,
    mems: &[Mem],
    reducers: &[Reducer],
    line: &TraceLine,
) -> Result<u64, AllocError>
    requires numbered { IsTrue (is_numbered 0 mems.now) }
    ensures { (version : SpecVersion) →
        IfOk result (λ next. PrintsEntry (known_of version mems.now reducers.now)
        (string_bytes out.old) at (OfRequest line.now) (string_bytes out.new) next) }
{
    put_feeds(out, at, u64::from(line.at))?;
    put_request(out, mems, reducers, line)?;
    put_end(out, line.at)
}

/// Appends the lines of the reducers up to the line `bound`, where the next line has the number `from`. It gives the number of the line
/// behind them, and the reducers that are left.
fn put_reducers_until<'a, A: Allocator>(
    out: &mut String<A>,
    from: u64,
    bound: u64,
    reducers: &'a [Reducer],
) -> Result<(u64, &'a [Reducer]), AllocError>
    ensures past { IfOk result (λ r. StartsPast bound r.1.now) }
    ensures prints { (known : Known) (merged : List Reducer → List Entry) → TakesReducers bound merged →
        IfOk result (λ r. string_bytes out.new ++ text_from known r.0 (merged r.1.now)
        ≡ string_bytes out.old ++ text_from known from (merged reducers.now)) }
{
    let mut at = from;
    let mut rest = reducers;
    while let Some((reducer, behind)) = rest.split_first() {
        if bound < u64::from(reducer.line) {
            return Ok((at, rest));
        }
        at = put_reducer_line(out, at, reducer)?;
        rest = behind;
    }
    Ok((at, rest))
}

/// Appends the lines of the reducers, and gives the number of the line behind them.
fn put_reducers<A: Allocator>(
    out: &mut String<A>,
    from: u64,
    reducers: &[Reducer],
) -> Result<u64, AllocError>
    ensures { (known : Known) (requests : List Entry) →
        IfOk result (λ next. string_bytes out.new ++ text_from known next requests
        ≡ string_bytes out.old ++ text_from known from (map OfReducer reducers.now ++ requests)) }
{
    let mut at = from;
    for reducer in reducers {
        at = put_reducer_line(out, at, reducer)?;
    }
    Ok(at)
}

/// Appends the lines of the declarations, and gives the number of the line behind them.
pub fn put_declarations<A: Allocator>(
    out: &mut String<A>,
    mems: &[Mem],
    reducers: &[Reducer],
) -> Result<u64, AllocError>
    ensures { (known : Known) (requests : List Entry) →
        IfOk result (λ next. string_bytes out.new ++ text_from known next requests
        ≡ string_bytes out.old ++ text_from known 2 (declarations mems.now reducers.now ++ requests)) }
{
    let mut at = 2;
    let mut rest = reducers;
    for mem in mems {
        let (next, left) = put_reducers_until(out, at, u64::from(mem.line), rest)?;
        at = put_memory_line(out, next, mem)?;
        rest = left;
    }
    put_reducers(out, at, rest)
}

/// Appends the lines of the requests.
fn put_requests<A: Allocator, B: Allocator>(
    out: &mut String<A>,
    from: u64,
    mems: &[Mem],
    reducers: &[Reducer],
    lines: &TraceLines<B>,
) -> Result<(), AllocError>
    requires numbered { IsTrue (is_numbered 0 mems.now) }
    ensures { (version : SpecVersion) →
        OnOk result (string_bytes out.new
        ≡ string_bytes out.old ++ text_from (known_of version mems.now reducers.now) from (map OfRequest lines.now)) }
{
    let mut at = from;
    for line in lines.iter() {
        at = put_request_line(out, at, mems, reducers, &line)?;
    }
    Ok(())
}

/// The requests behind the first so many.
fn behind_first<'a>(lines: Iter<'a>, count: usize) -> Iter<'a>
    ensures { lines_left result ≡ drop count (lines_left lines.entry) }
{
    let mut rest = lines;
    let mut passed = 0;
    while passed < count {
        let _ = rest.next();
        passed += 1;
    }
    rest
}

/// Appends the plain lines of requests, without a blank line between them.
fn put_plain_lines<A: Allocator>(
    out: &mut String<A>,
    mems: &[Mem],
    reducers: &[Reducer],
    lines: Iter<'_>,
) -> Result<(), AllocError>
    requires numbered { IsTrue (is_numbered 0 mems.now) }
    ensures { (version : SpecVersion) →
        OnOk result (string_bytes out.new
        ≡ string_bytes out.old ++ requests_text (known_of version mems.now reducers.now) (lines_left lines.entry)) }
{
    for line in lines {
        put_request(out, mems, reducers, &line)?;
        out.push_str("\n")?;
    }
    Ok(())
}

/// Appends the first line.
fn put_header<A: Allocator>(out: &mut String<A>, version: Version) -> Result<(), AllocError>
    ensures { OnOk result (string_bytes out.new
        ≡ string_bytes out.old ++ spaced (codes "cilk" ∷ version_spelling version ∷ []) ++ 10 ∷ []) }
{
    out.push_str("cilk")?;
    put_word(out, version_word(version))?;
    out.push_str("\n")
}

impl<A: Allocator> Trace<A> {
    ghost use Rattle.trace_text.specs.Grammar.{TextMeans};
    ghost use Rattle.trace_text.specs.Traces.{contents};
    ghost use Rattle.trace_text.specs.Printing.{plain_text, requests_text};

    /// Appends the plain text.
    fn put_text<B: Allocator>(&self, out: &mut String<B>) -> Result<(), AllocError>
        ensures { OnOk result (string_bytes out.new ≡ string_bytes out.old ++ plain_text (contents self.now)) }
    {
        let mems = self.mems.as_slice();
        let reducers = self.reducers.as_slice();
        put_header(out, self.version)?;
        let at = put_declarations(out, mems, reducers)?;
        put_requests(out, at, mems, reducers, &self.lines)
    }

    /// The plain lines of the requests behind the first so many, without a blank line between them.
    pub fn print_requests<B: Allocator>(
        &self,
        alloc: B,
        count: usize,
    ) -> Result<Vec<u8, B>, AllocError>
        ensures { IfOk result (λ text. text.items ≡ requests_text (contents self.now).known (drop count (contents self.now).lines)) }
    {
        let mut out = String::new(alloc);
        let rest = behind_first(self.lines.iter(), count);
        match put_plain_lines(
            &mut out,
            self.mems.as_slice(),
            self.reducers.as_slice(),
            rest,
        ) {
            Ok(()) => Ok(out.into_bytes()),
            Err(error) => Err(error),
        }
    }

    /// The plain text of the trace, which means this trace and no other: each item stands on its own line, with blank lines between
    /// them, words are separated by one space, numbers have no leading zeros, and a line feed ends each line.
    pub fn print<B: Allocator>(&self, alloc: B) -> Result<Vec<u8, B>, AllocError>
        ensures plain { IfOk result (λ text. text.items ≡ plain_text (contents self.now)) }
        ensures means { IfOk result (λ text. ∥ TextMeans text.items (contents self.now) ∥₁) }
    {
        let mut out = String::new(alloc);
        match self.put_text(&mut out) {
            Ok(()) => Ok(out.into_bytes()),
            Err(error) => Err(error),
        }
    }
}
