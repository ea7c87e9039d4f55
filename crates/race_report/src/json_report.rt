//! The report of a run.

ghost use Rattle.std.specs.Prelude.{◌≡◌, ◌<◌, ◌≤◌, ◌↔◌, ◌+◌, ◌++◌, List, [], true, false, codes, length, map, reverse, slice_get, Some, IfOk, IsTrue, IsSome};
ghost use Rattle.std.specs.Option.{option_map};
ghost use Rattle.serde_json.specs.Data.{Data, number, unsigned};
ghost use Rattle.serde_json.specs.View.{view, items_of};
ghost use Rattle.serde_json.specs.Written.{has_float, compact_text, items_text};
ghost use Rattle.text_words.specs.Declarations.{cells_of};
ghost use Rattle.trace_text.specs.Shapes.{is_numbered, name_of_cell};
ghost use Rattle.program_text.specs.Programs.{contents};
ghost use Rattle.model_histories.specs.declared.answer.Entry.{Entry as OneEntry};
ghost use Rattle.model_histories.specs.Shapes.{IsInRange};
ghost use Rattle.model_histories.specs.Extensions.{IsClean};
ghost use Rattle.verdict_lines.specs.VerdictText.{kind_asked};
ghost use Rattle.race_report.specs.Refusals.{name_asked, line_of_entry, answer_told, refusals_told};
ghost use Rattle.race_report.specs.RefusalValues.{name_text, refusal_in};
ghost use Rattle.race_report.specs.ReportText.{cells_told, memory_told, bare_told, end_text, report_with, report_text};
ghost use Rattle.race_report.specs.Conditions.{shape_known, IsTellable, AreTellable};

use crate::printer::Printer;
use crate::refusal::{AskedName, LinedWitness, Refusal};
use locked_replay::{Entries, Whole};
use model_accesses::Witness;
use program_text::Program;
use race_gate::{Answer, Entry};
use serde_json::{Map, Value, put};
use std::alloc::{AllocError, Allocator, Global};
use text_words::{Act, Mem};
use trace_text::{memory_at, reducer_name};
use verdict_lines::rule_of_refusal;

/// The name of the cell with this number.
#[inline(always)]
fn name_of_cell<'a>(alloc: Global, mems: &'a [Mem], location: u32) -> AskedName<'a>
    requires numbered { IsTrue (is_numbered 0 mems.now) }
    requires within { location < cells_of mems.now }
    ensures { name_text result ≡ name_of_cell mems.now location }
{
    match memory_at(mems, location) {
        Some(mem) if mem.array => AskedName::Element(alloc, mem, location - mem.first),
        Some(mem) => AskedName::Whole(mem.name.as_str()),
        None => unreachable!(),
    }
}

/// The name of the cell or the reducer that an act asks for.
#[inline(always)]
fn name_of<'a, A: Allocator>(alloc: Global, program: &'a Program<A>, act: Act) -> AskedName<'a>
    requires access { IsSome (kind_asked act) }
    requires within { IsInRange (shape_known (contents program.now).known) act }
    ensures { name_text result ≡ name_asked (contents program.now).known act }
{
    match act {
        Act::Read(cell) | Act::Write(cell, _) | Act::Bump(cell, _) => {
            name_of_cell(alloc, program.mems.as_slice(), cell)
        }
        Act::Update(reducer, _) | Act::Put(reducer, _) | Act::Get(reducer) => {
            AskedName::Whole(reducer_name(program.reducers.as_slice(), reducer))
        }
        Act::Spawn | Act::Sync | Act::Call | Act::Return => unreachable!(),
    }
}

/// The line of the entry with this number.
#[inline(always)]
fn line_of_entry<A: Allocator>(entries: &Entries<A>, number: u32) -> u32
    requires first { 0 < number }
    requires last { number ≤ length entries.now.items }
    ensures { result ≡ line_of_entry entries.now.items number }
{
    entries.get(number as usize - 1).request.line
}

/// The witness of a refusal, with the line of its entry.
#[inline(always)]
fn with_line<A: Allocator>(entries: &Entries<A>, witness: Witness) -> LinedWitness
    requires first { 0 < witness.entry }
    requires last { witness.entry ≤ length entries.now.items }
    ensures witness { result.witness ≡ witness }
    ensures line { result.line ≡ line_of_entry entries.now.items witness.entry }
{
    LinedWitness {
        witness,
        line: line_of_entry(entries, witness.entry),
    }
}

/// What is told of the entry with this number, where it is a refusal.
#[inline(always)]
fn refusal_of<'a, A: Allocator, B: Allocator>(
    alloc: Global,
    program: &'a Program<A>,
    entries: &Entries<B>,
    number: usize,
    entry: Entry,
) -> Option<Refusal<'a>>
    requires { IsTellable (shape_known (contents program.now).known) (length entries.now.items) entry }
    ensures { option_map refusal_in result
        ≡ answer_told (contents program.now).known entries.now.items number entry.request entry.answer }
{
    let request = entry.request;
    let (rule, witness) = match entry.answer {
        Answer::Refused { witness, .. } => (
            rule_of_refusal(request.act, witness.kind),
            Some(with_line(entries, witness)),
        ),
        Answer::Unset => ("unset", None),
        _ => return None,
    };
    Some(Refusal {
        number,
        request,
        name: name_of(alloc, program, request.act),
        rule,
        witness,
    })
}

/// What is told of the entry at this place, which has this number, where it is a refusal. An entry that is known to be clean is not
/// unpacked.
#[inline(always)]
fn refusal_at<'a, A: Allocator, B: Allocator>(
    alloc: Global,
    program: &'a Program<A>,
    entries: &Entries<B>,
    at: usize,
    number: usize,
) -> Option<Refusal<'a>>
    requires number { number ≡ at + 1 }
    requires tellable { AreTellable (shape_known (contents program.now).known) entries.now.items }
    requires there { at < length entries.now.items }
    ensures { (entry : OneEntry) → slice_get entries.now.items at ≡ Some entry → option_map refusal_in result
        ≡ answer_told (contents program.now).known entries.now.items number entry.request entry.answer }
{
    if entries.is_clean(at) {
        return None;
    }
    refusal_of(alloc, program, entries, number, entries.get(at))
}

/// For how many bytes of each entry a report asks room at once, since a text that grows may be moved.
const BYTES_OF_ENTRY: usize = 16;

/// Adds the refusals among these entries, in order, and the two brackets behind them.
fn push_refusals<A: Allocator, B: Allocator>(
    alloc: Global,
    mut text: Vec<u8>,
    program: &Program<A>,
    entries: &Entries<B>,
) -> Result<Vec<u8>, AllocError>
    requires { AreTellable (shape_known (contents program.now).known) entries.now.items }
    ensures { IfOk result (λ told. told.items ≡ (text.items ++
        items_text false (items_of (refusals_told (contents program.now).known entries.now.items))) ++ codes "}") }
{
    let _room = text.reserve(entries.len().saturating_mul(BYTES_OF_ENTRY));
    let mut printer = Printer::new(alloc, text)?;
    for at in 0..entries.len() {
        let refusal = refusal_at(alloc, program, entries, at, at + 1);
        printer.push(alloc, refusal)?;
    }
    printer.finish(alloc)
}

/// Numbers as values.
fn number_values(alloc: Global, numbers: &[u64]) -> Result<Vec<Value>, AllocError>
    ensures { IfOk result (λ values. map view values.items ≡ map (λ value. number (unsigned value)) numbers.now) }
{
    let mut values = Vec::new(alloc);
    for number in numbers {
        values.push(Value::from(*number))?;
    }
    Ok(values)
}

/// What the cells of a memory hold.
fn cells_value(alloc: Global, is_array: bool, values: &[u64]) -> Result<Value, AllocError>
    ensures { IfOk result (λ value. view value ≡ cells_told is_array values.now) }
{
    match values {
        [value] if !is_array => Ok(Value::from(*value)),
        _ => Ok(Value::from(number_values(alloc, values)?)),
    }
}

/// What each memory holds, under its name.
fn memory_value(alloc: Global, mems: &[Mem], values: &[u64]) -> Result<Value, AllocError>
    requires { length values.now ≡ cells_of mems.now }
    ensures { IfOk result (λ value. view value ≡ memory_told mems.now values.now) }
{
    let mut members = Map::new(alloc);
    let mut rest = values;
    for mem in mems {
        let (own, others) = rest.split_at(mem.cells as usize);
        let cells = cells_value(alloc, mem.array, own)?;
        put(&mut members, alloc, mem.name.as_str(), cells)?;
        rest = others;
    }
    Ok(Value::from(members))
}

/// The report of a run up to its refusals, as one with no refusal.
fn bare_value(
    alloc: Global,
    clean: bool,
    entries: usize,
    memory: Value,
) -> Result<Value, AllocError>
    ensures { IfOk result (λ value. view value ≡ bare_told clean entries (view memory)) }
{
    let mut members = Map::new(alloc);
    put(&mut members, alloc, "memory", memory)?;
    put(&mut members, alloc, "clean", Value::from(clean))?;
    put(&mut members, alloc, "entries", Value::from(entries))?;
    put(
        &mut members,
        alloc,
        "refusals",
        Value::from(Vec::new(alloc)),
    )?;
    Ok(Value::from(members))
}

/// The text of the report of a run up to its first refusal: what is told with no refusal, without the two brackets at its end.
fn open_text(
    alloc: Global,
    clean: bool,
    entries: usize,
    memory: Value,
) -> Result<Vec<u8>, AllocError>
    requires { has_float (view memory) ≡ false }
    ensures { IfOk result (λ text. (refusals : List Data) → text.items ++ (items_text false (items_of refusals) ++ end_text clean) ≡
        compact_text (report_with clean entries (view memory) refusals)) }
{
    let mut text = bare_value(alloc, clean, entries, memory)?.to_vec(alloc)?;
    text.truncate(text.len() - 2);
    Ok(text)
}

/// The report of a run of the program: one JSON object in compact text, its keys in byte order. It tells whether the run is clean, the
/// number of its entries, what each memory holds, and each refusal with its witness; of a clean run also that the program is clean for
/// every schedule.
///
/// Each refusal must have a word for its rule, its witness must be an entry, only a get may be unset, and each location and reducer must
/// be one of the program's, as in the history of a gate.
pub fn report<A: Allocator, B: Allocator>(
    alloc: Global,
    program: &Program<A>,
    whole: &Whole<B>,
) -> Result<Vec<u8>, AllocError>
    requires entries { AreTellable (shape_known (contents program.now).known) whole.now.entries.items }
    requires memory { length whole.now.memory.items ≡ cells_of program.now.mems }
    requires clean { IsTrue whole.now.clean ↔ IsClean (reverse whole.now.entries.items) }
    ensures { IfOk result (λ text. text.items ≡ report_text (contents program.now).known whole.now.entries.items whole.now.memory.items) }
{
    let memory = memory_value(alloc, program.mems.as_slice(), whole.memory.as_slice())?;
    let mut text = open_text(alloc, whole.clean, whole.entries.len(), memory)?;
    if whole.clean {
        text.extend_from_slice(b"],\"schedules\":\"clean for every schedule\"}")?;
        return Ok(text);
    }
    push_refusals(alloc, text, program, &whole.entries)
}
