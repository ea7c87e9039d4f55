//! Explaining a run of the program that a reader gives.

ghost use Rattle.std.specs.Prelude.{◌≡◌, ◌↔◌, ◌<◌, ◌≤◌, ◌⊎◌, ℕ, true, false, Option, List, length};
ghost use Rattle.std.specs.Prelude.{reverse, decimal, IfOk, IfErr, IsTrue};
ghost use Rattle.std.specs.Ordering.{nat_cmp};
ghost use Rattle.std.specs.BTreeMap.{get};
ghost use Rattle.program_text.specs.Grammar.{TextMeans};
ghost use Rattle.program_text.specs.Faults.{TextFaults};
ghost use Rattle.program_text.specs.Programs.{contents};
ghost use Rattle.model_histories.specs.Shapes.{Shape, most_entries};
ghost use Rattle.model_races.specs.Memory.{IsMemory};
ghost use Rattle.model_histories.specs.Extensions.{IsClean};
ghost use Rattle.program_text.specs.Shapes.{shape_in};
ghost use Rattle.model_runs.specs.Runs.{IsFinishedRun};
ghost use Rattle.run_replay.specs.Replays.{IsUnfinishedRun};
ghost use Rattle.run_replay.specs.Wraps.{AreWraps};
ghost use Rattle.command_streams.specs.Devices.{LeavesDevices};
ghost use Rattle.command_streams.specs.Watched.{held, has_failed, calls_of, IsCalledAtMost};
ghost use Rattle.command_streams.specs.Streams.{most_reads};
ghost use Rattle.command_streams.specs.Readings.{reading};
ghost use Rattle.command_streams.specs.KeptTexts.{text_of, IsKept};
ghost use Rattle.program_runs.specs.Runs.{IsWholeRun, LacksRun, WantsMore};
ghost use Rattle.tool_commands.specs.Runs.{IsRunFault};
ghost use Rattle.tool_commands.specs.Explanations.{Manner as SpecManner, clean_words};
ghost use Rattle.tool_commands.specs.Explanations.{file_of, clean_run, TellsClean, TellsRaces, ExplainsCut, TellsCut, TellsFaulty};
ghost use Rattle.race_records.specs.Documents.{RecordsRun};
ghost use Rattle.fault_lists.specs.FaultLists.{HasFault};
ghost use Rattle.model_histories.specs.declared.answer.Entry.{Entry as AnyEntry};
ghost use Rattle.model_races.specs.Judged.{IsJudged};
ghost use Rattle.race_pairs.specs.Digests.{IsDigest, most_of};
ghost use Rattle.race_explanations.specs.Extents.{most_pairs};
ghost use Rattle.tool_commands.specs.Explanations.{TellsEnd, IsBehindWarnings, status_of_end, ExplainsAs, Explains, IsUntold, StopsTelling, IsExplained, HasExplanationCause};

use crate::elide::push_memory;
use crate::explain_trace::explain_trace_text;
use crate::judged::digest_of_run;
use crate::memory::memory_value;
use crate::outcome::{Outcome, outcome_of, refusal_status, write_told};
use crate::run::fault_of;
use crate::sort::is_program;
use command_streams::{CliFault, KeptText, Watched, read_kept};
use fault_lists::{Fault, faults_message};
use locked_replay::{RunFault, Whole};
use packed_history::Entries;
use program_runs::{Door, UnfinishedRun, run_by_workers, run_in_serial_order};
use program_text::Program;
use program_warnings::{Wraps, program_warnings};
use race_explanations::{Extent, explanation, most_pairs};
use race_gate::{Entry, ShortGate};
use race_pairs::Digest;
use race_records::{Outcome as Ending, RecordForm, faults_record, run_record};
use run_replay::find_wraps;
use serde_json::Value;
use source_quotes::Meant;
use std::alloc::{AllocError, Global};
use std::io::{Read, Write};
use std::marker::Model;
use std::sync::Wait;
use std::thread::Threads;
use text_buffers::{TextBuilder, push_number, push_words};
use text_words::TextFault;

/// The form of what is told.
#[derive(Clone, Copy)]
pub enum Rendering {
    /// Text, for a person.
    Text,
    /// A record, for a program.
    Record(RecordForm),
}

/// How something is told.
#[derive(Drop)]
pub struct Manner<'a> {
    /// Whether words of a text are painted, as on a terminal.
    pub is_painted: bool,
    /// The form of what is told.
    pub rendering: Rendering,
    /// How much is told of races.
    pub extent: Extent,
    /// The name of the program's file.
    pub file: &'a str,
}

impl<'a> Model for Manner<'a> {
    ghost use Rattle.tool_commands.specs.Explanations.{Manner as SpecManner};

    ghost Value = { SpecManner };

    ghost view = { λ manner. record { is_painted = manner.is_painted; rendering = manner.rendering; extent = manner.extent; file = manner.file.now } };
}

/// How a run that is told ended.
#[derive(Clone, Copy)]
pub enum End {
    /// It came to its end, and nothing was refused.
    Clean,
    /// It came to its end, and something was refused.
    Raced,
    /// The limit ended it, and nothing was refused until then.
    Cut,
    /// The limit ended it, and something was refused until then.
    CutRaced,
}

impl End {
    /// The exit status: 1 where something was refused, 4 where the limit ended a run before that, else 0.
    pub fn status(self) -> u8
        ensures { result ≡ status_of_end self }
    {
        match self {
            End::Clean => 0,
            End::Raced | End::CutRaced => 1,
            End::Cut => 4,
        }
    }
}

/// What is told where nothing was refused, before the memory.
fn clean_words() -> &'static str
    ensures { result.now ≡ clean_words }
{
    "clean for every schedule: no run of this program has a race, and each leaves this memory\n"
}

/// The indexes that a run wraps. Errors where there is no memory.
fn wraps_of(
    alloc: Global,
    program: &Program<Global>,
    entries: &Entries<Global>,
) -> Result<Wraps, AllocError>
    requires judged { IsJudged (shape_in program.now) (reverse entries.now.items) }
    requires within { length entries.now.items ≤ most_entries }
    ensures { IfOk result (λ wraps. AreWraps program.now.functions (shape_in program.now) (reverse entries.now.items) wraps) }
{
    match find_wraps(alloc, program, entries) {
        Ok(wraps) => Ok(wraps),
        Err(_) => Err(AllocError),
    }
}

/// What is told of a run of a program to a person, behind the warnings of the program. A record of the run has these.
fn behind_warnings(
    alloc: Global,
    manner: &Manner<'_>,
    text: &[u8],
    program: &Program<Global>,
    wraps: &Wraps,
    run: Vec<u8>,
) -> Result<Vec<u8>, AllocError>
    ensures { IfOk result (λ told. IsBehindWarnings manner.now (file_of manner.now text.now (contents program.now)) (get nat_cmp wraps.now)
        run.items told.items) }
{
    match manner.rendering {
        Rendering::Text => {
            let mut told = program_warnings(
                alloc,
                manner.is_painted,
                manner.file,
                text,
                program,
                wraps,
            )?;
            told.extend_from_slice(run.as_slice())?;
            Ok(told)
        }
        Rendering::Record(_) => Ok(run),
    }
}

/// The record of a run in which nothing was refused.
fn clean_record(
    alloc: Global,
    form: RecordForm,
    manner: &Manner<'_>,
    text: &[u8],
    program: &Program<Global>,
    wraps: &Wraps,
    whole: &Whole,
) -> Result<Vec<u8>, AllocError>
    requires judged { (shape : Shape) × IsJudged shape (reverse whole.now.entries.items) }
    requires few { length whole.now.entries.items ≤ most_entries }
    ensures { IfOk result (λ told. RecordsRun form manner.now.extent (file_of manner.now text.now (contents program.now))
        (clean_run (file_of manner.now text.now (contents program.now)) (get nat_cmp wraps.now) whole.now.entries.items
        whole.now.memory.items) told.items) }
{
    let memory = memory_value(alloc, program.mems.as_slice(), whole.memory.as_slice())?;
    let digest = digest_of_run(alloc, &whole.entries, most_pairs(manner.extent))?;
    run_record(
        alloc,
        form,
        Ending::Clean,
        manner.extent,
        memory,
        manner.file,
        text,
        program,
        wraps,
        &digest,
    )
}

/// What is told where nothing was refused.
fn explain_clean(
    alloc: Global,
    manner: &Manner<'_>,
    text: &[u8],
    program: &Program<Global>,
    wraps: &Wraps,
    whole: &Whole,
) -> Result<Vec<u8>, AllocError>
    requires judged { (shape : Shape) × IsJudged shape (reverse whole.now.entries.items) }
    requires few { length whole.now.entries.items ≤ most_entries }
    ensures { IfOk result (λ told. TellsClean manner.now (file_of manner.now text.now (contents program.now)) (get nat_cmp wraps.now)
        whole.now.entries.items whole.now.memory.items told.items) }
{
    match manner.rendering {
        Rendering::Text => {
            let mut told = TextBuilder::new(alloc);
            told.push_words(clean_words());
            push_memory(&mut told, program.mems.as_slice(), whole.memory.as_slice());
            told.end()
        }
        Rendering::Record(form) => {
            clean_record(alloc, form, manner, text, program, wraps, whole)
        }
    }
}

/// What is told of the races of a run.
fn tell_races(
    alloc: Global,
    manner: &Manner<'_>,
    text: &[u8],
    program: &Program<Global>,
    wraps: &Wraps,
    digest: &Digest,
) -> Result<Vec<u8>, AllocError>
    requires digest { (entries : List AnyEntry) × IsDigest entries digest.now }
    requires most { most_of digest.now ≡ most_pairs manner.now.extent }
    ensures { IfOk result (λ told. (entries : List AnyEntry) → IsDigest entries digest.now →
        TellsRaces manner.now (file_of manner.now text.now (contents program.now)) (get nat_cmp wraps.now) entries told.items) }
{
    match manner.rendering {
        Rendering::Text => explanation(
            alloc,
            manner.is_painted,
            manner.extent,
            manner.file,
            text,
            program,
            digest,
        ),
        Rendering::Record(form) => run_record(
            alloc,
            form,
            Ending::Raced,
            manner.extent,
            Value::Null,
            manner.file,
            text,
            program,
            wraps,
            digest,
        ),
    }
}

/// What is told of a finished run, with the warnings of its program.
fn explain_whole(
    alloc: Global,
    manner: &Manner<'_>,
    text: &[u8],
    program: &Program<Global>,
    whole: &Whole,
    limit: u32,
) -> Result<(Vec<u8>, End), AllocError>
    requires run { IsFinishedRun program.now.functions (shape_in program.now) (reverse whole.now.entries.items) }
    requires memory { IsMemory (shape_in program.now).cells (reverse whole.now.entries.items) whole.now.memory.items }
    requires clean { IsTrue whole.now.clean ↔ IsClean (reverse whole.now.entries.items) }
    requires within { length whole.now.entries.items ≤ limit }
    requires limit { limit ≤ most_entries }
    ensures { IfOk result (λ told. TellsEnd manner.now text.now (contents program.now) limit told.0.items told.1) }
{
    let wraps = wraps_of(alloc, program, &whole.entries)?;
    if whole.clean {
        let run = explain_clean(alloc, manner, text, program, &wraps, whole)?;
        let told = behind_warnings(alloc, manner, text, program, &wraps, run)?;
        return Ok((told, End::Clean));
    }
    let digest = digest_of_run(alloc, &whole.entries, most_pairs(manner.extent))?;
    let run = tell_races(alloc, manner, text, program, &wraps, &digest)?;
    let told = behind_warnings(alloc, manner, text, program, &wraps, run)?;
    Ok((told, End::Raced))
}

/// What a person is told of a run that the limit ended.
fn tell_cut_text(
    alloc: Global,
    manner: &Manner<'_>,
    text: &[u8],
    program: &Program<Global>,
    digest: &Digest,
) -> Result<Vec<u8>, AllocError>
    requires digest { (entries : List AnyEntry) × IsDigest entries digest.now }
    requires most { most_of digest.now ≡ most_pairs manner.now.extent }
    ensures { IfOk result (λ told. (entries : List AnyEntry) → IsDigest entries digest.now →
        ExplainsCut manner.now (file_of manner.now text.now (contents program.now)) entries told.items) }
{
    let mut told = explanation(
        alloc,
        manner.is_painted,
        manner.extent,
        manner.file,
        text,
        program,
        digest,
    )?;
    let count = digest.lines.len() as u64;
    push_number(
        &mut told,
        "this is no whole run: the limit ended it after ",
        count,
    )?;
    push_words(&mut told, " requests, and there may be more to tell\n")?;
    Ok(told)
}

/// What is told of a run that the limit ended.
fn tell_limit(
    alloc: Global,
    manner: &Manner<'_>,
    text: &[u8],
    program: &Program<Global>,
    wraps: &Wraps,
    digest: &Digest,
) -> Result<Vec<u8>, AllocError>
    requires digest { (entries : List AnyEntry) × IsDigest entries digest.now }
    requires most { most_of digest.now ≡ most_pairs manner.now.extent }
    ensures { IfOk result (λ told. (entries : List AnyEntry) → IsDigest entries digest.now →
        TellsCut manner.now (file_of manner.now text.now (contents program.now)) (get nat_cmp wraps.now) entries told.items) }
{
    match manner.rendering {
        Rendering::Text => tell_cut_text(alloc, manner, text, program, digest),
        Rendering::Record(form) => run_record(
            alloc,
            form,
            Ending::Unfinished,
            manner.extent,
            Value::Null,
            manner.file,
            text,
            program,
            wraps,
            digest,
        ),
    }
}

/// What is told of a run that came to the limit and not to its end, with the warnings of its program.
fn explain_unfinished(
    alloc: Global,
    manner: &Manner<'_>,
    text: &[u8],
    program: &Program<Global>,
    wraps: &Wraps,
    entries: &[Entry],
    limit: u32,
) -> Result<(Vec<u8>, End), AllocError>
    requires wraps { AreWraps program.now.functions (shape_in program.now) (reverse entries.now) wraps.now }
    requires run { IsUnfinishedRun program.now.functions (shape_in program.now) (reverse entries.now) }
    requires full { length entries.now ≡ limit }
    requires limit { limit ≤ most_entries }
    ensures { IfOk result (λ told. TellsEnd manner.now text.now (contents program.now) limit told.0.items told.1) }
{
    let digest = Digest::of(alloc, entries, most_pairs(manner.extent))?;
    let run = tell_limit(alloc, manner, text, program, wraps, &digest)?;
    let told = behind_warnings(alloc, manner, text, program, wraps, run)?;
    if refusal_status(entries) == 0 {
        return Ok((told, End::Cut));
    }
    Ok((told, End::CutRaced))
}

/// What is told of a run that wants more entries than the limit, from the gate that it left.
fn explain_cut(
    alloc: Global,
    manner: &Manner<'_>,
    text: &[u8],
    program: &Program<Global>,
    gate: &ShortGate,
    limit: u32,
) -> Result<(Vec<u8>, End), CliFault>
    requires more { WantsMore program.now.functions (shape_in program.now) limit }
    requires limit { limit ≤ most_entries }
    ensures ok { IfOk result (λ told. TellsEnd manner.now text.now (contents program.now) limit told.0.items told.1) }
    ensures fault { IfErr result (IsRunFault (contents program.now) limit) }
{
    let kept = gate.kept_history();
    let entries = kept.to_vec(alloc)?;
    let entries = entries.as_slice();
    if entries.len() != limit as usize {
        return Err(CliFault::Limit);
    }
    match outcome_of(alloc, program, entries)? {
        Outcome::Unfinished => {
            let wraps = wraps_of(alloc, program, kept)?;
            Ok(explain_unfinished(alloc, manner, text, program, &wraps, entries, limit)?)
        }
        _ => Err(CliFault::Limit),
    }
}

/// Some run of a program by so many workers, or by one in the serial order.
fn some_run<D: Door + Sync, R: Threads + Wait + Sync>(
    rt: &R,
    alloc: Global,
    program: &Program<Global>,
    workers: usize,
    is_serial: bool,
    door: &D,
    limit: u32,
) -> Result<Whole, UnfinishedRun>
    requires workers { (0 < workers) × (workers ≤ 64) }
    requires limit { limit ≤ most_entries }
    ensures whole { IfOk result (IsWholeRun program.now limit) }
    ensures fault { IfErr result (λ cut. LacksRun program.now.functions (shape_in program.now) limit cut.fault) }
{
    if is_serial {
        run_in_serial_order(alloc, program, limit)
    } else {
        run_by_workers(rt, alloc, program, workers, door, limit)
    }
}

/// What is told of some run of a program by so many workers, or by one in the serial order.
fn explain_run<D: Door + Sync, R: Threads + Wait + Sync>(
    rt: &R,
    alloc: Global,
    manner: &Manner<'_>,
    text: &[u8],
    program: &Program<Global>,
    workers: usize,
    is_serial: bool,
    door: &D,
    limit: u32,
) -> Result<(Vec<u8>, End), CliFault>
    requires workers { (0 < workers) × (workers ≤ 64) }
    requires limit { limit ≤ most_entries }
    ensures ok { IfOk result (λ told. TellsEnd manner.now text.now (contents program.now) limit told.0.items told.1) }
    ensures fault { IfErr result (IsRunFault (contents program.now) limit) }
{
    match some_run(rt, alloc, program, workers, is_serial, door, limit) {
        Ok(whole) => Ok(explain_whole(alloc, manner, text, program, &whole, limit)?),
        Err(cut) => match (cut.fault, &cut.gate) {
            (RunFault::Limit, Some(gate)) => explain_cut(alloc, manner, text, program, gate, limit),
            (fault, _) => Err(fault_of(fault)),
        },
    }
}

/// What is told of the faults of a text.
pub(crate) fn tell_faults(
    alloc: Global,
    manner: &Manner<'_>,
    text: &[u8],
    meant: Meant,
    fault: Fault,
) -> Result<Vec<u8>, AllocError>
    requires { HasFault meant text.now fault }
    ensures { IfOk result (λ told. TellsFaulty manner.now meant text.now fault told.items) }
{
    match manner.rendering {
        Rendering::Text => {
            faults_message(alloc, manner.is_painted, manner.file, text, meant, fault)
        }
        Rendering::Record(form) => { faults_record(alloc, form, manner.file, text, meant, fault) },
    }
}

/// What is told of a text that is to mean a program, and the exit status.
fn explain_program_text<D: Door + Sync, R: Threads + Wait + Sync>(
    rt: &R,
    alloc: Global,
    manner: &Manner<'_>,
    text: &[u8],
    workers: usize,
    is_serial: bool,
    door: &D,
    limit: u32,
) -> Result<(Vec<u8>, u8), CliFault>
    requires workers { (0 < workers) × (workers ≤ 64) }
    requires limit { limit ≤ most_entries }
    ensures ok { IfOk result (λ told. ExplainsAs true manner.now text.now limit told.0.items told.1) }
    ensures fault { IfErr result (λ fault. (fault ≡ CliFault.Memory) ⊎ IsUntold text.now limit fault) }
{
    let program = match Program::parse(alloc, text) {
        Ok(program) => program,
        Err(TextFault::Memory) => return Err(CliFault::Memory),
        Err(TextFault::At { line, why }) => {
            let told = tell_faults(alloc, manner, text, Meant::Program, Fault { line, why })?;
            return Ok((told, 2));
        }
    };
    let (told, end) = explain_run(
        rt, alloc, manner, text, &program, workers, is_serial, door, limit,
    )?;
    Ok((told, end.status()))
}

/// What is told of a text, and the exit status.
fn tell_source<D: Door + Sync, R: Threads + Wait + Sync>(
    rt: &R,
    alloc: Global,
    manner: &Manner<'_>,
    source: &KeptText,
    workers: usize,
    is_serial: bool,
    door: &D,
    limit: u32,
) -> Result<(Vec<u8>, u8), CliFault>
    requires workers { (0 < workers) × (workers ≤ 64) }
    requires limit { limit ≤ most_entries }
    requires kept { IsKept source.now }
    ensures ok { IfOk result (λ told. Explains manner.now (text_of source.now) limit told.0.items told.1) }
    ensures fault { IfErr result (StopsTelling (text_of source.now) limit) }
{
    match source {
        KeptText::Whole(text) => {
            let text = text.as_slice();
            if is_program(text) {
                explain_program_text(rt, alloc, manner, text, workers, is_serial, door, limit)
            } else {
                explain_trace_text(alloc, manner, source)
            }
        }
        KeptText::Plain(_) => explain_trace_text(alloc, manner, source),
    }
}

/// Reads a program to its end, runs it by so many workers as [`run_text`](crate::run::run_text) does, or by one that runs each child
/// before what follows its spawn, and tells a person of the run, in lines of text: each pair of lines that raced, in groups of those that
/// part at spawns on one line, with both lines, the spawns and calls that led there, the spawn where the two part, and what would order
/// them: of all pairs, or of the first. Where nothing was refused it tells that this
/// is so for every schedule, and the memory. Before all this it tells the warnings of the program, as [`program_warnings`] does, with the
/// indexes that wrap in this run. Where the
/// limit ended the run it tells the races until then, and that it is no whole run. A text whose first word behind its declarations is not
/// `func` is a trace: its requests are judged in their order, and the pairs that raced are told by its notes, or the first illegal request.
/// Of a text that means neither it tells the faults that can be told apart, the first of which is that of the other commands. As JSON it
/// tells the same as one value. The exit status is 0 where nothing was refused, 1 where something was, 2 for a fault
/// of the text or an illegal request, and 4 where the limit ended the run and nothing was refused until then.
///
/// It answers [`CliFault::Read`] or [`CliFault::Write`] exactly where the reader or the writer has failed, [`CliFault::TooLong`] for more
/// than 67,108,864 bytes, [`CliFault::Stopped`], [`CliFault::Torn`] or [`CliFault::Strange`] where the workers brought no finished run, and
/// [`CliFault::Memory`] where a growth was refused or a thread could not be started. Nothing is written then, but for the part that a
/// failed write has taken.
pub fn explain_text<D: Door + Sync, P: Read, W: Write, R: Threads + Wait + Sync>(
    rt: &R,
    alloc: Global,
    manner: &Manner<'_>,
    program: &mut Watched<P>,
    workers: usize,
    is_serial: bool,
    door: &D,
    output: &mut Watched<W>,
    limit: u32,
) -> Result<u8, CliFault>
    requires reader { has_failed program.old ≡ false }
    requires writer { has_failed output.old ≡ false }
    requires workers { (0 < workers) × (workers ≤ 64) }
    requires limit { limit ≤ most_entries }
    ensures answered { IfOk result (IsExplained manner.now (reading (P.remaining (held program.old)) (P.remaining (held program.new)))
        (W.contents (held output.old)) (W.contents (held output.new)) limit) }
    ensures fault { IfErr result (HasExplanationCause manner.now (reading (P.remaining (held program.old)) (P.remaining (held program.new)))
        (W.contents (held output.old)) (W.contents (held output.new)) limit) }
    ensures devices { LeavesDevices result (has_failed program.new) output.old output.new }
    ensures reads { IsCalledAtMost most_reads (calls_of program.old) (calls_of program.new) }
{
    let source = read_kept(alloc, program)?;
    write_told(
        output,
        tell_source(rt, alloc, manner, &source, workers, is_serial, door, limit),
    )
}
