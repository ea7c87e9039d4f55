//! What is told of a run or of a trace.

ghost use Rattle.std.specs.Prelude.{◌≡◌, ◌++◌, ◌∷◌, [], false, List, IfOk, OnOk, map, string_bytes};
ghost use Rattle.std.specs.Ordering.{nat_cmp};
ghost use Rattle.std.specs.BTreeMap.{get};
ghost use Rattle.text_words.specs.Text.{lines};
ghost use Rattle.model_histories.specs.declared.answer.Entry.{Entry};
ghost use Rattle.race_pairs.specs.Known.{known_count};
ghost use Rattle.race_pairs.specs.Digests.{IsDigest, most_of};
ghost use Rattle.program_text.specs.Programs.{contents};
ghost use Rattle.trace_text.specs.Traces.{contents as trace_contents};
ghost use Rattle.serde_json.specs.View.{view};
ghost use Rattle.race_explanations.specs.Scenes.{setting_of};
ghost use Rattle.race_explanations.specs.Explained.{program_file, trace_setting};
ghost use Rattle.race_explanations.specs.Extents.{most_pairs};
ghost use Rattle.race_records.specs.Races.{group_told, groups_told, TellsRaces};
ghost use Rattle.race_records.specs.Documents.{document_told, summary_of, end_of_trace, run_parts, RecordsEntries, RecordsRun, outcome_word};
ghost use Rattle.race_records.specs.WarnedViews.{warned_parts};
ghost use Rattle.race_records.specs.SummaryViews.{summary_parts};

use crate::form::{RecordForm, record_text};
use crate::race::case_value;
use crate::value::texts_value;
use crate::warning::{Warned, none_warned, tell_warnings_in};
use program_text::Program;
use program_warnings::Wraps;
use race_explanations::{Case, Extent, Scene, cases_of, is_group_sure, program_scene, trace_scene};
use race_pairs::{Digest, Group, group_races};
use sarif_logs::Object;
use serde_json::Value;
use source_quotes::Source;
use std::alloc::{AllocError, Global};
use trace_notes::Notes;
use trace_text::Trace;

/// How a run or a trace came out.
#[derive(Clone, Copy)]
pub enum Outcome {
    /// It came to its end, and nothing was refused.
    Clean,
    /// It came to its end, and something was refused.
    Raced,
    /// The limit ended it.
    Unfinished,
}

/// How a run or traces came out, in numbers.
#[derive(Clone, Copy)]
pub(crate) struct Summary {
    pub(crate) outcome: Outcome,
    /// None where a trace has more pairs than are kept.
    pub(crate) pairs: Option<usize>,
    pub(crate) refusals: usize,
    pub(crate) requests: usize,
    pub(crate) traces: usize,
}

/// How it came out, in one word.
fn outcome_word(outcome: Outcome) -> &'static str
    ensures { result.now ≡ outcome_word outcome }
{
    match outcome {
        Outcome::Clean => "clean",
        Outcome::Raced => "raced",
        Outcome::Unfinished => "unfinished",
    }
}

/// All that is told, as one value.
pub(crate) fn document_value(
    alloc: Global,
    summary: Summary,
    memory: Value,
    races: Vec<Value>,
    recorded: &[String],
    untold: Vec<Value>,
    warned: &Warned,
) -> Result<Value, AllocError>
    ensures { IfOk result (λ value. view value ≡ document_told (summary_parts summary) (view memory) (map view races.items)
        (map string_bytes recorded.now) (map view untold.items) (warned_parts warned.now)) }
{
    Object::new(alloc)
        .with_text("outcome", outcome_word(summary.outcome))
        .with("pairs", Value::from(summary.pairs))
        .with("refusals", Value::from(summary.refusals))
        .with("requests", Value::from(summary.requests))
        .with("traces", Value::from(summary.traces))
        .with("version", Value::from(1_u8))
        .with("memory", memory)
        .with("races", Value::from(races))
        .with("untold", Value::from(untold))
        .with_made("recorded", texts_value(alloc, recorded))
        .with_made("warnings", warned.warnings.clone())
        .with("warned", Value::from(warned.count))
        .finish()
}

/// Adds what is told of the races of a group, which has this number, by whether a sync orders them all.
fn add_group(
    alloc: Global,
    scene: &Scene<'_, '_>,
    cases: &[Case<'_>],
    number: usize,
    group: &Group,
    values: &mut Vec<Value>,
) -> Result<(), AllocError>
    ensures { OnOk result (map view values.new.items ≡ map view values.old.items ++ group_told (setting_of scene.now) cases.now number group.now) }
{
    let is_sure = is_group_sure(alloc, scene, cases, group)?;
    let places = group.places.as_slice();
    for place in places {
        if let Some(case) = cases.get(*place) {
            values.push(case_value(alloc, scene, case, number, is_sure)?)?;
        }
    }
    Ok(())
}

/// What is told of the races of groups, which are numbered from 1 on.
fn group_values(
    alloc: Global,
    scene: &Scene<'_, '_>,
    cases: &[Case<'_>],
    groups: &[Group],
) -> Result<Vec<Value>, AllocError>
    ensures { IfOk result (λ values. map view values.items ≡ groups_told (setting_of scene.now) cases.now 1 groups.now) }
{
    let mut values = Vec::new(alloc);
    for (before, group) in groups.iter().enumerate() {
        add_group(alloc, scene, cases, before + 1, group, &mut values)?;
    }
    Ok(values)
}

/// What is told of the races of a scene, in groups of those that part at spawns on one line.
fn races_value(alloc: Global, scene: &Scene<'_, '_>) -> Result<Vec<Value>, AllocError>
    requires { (entries : List Entry) × IsDigest entries scene.now.digest.now }
    ensures { IfOk result (λ values. (entries : List Entry) → IsDigest entries scene.now.digest.now →
        TellsRaces (setting_of scene.now) entries scene.now.digest.now.races.list.items (map view values.items)) }
{
    let cases = cases_of(alloc, scene.digest)?;
    let groups = group_races(alloc, scene.digest.races())?;
    group_values(alloc, scene, cases.as_slice(), groups.as_slice())
}

/// How the entries came out of which this is the digest.
fn summary_of(outcome: Outcome, traces: usize, digest: &Digest) -> Summary
    ensures { (entries : List Entry) → IsDigest entries digest.now →
        summary_parts result ≡ summary_of outcome traces entries (known_count digest.now.races.known) }
{
    Summary {
        outcome,
        pairs: Some(digest.pair_count()),
        refusals: digest.refusals,
        requests: digest.lines.len(),
        traces,
    }
}

/// What is told of the entries of a scene.
fn entries_record(
    alloc: Global,
    form: RecordForm,
    scene: &Scene<'_, '_>,
    outcome: Outcome,
    traces: usize,
    extent: Extent,
    memory: Value,
    recorded: &[String],
    warned: &Warned,
) -> Result<Vec<u8>, AllocError>
    requires digest { (entries : List Entry) × IsDigest entries scene.now.digest.now }
    requires most { most_of scene.now.digest.now ≡ most_pairs extent }
    ensures { IfOk result (λ text. (entries : List Entry) → IsDigest entries scene.now.digest.now →
        RecordsEntries form extent (setting_of scene.now) entries
        (record {
          outcome = outcome;
          traces = traces;
          memory = view memory;
          recorded = map string_bytes recorded.now;
          warned = warned_parts warned.now;
        }) text.items) }
{
    let races = races_value(alloc, scene)?;
    let summary = summary_of(outcome, traces, scene.digest);
    let untold = Vec::new(alloc);
    let document = document_value(alloc, summary, memory, races, recorded, untold, warned)?;
    record_text(alloc, form, &document)
}

/// Tells in a form of the entries of a run of a program, of which this is the digest, which keeps as many pairs as the extent wants: all that
/// [`explanation`](race_explanations::explanation) tells, and of each pair that the digest keeps, with the number of its group; with the final
/// memory where it is known, and the warnings of the program, where the run wraps these indexes. Errors where there is no memory.
pub fn run_record<'s>(
    alloc: Global,
    form: RecordForm,
    outcome: Outcome,
    extent: Extent,
    memory: Value,
    file: &'s str,
    text: &[u8],
    program: &'s Program<Global>,
    wraps: &Wraps,
    digest: &'s Digest,
) -> Result<Vec<u8>, AllocError>
    requires digest { (entries : List Entry) × IsDigest entries digest.now }
    requires most { most_of digest.now ≡ most_pairs extent }
    ensures { IfOk result (λ told. (entries : List Entry) → IsDigest entries digest.now →
        RecordsRun form extent (program_file file.now (lines text.now) (contents program.now))
        (run_parts entries (get nat_cmp wraps.now) outcome (view memory)) told.items) }
{
    let source = Source::new(alloc, text)?;
    let scene = program_scene(false, file, &source, program, digest);
    let warned = tell_warnings_in(alloc, file, &source, program, wraps)?;
    entries_record(
        alloc,
        form,
        &scene,
        outcome,
        0,
        extent,
        memory,
        &[],
        &warned,
    )
}

/// Tells in a form of the entries of a trace with these notes, of which this is the digest, as [`run_record`] does of those of a run: all that
/// [`trace_explanation`](race_explanations::trace_explanation) tells, and what was recorded. Errors where there is no memory.
pub fn trace_record<'s>(
    alloc: Global,
    form: RecordForm,
    outcome: Outcome,
    extent: Extent,
    notes: &'s Notes,
    trace: &'s Trace<Global>,
    digest: &'s Digest,
) -> Result<Vec<u8>, AllocError>
    requires digest { (entries : List Entry) × IsDigest entries digest.now }
    requires most { most_of digest.now ≡ most_pairs extent }
    ensures { IfOk result (λ told. (entries : List Entry) → IsDigest entries digest.now →
        RecordsEntries form extent (trace_setting false notes.now (trace_contents trace.now).known entries) entries
        (end_of_trace outcome notes.now) told.items) }
{
    let scene = trace_scene(false, notes, trace, digest);
    entries_record(
        alloc,
        form,
        &scene,
        outcome,
        1,
        extent,
        Value::Null,
        notes.runs(),
        &none_warned(alloc),
    )
}
