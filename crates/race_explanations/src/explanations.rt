//! What is told of the entries of a run.

ghost use Rattle.std.specs.Prelude.{◌≡◌, ◌++◌, List, map, length, Some, IfOk};
ghost use Rattle.text_words.specs.Text.{lines};
ghost use Rattle.program_text.specs.Programs.{contents};
ghost use Rattle.model_histories.specs.declared.answer.Entry.{Entry as AnyEntry};
ghost use Rattle.race_pairs.specs.Known.{known_count};
ghost use Rattle.race_pairs.specs.Digests.{IsDigest, most_of};
ghost use Rattle.text_buffers.specs.Builders.{Adds};
ghost use Rattle.race_explanations.specs.Scenes.{setting_of};
ghost use Rattle.trace_text.specs.Traces.{contents as trace_contents};
ghost use Rattle.race_explanations.specs.Extents.{most_pairs, most_shown};
ghost use Rattle.race_explanations.specs.Groups.{groups_text};
ghost use Rattle.race_explanations.specs.Explained.{pairs_left_out, summary};
ghost use Rattle.race_explanations.specs.Explained.{TellsEntries, IsExplanation, IsTraceExplanation, program_file};

use crate::case::{Case, cases_of};
use crate::extent::{Extent, most_pairs, most_shown, push_more_pairs};
use crate::group::{pairs_words, push_groups};
use crate::scene::Scene;
use crate::settings::{program_scene, trace_scene};
use program_text::Program;
use race_pairs::{Digest, Group, group_races};
use source_quotes::{Source, push_count};
use std::alloc::{AllocError, Global};
use text_buffers::TextBuilder;
use trace_notes::Notes;
use trace_text::Trace;

/// Adds how many refusals there were, at how many pairs, and among how many requests.
fn push_summary(text: &mut TextBuilder, scene: &Scene<'_, '_>)
    requires { (entries : List AnyEntry) × IsDigest entries scene.now.digest.now }
    ensures { (entries : List AnyEntry) → IsDigest entries scene.now.digest.now →
        Adds text.old (summary (setting_of scene.now).origin entries (known_count scene.now.digest.now.races.known)) text.new }
{
    push_count(text, scene.digest.refusals, "refusal");
    text.push_words(" at ");
    push_count(text, scene.digest.pair_count(), "pair");
    text.push_words(pairs_words(scene));
    text.push_words(", among ");
    push_count(text, scene.digest.lines.len(), "request");
    text.push_words("\n");
}

/// Tells of the entries of a scene, of these races in these groups.
fn tell_entries(
    alloc: Global,
    scene: &Scene<'_, '_>,
    extent: Extent,
    cases: &[Case<'_>],
    groups: &[Group],
) -> Result<Vec<u8>, AllocError>
    requires { (entries : List AnyEntry) × IsDigest entries scene.now.digest.now }
    ensures { IfOk result (λ told. (entries : List AnyEntry) → IsDigest entries scene.now.digest.now →
        told.items ≡ groups_text (setting_of scene.now) (most_shown extent) cases.now groups.now ++
        pairs_left_out (setting_of scene.now).origin (most_pairs extent) (known_count scene.now.digest.now.races.known) ++
        summary (setting_of scene.now).origin entries (known_count scene.now.digest.now.races.known)) }
{
    let mut text = TextBuilder::new(alloc);
    let shown = most_shown(extent);
    push_groups(alloc, &mut text, scene, cases, groups, shown);
    push_more_pairs(
        &mut text,
        most_pairs(extent),
        scene.digest.pair_count(),
        pairs_words(scene),
        "\n",
    );
    push_summary(&mut text, scene);
    text.end()
}

/// Tells of the entries of a scene.
fn explain_entries(
    alloc: Global,
    scene: &Scene<'_, '_>,
    extent: Extent,
) -> Result<Vec<u8>, AllocError>
    requires digest { (entries : List AnyEntry) × IsDigest entries scene.now.digest.now }
    requires most { most_of scene.now.digest.now ≡ most_pairs extent }
    ensures { IfOk result (λ told. (entries : List AnyEntry) → IsDigest entries scene.now.digest.now →
        TellsEntries (setting_of scene.now) extent entries told.items) }
{
    let cases = cases_of(alloc, scene.digest)?;
    let groups = group_races(alloc, scene.digest.races())?;
    tell_entries(alloc, scene, extent, cases.as_slice(), groups.as_slice())
}

/// Explains the entries of a run of a program to a person, of which this is the digest. The text tells each pair of lines that raced, in
/// groups of those that part at spawns on one line, in the order of their first refusals: the kind of the race, on what and how often, both
/// lines of the program's text with the spawns and calls that led there, the spawn where the two part, and what would order them. Of a group
/// of several it tells once what would order them, and of more than the extent shows, how many more there are; and at the end how many
/// refusals there were. The digest keeps as many pairs as the extent wants. Errors where there is no memory.
pub fn explanation<'s>(
    alloc: Global,
    is_painted: bool,
    extent: Extent,
    file: &'s str,
    text: &[u8],
    program: &'s Program<Global>,
    digest: &'s Digest,
) -> Result<Vec<u8>, AllocError>
    requires digest { (entries : List AnyEntry) × IsDigest entries digest.now }
    requires most { most_of digest.now ≡ most_pairs extent }
    ensures { IfOk result (λ told. (entries : List AnyEntry) → IsDigest entries digest.now →
        IsExplanation is_painted extent (program_file file.now (lines text.now) (contents program.now)) entries told.items) }
{
    let source = Source::new(alloc, text)?;
    let scene = program_scene(is_painted, file, &source, program, digest);
    explain_entries(alloc, &scene, extent)
}

/// Explains the entries of a trace with these notes to a person, of which this is the digest, as [`explanation`] does those of a run: each
/// place is told as its note says, with the function and the code there, or by its number where no note says it, and each cell and reducer
/// as its note says, or by its name. Errors where there is no memory.
pub fn trace_explanation<'s>(
    alloc: Global,
    is_painted: bool,
    extent: Extent,
    notes: &'s Notes,
    trace: &'s Trace<Global>,
    digest: &'s Digest,
) -> Result<Vec<u8>, AllocError>
    requires digest { (entries : List AnyEntry) × IsDigest entries digest.now }
    requires most { most_of digest.now ≡ most_pairs extent }
    ensures { IfOk result (λ told. (entries : List AnyEntry) → IsDigest entries digest.now →
        IsTraceExplanation is_painted extent notes.now (trace_contents trace.now).known entries told.items) }
{
    let scene = trace_scene(is_painted, notes, trace, digest);
    explain_entries(alloc, &scene, extent)
}
