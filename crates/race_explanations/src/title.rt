//! The first lines of what is told of a race.

ghost use Rattle.std.specs.Prelude.{◌≡◌, ◌≤◌, ◌∷◌, ℕ, List, IfOk, map, string_bytes};
ghost use Rattle.std.specs.Global.{Vec};
ghost use Rattle.trace_notes.specs.Notes.{noted_text};
ghost use Rattle.text_buffers.specs.Builders.{Adds};
ghost use Rattle.race_explanations.specs.Scenes.{setting_of};
ghost use Rattle.race_explanations.specs.Titles.{sort_word, reason_words, name_of_place, noted_name, told_name, spaced_name, other_names};
ghost use Rattle.race_explanations.specs.Titles.{listed_names, told_names, name_count, most_names, left_out, names_text, headline, title_text};
ghost use Rattle.race_explanations.specs.Findings.{kind_text};

use crate::scene::{Origin, Scene};
use access_table::word;
use race_pairs::{Pair, Reason};
use source_quotes::{Paint, push_count, push_painted, push_place};
use std::alloc::{AllocError, Global};
use std::collections::BTreeSet;
use text_buffers::TextBuilder;
use trace_notes::Notes;
use trace_text::{put_cell, put_word, reducer_name};

/// The sort of a refusal.
fn sort_word(reason: Reason) -> &'static str
    ensures { result.now ≡ sort_word reason }
{
    match reason {
        Reason::Race { .. } => "race",
        Reason::ViewRead => "view-read race",
        Reason::Unset => "unset get",
    }
}

/// Adds what was wrong.
fn push_reason(text: &mut TextBuilder, reason: Reason)
    ensures { Adds text.old (reason_words reason) text.new }
{
    match reason {
        Reason::Race { earlier, refused } => {
            text.push_words(word(earlier));
            text.push_words("-");
            text.push_words(word(refused));
            text.push_words(" on");
        }
        Reason::ViewRead => text.push_words("reads with other peers of"),
        Reason::Unset => text.push_words("nothing was put before into"),
    }
}

/// A space and the name of what a refusal was about.
fn spaced_name(
    alloc: Global,
    scene: &Scene<'_, '_>,
    reason: Reason,
    place: u32,
) -> Result<String, AllocError>
    ensures { IfOk result (λ name. string_bytes name ≡ 32 ∷ name_of_place scene.now.mems.now scene.now.reducers.now reason place) }
{
    let mut name = String::new(alloc);
    match reason {
        Reason::Race { .. } => put_cell(&mut name, scene.mems, place)?,
        Reason::ViewRead | Reason::Unset => put_word(
            &mut name,
            reducer_name(scene.reducers, place),
        )?,
    }
    Ok(name)
}

/// Adds what the notes of a trace say of a name, or the name.
fn push_noted(text: &mut TextBuilder, notes: &Notes, name: &str)
    ensures { Adds text.old (noted_name (noted_text notes.now name.now) name.now) text.new }
{
    match notes.text_of(name) {
        Some(noted) => text.push_words(noted),
        None => text.push_words(name),
    }
}

/// Adds what a name behind a space is told as.
fn push_display_name(text: &mut TextBuilder, scene: &Scene<'_, '_>, spaced: &str)
    ensures { (name : List ℕ) → spaced.now ≡ 32 ∷ name → Adds text.old (32 ∷ told_name (setting_of scene.now).origin name) text.new }
{
    match (&scene.origin, spaced.split_once(' ')) {
        (Origin::Trace { notes }, Some((_, name))) => {
            text.push_words(" ");
            push_noted(text, notes, name);
        }
        _ => text.push_words(spaced),
    }
}

/// Adds a space and what the name of what a refusal was about is told as.
fn push_name(
    alloc: Global,
    text: &mut TextBuilder,
    scene: &Scene<'_, '_>,
    reason: Reason,
    place: u32,
)
    ensures { Adds text.old (spaced_name (setting_of scene.now) reason place) text.new }
{
    match spaced_name(alloc, scene, reason, place) {
        Ok(name) => push_display_name(text, scene, name.as_str()),
        Err(_) => text.fail(),
    }
}

/// Adds names behind the first.
fn push_others(
    alloc: Global,
    text: &mut TextBuilder,
    scene: &Scene<'_, '_>,
    reason: Reason,
    places: &[u32],
)
    ensures { Adds text.old (other_names (setting_of scene.now) reason places.now) text.new }
{
    for place in places {
        text.push_words(",");
        push_name(alloc, text, scene, reason, *place);
    }
}

/// Adds names.
pub(crate) fn push_list(
    alloc: Global,
    text: &mut TextBuilder,
    scene: &Scene<'_, '_>,
    reason: Reason,
    places: &[u32],
)
    ensures { Adds text.old (listed_names (setting_of scene.now) reason places.now) text.new }
{
    let Some((first, others)) = places.split_first() else {
        return;
    };
    push_name(alloc, text, scene, reason, *first);
    push_others(alloc, text, scene, reason, others);
}

/// What the name of what a refusal was about is told as, behind a space.
fn display_name(
    alloc: Global,
    scene: &Scene<'_, '_>,
    reason: Reason,
    place: u32,
) -> Result<Vec<u8>, AllocError>
    ensures { IfOk result (λ name. name.items ≡ spaced_name (setting_of scene.now) reason place) }
{
    let mut text = TextBuilder::new(alloc);
    push_name(alloc, &mut text, scene, reason, place);
    text.end()
}

/// What the places are told as, each once.
pub fn display_names(
    alloc: Global,
    scene: &Scene<'_, '_>,
    reason: Reason,
    places: &[u32],
) -> Result<BTreeSet<Vec<u8>>, AllocError>
    ensures { IfOk result (λ names. map (λ (name : Vec ℕ). name.items) names.keys ≡ told_names (setting_of scene.now) reason places.now) }
{
    let mut names = BTreeSet::new(alloc);
    for place in places {
        names.insert(display_name(alloc, scene, reason, *place)?)?;
    }
    Ok(names)
}

/// How many names are told at most: what a name stands for in a trace is long.
fn most_names(scene: &Scene<'_, '_>) -> usize
    ensures value { result ≡ most_names (setting_of scene.now).origin }
    ensures range { result ≤ 8 }
{
    match &scene.origin {
        Origin::Program { .. } => 8,
        Origin::Trace { .. } => 1,
    }
}

/// Adds how many names are left out.
pub(crate) fn push_left_out(text: &mut TextBuilder, most: usize, count: usize)
    ensures { Adds text.old (left_out most count) text.new }
{
    if count <= most {
        return;
    }
    text.push_number(" and ", (count - most) as u64);
    text.push_words(" more");
}

/// Adds how many names are left out.
fn push_rest(
    alloc: Global,
    text: &mut TextBuilder,
    scene: &Scene<'_, '_>,
    reason: Reason,
    places: &[u32],
    most: usize,
)
    ensures { Adds text.old (left_out most (name_count (setting_of scene.now).origin (setting_of scene.now) reason places.now)) text.new }
{
    match &scene.origin {
        Origin::Program { .. } => push_left_out(text, most, places.len()),
        Origin::Trace { .. } => match display_names(alloc, scene, reason, places) {
            Ok(names) => push_left_out(text, most, names.len()),
            Err(_) => text.fail(),
        },
    }
}

/// Adds the names of some, and how many more there are.
fn push_names(
    alloc: Global,
    text: &mut TextBuilder,
    scene: &Scene<'_, '_>,
    reason: Reason,
    places: &[u32],
)
    ensures { Adds text.old (names_text (setting_of scene.now) reason places.now) text.new }
{
    let most = most_names(scene);
    let (told, _) = places.split_at(places.len().min(most));
    push_list(alloc, text, scene, reason, told);
    push_rest(alloc, text, scene, reason, places, most);
}

/// Adds the kind of the race, and what was wrong.
pub(crate) fn push_kind(text: &mut TextBuilder, scene: &Scene<'_, '_>, reason: Reason)
    ensures { Adds text.old (kind_text (setting_of scene.now) reason) text.new }
{
    push_painted(text, scene.look, Paint::Red, sort_word(reason));
    text.push_words(": ");
    push_reason(text, reason);
}

/// Adds the kind of the race, what it was on, and how often it came.
fn push_headline(
    alloc: Global,
    text: &mut TextBuilder,
    scene: &Scene<'_, '_>,
    pair: &Pair,
    places: &[u32],
)
    ensures { Adds text.old (headline (setting_of scene.now) pair.now places.now) text.new }
{
    let reason = pair.lines.reason;
    push_kind(text, scene, reason);
    push_names(alloc, text, scene, reason, places);
    text.push_words(", ");
    push_count(text, pair.times, "time");
}

/// Adds the kind of the race, what it was on, how often it came, and where a program's line is; a place of a trace is told with the access.
pub(crate) fn push_title(
    alloc: Global,
    text: &mut TextBuilder,
    scene: &Scene<'_, '_>,
    pair: &Pair,
    places: &[u32],
)
    ensures { Adds text.old (title_text (setting_of scene.now) pair.now places.now) text.new }
{
    push_headline(alloc, text, scene, pair, places);
    text.push_words("\n");
    match &scene.origin {
        Origin::Program { file, .. } => push_place(text, scene.look, file, pair.lines.line),
        Origin::Trace { .. } => {}
    }
}
