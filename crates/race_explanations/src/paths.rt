//! An access shown where it stands, and the spawns and calls that led there.

ghost use Rattle.std.specs.Prelude.{◌++◌, codes};
ghost use Rattle.std.specs.Option.{option_map};
ghost use Rattle.trace_notes.specs.Places.{place_parts};
ghost use Rattle.text_buffers.specs.Builders.{Adds};
ghost use Rattle.race_explanations.specs.Scenes.{setting_of};
ghost use Rattle.race_explanations.specs.Names.{statement, function_at};
ghost use Rattle.race_explanations.specs.Paths.{site_words, line_words, function_within, place_within, within};
ghost use Rattle.race_explanations.specs.Paths.{code_line, code_at, placed, shown_line, statement_text};
ghost use Rattle.race_explanations.specs.Paths.{access_text, link_text, links_text, links_left_out, chain_text};

use crate::scene::{Origin, Scene};
use crate::words::{function_in, line_of, side_word, way_word};
use race_pairs::{Link, Side};
use source_quotes::{push_gutter, push_left_sign, push_marked_line, push_note_sign, statement_of};
use text_buffers::TextBuilder;
use trace_notes::{Notes, Place};

/// How many spawns and calls are told at most.
const LINKS: usize = 8;

/// Adds the place that a mark stands for, or its number where no note says it.
fn push_site(text: &mut TextBuilder, place: Option<Place<'_>>, line: u32)
    ensures { Adds text.old (site_words (option_map place_parts place.entry) line) text.new }
{
    match place {
        Some(place) => text.push_words(place.location),
        None => text.push_number("line ", u64::from(line)),
    }
}

/// Adds where a line is, in a sentence.
pub(crate) fn push_line(text: &mut TextBuilder, scene: &Scene<'_, '_>, line: u32)
    ensures { Adds text.old (line_words (setting_of scene.now).origin line) text.new }
{
    match &scene.origin {
        Origin::Program { .. } => text.push_number("line ", u64::from(line)),
        Origin::Trace { notes } => push_site(text, notes.place_of(line), line),
    }
}

/// Adds in which function a place is, where its note says so.
fn push_place_within(text: &mut TextBuilder, place: Option<Place<'_>>)
    ensures { Adds text.old (place_within (option_map place_parts place.entry)) text.new }
{
    let Some(
        Place {
            function: Some(name),
            ..
        },
    ) = place
    else {
        return;
    };
    text.push_words(", in ");
    text.push_words(name);
}

/// Adds in which function a line stands.
fn push_within(text: &mut TextBuilder, scene: &Scene<'_, '_>, line: u32)
    ensures { Adds text.old (within (setting_of scene.now).origin line) text.new }
{
    match &scene.origin {
        Origin::Program { program, .. } => {
            text.push_words(", in `");
            text.push_words(function_in(program, line));
            text.push_words("`");
        }
        Origin::Trace { notes } => push_place_within(text, notes.place_of(line)),
    }
}

/// Adds the code at a place, where its note has it.
fn push_code(text: &mut TextBuilder, scene: &Scene<'_, '_>, place: Option<Place<'_>>)
    ensures { Adds text.old (code_at scene.now.look (option_map place_parts place.entry)) text.new }
{
    let Some(
        Place {
            code: Some(code),
            ..
        },
    ) = place
    else {
        return;
    };
    push_gutter(text, scene.look);
    text.push_words("  ");
    text.push_words(code);
    text.push_words("\n");
}

/// Adds a place of a trace, the code there, and the left of what is told of it.
fn push_placed(text: &mut TextBuilder, scene: &Scene<'_, '_>, place: Option<Place<'_>>, line: u32)
    ensures { Adds text.old (placed scene.now.look (option_map place_parts place.entry) line) text.new }
{
    push_left_sign(text, scene.look, "-->");
    text.push_words(" ");
    push_site(text, place, line);
    push_place_within(text, place);
    text.push_words("\n");
    push_code(text, scene, place);
    push_left_sign(text, scene.look, " =");
}

/// Adds a line where it stands, and below it this sign.
pub(crate) fn push_shown(text: &mut TextBuilder, scene: &Scene<'_, '_>, line: u32, mark: u8)
    ensures { Adds text.old (shown_line (setting_of scene.now) line mark) text.new }
{
    match &scene.origin {
        Origin::Program { source, .. } => push_marked_line(text, scene.look, source, line, mark),
        Origin::Trace { notes } => push_placed(text, scene, notes.place_of(line), line),
    }
}

/// Adds the line of the entry with this number, and below it what its access did and in which function, where it is not told yet.
pub(crate) fn push_access(
    text: &mut TextBuilder,
    scene: &Scene<'_, '_>,
    number: usize,
    side: Option<Side>,
    mark: u8,
)
    ensures { Adds text.old (access_text (setting_of scene.now) number side mark) text.new }
{
    let line = line_of(scene, number);
    push_shown(text, scene, line, mark);
    text.push_words(" this ");
    text.push_words(side_word(side));
    match &scene.origin {
        Origin::Program { .. } => push_within(text, scene, line),
        Origin::Trace { .. } => {}
    }
}

/// Adds the statement of a line, behind what is told of it.
fn push_statement(text: &mut TextBuilder, scene: &Scene<'_, '_>, line: u32)
    ensures { Adds text.old (statement_text (setting_of scene.now).origin line) text.new }
{
    match &scene.origin {
        Origin::Program { source, .. } => {
            text.push_words(": ");
            text.push_bytes(statement_of(source.line(line)));
        }
        Origin::Trace { .. } => {}
    }
    text.push_words("\n");
}

/// Adds a spawn or a call on the way to an access.
fn push_link(text: &mut TextBuilder, scene: &Scene<'_, '_>, link: Link)
    ensures { Adds text.old (link_text (setting_of scene.now) link) text.new }
{
    let line = line_of(scene, link.entry);
    push_note_sign(text, scene.look);
    text.push_words(way_word(link.way));
    text.push_words(" at ");
    push_line(text, scene, line);
    push_within(text, scene, line);
    push_statement(text, scene, line);
}

/// Adds spawns and calls on the way to an access.
fn push_links(text: &mut TextBuilder, scene: &Scene<'_, '_>, chain: &[Link])
    ensures { Adds text.old (links_text (setting_of scene.now) chain.now) text.new }
{
    for link in chain {
        push_link(text, scene, *link);
    }
}

/// Adds how many spawns and calls are left out.
fn push_links_left_out(text: &mut TextBuilder, scene: &Scene<'_, '_>, count: usize)
    ensures { Adds text.old (links_left_out (setting_of scene.now) count) text.new }
{
    if count <= LINKS {
        return;
    }
    push_note_sign(text, scene.look);
    text.push_number("", (count - LINKS) as u64);
    text.push_words(" more spawns and calls led there\n");
}

/// Adds the innermost eight of the spawns and calls that led to an access, and how many more there are.
pub(crate) fn push_chain(text: &mut TextBuilder, scene: &Scene<'_, '_>, chain: &[Link])
    ensures { Adds text.old (chain_text (setting_of scene.now) chain.now) text.new }
{
    let (told, _) = chain.split_at(chain.len().min(LINKS));
    push_links(text, scene, told);
    push_links_left_out(text, scene, chain.len());
}
