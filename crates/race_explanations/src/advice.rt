//! Where two strands part, and what would order them.

ghost use Rattle.std.specs.Prelude.{◌≡◌, ◌++◌, Some};
ghost use Rattle.text_buffers.specs.Builders.{Adds};
ghost use Rattle.race_explanations.specs.Scenes.{setting_of};
ghost use Rattle.race_explanations.specs.Advice.{between, line_on, spawn_line, function_word, parted_text, opened_text};
ghost use Rattle.race_explanations.specs.Advice.{spawner_word, rounds_words, doing_word, doing_in, where_words};
ghost use Rattle.race_explanations.specs.Advice.{sync_place, order_words, missing_help, sync_help, move_help, put_help};
ghost use Rattle.race_explanations.specs.Advice.{help_begun, rounds_note, sync_note};

use crate::paths::{push_line, push_shown};
use crate::scene::{Origin, Scene};
use crate::words::{are_in_one_call, are_in_one_function, function_of, line_of};
use race_pairs::{OpenSpawn, Pair, Parting};
use source_quotes::{push_gutter, push_note_sign};
use text_buffers::TextBuilder;

/// Adds what stands between two quotes.
pub(crate) fn push_between(text: &mut TextBuilder, scene: &Scene<'_, '_>)
    ensures { Adds text.old (between (setting_of scene.now)) text.new }
{
    match &scene.origin {
        Origin::Program { .. } => {
            push_gutter(text, scene.look);
            text.push_words("\n");
        }
        Origin::Trace { .. } => {}
    }
}

/// The line of the one of a pair's two entries which is on this strand: the refused one, or else its witness.
pub fn line_on(pair: &Pair, refused: u32, strand: u32) -> u32
    ensures { result ≡ line_on pair.now refused strand }
{
    if refused == strand {
        pair.lines.line
    } else {
        pair.lines.witness_line
    }
}

/// Adds the line of a spawn and a sign below it.
fn push_spawn(text: &mut TextBuilder, scene: &Scene<'_, '_>, number: usize)
    ensures { Adds text.old (spawn_line (setting_of scene.now) number) text.new }
{
    push_between(text, scene);
    let line = line_of(scene, number);
    push_shown(text, scene, line, b'-');
}

/// Adds the name of a function.
fn push_name(text: &mut TextBuilder, name: &str)
    ensures { Adds text.old (spawner_word (Some name.now)) text.new }
{
    text.push_words("`");
    text.push_words(name);
    text.push_words("`");
}

/// Adds the name of the function in which a line stands, or that it is the one that spawns.
pub(crate) fn push_function(text: &mut TextBuilder, scene: &Scene<'_, '_>, line: u32)
    ensures { Adds text.old (function_word (setting_of scene.now) line) text.new }
{
    match function_of(scene, line) {
        Some(name) => push_name(text, name),
        None => text.push_words("the spawner"),
    }
}

/// Adds where two strands part at a spawn: whither the child comes, and how its spawner goes on.
pub(crate) fn push_parted(
    text: &mut TextBuilder,
    scene: &Scene<'_, '_>,
    pair: &Pair,
    refused: u32,
    parting: Option<Parting>,
    onward: u32,
)
    ensures { Adds text.old (parted_text (setting_of scene.now) pair.now refused parting onward) text.new }
{
    match parting {
        Some(parting) => {
            push_spawn(text, scene, parting.entry);
            let child_line = line_on(pair, refused, parting.by_child);
            text.push_words(" here they part: what is spawned comes to ");
            push_line(text, scene, child_line);
            text.push_words(", while ");
            push_function(text, scene, line_of(scene, parting.entry));
            text.push_words(" goes on to ");
            push_line(text, scene, onward);
            text.push_words("\n");
        }
        None => {}
    }
}

/// What would order the rounds of a loop.
fn rounds_words(scene: &Scene<'_, '_>) -> &'static str
    ensures { result.now ≡ rounds_words (setting_of scene.now).origin }
{
    match &scene.origin {
        Origin::Program { .. } => {
            "rounds of one `pfor` are never ordered: give each a cell of its own, or use a reducer"
        }
        Origin::Trace { .. } => {
            "what is spawned here again and again is not ordered: give each a place of its own, or use a reducer"
        }
    }
}

/// Adds what the function does in which a line stands, where it is known.
fn push_doing(text: &mut TextBuilder, scene: &Scene<'_, '_>, line: u32)
    ensures { Adds text.old (doing_in (setting_of scene.now).origin line) text.new }
{
    match function_of(scene, line) {
        Some(name) => {
            push_name(text, name);
            text.push_words(" does");
        }
        None => text.push_words("is done"),
    }
}

/// Adds where a sync stands that comes before a line.
fn push_where_before(text: &mut TextBuilder, scene: &Scene<'_, '_>, line: u32, onward: u32)
    ensures { Adds text.old (where_words (setting_of scene.now).origin line onward) text.new }
{
    if are_in_one_function(scene, line, onward) {
        text.push_words(" before ");
    } else {
        text.push_words(" between the spawn at ");
        push_line(text, scene, line);
        text.push_words(" and what ");
        push_doing(text, scene, onward);
        text.push_words(" at ");
    }
    push_line(text, scene, onward);
}

/// Adds a sync in the function that spawns on a line, before it goes on to another line.
pub(crate) fn push_sync_place(text: &mut TextBuilder, scene: &Scene<'_, '_>, line: u32, onward: u32)
    ensures { Adds text.old (sync_place (setting_of scene.now) line onward) text.new }
{
    text.push_words("a `sync` in ");
    push_function(text, scene, line);
    push_where_before(text, scene, line, onward);
}

/// What a sync does.
pub(crate) fn order_words(is_sure: bool) -> &'static str
    ensures { result.now ≡ order_words is_sure }
{
    if is_sure {
        " would order them"
    } else {
        " may order them"
    }
}

/// Adds that a sync orders strands.
fn push_missing(
    text: &mut TextBuilder,
    scene: &Scene<'_, '_>,
    line: u32,
    onward: u32,
    is_sure: bool,
)
    ensures { Adds text.old (missing_help (setting_of scene.now) line onward is_sure) text.new }
{
    push_sync_place(text, scene, line, onward);
    let is_sure = is_sure && are_in_one_call(scene, line, onward);
    text.push_words(order_words(is_sure));
}

/// Adds what orders two strands that part at a spawn on one line, behind which the spawner goes on to another.
pub(crate) fn push_sync_help(
    text: &mut TextBuilder,
    scene: &Scene<'_, '_>,
    line: u32,
    onward: u32,
    is_sure: bool,
)
    ensures { Adds text.old (sync_help (setting_of scene.now) line onward is_sure) text.new }
{
    if line == onward {
        text.push_words(rounds_words(scene));
    } else {
        push_missing(text, scene, line, onward, is_sure);
    }
}

/// Adds what makes a read on one line the same in every run, where a spawn on another is outstanding.
pub(crate) fn push_move_help(text: &mut TextBuilder, scene: &Scene<'_, '_>, at: u32, line: u32)
    ensures { Adds text.old (move_help (setting_of scene.now) at line) text.new }
{
    text.push_words("move what stands on ");
    push_line(text, scene, at);
    text.push_words(" behind the `sync` of ");
    push_function(text, scene, line);
    text.push_words(", where this spawn has ended");
}

/// What makes a get find something.
pub(crate) fn put_help() -> &'static str
    ensures { result.now ≡ put_help }
{
    "a `put` into it has to come first in the serial order"
}

/// Begins a note that helps.
pub(crate) fn begin_help(text: &mut TextBuilder, scene: &Scene<'_, '_>)
    ensures { Adds text.old (help_begun (setting_of scene.now)) text.new }
{
    push_note_sign(text, scene.look);
    text.push_words("help: ");
}

/// Adds a note on what would order the rounds of a loop.
pub(crate) fn push_rounds(text: &mut TextBuilder, scene: &Scene<'_, '_>)
    ensures { Adds text.old (rounds_note (setting_of scene.now)) text.new }
{
    begin_help(text, scene);
    text.push_words(rounds_words(scene));
    text.push_words("\n");
}

/// Adds a note on a sync in the function that spawns on a line, before it goes on to another line.
pub(crate) fn push_sync(
    text: &mut TextBuilder,
    scene: &Scene<'_, '_>,
    line: u32,
    onward: u32,
    is_sure: bool,
)
    ensures { Adds text.old (sync_note (setting_of scene.now) line onward is_sure) text.new }
{
    begin_help(text, scene);
    push_missing(text, scene, line, onward, is_sure);
    text.push_words("\n");
}

/// Adds which spawn makes the peers of two reads differ: it is outstanding at one of them and not at the other.
pub(crate) fn push_opened(
    text: &mut TextBuilder,
    scene: &Scene<'_, '_>,
    pair: &Pair,
    refused: u32,
    spawn: Option<OpenSpawn>,
)
    ensures { Adds text.old (opened_text (setting_of scene.now) pair.now refused spawn) text.new }
{
    match spawn {
        Some(spawn) => {
            push_spawn(text, scene, spawn.entry);
            let at = line_on(pair, refused, spawn.parallel);
            text.push_words(" this spawn is outstanding at ");
            push_line(text, scene, at);
            let not_at = line_on(pair, refused, spawn.ordered);
            text.push_words(", and not at ");
            push_line(text, scene, not_at);
            text.push_words("\n");
        }
        None => {}
    }
}
