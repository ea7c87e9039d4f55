//! What is told of a pair of lines that raced.

ghost use Rattle.std.specs.Prelude.{◌≡◌, ◌++◌, [], Bool, is_some, unwrap_or, IfOk};
ghost use Rattle.std.specs.Option.{option_map};
ghost use Rattle.text_buffers.specs.Builders.{Adds};
ghost use Rattle.race_explanations.specs.Scenes.{setting_of};
ghost use Rattle.race_explanations.specs.Settings.{Setting};
ghost use Rattle.race_explanations.specs.Advice.{help_note};
ghost use Rattle.race_explanations.specs.Messages.{witness_text, earlier_text, where_text, help_of, own_help_of};
ghost use Rattle.race_explanations.specs.Messages.{verdict_words, refused_text, case_text, member_text};
ghost use Rattle.race_explanations.specs.Findings.{body_text};

use crate::advice::{
    begin_help, line_on, push_between, push_move_help, push_opened, push_parted, push_sync_help,
    put_help,
};
use crate::case::Case;
use crate::paths::{push_access, push_chain};
use crate::scene::Scene;
use crate::title::push_title;
use crate::words::line_of;
use race_pairs::{Encounter, Pair, Reason};
use std::alloc::{AllocError, Global};
use text_buffers::TextBuilder;

/// What is told of the refused access on its own line.
fn verdict_words(reason: Reason) -> &'static str
    ensures { result.now ≡ verdict_words reason }
{
    match reason {
        Reason::Race { .. } => ", may run before it or after it\n",
        Reason::ViewRead => ", has other peers\n",
        Reason::Unset => ", finds nothing\n",
    }
}

/// Adds the earlier access, and what led there.
fn push_witness(text: &mut TextBuilder, scene: &Scene<'_, '_>, pair: &Pair, encounter: &Encounter)
    ensures { Adds text.old (witness_text (setting_of scene.now) pair.now encounter.now) text.new }
{
    push_access(text, scene, pair.witness, encounter.witness, b'-');
    text.push_words("\n");
    push_chain(text, scene, encounter.witness_chain.as_slice());
    push_between(text, scene);
}

/// Adds what is told of the earlier access, where there is one.
fn push_earlier(text: &mut TextBuilder, scene: &Scene<'_, '_>, pair: &Pair, encounter: &Encounter)
    ensures { Adds text.old (earlier_text pair.now.lines.reason (setting_of scene.now) pair.now encounter.now) text.new }
{
    match pair.lines.reason {
        Reason::Race { .. } | Reason::ViewRead => push_witness(text, scene, pair, encounter),
        Reason::Unset => {}
    }
}

/// Adds the refused access, and what led there.
fn push_refused(text: &mut TextBuilder, scene: &Scene<'_, '_>, pair: &Pair, encounter: &Encounter)
    ensures { Adds text.old (refused_text (setting_of scene.now) pair.now encounter.now) text.new }
{
    push_access(text, scene, pair.first, Some(encounter.refused), b'^');
    text.push_words(verdict_words(pair.lines.reason));
    push_chain(text, scene, encounter.chain.as_slice());
}

/// Adds where the two strands of a race part, and of a view-read race which spawn is outstanding at one of them alone.
fn push_where(text: &mut TextBuilder, scene: &Scene<'_, '_>, pair: &Pair, encounter: &Encounter)
    ensures { Adds text.old (where_text pair.now.lines.reason (setting_of scene.now) pair.now encounter.now) text.new }
{
    let refused = encounter.refused.strand;
    match pair.lines.reason {
        Reason::Race { .. } => {
            let onward = line_of(scene, encounter.onward.unwrap_or(0));
            push_parted(text, scene, pair, refused, encounter.parting, onward);
        }
        Reason::ViewRead => {
            push_opened(text, scene, pair, refused, encounter.outstanding);
        },
        Reason::Unset => {}
    }
}

/// Adds the two accesses with what led there, and where they part.
pub(crate) fn push_body(
    text: &mut TextBuilder,
    scene: &Scene<'_, '_>,
    pair: &Pair,
    encounter: &Encounter,
)
    ensures { Adds text.old (body_text (setting_of scene.now) pair.now encounter.now) text.new }
{
    push_earlier(text, scene, pair, encounter);
    push_refused(text, scene, pair, encounter);
    push_where(text, scene, pair, encounter);
}

/// Adds what would order the two of one of several races that part at one spawn, where it is not told of all of them.
pub(crate) fn push_own_help(
    text: &mut TextBuilder,
    scene: &Scene<'_, '_>,
    pair: &Pair,
    encounter: &Encounter,
)
    ensures { Adds text.old (help_note (setting_of scene.now) (own_help_of pair.now.lines.reason (setting_of scene.now) pair.now encounter.now)) text.new }
{
    match pair.lines.reason {
        Reason::Race { .. } => {}
        Reason::ViewRead | Reason::Unset => push_help(text, scene, pair, encounter, false),
    }
}

/// Whether it is known what orders the two.
fn has_help(pair: &Pair, encounter: &Encounter) -> bool
    ensures { (setting : Setting) (is_sure : Bool) → result ≡ is_some (help_of pair.now.lines.reason setting pair.now encounter.now is_sure) }
{
    match pair.lines.reason {
        Reason::Race { .. } => encounter.parting.is_some(),
        Reason::ViewRead => encounter.outstanding.is_some(),
        Reason::Unset => true,
    }
}

/// Adds what orders the two, in a sentence without an end, where it is known.
fn push_help_words(
    text: &mut TextBuilder,
    scene: &Scene<'_, '_>,
    pair: &Pair,
    encounter: &Encounter,
    is_sure: bool,
)
    ensures { Adds text.old (unwrap_or (help_of pair.now.lines.reason (setting_of scene.now) pair.now encounter.now is_sure) []) text.new }
{
    match pair.lines.reason {
        Reason::Race { .. } => {
            if let Some(parting) = encounter.parting {
                let line = line_of(scene, parting.entry);
                let onward = line_of(scene, encounter.onward.unwrap_or(0));
                push_sync_help(text, scene, line, onward, is_sure);
            }
        }
        Reason::ViewRead => {
            if let Some(spawn) = encounter.outstanding {
                let at = line_on(pair, encounter.refused.strand, spawn.parallel);
                push_move_help(text, scene, at, line_of(scene, spawn.entry));
            }
        }
        Reason::Unset => text.push_words(put_help()),
    }
}

/// Adds a note on what orders the two.
pub(crate) fn push_help(
    text: &mut TextBuilder,
    scene: &Scene<'_, '_>,
    pair: &Pair,
    encounter: &Encounter,
    is_sure: bool,
)
    ensures { Adds text.old (help_note (setting_of scene.now) (help_of pair.now.lines.reason (setting_of scene.now) pair.now encounter.now is_sure)) text.new }
{
    if has_help(pair, encounter) {
        begin_help(text, scene);
        push_help_words(text, scene, pair, encounter, is_sure);
        text.push_words("\n");
    }
}

/// What orders the two accesses of a race, in a sentence without an end, where it is known; of a sync it is told that it would, where the
/// caller is sure, or else that it may. Errors where there is no memory.
pub fn help_of(
    alloc: Global,
    scene: &Scene<'_, '_>,
    pair: &Pair,
    encounter: &Encounter,
    is_sure: bool,
) -> Result<Option<Vec<u8>>, AllocError>
    ensures { IfOk result (λ help. option_map (λ words. words.items) help ≡ help_of pair.now.lines.reason (setting_of scene.now) pair.now encounter.now is_sure) }
{
    if !has_help(pair, encounter) {
        return Ok(None);
    }
    let mut text = TextBuilder::new(alloc);
    push_help_words(&mut text, scene, pair, encounter, is_sure);
    Ok(Some(text.end()?))
}

/// Adds all that is told of a race.
pub(crate) fn push_case(
    alloc: Global,
    text: &mut TextBuilder,
    scene: &Scene<'_, '_>,
    case: &Case<'_>,
    is_sure: bool,
)
    ensures { Adds text.old (case_text (setting_of scene.now) case.now is_sure) text.new }
{
    let pair = &case.race.pair;
    let encounter = &case.encounter;
    push_title(alloc, text, scene, pair, case.race.places.as_slice());
    push_body(text, scene, pair, encounter);
    push_help(text, scene, pair, encounter, is_sure);
    text.push_words("\n");
}

/// Adds all that is told of one of several races that part at one spawn.
pub(crate) fn push_member(
    alloc: Global,
    text: &mut TextBuilder,
    scene: &Scene<'_, '_>,
    case: &Case<'_>,
)
    ensures { Adds text.old (member_text (setting_of scene.now) case.now) text.new }
{
    let pair = &case.race.pair;
    let encounter = &case.encounter;
    push_title(alloc, text, scene, pair, case.race.places.as_slice());
    push_body(text, scene, pair, encounter);
    push_own_help(text, scene, pair, encounter);
    text.push_words("\n");
}
