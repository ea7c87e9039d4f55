//! What is told of races whose strands part at spawns on one line.

ghost use Rattle.std.specs.Prelude.{◌≡◌, ◌++◌, List, None, false, IfOk, OnOk, IsTrue};
ghost use Rattle.model_histories.specs.declared.answer.Entry.{Entry};
ghost use Rattle.race_pairs.specs.declared.race.Pair.{Pair};
ghost use Rattle.race_pairs.specs.Digests.{IsDigest};
ghost use Rattle.text_buffers.specs.Builders.{Adds};
ghost use Rattle.race_explanations.specs.Scenes.{setting_of};
ghost use Rattle.race_explanations.specs.Cases.{AreCases};
ghost use Rattle.race_explanations.specs.SharedSyncs.{OneSyncOrders};
ghost use Rattle.race_explanations.specs.Groups.{alone_text, members_text, courses_of, nearer, first_among, is_ordered, has_round, leaves_open};
ghost use Rattle.race_explanations.specs.Groups.{pairs_words, beside_text, first_text, rounds_text, is_sure, is_sure_at, is_group_sure, sync_text, head_text, many_text, text_at_line, group_text, groups_text};

use crate::advice::{push_function, push_rounds, push_sync};
use crate::case::{Case, Course, course_of};
use crate::extent::push_more_pairs;
use crate::message::{push_case, push_member};
use crate::paths::push_line;
use crate::scene::{Origin, Scene};
use crate::words::are_in_one_call;
use race_pairs::Group;
use source_quotes::push_count;
use std::alloc::{AllocError, Global};
use text_buffers::TextBuilder;

/// What there are pairs of.
pub(crate) fn pairs_words(scene: &Scene<'_, '_>) -> &'static str
    ensures { result.now ≡ pairs_words (setting_of scene.now).origin }
{
    match &scene.origin {
        Origin::Program { .. } => " of lines",
        Origin::Trace { .. } => " of places",
    }
}

/// Tells of races as of such that are alone.
fn push_alone(
    alloc: Global,
    text: &mut TextBuilder,
    scene: &Scene<'_, '_>,
    cases: &[Case<'_>],
    is_sure: bool,
    places: &[usize],
)
    ensures { Adds text.old (alone_text (setting_of scene.now) cases.now is_sure places.now) text.new }
{
    for place in places {
        if let Some(case) = cases.get(*place) {
            push_case(alloc, text, scene, case, is_sure);
        }
    }
}

/// Tells of races as of several that part at one spawn.
fn push_members(
    alloc: Global,
    text: &mut TextBuilder,
    scene: &Scene<'_, '_>,
    cases: &[Case<'_>],
    places: &[usize],
)
    ensures { Adds text.old (members_text (setting_of scene.now) cases.now places.now) text.new }
{
    for place in places {
        if let Some(case) = cases.get(*place) {
            push_member(alloc, text, scene, case);
        }
    }
}

/// The courses of races. Errors where there is no memory.
fn courses_of(
    alloc: Global,
    scene: &Scene<'_, '_>,
    cases: &[Case<'_>],
    places: &[usize],
) -> Result<Vec<Course>, AllocError>
    ensures { IfOk result (λ courses. courses.items ≡ courses_of (setting_of scene.now) cases.now places.now) }
{
    let mut courses = Vec::new(alloc);
    for place in places {
        if let Some(case) = cases.get(*place) {
            courses.push(course_of(scene, &case.encounter))?;
        }
    }
    Ok(courses)
}

/// The one of the two whose spawner goes on to the lesser line, and the first where these are one. One whose spawner goes on to the line of
/// the spawn does not count.
fn nearer(best: Option<Course>, course: Course) -> Option<Course>
    ensures { result ≡ nearer best course }
{
    if course.is_round {
        return best;
    }
    match best {
        Some(best) if !(course.line < best.line) => Some(best),
        _ => Some(course),
    }
}

/// The first of those whose spawner goes on to the least line, which is another than that of the spawn.
fn first_among(courses: &[Course]) -> Option<Course>
    ensures { result ≡ first_among None courses.now }
{
    let mut best = None;
    for course in courses {
        best = nearer(best, *course);
    }
    best
}

/// Whether some spawner goes on to the line of the spawn.
fn has_round(courses: &[Course]) -> bool
    ensures { result ≡ has_round false courses.now }
{
    let mut found = false;
    for course in courses {
        found |= course.is_round;
    }
    found
}

/// Whether a sync before the line of the first one stands before where the other goes on too: on that line, or behind it in the same call.
fn is_ordered(first: Course, course: Course) -> bool
    ensures { result ≡ is_ordered first course }
{
    if course.line == first.line {
        return true;
    }
    if course.spawn == first.spawn {
        return !(course.onward < first.onward);
    }
    false
}

/// Whether some are not ordered by a sync before the line of the first one.
fn leaves_open(first: Course, courses: &[Course]) -> bool
    ensures { result ≡ leaves_open first false courses.now }
{
    let mut found = false;
    for course in courses {
        found |= !is_ordered(first, *course);
    }
    found
}

/// Whether a sync before the line of the first one is known to stand in the call that spawns, and orders them all.
fn is_sure(scene: &Scene<'_, '_>, line: u32, first: Course, courses: &[Course]) -> bool
    ensures { result ≡ is_sure (setting_of scene.now) line first courses.now }
{
    are_in_one_call(scene, line, first.line) && !leaves_open(first, courses)
}

/// Whether the sync that is told of the races at these places, which part at spawns on a line, orders them all.
fn is_sure_at(
    alloc: Global,
    scene: &Scene<'_, '_>,
    cases: &[Case<'_>],
    line: u32,
    places: &[usize],
) -> Result<bool, AllocError>
    ensures { IfOk result (λ is_sure. is_sure ≡ is_sure_at (setting_of scene.now) cases.now line places.now) }
{
    let courses = courses_of(alloc, scene, cases, places)?;
    match first_among(courses.as_slice()) {
        Some(first) => Ok(is_sure(scene, line, first, courses.as_slice())),
        None => Ok(false),
    }
}

/// Whether the sync that is told of the races of a group orders them all: of each race whose strands part, an entry on the line that is told
/// is one in place of which a sync orders them. Errors where there is no memory.
pub fn is_group_sure(
    alloc: Global,
    scene: &Scene<'_, '_>,
    cases: &[Case<'_>],
    group: &Group,
) -> Result<bool, AllocError>
    ensures value { IfOk result (λ is_sure. is_sure ≡ is_group_sure (setting_of scene.now) cases.now group.now) }
    ensures orders { IfOk result (λ is_sure. (entries : List Entry) (pairs : List Pair) → IsDigest entries scene.now.digest.now →
        AreCases entries pairs cases.now → IsTrue is_sure →
        OneSyncOrders (setting_of scene.now) entries cases.now group.now.places.items) }
{
    match group.spawn {
        Some(line) => is_sure_at(alloc, scene, cases, line, group.places.as_slice()),
        None => Ok(false),
    }
}

/// Adds beside what runs what is spawned on a line.
pub(crate) fn push_beside(
    text: &mut TextBuilder,
    scene: &Scene<'_, '_>,
    line: u32,
    first: Option<Course>,
)
    ensures { Adds text.old (beside_text (setting_of scene.now) line first) text.new }
{
    match first {
        Some(first) => {
            text.push_words("what ");
            push_function(text, scene, line);
            text.push_words(" does from ");
            push_line(text, scene, first.line);
            text.push_words(" on\n");
        }
        None => text.push_words("what is spawned there again\n"),
    }
}

/// Adds how many races part at one spawn, and what runs beside what.
fn push_first_line(
    text: &mut TextBuilder,
    scene: &Scene<'_, '_>,
    line: u32,
    count: usize,
    first: Option<Course>,
)
    ensures { Adds text.old (first_text (setting_of scene.now) line count first) text.new }
{
    push_count(text, count, "pair");
    text.push_words(pairs_words(scene));
    text.push_words(" part at one spawn: what is spawned at ");
    push_line(text, scene, line);
    text.push_words(" runs beside ");
    push_beside(text, scene, line, first);
}

/// Adds what orders the rounds among races that part at one spawn.
fn push_rounds_of(text: &mut TextBuilder, scene: &Scene<'_, '_>, courses: &[Course])
    ensures { Adds text.old (rounds_text (setting_of scene.now) courses.now) text.new }
{
    if has_round(courses) {
        push_rounds(text, scene);
    }
}

/// Adds the sync that orders the others.
fn push_sync_of(
    text: &mut TextBuilder,
    scene: &Scene<'_, '_>,
    line: u32,
    first: Option<Course>,
    courses: &[Course],
)
    ensures { Adds text.old (sync_text (setting_of scene.now) line first courses.now) text.new }
{
    match first {
        Some(first) => {
            let is_sure = is_sure(scene, line, first, courses);
            push_sync(text, scene, line, first.line, is_sure);
        }
        None => {}
    }
}

/// Adds how many races part at one spawn, and what orders them.
fn push_head(
    text: &mut TextBuilder,
    scene: &Scene<'_, '_>,
    line: u32,
    count: usize,
    courses: &[Course],
)
    ensures { Adds text.old (head_text (setting_of scene.now) line count courses.now) text.new }
{
    let first = first_among(courses);
    push_first_line(text, scene, line, count, first);
    push_rounds_of(text, scene, courses);
    push_sync_of(text, scene, line, first, courses);
    text.push_words("\n");
}

/// Tells of several races that part at one spawn.
fn push_many(
    alloc: Global,
    text: &mut TextBuilder,
    scene: &Scene<'_, '_>,
    cases: &[Case<'_>],
    line: u32,
    places: &[usize],
    most: usize,
)
    ensures { Adds text.old (many_text (setting_of scene.now) most cases.now line places.now) text.new }
{
    let Ok(courses) = courses_of(alloc, scene, cases, places) else {
        return text.fail();
    };
    push_head(text, scene, line, places.len(), courses.as_slice());
    let (shown, _) = places.split_at(places.len().min(most));
    push_members(alloc, text, scene, cases, shown);
    push_more_pairs(
        text,
        most,
        places.len(),
        pairs_words(scene),
        " that part there (--all shows them)\n\n",
    );
}

/// Tells of races that part at spawns on a line.
fn push_at_line(
    alloc: Global,
    text: &mut TextBuilder,
    scene: &Scene<'_, '_>,
    cases: &[Case<'_>],
    line: u32,
    places: &[usize],
    most: usize,
)
    ensures { Adds text.old (text_at_line (setting_of scene.now) most cases.now line places.now) text.new }
{
    if places.len() > 1 {
        return push_many(alloc, text, scene, cases, line, places, most);
    }
    let Ok(is_sure) = is_sure_at(alloc, scene, cases, line, places) else {
        return text.fail();
    };
    push_alone(alloc, text, scene, cases, is_sure, places);
}

/// Tells of a group of races.
fn push_group(
    alloc: Global,
    text: &mut TextBuilder,
    scene: &Scene<'_, '_>,
    cases: &[Case<'_>],
    group: &Group,
    most: usize,
)
    ensures { Adds text.old (group_text (setting_of scene.now) most cases.now group.now) text.new }
{
    match group.spawn {
        Some(line) => push_at_line(
            alloc,
            text,
            scene,
            cases,
            line,
            group.places.as_slice(),
            most,
        ),
        None => push_alone(alloc, text, scene, cases, false, group.places.as_slice()),
    }
}

/// Tells of groups of races. Of those that part at one spawn so many are shown at most.
pub(crate) fn push_groups(
    alloc: Global,
    text: &mut TextBuilder,
    scene: &Scene<'_, '_>,
    cases: &[Case<'_>],
    groups: &[Group],
    most: usize,
)
    ensures { Adds text.old (groups_text (setting_of scene.now) most cases.now groups.now) text.new }
{
    for group in groups {
        push_group(alloc, text, scene, cases, group, most);
    }
}
