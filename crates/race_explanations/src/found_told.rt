//! What is told of groups of findings of several traces.

ghost use Rattle.std.specs.Prelude.{ℕ, flat_map};
ghost use Rattle.std.specs.Global.{Vec as AnyVec};
ghost use Rattle.std.specs.Option.{option_map};
ghost use Rattle.text_buffers.specs.Builders.{Adds};
ghost use Rattle.race_explanations.specs.FindingTexts.{finding_with, finding_text};
ghost use Rattle.race_explanations.specs.FoundGroups.{spawn_words, beside_words, found_beside, found_first, found_rounds};
ghost use Rattle.race_explanations.specs.FoundGroups.{found_sync, found_head, found_member, found_many, found_alone, found_group, found_groups_text};

use crate::advice::order_words;
use crate::extent::push_more_pairs;
use crate::finding::Finding;
use crate::found_groups::{
    are_sure, first_place, group_findings, is_sure_first, lead_at, round_place,
};
use crate::lead::Lead;
use crate::title::push_left_out;
use source_quotes::push_count;
use std::alloc::Global;
use text_buffers::TextBuilder;

/// Tells of a finding, and this last.
fn tell_with(text: &mut TextBuilder, finding: &Finding, help: &[u8])
    ensures { Adds text.old (finding_with finding.now help.now) text.new }
{
    text.push_bytes(finding.kind.as_slice());
    text.push_bytes(finding.name.as_slice());
    push_left_out(text, 1, finding.names.len());
    text.push_words(", ");
    push_count(text, finding.times, "time");
    text.push_words("\n");
    text.push_bytes(finding.body.as_slice());
    text.push_bytes(help);
    text.push_words("\n");
}

/// Tells of a finding as of one that is alone.
fn tell_finding(text: &mut TextBuilder, finding: &Finding, is_sure: bool)
    ensures { Adds text.old (finding_text finding.now is_sure) text.new }
{
    if is_sure {
        tell_with(text, finding, finding.sure_help.as_slice());
    } else {
        tell_with(text, finding, finding.open_help.as_slice());
    }
}

/// Tells the place of a spawn.
fn tell_spawn(text: &mut TextBuilder, lead: Option<&Lead>)
    ensures { Adds text.old (spawn_words (option_map (λ lead. lead.now) lead.entry)) text.new }
{
    match lead {
        Some(lead) => text.push_bytes(lead.spawn.as_slice()),
        None => {}
    }
}

/// Tells beside what runs what is spawned there.
fn tell_beside_lead(text: &mut TextBuilder, lead: Option<&Lead>)
    ensures { Adds text.old (beside_words (option_map (λ lead. lead.now) lead.entry)) text.new }
{
    match lead {
        Some(lead) => text.push_bytes(lead.beside.as_slice()),
        None => text.push_words("what is spawned there again\n"),
    }
}

/// Tells beside what runs what is spawned there.
fn tell_beside(text: &mut TextBuilder, findings: &[Finding], first: Option<usize>)
    ensures { Adds text.old (found_beside findings.now first) text.new }
{
    match first {
        Some(first) => tell_beside_lead(text, lead_at(findings, first)),
        None => tell_beside_lead(text, None),
    }
}

/// Tells how many part at one spawn, and what runs beside what.
fn tell_first(
    text: &mut TextBuilder,
    findings: &[Finding],
    head: usize,
    count: usize,
    first: Option<usize>,
)
    ensures { Adds text.old (found_first findings.now head count first) text.new }
{
    push_count(text, count, "pair");
    text.push_words(" of places part at one spawn: what is spawned at ");
    tell_spawn(text, lead_at(findings, head));
    text.push_words(" runs beside ");
    tell_beside(text, findings, first);
}

/// Tells what would order those whose spawner goes on to the line of the spawn.
fn tell_rounds(text: &mut TextBuilder, findings: &[Finding], place: Option<usize>)
    ensures { Adds text.old (found_rounds findings.now place) text.new }
{
    let Some(place) = place else {
        return;
    };
    if let Some(lead) = lead_at(findings, place) {
        text.push_bytes(lead.rounds.as_slice());
    }
}

/// Tells the sync that orders the others.
fn tell_sync(text: &mut TextBuilder, findings: &[Finding], first: Option<usize>, places: &[usize])
    ensures { Adds text.old (found_sync findings.now first places.now) text.new }
{
    let Some(place) = first else {
        return;
    };
    if let Some(lead) = lead_at(findings, place) {
        text.push_bytes(lead.sync.as_slice());
        text.push_words(order_words(is_sure_first(findings, first, places)));
        text.push_words("\n");
    }
}

/// Tells how many part at one spawn, and what orders them.
fn tell_head(text: &mut TextBuilder, findings: &[Finding], head: usize, places: &[usize])
    ensures { Adds text.old (found_head findings.now head places.now) text.new }
{
    let first = first_place(findings, places);
    tell_first(text, findings, head, places.len(), first);
    tell_rounds(text, findings, round_place(findings, places));
    tell_sync(text, findings, first, places);
    text.push_words("\n");
}

/// Tells of findings as of several.
fn tell_members(text: &mut TextBuilder, findings: &[Finding], places: &[usize])
    ensures { Adds text.old (flat_map (found_member findings.now) places.now) text.new }
{
    for place in places {
        if let Some(finding) = findings.get(*place) {
            tell_with(text, finding, finding.own_help.as_slice());
        }
    }
}

/// Tells of several findings that part at one spawn.
fn tell_many(
    text: &mut TextBuilder,
    findings: &[Finding],
    head: usize,
    places: &[usize],
    most: usize,
)
    ensures { Adds text.old (found_many most findings.now head places.now) text.new }
{
    tell_head(text, findings, head, places);
    let (shown, _) = places.split_at(places.len().min(most));
    tell_members(text, findings, shown);
    push_more_pairs(
        text,
        most,
        places.len(),
        " of places",
        " that part there (--all shows them)\n\n",
    );
}

/// Tells of a finding that is alone.
fn tell_alone(text: &mut TextBuilder, findings: &[Finding], head: usize, places: &[usize])
    ensures { Adds text.old (found_alone findings.now head places.now) text.new }
{
    match findings.get(head) {
        Some(finding) => tell_finding(text, finding, are_sure(findings, places)),
        None => {}
    }
}

/// Tells of a group, of which so many are shown at most.
fn tell_group(text: &mut TextBuilder, findings: &[Finding], places: &[usize], most: usize)
    ensures { Adds text.old (found_group most findings.now places.now) text.new }
{
    let [head, rest @ ..] = places else {
        return;
    };
    if rest.len() > 0 {
        tell_many(text, findings, *head, places, most);
    } else {
        tell_alone(text, findings, *head, places);
    }
}

/// Tells of groups.
fn tell_each(text: &mut TextBuilder, findings: &[Finding], groups: &[Vec<usize>], most: usize)
    ensures { Adds text.old (flat_map (λ (group : AnyVec ℕ). found_group most findings.now group.items) groups.now) text.new }
{
    for group in groups {
        tell_group(text, findings, group.as_slice(), most);
    }
}

/// Tells of findings in groups of those that part at one spawn, of each of which so many are shown at most.
pub(crate) fn tell_groups(alloc: Global, text: &mut TextBuilder, findings: &[Finding], most: usize)
    ensures { Adds text.old (found_groups_text most findings.now) text.new }
{
    match group_findings(alloc, findings) {
        Ok(groups) => tell_each(text, findings, groups.as_slice(), most),
        Err(_) => text.fail(),
    }
}
