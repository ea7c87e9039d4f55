//! Findings of several traces, told together where they part at one spawn.

ghost use Rattle.std.specs.Prelude.{◌≡◌, ◌<◌, ◌++◌, [], ◌∷◌, ℕ, List, None, length, map, false, IfOk, OnOk, IsTrue};
ghost use Rattle.std.specs.Global.{Vec as AnyVec};
ghost use Rattle.std.specs.Option.{option_map};
ghost use Rattle.model_histories.specs.declared.answer.Entry.{Entry};
ghost use Rattle.race_explanations.specs.Settings.{Setting};
ghost use Rattle.race_explanations.specs.FoundGroups.{lead_at, groups_of};
ghost use Rattle.race_explanations.specs.GroupNumbers.{with_member, with_place, number_at, AreNumbersOf};
ghost use Rattle.race_explanations.specs.FoundGroups.{before_place, nearer_place, first_place, is_behind, is_ordered_place};
ghost use Rattle.race_explanations.specs.FoundGroups.{leaves_open_place, round_at, round_place, is_sure_first, are_sure};
ghost use Rattle.race_explanations.specs.FoundSyncs.{AreFoundIn, OneSyncOrdersFound};

use crate::finding::Finding;
use crate::lead::Lead;
use std::alloc::{AllocError, Global};
use std::collections::BTreeMap;

/// The spawn at which the finding at a place parts.
pub(crate) fn lead_at(findings: &[Finding], place: usize) -> Option<&Lead>
    ensures { option_map (λ lead. lead.now) result ≡ lead_at findings.now place }
{
    match findings.get(place) {
        Some(
            Finding {
                lead: Some(lead),
                ..
            },
        ) => Some(lead),
        _ => None,
    }
}

/// The number of the group whose findings part at the spawn that is told so.
fn find_spawn(numbers: &BTreeMap<&[u8], usize>, spawn: &[u8]) -> Option<usize>
    ensures { result ≡ number_at numbers.now spawn.now }
{
    numbers.get(spawn).copied()
}

/// Adds a group of one finding.
fn begin_group(alloc: Global, groups: &mut Vec<Vec<usize>>, place: usize) -> Result<(), AllocError>
    ensures { OnOk result (map (λ (group : AnyVec ℕ). group.items) groups.new.items ≡
        map (λ (group : AnyVec ℕ). group.items) groups.old.items ++ (place ∷ []) ∷ []) }
{
    let mut places = Vec::new(alloc);
    places.push(place)?;
    groups.push(places)?;
    Ok(())
}

/// Adds a finding to the group with a number.
fn join_group(groups: &mut Vec<Vec<usize>>, number: usize, place: usize) -> Result<(), AllocError>
    requires { number < length groups.old.items }
    ensures { OnOk result (map (λ (group : AnyVec ℕ). group.items) groups.new.items ≡
        with_member (map (λ (group : AnyVec ℕ). group.items) groups.old.items) number place) }
{
    groups[number].push(place)?;
    Ok(())
}

/// Adds the finding at a place: to the first group whose findings part at the same spawn, or as a group behind all.
fn add_place<'a>(
    alloc: Global,
    findings: &'a [Finding],
    place: usize,
    groups: &mut Vec<Vec<usize>>,
    numbers: &mut BTreeMap<&'a [u8], usize>,
) -> Result<(), AllocError>
    requires { AreNumbersOf findings.now (map (λ (group : AnyVec ℕ). group.items) groups.old.items) numbers.old }
    ensures groups { OnOk result (map (λ (group : AnyVec ℕ). group.items) groups.new.items ≡
        with_place findings.now (map (λ (group : AnyVec ℕ). group.items) groups.old.items) place) }
    ensures numbers { OnOk result (AreNumbersOf findings.now (map (λ (group : AnyVec ℕ). group.items) groups.new.items) numbers.new) }
{
    let Some(lead) = lead_at(findings, place) else {
        return begin_group(alloc, groups, place);
    };
    let spawn = lead.spawn.as_slice();
    if let Some(number) = find_spawn(numbers, spawn) {
        return join_group(groups, number, place);
    }
    numbers.insert(spawn, groups.len())?;
    begin_group(alloc, groups, place)
}

/// The groups of findings that part at one spawn, by their places, in the order of their first findings. Errors where there is no memory.
pub fn group_findings(alloc: Global, findings: &[Finding]) -> Result<Vec<Vec<usize>>, AllocError>
    ensures { IfOk result (λ groups. map (λ (group : AnyVec ℕ). group.items) groups.items ≡ groups_of findings.now) }
{
    let mut groups = Vec::new(alloc);
    let mut numbers = BTreeMap::new(alloc);
    for place in 0..findings.len() {
        add_place(alloc, findings, place, &mut groups, &mut numbers)?;
    }
    Ok(groups)
}

/// The one of the two whose spawner goes on to the lesser line, and the first where these are one.
fn before_place(findings: &[Finding], best: Option<usize>, place: usize, line: u32) -> usize
    ensures { result ≡ before_place findings.now best place line }
{
    let Some(best) = best else {
        return place;
    };
    match lead_at(findings, best) {
        Some(lead) if line < lead.course.line => place,
        _ => best,
    }
}

/// The same of the finding at a place, where its spawner goes on to another line than that of the spawn.
fn nearer_place(findings: &[Finding], best: Option<usize>, place: usize) -> Option<usize>
    ensures { result ≡ nearer_place findings.now best place }
{
    match lead_at(findings, place) {
        Some(lead) if !lead.course.is_round => {
            Some(before_place(findings, best, place, lead.course.line))
        }
        _ => best,
    }
}

/// The place of the first finding whose spawner goes on to the least line, which is another than that of the spawn.
pub(crate) fn first_place(findings: &[Finding], places: &[usize]) -> Option<usize>
    ensures { result ≡ first_place findings.now None places.now }
{
    let mut best = None;
    for place in places {
        best = nearer_place(findings, best, *place);
    }
    best
}

/// Whether the other goes on behind the first one in one call of one trace.
fn is_behind(first: &Lead, other: &Lead) -> bool
    ensures { result ≡ is_behind first.now other.now }
{
    if other.trace == first.trace && other.course.spawn == first.course.spawn {
        return !(other.course.onward < first.course.onward);
    }
    false
}

/// Whether a sync before the place of the first one stands before where the spawner of the other goes on.
fn is_ordered_place(findings: &[Finding], first: usize, other: usize) -> bool
    ensures { result ≡ is_ordered_place findings.now first other }
{
    match (lead_at(findings, first), lead_at(findings, other)) {
        (Some(first), Some(other)) => {
            other.onward.as_slice() == first.onward.as_slice() || is_behind(first, other)
        }
        _ => false,
    }
}

/// Whether some are not ordered by a sync before the place of the first one.
fn leaves_open(findings: &[Finding], first: usize, places: &[usize]) -> bool
    ensures { result ≡ leaves_open_place findings.now first false places.now }
{
    let mut found = false;
    for place in places {
        found |= !is_ordered_place(findings, first, *place);
    }
    found
}

/// The place, where the spawner of its finding goes on to the line of the spawn.
fn round_at(findings: &[Finding], place: usize) -> Option<usize>
    ensures { result ≡ round_at findings.now place }
{
    match lead_at(findings, place) {
        Some(lead) if lead.course.is_round => Some(place),
        _ => None,
    }
}

/// The place of the first finding whose spawner goes on to the line of the spawn.
pub(crate) fn round_place(findings: &[Finding], places: &[usize]) -> Option<usize>
    ensures { result ≡ round_place findings.now None places.now }
{
    let mut found = None;
    for place in places {
        found = found.or(round_at(findings, *place));
    }
    found
}

/// Whether the sync that is told of the first one is known to stand in the call that spawns, and orders all at these places.
pub(crate) fn is_sure_first(findings: &[Finding], first: Option<usize>, places: &[usize]) -> bool
    ensures { result ≡ is_sure_first findings.now first places.now }
{
    let Some(first) = first else {
        return false;
    };
    match lead_at(findings, first) {
        Some(lead) => lead.is_within && !leaves_open(findings, first, places),
        None => false,
    }
}

/// Whether the sync that is told of the findings of a group orders them all: of each whose strands part, in its trace, an entry at a place
/// that is told so is one in place of which a sync orders them.
pub fn are_sure(findings: &[Finding], places: &[usize]) -> bool
    ensures value { result ≡ are_sure findings.now places.now }
    ensures orders { (settings : ℕ → Setting) (traces : ℕ → List Entry) → AreFoundIn settings traces findings.now → IsTrue result →
        OneSyncOrdersFound settings traces findings.now places.now }
{
    is_sure_first(findings, first_place(findings, places), places)
}
