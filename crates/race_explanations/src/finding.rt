//! What is told of a pair of places that raced in a trace, in pieces, so that pairs of several traces that are told alike are told once.

ghost use Rattle.std.specs.Prelude.{◌≡◌, List, map, IfOk, OnOk};
ghost use Rattle.std.specs.BTreeMap.{get};
ghost use Rattle.model_histories.specs.declared.answer.Entry.{Entry};
ghost use Rattle.race_pairs.specs.Digests.{IsDigest, most_of};
ghost use Rattle.race_pairs.specs.Encounters.{IsRaceOf, AreRacesOf};
ghost use Rattle.text_buffers.specs.Builders.{Adds};
ghost use Rattle.race_explanations.specs.Scenes.{setting_of};
ghost use Rattle.race_explanations.specs.Findings.{name_text, IsOfTrace, IsFinding};
ghost use Rattle.race_explanations.specs.Findings.{numbered_trace, AddsAll, AddsPairs};
ghost use Rattle.race_explanations.specs.ToldPlaces.{told_of, told_cmp, IsToldAs};

use crate::case::course_of;
use crate::lead::{Lead, lead_of};
use crate::merge::FindingList;
use crate::message::{push_body, push_help, push_own_help};
use crate::pieces::Pieces;
use crate::scene::Scene;
use crate::title::{display_names, push_kind, push_list};
use race_pairs::{Encounter, Race, Reason};
use std::alloc::{AllocError, Global};
use std::collections::{BTreeMap, BTreeSet};
use text_buffers::TextBuilder;

/// What is told of a pair of places, in pieces.
pub struct Finding {
    /// The kind of the race, and what was wrong.
    pub kind: Vec<u8>,
    /// What the first of the cells or reducers on which it was is told as.
    pub name: Vec<u8>,
    /// What all of them are told as.
    pub names: BTreeSet<Vec<u8>>,
    /// How often it came.
    pub times: usize,
    /// The two accesses with what led there, and where they part.
    pub body: Vec<u8>,
    /// What orders the two, where a sync is sure to.
    pub sure_help: Vec<u8>,
    /// The same, where it is not.
    pub open_help: Vec<u8>,
    /// The same where what orders all of a group is told once.
    pub own_help: Vec<u8>,
    /// The spawn at which the two strands part.
    pub lead: Option<Lead>,
}

/// Written out, so that what lets it go calls one function.
impl Drop for Finding {
    fn drop(self) {
        let Finding {
            kind: _,
            name: _,
            names: _,
            times: _,
            body: _,
            sure_help: _,
            open_help: _,
            own_help: _,
            lead: _,
        } = self;
    }
}

/// What findings that are joined are told as alike.
#[derive(PartialEq, Eq, PartialOrd, Ord, Drop)]
pub(crate) struct Told {
    kind: Vec<u8>,
    body: Vec<u8>,
    sure_help: Vec<u8>,
}

impl Finding {
    /// A copy of what it is told as.
    pub(crate) fn copy_told(&self) -> Result<Told, AllocError>
        ensures { IfOk result (IsToldAs self.now) }
    {
        Ok(Told {
            kind: self.kind.clone()?,
            body: self.body.clone()?,
            sure_help: self.sure_help.clone()?,
        })
    }

    /// The finding itself, and the place that is kept of what it is told as. Nothing is copied.
    pub(crate) fn find_alike(self, places: &BTreeMap<Told, usize>) -> (Finding, Option<usize>)
        ensures finding { result.0 ≡ self }
        ensures place { result.1 ≡ get told_cmp places.now (told_of self) }
    {
        let Finding {
            kind,
            name,
            names,
            times,
            body,
            sure_help,
            open_help,
            own_help,
            lead,
        } = self;
        let told = Told {
            kind,
            body,
            sure_help,
        };
        let place = places.get(&told).copied();
        let Told {
            kind,
            body,
            sure_help,
        } = told;
        let finding = Finding {
            kind,
            name,
            names,
            times,
            body,
            sure_help,
            open_help,
            own_help,
            lead,
        };
        (finding, place)
    }

    /// What its places are told as, and how often it came.
    pub(crate) fn into_counted(self) -> (BTreeSet<Vec<u8>>, usize)
        ensures names { result.0 ≡ self.names }
        ensures times { result.1 ≡ self.times }
    {
        let Finding {
            kind: _,
            name: _,
            names,
            times,
            body: _,
            sure_help: _,
            open_help: _,
            own_help: _,
            lead: _,
        } = self;
        (names, times)
    }
}

/// Adds the first of the cells or reducers on which it was.
fn push_first_name(
    alloc: Global,
    text: &mut TextBuilder,
    scene: &Scene<'_, '_>,
    reason: Reason,
    places: &[u32],
)
    ensures { Adds text.old (name_text (setting_of scene.now) reason places.now) text.new }
{
    let (first, _) = places.split_at(places.len().min(1));
    push_list(alloc, text, scene, reason, first);
}

/// The finding of a pair of places of the trace with this number.
pub fn finding_of(
    alloc: Global,
    scene: &Scene<'_, '_>,
    trace: usize,
    race: &Race,
) -> Result<Finding, AllocError>
    requires race { (entries : List Entry) × IsRaceOf entries scene.now.digest.now race.now }
    requires trace { IsOfTrace (setting_of scene.now).origin }
    ensures { IfOk result (λ finding. (entries : List Entry) → IsRaceOf entries scene.now.digest.now race.now →
        IsFinding (setting_of scene.now) trace entries race.now.pair finding) }
{
    let encounter = Encounter::new(alloc, scene.digest, race)?;
    let pair = &race.pair;
    let places = race.places.as_slice();
    let reason = pair.lines.reason;
    let lead = lead_of(
        alloc,
        scene,
        trace,
        pair.spawn,
        course_of(scene, &encounter),
    )?;
    let names = display_names(alloc, scene, reason, places)?;
    let mut pieces = Pieces::new(alloc);
    push_kind(&mut pieces.text, scene, reason);
    let kind = pieces.cut();
    push_first_name(alloc, &mut pieces.text, scene, reason, places);
    let name = pieces.cut();
    push_body(&mut pieces.text, scene, pair, &encounter);
    let body = pieces.cut();
    push_help(&mut pieces.text, scene, pair, &encounter, true);
    let sure_help = pieces.cut();
    push_help(&mut pieces.text, scene, pair, &encounter, false);
    let open_help = pieces.cut();
    push_own_help(&mut pieces.text, scene, pair, &encounter);
    let own_help = pieces.cut();
    let finding = Finding {
        kind,
        name,
        names,
        times: pair.times,
        body,
        sure_help,
        open_help,
        own_help,
        lead,
    };
    pieces.end()?;
    Ok(finding)
}

/// Adds the findings of pairs of the trace with this number.
fn add_all(
    alloc: Global,
    scene: &Scene<'_, '_>,
    trace: usize,
    races: &[Race],
    findings: &mut FindingList,
) -> Result<(), AllocError>
    requires races { (entries : List Entry) × AreRacesOf entries scene.now.digest.now races.now }
    requires trace { IsOfTrace (setting_of scene.now).origin }
    ensures { OnOk result ((entries : List Entry) → AreRacesOf entries scene.now.digest.now races.now →
        AddsAll (numbered_trace (setting_of scene.now) trace entries) (map (λ race. race.pair) races.now) findings.old findings.new) }
{
    for race in races {
        let finding = finding_of(alloc, scene, trace, race)?;
        findings.join(finding)?;
    }
    Ok(())
}

/// Adds the findings of the first pairs of the trace with this number, and answers how many pairs it has.
pub(crate) fn add_pairs(
    alloc: Global,
    scene: &Scene<'_, '_>,
    trace: usize,
    findings: &mut FindingList,
) -> Result<usize, AllocError>
    requires digest { (entries : List Entry) × IsDigest entries scene.now.digest.now }
    requires trace { IsOfTrace (setting_of scene.now).origin }
    ensures { IfOk result (λ count. (entries : List Entry) → IsDigest entries scene.now.digest.now →
        AddsPairs (numbered_trace (setting_of scene.now) trace entries) (most_of scene.now.digest.now) findings.old findings.new count) }
{
    add_all(alloc, scene, trace, scene.digest.races(), findings)?;
    Ok(scene.digest.pair_count())
}
