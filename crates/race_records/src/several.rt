//! What is found in several traces, told together.

ghost use Rattle.std.specs.Prelude.{◌≡◌, ◌==◌, ◌++◌, false, List, IfOk, OnOk, length, map, string_bytes};
ghost use Rattle.model_histories.specs.declared.answer.Entry.{Entry};
ghost use Rattle.race_pairs.specs.Digests.{IsDigest, most_of};
ghost use Rattle.race_pairs.specs.Encounters.{IsRaceOf, AreRacesOf};
ghost use Rattle.trace_text.specs.Traces.{contents as trace_contents};
ghost use Rattle.serde_json.specs.View.{view};
ghost use Rattle.race_explanations.specs.Scenes.{setting_of};
ghost use Rattle.race_explanations.specs.Explained.{trace_setting};
ghost use Rattle.race_explanations.specs.Extents.{most_pairs};
ghost use Rattle.race_explanations.specs.Findings.{IsOfTrace, with_finding};
ghost use Rattle.race_records.specs.Values.{IsTextOf};
ghost use Rattle.race_records.specs.Forms.{in_form};
ghost use Rattle.race_records.specs.RaceViews.{race_parts};
ghost use Rattle.race_records.specs.SummaryViews.{summary_parts};
ghost use Rattle.race_records.specs.Several.{with_race, IsRace, AddsKept, nothing_recorded, untold_told, untold_in, AddsPairs, AddsTrace};
ghost use Rattle.race_records.specs.Several.{found_group, found_groups, races_told, all_of, outcome_of, summary_recorded, recorded_told};
ghost use Rattle.race_records.specs.Keeping.{AddsPair};
ghost use Rattle.race_records.specs.SeveralViews.{kept_of, recorded_of};

use crate::document::{Outcome, Summary, document_value};
use crate::form::{RecordForm, record_text};
use crate::race::{Race, race_of, race_value};
use crate::value::text_value;
use crate::warning::none_warned;
use race_explanations::{
    Extent, Finding, FindingList, Scene, are_sure, finding_of, group_findings, most_pairs,
    trace_scene,
};
use race_pairs::{Digest, Encounter};
use sarif_logs::Object;
use serde_json::Value;
use std::alloc::{AllocError, Global};
use trace_notes::Notes;
use trace_text::Trace;

/// What is found in several traces: pairs of places that raced, each of those that a person is told alike once. Neither the traces nor
/// their entries are kept.
pub struct Records {
    /// The findings that a person is told.
    findings: FindingList,
    /// Of each finding what is told of its first pair.
    races: Vec<Race>,
    /// The files of which not all pairs are kept.
    untold: Vec<Value>,
    refusals: usize,
    requests: usize,
    traces: usize,
}

/// Written out, so that what lets it go calls one function.
impl Drop for Records {
    fn drop(self) {
        let Records {
            findings: _,
            races: _,
            untold: _,
            refusals: _,
            requests: _,
            traces: _,
        } = self;
    }
}

/// Adds a finding with its race: to the first that is told alike, or behind all.
fn keep(
    findings: &mut FindingList,
    races: &mut Vec<Race>,
    finding: Finding,
    race: Race,
) -> Result<(), AllocError>
    ensures findings { OnOk result (findings.new ≡ with_finding findings.old finding) }
    ensures races { OnOk result (map race_parts races.new.items ≡ with_race findings.old (with_finding findings.old finding)
        (map race_parts races.old.items) (race_parts race)) }
{
    let before = findings.len();
    findings.join(finding)?;
    if before < findings.len() {
        races.push(race)?;
    }
    Ok(())
}

/// What is told of a pair.
fn pair_race(
    alloc: Global,
    scene: &Scene<'_, '_>,
    race: &race_pairs::Race,
) -> Result<Race, AllocError>
    requires { (entries : List Entry) × IsRaceOf entries scene.now.digest.now race.now }
    ensures { IfOk result (λ told. (entries : List Entry) → IsRaceOf entries scene.now.digest.now race.now →
        IsRace (setting_of scene.now) entries race.now.pair (race_parts told)) }
{
    let encounter = Encounter::new(alloc, scene.digest, race)?;
    race_of(alloc, scene, &race.pair, &encounter)
}

/// Adds a pair of the trace with this number.
fn keep_pair(
    alloc: Global,
    scene: &Scene<'_, '_>,
    trace: usize,
    race: &race_pairs::Race,
    findings: &mut FindingList,
    races: &mut Vec<Race>,
) -> Result<(), AllocError>
    requires race { (entries : List Entry) × IsRaceOf entries scene.now.digest.now race.now }
    requires trace { IsOfTrace (setting_of scene.now).origin }
    ensures { OnOk result ((entries : List Entry) → IsRaceOf entries scene.now.digest.now race.now →
        AddsPair (setting_of scene.now) trace entries (kept_of findings.old races.old.items) race.now.pair
        (kept_of findings.new races.new.items)) }
{
    let finding = finding_of(alloc, scene, trace, race)?;
    let told = pair_race(alloc, scene, race)?;
    keep(findings, races, finding, told)
}

/// Adds pairs of the trace with this number.
fn keep_all(
    alloc: Global,
    scene: &Scene<'_, '_>,
    trace: usize,
    found: &[race_pairs::Race],
    findings: &mut FindingList,
    races: &mut Vec<Race>,
) -> Result<(), AllocError>
    requires found { (entries : List Entry) × AreRacesOf entries scene.now.digest.now found.now }
    requires trace { IsOfTrace (setting_of scene.now).origin }
    ensures { OnOk result ((entries : List Entry) → AreRacesOf entries scene.now.digest.now found.now →
        AddsKept (setting_of scene.now) trace entries (kept_of findings.old races.old.items) (map (λ race. race.pair) found.now)
        (kept_of findings.new races.new.items)) }
{
    for race in found {
        keep_pair(alloc, scene, trace, race, findings, races)?;
    }
    Ok(())
}

/// A file, with how many of its pairs are not kept.
fn untold_value(alloc: Global, file: &str, count: usize) -> Result<Value, AllocError>
    ensures { IfOk result (λ value. view value ≡ untold_told file.now count) }
{
    Object::new(alloc)
        .with_made("file", text_value(alloc, file.as_bytes()))
        .with("pairs", Value::from(count))
        .finish()
}

/// Adds a file of which not all pairs are kept, where it is one.
fn push_untold(
    alloc: Global,
    untold: &mut Vec<Value>,
    file: &str,
    most: usize,
    count: usize,
) -> Result<(), AllocError>
    ensures { OnOk result (map view untold.new.items ≡ map view untold.old.items ++ untold_in file.now most count) }
{
    if count <= most {
        return Ok(());
    }
    let value = untold_value(alloc, file, count - most)?;
    Ok(untold.push(value)?)
}

/// Adds what is told of the findings of the group with this number, by whether a sync orders them all.
fn add_group(
    alloc: Global,
    findings: &[Finding],
    races: &[Race],
    group: usize,
    places: &[usize],
    values: &mut Vec<Value>,
) -> Result<(), AllocError>
    ensures { OnOk result (map view values.new.items ≡ map view values.old.items ++ found_group findings.now (map race_parts races.now) group places.now) }
{
    let is_sure = are_sure(findings, places);
    for place in places {
        if let Some(finding) = findings.get(*place)
            && let Some(race) = races.get(*place)
        {
            let names = &finding.names;
            values.push(race_value(alloc, race, names, finding.times, group, is_sure)?)?;
        }
    }
    Ok(())
}

/// What is told of groups, which are numbered from 1 on.
fn group_values(
    alloc: Global,
    findings: &[Finding],
    races: &[Race],
    groups: &[Vec<usize>],
) -> Result<Vec<Value>, AllocError>
    ensures { IfOk result (λ values. map view values.items ≡ found_groups findings.now (map race_parts races.now) 1 (map (λ group. group.items) groups.now)) }
{
    let mut values = Vec::new(alloc);
    for (before, group) in groups.iter().enumerate() {
        let places = group.as_slice();
        add_group(alloc, findings, races, before + 1, places, &mut values)?;
    }
    Ok(values)
}

/// What is told of findings, in groups of those that part at one spawn.
fn races_value(
    alloc: Global,
    findings: &[Finding],
    races: &[Race],
) -> Result<Vec<Value>, AllocError>
    ensures { IfOk result (λ values. map view values.items ≡ races_told findings.now (map race_parts races.now)) }
{
    let groups = group_findings(alloc, findings)?;
    group_values(alloc, findings, races, groups.as_slice())
}

/// How several traces came out.
fn outcome_of(refusals: usize) -> Outcome
    ensures { result ≡ outcome_of refusals }
{
    if refusals > 0 {
        Outcome::Raced
    } else {
        Outcome::Clean
    }
}

/// How many findings there are, where all are kept.
fn all_of(untold: &[Value], count: usize) -> Option<usize>
    ensures { result ≡ all_of (map view untold.now) count }
{
    match untold {
        [] => Some(count),
        _ => None,
    }
}

/// A copy of values.
fn copy_of(alloc: Global, values: &[Value]) -> Result<Vec<Value>, AllocError>
    ensures { IfOk result (λ copy. map view copy.items ≡ map view values.now) }
{
    Vec::from_clones(alloc, values)
}

impl Records {
    /// Nothing is found.
    pub fn new(alloc: Global) -> Records
        ensures { recorded_of result ≡ nothing_recorded }
    {
        Records {
            findings: FindingList::new(alloc),
            races: Vec::new(alloc),
            untold: Vec::new(alloc),
            refusals: 0,
            requests: 0,
            traces: 0,
        }
    }

    /// Adds the first pairs of a scene of a trace, and answers how many pairs it has.
    fn add_pairs(&mut self, alloc: Global, scene: &Scene<'_, '_>) -> Result<usize, AllocError>
        requires digest { (entries : List Entry) × IsDigest entries scene.now.digest.now }
        requires trace { IsOfTrace (setting_of scene.now).origin }
        ensures { IfOk result (λ count. (entries : List Entry) → IsDigest entries scene.now.digest.now →
            AddsPairs (setting_of scene.now) entries (most_of scene.now.digest.now) (recorded_of self.old) (recorded_of self.new) count) }
    {
        keep_all(
            alloc,
            scene,
            self.traces,
            scene.digest.races(),
            &mut self.findings,
            &mut self.races,
        )?;
        Ok(scene.digest.pair_count())
    }

    /// Adds what is found in a trace, of whose entries this is the digest: as many of its first pairs of places as the digest keeps, which is what
    /// the extent wants, joined as [`Findings::add`](race_explanations::Findings::add) joins them. Errors where there is no memory.
    pub fn add<'s>(
        &mut self,
        alloc: Global,
        extent: Extent,
        file: &str,
        notes: &'s Notes,
        trace: &'s Trace<Global>,
        digest: &'s Digest,
    ) -> Result<(), AllocError>
        requires digest { (entries : List Entry) × IsDigest entries digest.now }
        requires most { most_of digest.now ≡ most_pairs extent }
        ensures { OnOk result ((entries : List Entry) → IsDigest entries digest.now →
            AddsTrace extent file.now (trace_setting false notes.now (trace_contents trace.now).known entries) entries (recorded_of self.old) (recorded_of self.new)) }
    {
        let scene = trace_scene(false, notes, trace, digest);
        let count = self.add_pairs(alloc, &scene)?;
        push_untold(alloc, &mut self.untold, file, most_pairs(extent), count)?;
        self.refusals = self.refusals.saturating_add(digest.refusals);
        self.requests = self.requests.saturating_add(digest.lines.len());
        self.traces = self.traces.saturating_add(1);
        Ok(())
    }

    /// Whether nothing was refused.
    pub fn is_clean(&self) -> bool
        ensures { result ≡ ((recorded_of self.now).refusals == 0) }
    {
        self.refusals == 0
    }

    /// How the traces came out.
    fn summary(&self) -> Summary
        ensures { summary_parts result ≡ summary_recorded (recorded_of self.now) }
    {
        Summary {
            outcome: outcome_of(self.refusals),
            pairs: all_of(self.untold.as_slice(), self.findings.len()),
            refusals: self.refusals,
            requests: self.requests,
            traces: self.traces,
        }
    }

    /// What is told of all traces, as one value.
    fn document(&self, alloc: Global, extent: Extent, runs: &[String]) -> Result<Value, AllocError>
        ensures { IfOk result (λ value. view value ≡ recorded_told extent (recorded_of self.now) (map string_bytes runs.now)) }
    {
        let most = most_pairs(extent);
        let (findings, _) = self
            .findings
            .as_slice()
            .split_at(self.findings.len().min(most));
        let (first, _) = self.races.as_slice().split_at(self.races.len().min(most));
        let races = races_value(alloc, findings, first)?;
        let untold = copy_of(alloc, self.untold.as_slice())?;
        document_value(
            alloc,
            self.summary(),
            Value::Null,
            races,
            runs,
            untold,
            &none_warned(alloc),
        )
    }

    /// What is told of all traces in a form: each of the first pairs, with the counts of all that a person is told alike, and what
    /// these runs recorded. Errors where there is no memory.
    pub fn record(
        &self,
        alloc: Global,
        form: RecordForm,
        extent: Extent,
        runs: &[String],
    ) -> Result<Vec<u8>, AllocError>
        ensures { IfOk result (λ text. IsTextOf (in_form form (recorded_told extent (recorded_of self.now) (map string_bytes runs.now))) text.items) }
    {
        let document = self.document(alloc, extent, runs)?;
        record_text(alloc, form, &document)
    }
}
