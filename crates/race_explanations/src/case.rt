//! Races, each with how its two accesses came about.

ghost use Rattle.std.specs.Prelude.{◌≡◌, List, map, IfOk};
ghost use Rattle.model_histories.specs.declared.answer.Entry.{Entry};
ghost use Rattle.race_pairs.specs.Digests.{IsDigest};
ghost use Rattle.race_pairs.specs.Encounters.{IsRaceOf, AreRacesOf};
ghost use Rattle.race_explanations.specs.Scenes.{setting_of};
ghost use Rattle.race_explanations.specs.Cases.{IsCase, AreCases, spawn_of, onward_of, course_of};

use crate::scene::Scene;
use crate::words::line_of;
use race_pairs::{Digest, Encounter, Race};
use std::alloc::{AllocError, Global};

/// A race with how its two accesses came about.
pub struct Case<'r> {
    /// The race.
    pub race: &'r Race,
    /// How its first refusal and the witness of that came about.
    pub encounter: Encounter,
}

/// Written out, so that what lets it go calls one function.
impl<'r> Drop for Case<'r> {
    fn drop(self) {
        let Case {
            race: _,
            encounter: _,
        } = self;
    }
}

/// Where the two strands of a race part, and where the spawner goes on.
#[derive(Clone, Copy)]
pub(crate) struct Course {
    /// The number of the entry of the spawn.
    pub(crate) spawn: usize,
    /// The number of the entry to which its spawner goes on.
    pub(crate) onward: usize,
    /// The line of that entry.
    pub(crate) line: u32,
    /// Whether it is on the line of the spawn.
    pub(crate) is_round: bool,
}

/// The number of the entry at which the two strands of a race part, and 0 where they part at none.
fn spawn_of(encounter: &Encounter) -> usize
    ensures { result ≡ spawn_of encounter.now }
{
    match encounter.parting {
        Some(parting) => parting.entry,
        None => 0,
    }
}

/// Where the two strands of a race part, and where the spawner goes on.
pub(crate) fn course_of(scene: &Scene<'_, '_>, encounter: &Encounter) -> Course
    ensures { result ≡ course_of (setting_of scene.now) encounter.now }
{
    let spawn = spawn_of(encounter);
    let onward = encounter.onward.unwrap_or(0);
    let line = line_of(scene, onward);
    Course {
        spawn,
        onward,
        line,
        is_round: line == line_of(scene, spawn),
    }
}

/// A race of a digest with how its two accesses came about. Errors where there is no memory.
fn case_of<'r>(alloc: Global, digest: &'r Digest, race: &'r Race) -> Result<Case<'r>, AllocError>
    requires { (entries : List Entry) × IsRaceOf entries digest.now race.now }
    ensures { IfOk result (λ case. (entries : List Entry) → IsRaceOf entries digest.now race.now → IsCase entries race.now.pair case) }
{
    let encounter = Encounter::new(alloc, digest, race)?;
    Ok(Case { race, encounter })
}

/// The cases of the races of a digest. Errors where there is no memory.
fn all_cases<'r>(
    alloc: Global,
    digest: &'r Digest,
    races: &'r [Race],
) -> Result<Vec<Case<'r>>, AllocError>
    requires { (entries : List Entry) × AreRacesOf entries digest.now races.now }
    ensures { IfOk result (λ cases. (entries : List Entry) → AreRacesOf entries digest.now races.now →
        AreCases entries (map (λ race. race.pair) races.now) cases.items) }
{
    let mut cases = Vec::new(alloc);
    for race in races {
        cases.push(case_of(alloc, digest, race)?)?;
    }
    Ok(cases)
}

/// The cases of the races that a digest keeps, in their order. Errors where there is no memory.
pub fn cases_of<'r>(alloc: Global, digest: &'r Digest) -> Result<Vec<Case<'r>>, AllocError>
    requires { (entries : List Entry) × IsDigest entries digest.now }
    ensures { IfOk result (λ cases. (entries : List Entry) → IsDigest entries digest.now →
        AreCases entries (map (λ race. race.pair) digest.now.races.list.items) cases.items) }
{
    all_cases(alloc, digest, digest.races())
}
