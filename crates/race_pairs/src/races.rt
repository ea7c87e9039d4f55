//! The first pairs of lines that raced, and which pairs there are.

ghost use Rattle.std.specs.Prelude.{◌≡◌, ◌<◌, ◌≤◌, ◌^◌, ℕ, suc, true, List, IfOk, OnOk, length};
ghost use Rattle.model_histories.specs.declared.answer.Entry.{Entry as AnyEntry};
ghost use Rattle.model_histories.specs.Shapes.{most_entries};
ghost use Rattle.std.specs.List.{All};
ghost use Rattle.race_pairs.specs.Races.{IsCounted, IsBegunBy, IsBegun};
ghost use Rattle.race_pairs.specs.PairKeys.{PartOn, HasSpawn};
ghost use Rattle.race_pairs.specs.Known.{has_own, known_count};
ghost use Rattle.race_pairs.specs.Kept.{AreKept, IsFreshBy, IsSeen, AreStrandsOf};

use crate::known::Known;
use crate::lineage::Lineage;
use crate::race::{Pair, PairKey, Race};
use crate::sighting::{Sighting, line_in};
use std::alloc::{AllocError, Global};

/// How many pairs are shown where not all are wanted.
pub const PAIRS: usize = 20;

/// The first pairs of lines that raced, in the order of their first refusals, and which pairs there are.
pub struct Races {
    /// How many pairs are kept whole.
    pub most: usize,
    pub list: Vec<Race>,
    pub known: Known,
}

/// Written out, so that what lets them go calls one function.
impl Drop for Races {
    fn drop(self) {
        let Races {
            most: _,
            list: _,
            known: _,
        } = self;
    }
}

/// The line of the spawn at which two strands part, and None where they part at none. The lines are those of the entries.
fn line_between(lineage: &Lineage, lines: &[u32], strand: u32, other: u32) -> Option<u32>
    requires { (told : List AnyEntry) × AreStrandsOf told lineage.now lines.now strand other }
    ensures { (told : List AnyEntry) → AreStrandsOf told lineage.now lines.now strand other → PartOn told strand other result }
{
    match lineage.parting(strand, other) {
        Some(parting) => Some(line_in(lines, parting.entry)),
        None => None,
    }
}

/// The line of the spawn at which the strands of a refusal and of its witness part. The lines are those of the entries up to it.
fn spawn_line(lineage: &Lineage, lines: &[u32], sighting: Sighting) -> Option<u32>
    requires { (told : List AnyEntry) × (last : ℕ) × IsSeen told last lineage.now lines.now sighting }
    ensures { (told : List AnyEntry) (last : ℕ) → IsSeen told last lineage.now lines.now sighting → HasSpawn told (suc last) result }
{
    let Some(witness) = sighting.witness else {
        return None;
    };
    line_between(lineage, lines, sighting.refused.strand, witness.strand)
}

/// The race that a refusal begins.
fn begin_race(alloc: Global, sighting: Sighting, spawn: Option<u32>) -> Result<Race, AllocError>
    ensures { IfOk result (IsBegunBy sighting spawn) }
{
    let pair = Pair {
        lines: sighting.lines,
        spawn,
        first: sighting.number,
        witness: sighting.witness_number,
        times: 1,
    };
    Race::new(
        alloc,
        pair,
        sighting.refused,
        sighting.witness,
        sighting.place,
    )
}

/// Counts a refusal of the pair before which so many were known, on this place, where that pair is kept.
fn count_in(races: &mut Vec<Race>, before: usize, place: u32) -> Result<(), AllocError>
    requires { All (λ race. race.pair.times < 2 ^ 32) races.old.items }
    ensures { OnOk result (IsCounted before place races.old.items races.new.items) }
{
    let kept = races.len();
    if before >= kept {
        return Ok(());
    }
    races[before].count(place)
}

/// Adds the race of a refusal whose pair was not known, unless so many are kept.
fn begin_in(
    alloc: Global,
    races: &mut Vec<Race>,
    most: usize,
    sighting: Sighting,
    spawn: Option<u32>,
) -> Result<(), AllocError>
    ensures { OnOk result (IsBegun most sighting spawn races.old.items races.new.items) }
{
    if races.len() >= most {
        return Ok(());
    }
    races.push(begin_race(alloc, sighting, spawn)?)?;
    Ok(())
}

impl Races {
    /// None, of a history of which no pair is known; so many are kept whole.
    pub(crate) fn new(alloc: Global, most: usize, known: Known) -> Races
        requires { known_count known ≡ 0 }
        ensures kept { (told : List AnyEntry) → AreKept told 0 result }
        ensures own { result.known ≡ known }
        ensures most { result.most ≡ most }
    {
        Races {
            most,
            list: Vec::new(alloc),
            known,
        }
    }

    /// Whether no more pairs are kept whole, and none is looked up, as no two refusals have one line.
    fn is_full(&self) -> bool
        ensures own { result ≡ true → has_own self.now.known ≡ true }
        ensures full { result ≡ true → self.now.most ≤ length self.now.list.items }
    {
        if self.list.len() < self.most {
            return false;
        }
        self.known.has_own()
    }

    /// Adds the next refusal, of the entries with this lineage and these lines.
    pub(crate) fn add(
        &mut self,
        alloc: Global,
        lineage: &Lineage,
        lines: &[u32],
        sighting: Sighting,
    ) -> Result<(), AllocError>
        requires { (told : List AnyEntry) × (last : ℕ) × (last < most_entries) × AreKept told last self.old × IsSeen told last lineage.now lines.now sighting }
        ensures own { OnOk result (has_own self.new.known ≡ has_own self.old.known) }
        ensures most { OnOk result (self.new.most ≡ self.old.most) }
        ensures kept { OnOk result ((told : List AnyEntry) (last : ℕ) → AreKept told last self.old →
            IsSeen told last lineage.now lines.now sighting → IsFreshBy self.old.known told last sighting.lines → AreKept told (suc last) self.new) }
    {
        if self.is_full() {
            self.known.count_own();
            return Ok(());
        }
        let spawn = spawn_line(lineage, lines, sighting);
        let key = PairKey {
            lines: sighting.lines,
            spawn,
        };
        match self.known.find(key) {
            Some(before) => count_in(&mut self.list, before, sighting.place),
            None => {
                self.known.add(key)?;
                begin_in(alloc, &mut self.list, self.most, sighting, spawn)
            }
        }
    }
}
