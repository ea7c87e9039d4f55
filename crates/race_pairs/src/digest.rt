//! What is kept of the races of a history in place of its entries.

ghost use Rattle.std.specs.Prelude.{◌≡◌, ◌≤◌, [], ◌∷◌, ◌++◌, true, false, List, IfOk, OnOk, length, reverse};
ghost use Rattle.model_histories.specs.declared.answer.Entry.{Entry as AnyEntry};
ghost use Rattle.model_histories.specs.Shapes.{Shape, most_entries};
ghost use Rattle.model_races.specs.Judged.{IsJudged};
ghost use Rattle.race_pairs.specs.Known.{known_count};
ghost use Rattle.race_pairs.specs.Digests.{IsDigest, IsNextOf, is_of_own_lines, most_of};

use crate::known::Known;
use crate::lineage::Lineage;
use crate::race::Race;
use crate::races::Races;
use crate::sighting::sighting_of;
use race_gate::Entry;
use std::alloc::{AllocError, Global};
use std::collections::HashMap;

/// What is kept of the races of a history in place of its entries, which are added one by one, the oldest first: the line of each entry,
/// the spawns and calls, how many refusals there are, the first pairs of lines that raced, and which pairs there are. Two refusals are of one
/// pair where their lines and the line of the spawn at which their strands part are the same.
pub struct Digest {
    alloc: Global,
    /// The line of each entry.
    pub lines: Vec<u32>,
    /// The spawns and calls.
    pub lineage: Lineage,
    /// How many entries are refusals.
    pub refusals: usize,
    races: Races,
}

/// Written out, so that what lets it go calls one function.
impl Drop for Digest {
    fn drop(self) {
        let Digest {
            alloc: _,
            lines: _,
            lineage: _,
            refusals: _,
            races: _,
        } = self;
    }
}

/// That of no entries, with room for the lines of so many.
fn start_digest(alloc: Global, room: usize, most: usize, known: Known) -> Result<Digest, AllocError>
    requires { known_count known ≡ 0 }
    ensures { IfOk result (λ digest. IsDigest [] digest × (digest.races.known ≡ known) × (most_of digest ≡ most)) }
{
    Ok(Digest {
        alloc,
        lines: Vec::with_capacity(alloc, room)?,
        lineage: Lineage::new(alloc)?,
        refusals: 0,
        races: Races::new(alloc, most, known),
    })
}

impl Digest {
    /// That of no entries, with room for the lines of so many, which keeps so many pairs whole.
    pub fn new(alloc: Global, room: usize, most: usize) -> Result<Digest, AllocError>
        ensures { IfOk result (λ digest. IsDigest [] digest × (is_of_own_lines digest ≡ false) × (most_of digest ≡ most)) }
    {
        start_digest(alloc, room, most, Known::Among(HashMap::new(alloc)))
    }

    /// The same for entries each of whose lines lies behind those before: then each refusal is a pair of its own, and no pair need be looked
    /// up.
    pub fn with_own_lines(alloc: Global, room: usize, most: usize) -> Result<Digest, AllocError>
        ensures { IfOk result (λ digest. IsDigest [] digest × (is_of_own_lines digest ≡ true) × (most_of digest ≡ most)) }
    {
        start_digest(alloc, room, most, Known::Own(0))
    }

    /// That of entries that are given from the oldest on. Errors where there is no memory.
    pub fn of(alloc: Global, entries: &[Entry], most: usize) -> Result<Digest, AllocError>
        requires judged { (shape : Shape) × IsJudged shape (reverse entries.now) }
        requires few { length entries.now ≤ most_entries }
        ensures { IfOk result (λ digest. IsDigest entries.now digest × (most_of digest ≡ most)) }
    {
        let mut digest = Digest::new(alloc, entries.len(), most)?;
        for entry in entries {
            digest.add(*entry)?;
        }
        Ok(digest)
    }

    /// Adds the next entry. Errors where there is no memory, and is no digest then.
    #[inline(always)]
    pub fn add(&mut self, entry: Entry) -> Result<(), AllocError>
        requires { (told : List AnyEntry) × IsDigest told self.old × IsNextOf self.old told entry }
        ensures own { OnOk result (is_of_own_lines self.new ≡ is_of_own_lines self.old) }
        ensures most { OnOk result (most_of self.new ≡ most_of self.old) }
        ensures next { OnOk result ((told : List AnyEntry) → IsDigest told self.old → IsNextOf self.old told entry →
            IsDigest (told ++ entry ∷ []) self.new) }
    {
        self.lines.push(entry.request.line)?;
        self.lineage.add(entry)?;
        let Some(sighting) = sighting_of(entry, self.lines.as_slice()) else {
            return Ok(());
        };
        self.refusals += 1;
        self.races
            .add(self.alloc, &self.lineage, self.lines.as_slice(), sighting)
    }

    /// Whether each line lies behind those before.
    pub fn has_own_lines(&self) -> bool
        ensures { result ≡ is_of_own_lines self.now }
    {
        self.races.known.has_own()
    }

    /// How many pairs are kept whole.
    pub fn most(&self) -> usize
        ensures { result ≡ most_of self.now }
    {
        self.races.most
    }

    /// The first pairs of lines that raced, in the order of their first refusals: all, or as many as are kept whole.
    pub fn races(&self) -> &[Race]
        ensures { result.now ≡ self.now.races.list.items }
    {
        self.races.list.as_slice()
    }

    /// How many pairs of lines raced.
    pub fn pair_count(&self) -> usize
        ensures { result ≡ known_count self.now.races.known }
    {
        self.races.known.count()
    }
}
