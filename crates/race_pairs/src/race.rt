//! A pair of lines that raced, and on what.

ghost use Rattle.std.specs.Prelude.{◌≡◌, ◌<◌, ◌^◌, IfOk, OnOk};
ghost use Rattle.race_pairs.specs.Races.{IsNewRace, HasAgain};

use crate::refusal::{Lines, Side};
use std::alloc::{AllocError, Global};
use std::collections::HashSet;

/// What the refusals of one pair share.
#[derive(Clone, Copy, PartialEq, Eq)]
#[derive_where(Hash)]
pub struct PairKey {
    pub lines: Lines,
    /// The line of the spawn at which the strands of the refused access and its witness part, and None where they part at none.
    pub spawn: Option<u32>,
}

/// A pair of lines that raced, and the spawn at which the strands part.
#[derive(Clone, Copy, PartialEq, Eq)]
pub struct Pair {
    pub lines: Lines,
    /// The line of the spawn at which the strands of each refused access and its witness part. None where the two are not parallel, or
    /// there is no witness.
    pub spawn: Option<u32>,
    /// The number, from 1 on, of the first refused entry with these lines and this spawn.
    pub first: usize,
    /// The number of the entry of its witness, and 0 where there is none.
    pub witness: usize,
    /// How many refused entries have these lines and this spawn.
    pub times: usize,
}

/// A pair of lines that raced, and on what.
pub struct Race {
    pub pair: Pair,
    /// The first refused access of the pair.
    pub refused: Side,
    /// Its witness, where there is one.
    pub witness: Option<Side>,
    /// The numbers of the cells or reducers, each once, in the order of their first refusals.
    pub places: Vec<u32>,
    seen: HashSet<u32>,
}

/// Written out, so that what lets it go calls one function.
impl Drop for Race {
    fn drop(self) {
        let Race {
            pair: _,
            refused: _,
            witness: _,
            places: _,
            seen: _,
        } = self;
    }
}

impl Race {
    /// The race of a pair that was refused once, on this place.
    pub(crate) fn new(
        alloc: Global,
        pair: Pair,
        refused: Side,
        witness: Option<Side>,
        place: u32,
    ) -> Result<Race, AllocError>
        ensures { IfOk result (IsNewRace pair refused witness place) }
    {
        let mut seen = HashSet::new(alloc);
        seen.insert(place)?;
        let mut places = Vec::new(alloc);
        places.push(place)?;
        Ok(Race {
            pair,
            refused,
            witness,
            places,
            seen,
        })
    }

    /// Counts one refusal more, on this place.
    pub(crate) fn count(&mut self, place: u32) -> Result<(), AllocError>
        requires { self.old.pair.times < 2 ^ 32 }
        ensures { OnOk result (HasAgain place self.old self.new) }
    {
        self.pair.times += 1;
        if self.seen.insert(place)? {
            self.places.push(place)?;
        }
        Ok(())
    }
}
