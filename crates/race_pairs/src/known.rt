//! Which pairs of lines raced.

ghost use Rattle.std.specs.Prelude.{◌≡◌, ◌<◌, ◌^◌, ◌++◌, [], ◌∷◌, List, false, true, None, OnOk, MatchOption};
ghost use Rattle.race_pairs.specs.declared.race.Pair.{Pair};
ghost use Rattle.race_pairs.specs.PairKeys.{key_of};
ghost use Rattle.race_pairs.specs.Known.{has_own, known_count, Knows, IsNewKey, IsKeyAt};

use crate::race::PairKey;
use std::alloc::AllocError;
use std::collections::HashMap;

/// Which pairs of lines raced.
#[derive(Drop)]
pub enum Known {
    /// So many, where no two refusals have one line.
    Own(usize),
    /// Those with these keys, and how many were known before each.
    Among(HashMap<PairKey, usize>),
}

impl Known {
    /// How many there are.
    pub fn count(&self) -> usize
        ensures { result ≡ known_count self.now }
    {
        match self {
            Known::Own(count) => *count,
            Known::Among(all) => all.len(),
        }
    }

    /// Whether no two refusals have one line.
    pub fn has_own(&self) -> bool
        ensures { result ≡ has_own self.now }
    {
        match self {
            Known::Own(_) => true,
            Known::Among(_) => false,
        }
    }

    /// Counts one pair more, where no two refusals have one line.
    pub(crate) fn count_own(&mut self)
        requires own { has_own self.old ≡ true }
        requires few { known_count self.old < 2 ^ 32 }
        ensures own { has_own self.new ≡ true }
        ensures added { (pairs : List Pair) (pair : Pair) → Knows self.old pairs → Knows self.new (pairs ++ pair ∷ []) }
    {
        match self {
            Known::Own(count) => *count += 1,
            Known::Among(_) => {}
        }
    }

    /// How many pairs were known before the one with this key. None where it is not known, and where no two refusals have one line.
    pub(crate) fn find(&self, key: PairKey) -> Option<usize>
        ensures own { has_own self.now ≡ true → result ≡ None }
        ensures among { has_own self.now ≡ false → (pairs : List Pair) → Knows self.now pairs →
            MatchOption result (IsNewKey key pairs) (IsKeyAt key pairs) }
    {
        match self {
            Known::Own(_) => None,
            Known::Among(all) => all.get(&key).copied(),
        }
    }

    /// Adds a pair that is not known. Errors where there is no memory.
    pub(crate) fn add(&mut self, key: PairKey) -> Result<(), AllocError>
        requires few { known_count self.old < 2 ^ 32 }
        ensures own { OnOk result (has_own self.new ≡ has_own self.old) }
        ensures added { OnOk result ((pairs : List Pair) (pair : Pair) → Knows self.old pairs → IsNewKey key pairs → key_of pair ≡ key →
            Knows self.new (pairs ++ pair ∷ [])) }
    {
        match self {
            Known::Own(count) => {
                *count += 1;
                Ok(())
            }
            Known::Among(all) => {
                let before = all.len();
                all.insert(key, before)?;
                Ok(())
            }
        }
    }
}
