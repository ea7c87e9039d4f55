//! The lineage of strands: which spawns and calls lead to them, and where two strands part.

ghost use Rattle.std.specs.Prelude.{◌≡◌, ◌≤◌, ◌↔◌, ◌++◌, ℕ, suc, [], ◌∷◌, length, reverse, IfOk, IfSome, IsSome, MatchOption};
ghost use Rattle.model_strands.specs.Strands.{unused};
ghost use Rattle.model_strands.specs.Legal.{Legal};
ghost use Rattle.model_strands.specs.Dag.{IsParallel};
ghost use Rattle.model_histories.specs.Entries.{Entries, control_part};
ghost use Rattle.model_histories.specs.Shapes.{most_entries};
ghost use Rattle.race_pairs.specs.Frames.{frames};
ghost use Rattle.race_pairs.specs.Lineages.{IsLineage, IsSomeLineage, MayGrow, CanAdd, AreBegun};
ghost use Rattle.race_pairs.specs.Openers.{IsOpener, IsNoOpener};
ghost use Rattle.race_pairs.specs.Partings.{IsParting};
ghost use Rattle.race_pairs.specs.OpenSpawns.{IsOutstanding};

use crate::frames::{numbers_from, place_before};
use crate::growth::{Step, add_call, add_return, add_spawn, step_of};
use crate::jumps::add_jumps;
use crate::kept::{Frame, Jump, Opener, Strand, Turn};
use crate::openers::find_opener;
use crate::partings::{find_outstanding, find_parting};
use model_strands::Spawned;
use race_gate::Entry;
use std::alloc::{AllocError, Global};
use std::marker::Model;

/// The spawn where two strands part.
#[derive(Clone, Copy)]
pub struct Parting {
    /// The number of its entry, from 1 on.
    pub entry: usize,
    /// The strand that spawned.
    pub spawner: u32,
    /// The child, the next strand and the join that it made.
    pub spawned: Spawned,
    /// That of the two strands which the child reaches, or is.
    pub by_child: u32,
    /// The other one, which the next strand reaches, or is.
    pub by_next: u32,
}

/// A spawn that is outstanding at one of two strands and not at the other: one of the two strands that it began, its child or its
/// next, can run while the one runs, and cannot while the other does.
#[derive(Clone, Copy)]
pub struct OpenSpawn {
    /// The number of its entry, from 1 on.
    pub entry: usize,
    /// The strand that spawned.
    pub spawner: u32,
    /// The child, the next strand and the join that it made.
    pub spawned: Spawned,
    /// That of the child and the next strand which is parallel to the one. It is the child, unless the one of the two strands lies in
    /// the child and the other behind the join.
    pub peer: u32,
    /// That of the two strands to which it is parallel.
    pub parallel: u32,
    /// The other one, to which it is not.
    pub ordered: u32,
}

/// The spawns and calls of a history, and which of them lead to each strand. It grows entry by entry, and keeps nothing of accesses.
pub struct Lineage {
    /// How many entries there were.
    count: u32,
    /// The frames that spawns and calls opened, in order.
    opened: Vec<Frame>,
    /// The turns of strands, in order.
    turns: Vec<Turn>,
    /// By the strand's number.
    strands: Vec<Strand>,
    /// By the strand's number.
    jumps: Vec<Jump>,
}

/// Written out, so that what lets a lineage go calls one function.
impl Drop for Lineage {
    fn drop(self) {
        let Lineage {
            count: _,
            opened: _,
            turns: _,
            strands: _,
            jumps: _,
        } = self;
    }
}

impl Model for Lineage {
    ghost use Rattle.race_pairs.specs.Lineages.{Kept};

    ghost Value = { Kept };

    ghost view = { λ lineage. record {
      count = lineage.count;
      opened = lineage.opened.items;
      turns = lineage.turns.items;
      strands = lineage.strands.items;
      jumps = lineage.jumps.items;
    } };
}

impl Lineage {
    /// The lineage of no entries. Errors where there is no memory.
    pub fn new(alloc: Global) -> Result<Lineage, AllocError>
        ensures { IfOk result (λ lineage. IsLineage lineage []) }
    {
        let mut strands = Vec::new(alloc);
        strands.push(Strand { maker: 0, turn: 0 })?;
        let mut jumps = Vec::new(alloc);
        jumps.push(Jump { depth: 0, to: 0 })?;
        Ok(Lineage {
            count: 0,
            opened: Vec::new(alloc),
            turns: Vec::new(alloc),
            strands,
            jumps,
        })
    }

    /// The lineage of these entries, which are given from the oldest on. Errors where there is no memory.
    pub fn of(alloc: Global, entries: &[Entry]) -> Result<Lineage, AllocError>
        requires legal { Legal (control_part (reverse entries.now)) }
        requires few { length entries.now ≤ most_entries }
        ensures { IfOk result (λ lineage. IsLineage lineage (reverse entries.now)) }
    {
        let mut lineage = Lineage::new(alloc)?;
        for entry in entries {
            lineage.add(*entry)?;
        }
        Ok(lineage)
    }

    /// Adds the next entry, in amortised constant time. Errors where there is no memory; the lineage is then of no use.
    pub fn add(&mut self, entry: Entry) -> Result<(), AllocError>
        requires { CanAdd self.old entry }
        ensures { IfOk result (λ _. (entries : Entries) → IsLineage self.old entries → MayGrow entries entry →
            IsLineage self.new (entry ∷ entries)) }
    {
        let number = self.count + 1;
        let strand = entry.request.strand;
        match step_of(entry) {
            Step::Spawns(spawned) => {
                add_spawn(
                    &mut self.opened,
                    self.turns.as_slice(),
                    &mut self.strands,
                    number,
                    strand,
                    spawned,
                )?;
                add_jumps(&mut self.jumps, strand, spawned)?;
            }
            Step::Calls => {
                add_call(
                    &mut self.opened,
                    &mut self.turns,
                    &mut self.strands,
                    number,
                    strand,
                )?;
            }
            Step::Returns => {
                add_return(
                    self.opened.as_slice(),
                    &mut self.turns,
                    &mut self.strands,
                    number,
                    strand,
                )?;
            }
            Step::Stays => {}
        }
        self.count = number;
        Ok(())
    }

    /// How many numbers strands and joins have: the least number that none has.
    pub fn count(&self) -> usize
        ensures { (entries : Entries) → IsLineage self.now entries → result ≡ unused (control_part entries) }
    {
        self.strands.len()
    }

    /// The numbers of the entries of the spawns and calls that enclose what the strand does before the entry with this number, the
    /// innermost first. Its time is linear in their number and in the strand's own calls. Errors where there is no memory.
    pub fn chain(&self, alloc: Global, number: usize, strand: u32) -> Result<Vec<usize>, AllocError>
        requires { IsSomeLineage self.now }
        ensures { IfOk result (λ chain. (later earlier : Entries) → IsLineage self.now (later ++ earlier) → number ≡ suc (length earlier) →
            chain.items ≡ frames earlier strand) }
    {
        if number == 0 || number > self.count as usize + 1 {
            return Ok(Vec::new(alloc));
        }
        let opened = self.opened.as_slice();
        let place = place_before(
            opened,
            self.turns.as_slice(),
            self.strands.as_slice(),
            strand,
            number,
        );
        numbers_from(alloc, opened, place)
    }

    /// The spawn or call that is the entry with this number, found by halving; None where that entry is none.
    pub fn opener(&self, number: usize) -> Option<Opener>
        requires { IsSomeLineage self.now }
        ensures { (entries : Entries) → IsLineage self.now entries → MatchOption result (IsNoOpener entries number) (IsOpener entries number) }
    {
        find_opener(self.opened.as_slice(), number)
    }

    /// The spawn where two begun strands of the history part, and none where a path leads from one to the other or they are one
    /// strand. Its time is logarithmic in the spawns that lead to the two.
    pub fn parting(&self, strand: u32, other: u32) -> Option<Parting>
        requires { (entries : Entries) × AreBegun self.now entries strand other }
        ensures parts { (entries : Entries) → AreBegun self.now entries strand other → IfSome result (IsParting entries strand other) }
        ensures found { (entries : Entries) → AreBegun self.now entries strand other →
            (IsSome result ↔ IsParallel (control_part entries) strand other) }
    {
        find_parting(
            self.opened.as_slice(),
            self.strands.as_slice(),
            self.jumps.as_slice(),
            strand,
            other,
        )
    }

    /// A spawn of the history that is outstanding at one of two begun strands and not at the other. Its time is logarithmic in the spawns
    /// that lead to the two, and where a path leads from the one to the other linear in the syncs at its end.
    pub fn outstanding(&self, first: u32, second: u32) -> Option<OpenSpawn>
        requires { (entries : Entries) × AreBegun self.now entries first second }
        ensures { (entries : Entries) → AreBegun self.now entries first second → IfSome result (IsOutstanding entries first second) }
    {
        find_outstanding(
            self.opened.as_slice(),
            self.strands.as_slice(),
            self.jumps.as_slice(),
            first,
            second,
        )
    }
}
