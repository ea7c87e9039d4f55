//! Reads of reducers.

ghost use Rattle.std.specs.Prelude.{◌≡◌, ◌≢◌, ◌<◌, length, ℕ, List, [], ◌∷◌, ◌++◌, slice_index_or, MatchOption, IfOk, OnOk, OnErr, Contains};
ghost use Rattle.law_strands.specs.Branches.{Branch};
ghost use Rattle.model_serial_runs.specs.ReducerReads.{ReducerRead};
ghost use Rattle.serial_judge.specs.Branches.{number_of};
ghost use Rattle.serial_judge.specs.Reads.{reads_at, IsKeptRead, AreKeptReads, IsReadSo, IsOtherBranch};

use std::alloc::{AllocError, Allocator};
use std::marker::Model;

/// A read of a reducer.
#[derive(Clone, Copy, Debug, PartialEq, Eq)]
pub struct Read {
    /// The branch of its strand.
    pub branch: u64,
    pub site: u32,
}

/// What is kept of the reads of one reducer: the first, and the first one of another branch.
#[derive(Clone, Copy, Debug, PartialEq, Eq)]
pub enum Reads {
    None,
    OneBranch(Read),
    TwoBranches(Read, Read),
}

impl Reads {
    /// These and a new one.
    fn with(self, new: Read) -> Reads
        ensures { (branch : ℕ → Branch) (all : List ReducerRead) (reducer : ℕ) (read : ReducerRead) → IsReadSo branch reducer new read →
            AreKeptReads branch all reducer self → AreKeptReads branch (all ++ read ∷ []) reducer result }
    {
        match self {
            Reads::None => Reads::OneBranch(new),
            Reads::OneBranch(first) => {
                if first.branch == new.branch {
                    self
                } else {
                    Reads::TwoBranches(first, new)
                }
            }
            Reads::TwoBranches(_, _) => self,
        }
    }

    /// One of another branch.
    fn other_branch(self, wanted: u64) -> Option<Read>
        ensures { (branch : ℕ → Branch) (all : List ReducerRead) (reducer : ℕ) → AreKeptReads branch all reducer self →
            IsOtherBranch branch all reducer wanted result }
    {
        match self {
            Reads::None => None,
            Reads::OneBranch(first) => {
                if first.branch != wanted {
                    Some(first)
                } else {
                    None
                }
            }
            Reads::TwoBranches(first, second) => {
                if first.branch != wanted {
                    Some(first)
                } else {
                    Some(second)
                }
            }
        }
    }
}

/// The reads of each reducer, by its number.
#[derive(Drop)]
pub struct ReducerReads<A: Allocator> {
    reads: Vec<Reads, A>,
}

impl<A: Allocator> Model for ReducerReads<A> {
    ghost use Rattle.std.specs.Prelude.{List};
    ghost use Rattle.serial_judge.specs.declared.reads.Reads.{Reads};

    ghost Value = { List Reads };

    ghost view = { λ v. v.reads.items };
}

/// Makes the list long enough that the place is one of it, by reducers without reads.
fn make_place<A: Allocator>(reads: &mut Vec<Reads, A>, place: usize) -> Result<(), AllocError>
    requires { place < 4294967296 }
    ensures same { OnErr result (reads.new.items ≡ reads.old.items) }
    ensures longer { OnOk result (place < length reads.new.items) }
    ensures each { (one : ℕ) → reads_at reads.new.items one ≡ reads_at reads.old.items one }
{
    if place >= reads.len() {
        reads.resize(place + 1, Reads::None)?;
    }
    Ok(())
}

impl<A: Allocator> ReducerReads<A> {
    pub fn new(alloc: A) -> ReducerReads<A>
        ensures { result ≡ [] }
    {
        ReducerReads {
            reads: Vec::new(alloc),
        }
    }

    /// Takes in a read of the reducer. The answer is an earlier one of another branch, where there is one.
    pub fn add(&mut self, reducer: u32, new: Read) -> Result<Option<Read>, AllocError>
        ensures other { (branch : ℕ → Branch) (all : List ReducerRead) → AreKeptReads branch all reducer (reads_at self.old reducer) →
            IfOk result (IsOtherBranch branch all reducer new.branch) }
        ensures kept { (branch : ℕ → Branch) (all : List ReducerRead) (read : ReducerRead) → IsReadSo branch reducer new read →
            ((one : ℕ) → AreKeptReads branch all one (reads_at self.old one)) →
            OnOk result ((one : ℕ) → AreKeptReads branch (all ++ read ∷ []) one (reads_at self.new one)) }
        ensures err { OnErr result (self.new ≡ self.old) }
    {
        let place = reducer as usize;
        make_place(&mut self.reads, place)?;
        let reads = self.reads[place];
        self.reads[place] = reads.with(new);
        Ok(reads.other_branch(new.branch))
    }
}
