//! The first read of each reducer.

ghost use Rattle.std.specs.Prelude.{◌≡◌, ◌↔◌, ◌<◌, ◌++◌, ◌∷◌, [], List, ℕ, length, IsTrue, IfOk, MatchOption, IsNone};
ghost use Rattle.model_accesses.specs.Table.{is_reducer_read};
ghost use Rattle.model_strands.specs.History.{History};
ghost use Rattle.model_strands.specs.Legal.{Legal};
ghost use Rattle.model_strands.specs.Extensions.{Extends};
ghost use Rattle.branch_names.specs.Names.{Follows, IsNamed};
ghost use Rattle.model_accesses.specs.declared.witness.Witness.{Witness};
ghost use Rattle.model_accesses.specs.Reads.{ReducerRead, witness_of, IsReadOf, HasOtherPeers};
ghost use Rattle.view_read_rule.specs.Reads.{first_read, IsOfBranch, IsOfOtherBranch, Remembers, StandsOn, AreOfOneBranch};
ghost use Rattle.view_read_rule.specs.Verdicts.{IsRefused};

use branch_names::Branches;
use model_accesses::{Kind, Witness};
use std::alloc::{AllocError, Allocator};
use std::marker::Model;

/// What the rule says of a put or a get.
#[derive(Debug, Clone, Copy, PartialEq, Eq)]
pub enum ViewVerdict {
    Granted,
    /// It races with this read of the same reducer, the first one.
    Refused(Witness),
    /// It is a get, and the reducer was never read.
    Unset,
}

const _: () = prove!(size_of::<Option<Witness>>() == 16);

/// The first granted read of each reducer, in sixteen bytes.
#[derive(Drop)]
pub struct ReadPeers<A: Allocator> {
    firsts: Vec<Option<Witness>, A>,
}

impl<A: Allocator> Model for ReadPeers<A> {
    ghost use Rattle.std.specs.Prelude.{List, Option};
    ghost use Rattle.model_accesses.specs.declared.witness.Witness.{Witness};

    ghost Value = { List (Option Witness) };

    ghost view = { λ peers. peers.firsts.items };
}

impl<A: Allocator> ReadPeers<A> {
    /// So many reducers, without reads. It takes memory here and at no other call; a refused growth answers `AllocError`.
    pub fn new(alloc: A, reducers: u32) -> Result<ReadPeers<A>, AllocError>
        ensures reducers { IfOk result (λ peers. length peers ≡ reducers) }
        ensures empty { IfOk result (λ peers. Remembers peers []) }
    {
        Ok(ReadPeers {
            firsts: vec![in alloc; None; reducers as usize]?,
        })
    }

    /// What the rule says of a new put or get of the reducer by the strand. The branches are those of the strands whose reads
    /// were added, in the same or a later state.
    pub fn judge<B: Allocator>(
        &self,
        branches: &Branches<B>,
        reducer: u32,
        kind: Kind,
        strand: u32,
    ) -> ViewVerdict
        requires in_range { reducer < length self.now }
        requires reducer_read { IsTrue (is_reducer_read kind) }
        requires named { IsNamed branches.now strand }
        requires stands { StandsOn self.now branches.now }

        ensures unset { (reads : List ReducerRead) → Remembers self.now reads →
            (result ≡ ViewVerdict.Unset) ↔ ((kind ≡ Kind.Get) × IsNone (first_read reads reducer)) }
        ensures refused { (reads : List ReducerRead) (history : History) →
            Remembers self.now reads → Follows branches.now history → (witness : Witness) →
            (result ≡ ViewVerdict.Refused witness) ↔
            ((read : ReducerRead) × (first_read reads reducer ≡ Some read) ×
            (witness ≡ witness_of read) × IsOfOtherBranch history strand read) }
        ensures granted { (reads : List ReducerRead) (history : History) → Remembers self.now reads → Follows branches.now history →
            (result ≡ ViewVerdict.Granted) ↔
            MatchOption (first_read reads reducer) (kind ≡ Kind.Put) (IsOfBranch history strand) }

        // Where all reads of the reducer have one branch, as granted reads have, the first speaks for all.
        ensures others { (reads : List ReducerRead) (history : History) → Remembers self.now reads → Follows branches.now history →
            AreOfOneBranch history reads reducer →
            IsRefused result ↔ ((read : ReducerRead) × IsReadOf reads reducer read × IsOfOtherBranch history strand read) }
        ensures all_same { (reads : List ReducerRead) (history : History) → Remembers self.now reads → Follows branches.now history →
            AreOfOneBranch history reads reducer →
            result ≡ ViewVerdict.Granted → (read : ReducerRead) → IsReadOf reads reducer read → IsOfBranch history strand read }

        // In the dag of each legal extension, so of each finished one too.
        ensures peers { (reads : List ReducerRead) (history longer : History) → Remembers self.now reads → Follows branches.now history →
            AreOfOneBranch history reads reducer → Extends longer history → Legal longer →
            IsRefused result ↔ ((read : ReducerRead) × IsReadOf reads reducer read × HasOtherPeers longer strand read) }
    {
        match self.firsts[reducer as usize] {
            Some(first) => {
                if branches.same(first.strand, strand) {
                    ViewVerdict::Granted
                } else {
                    ViewVerdict::Refused(first)
                }
            }
            None => match kind {
                Kind::Get => ViewVerdict::Unset,
                _ => ViewVerdict::Granted,
            },
        }
    }

    /// Takes in a granted put or get.
    pub fn add(&mut self, reducer: u32, kind: Kind, strand: u32, entry: u32)
        requires in_range { reducer < length self.old }
        requires reducer_read { IsTrue (is_reducer_read kind) }
        ensures reducers { length self.new ≡ length self.old }
        ensures added { (reads : List ReducerRead) → Remembers self.old reads →
            Remembers self.new (reads ++ record { reducer = reducer; kind = kind; strand = strand; entry = entry } ∷ []) }
    {
        if self.firsts[reducer as usize].is_none() {
            self.firsts[reducer as usize] = Some(Witness {
                entry,
                strand,
                kind,
            });
        }
    }
}
