//! Records of accesses.

ghost use Rattle.std.specs.Prelude.{◌≡◌, ◌⊎◌, ◌≤◌, ◌<◌, ℕ, suc, [], ◌∷◌, ◌++◌, length, IfOk, OnOk, OnErr, IfErr, IsErrOf, List};
ghost use Rattle.serial_judge.specs.declared.records.Record.{Record};
ghost use Rattle.serial_judge.specs.Moves.{marked, AreMoves};
ghost use Rattle.serial_judge.specs.Numbers.{numbered};
ghost use Rattle.serial_judge.specs.Records.{most_records, place_of, AreNoted, IsNumberFor};

use crate::fault::Fault;
use crate::reclaim::{Marks, Moves};
use model_serial_runs::AccessKind;
use std::alloc::{AllocError, Allocator};
use std::marker::Model;

/// Accesses of one strand, of one kind, from one place in the program.
#[derive(Clone, Copy, Debug, PartialEq, Eq)]
pub struct Record {
    pub site: u32,
    pub kind: AccessKind,
}

/// A record has a number below this one, and twice the number has place in 32 bits.
pub const MOST_RECORDS: usize = 1_073_741_824;

/// The records by their numbers, from 1 on in the order of the run.
#[derive(Drop)]
pub struct Records<A: Allocator> {
    records: Vec<Record, A>,
    /// By site and kind the number of the last such record, or 0.
    last: Vec<u32, A>,
}

impl<A: Allocator> Model for Records<A> {
    ghost use Rattle.std.specs.Prelude.{◌≤◌, List, length};
    ghost use Rattle.serial_judge.specs.declared.records.Record.{Record};
    ghost use Rattle.serial_judge.specs.Records.{most_records, AreNoted};

    ghost Value = { List Record };

    ghost view = { λ v. v.records.items };

    ghost invariant = { λ v. (length v.records.items ≤ most_records) × AreNoted v.records.items v.last.items };
}

/// Where the last record of the site and the kind is noted.
#[inline(always)]
fn place_for(made: Record) -> usize
    ensures is { result ≡ place_of made }
    ensures small { result < 68719476736 }
{
    made.site as usize * 4 + made.kind as usize
}

/// Makes the list long enough that the place is one of it, by zeros.
fn make_place<A: Allocator>(notes: &mut Vec<u32, A>, place: usize) -> Result<(), AllocError>
    requires { place < 68719476736 }
    ensures same { OnErr result (notes.new.items ≡ notes.old.items) }
    ensures longer { OnOk result (place < length notes.new.items) }
    ensures zeros { (made : List Record) → AreNoted made notes.old.items → AreNoted made notes.new.items }
{
    if place >= notes.len() {
        notes.resize(place + 1, 0)?;
    }
    Ok(())
}

impl<A: Allocator> Records<A> {
    pub fn new(alloc: A) -> Result<Records<A>, AllocError>
    where
        A: Clone,
        ensures { IfOk result (λ records. records ≡ []) }
    {
        Ok(Records {
            records: Vec::new(alloc.clone()?),
            last: Vec::new(alloc),
        })
    }

    #[inline(always)]
    pub fn len(&self) -> u32
        ensures is { result ≡ length self.now }
        ensures small { result ≤ most_records }
    {
        self.records.len() as u32
    }

    #[inline(always)]
    pub fn get(&self, number: u32) -> Option<Record>
        ensures { result ≡ numbered self.now number }
    {
        if number == 0 {
            return None;
        }
        self.records.get(number as usize - 1).copied()
    }

    /// Keeps the records that are marked.
    pub fn keep(&mut self, marks: Marks<A>) -> Moves<A>
        requires { length marks ≡ length self.old }
        ensures kept { self.new ≡ marked marks self.old }
        ensures moves { AreMoves marks result }
    {
        let (kept, moves) = marks.finish(&self.records);
        self.records = kept;
        self.last.clear();
        moves
    }

    /// The number of the record of this site and kind that is not before `first`, which is made where there is none.
    #[inline(always)]
    pub fn number_for(&mut self, first: u32, made: Record) -> Result<u32, Fault>
        requires from_one { 1 ≤ first }
        requires within { first ≤ suc (length self.old) }
        ensures ok { IfOk result (IsNumberFor self.old self.new first made) }
        ensures err { OnErr result (self.new ≡ self.old) }
        ensures full_only_at_limit { IsErrOf result Fault.Records → length self.old ≡ most_records }
        ensures causes { IfErr result (λ fault. (fault ≡ Fault.Records) ⊎ (fault ≡ Fault.Memory)) }
    {
        let place = place_for(made);
        if place < self.last.len() {
            let number = self.last[place];
            if number >= first {
                return Ok(number);
            }
        }
        self.make(place, made)
    }

    #[inline(never)]
    fn make(&mut self, place: usize, made: Record) -> Result<u32, Fault>
        requires place { place ≡ place_of made }
        requires small { place < 68719476736 }
        ensures ok { IfOk result (λ number. (self.new ≡ self.old ++ made ∷ []) × (number ≡ suc (length self.old)) × (number ≤ most_records)) }
        ensures err { OnErr result (self.new ≡ self.old) }
        ensures full_only_at_limit { IsErrOf result Fault.Records → length self.old ≡ most_records }
        ensures causes { IfErr result (λ fault. (fault ≡ Fault.Records) ⊎ (fault ≡ Fault.Memory)) }
    {
        if self.records.len() >= MOST_RECORDS {
            return Err(Fault::Records);
        }
        make_place(&mut self.last, place)?;
        self.records.push(made)?;
        let number = self.records.len() as u32;
        self.last[place] = number;
        Ok(number)
    }
}
