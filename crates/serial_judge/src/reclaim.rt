//! Which records are kept, and which numbers they get.

ghost use Rattle.std.specs.Prelude.{◌≡◌, ◌⊎◌, ◌≤◌, ◌+◌, ◌<◌, ℕ, true, [], List, Bool, Some, length, IfOk, vec_len, vec_capacity};
ghost use Rattle.model_serial_runs.specs.Accesses.{Access};
ghost use Rattle.serial_judge.specs.declared.records.Record.{Record};
ghost use Rattle.serial_judge.specs.Numbers.{numbered};
ghost use Rattle.serial_judge.specs.Records.{most_records};
ghost use Rattle.serial_judge.specs.Runs.{Run};
ghost use Rattle.serial_judge.specs.Remembers.{Remembers};
ghost use Rattle.serial_judge.specs.Moves.{marked, moved, moved_cell, IsMarked, AreMoves};

use crate::cell::Cell;
use crate::records::Record;
use std::alloc::{AllocError, Allocator};
use std::marker::Model;

/// Marks on the records that cells name.
#[derive(Drop)]
pub struct Marks<A: Allocator> {
    marks: Vec<bool, A>,
    /// Room for the numbers that the records get.
    numbers: Vec<u32, A>,
    /// Room for the records that are kept.
    kept: Vec<Record, A>,
}

impl<A: Allocator> Model for Marks<A> {
    ghost use Rattle.std.specs.Prelude.{◌≡◌, ◌≤◌, ◌+◌, List, Bool, [], length, vec_len, vec_capacity};
    ghost use Rattle.serial_judge.specs.Records.{most_records};

    ghost Value = { List Bool };

    ghost view = { λ v. v.marks.items };

    ghost invariant = { λ v. record {
      no_numbers : v.numbers.items ≡ [];
      none_kept : v.kept.items ≡ [];
      numbers_fit : length v.marks.items + 2 ≤ vec_capacity v.numbers;
      kept_fit : length v.marks.items ≤ vec_capacity v.kept;
      few : length v.marks.items ≤ most_records;
    } };
}

/// The numbers that records get, by those that they had.
#[derive(Drop)]
pub struct Moves<A: Allocator> {
    numbers: Vec<u32, A>,
}

impl<A: Allocator> Model for Moves<A> {
    ghost use Rattle.std.specs.Prelude.{List, ℕ};

    ghost Value = { List ℕ };

    ghost view = { λ v. v.numbers.items };
}

/// The new number of each record, and of what comes behind the last one.
fn number_all<A: Allocator>(marks: &[bool], numbers: &mut Vec<u32, A>)
    requires none { numbers.old.items ≡ [] }
    requires room { length marks.now + 2 ≤ vec_capacity numbers.old }
    requires few { length marks.now ≤ most_records }
    ensures { AreMoves marks.now numbers.new.items }
{
    numbers.push_reserved(0);
    let mut next: u32 = 1;
    for mark in marks {
        numbers.push_reserved(next);
        if *mark {
            next += 1;
        }
    }
    numbers.push_reserved(next);
}

/// The records that are marked.
fn keep_marked<A: Allocator>(marks: &[bool], records: &[Record], kept: &mut Vec<Record, A>)
    requires none { kept.old.items ≡ [] }
    requires alike { length marks.now ≡ length records.now }
    requires room { length marks.now ≤ vec_capacity kept.old }
    ensures { kept.new.items ≡ marked marks.now records.now }
{
    for (i, mark) in marks.iter().enumerate() {
        if *mark {
            kept.push_reserved(records[i]);
        }
    }
}

impl<A: Allocator> Marks<A> {
    /// No marks on so many records. A refused growth answers `AllocError`.
    pub fn new(alloc: A, records: u32) -> Result<Marks<A>, AllocError>
    where
        A: Clone,
        requires { records ≤ most_records }
        ensures { IfOk result (λ marks. length marks ≡ records) }
    {
        let records = records as usize;
        Ok(Marks {
            marks: vec![in alloc.clone()?; false; records]?,
            numbers: Vec::with_capacity(alloc.clone()?, records + 2)?,
            kept: Vec::with_capacity(alloc, records)?,
        })
    }

    /// Marks the records that a cell names.
    pub fn mark(&mut self, cell: Cell)
        ensures marked { (run : Run) (accesses : List Access) → length self.old ≡ length run.records → Remembers run cell accesses →
            IsMarked self.new cell }
        ensures stays { (other : Cell) → IsMarked self.old other → IsMarked self.new other }
        ensures alike { length self.new ≡ length self.old }
    {
        self.mark_one(cell.writer);
        self.mark_one(cell.reader);
        self.mark_one(cell.updater);
        self.mark_one(cell.loader);
    }

    fn mark_one(&mut self, number: u32)
        ensures marked { 1 ≤ number → number ≤ length self.old → numbered self.new number ≡ Some true }
        ensures stays { (other : ℕ) → numbered self.old other ≡ Some true → numbered self.new other ≡ Some true }
        ensures alike { length self.new ≡ length self.old }
    {
        let number = number as usize;
        if number != 0 && number <= self.marks.len() {
            self.marks[number - 1] = true;
        }
    }

    /// The marked ones of as many records, and the numbers that they get.
    pub fn finish(self, records: &[Record]) -> (Vec<Record, A>, Moves<A>)
        requires { length self ≡ length records.now }
        ensures kept { result.0.items ≡ marked self records.now }
        ensures moves { AreMoves self result.1 }
    {
        let Marks {
            marks,
            mut numbers,
            mut kept,
        } = self;
        number_all(&marks, &mut numbers);
        keep_marked(&marks, records, &mut kept);
        (kept, Moves { numbers })
    }
}

impl<A: Allocator> Moves<A> {
    /// The new number of a record.
    #[inline]
    pub fn number(&self, old: u32) -> u32
        ensures { (marks : List Bool) → AreMoves marks self.now → old ≤ length marks + 1 → result ≡ moved marks old }
    {
        let place = old as usize;
        if place < self.numbers.len() {
            self.numbers[place]
        } else {
            0
        }
    }

    /// What a cell whose records were marked is from now on. Its last plain access is forgotten.
    pub fn renumber(&self, cell: Cell) -> Cell
        ensures { (marks : List Bool) → AreMoves marks self.now → IsMarked marks cell → result ≡ moved_cell marks cell }
    {
        Cell {
            latest: 0,
            writer: self.number(cell.writer),
            reader: self.number(cell.reader),
            updater: self.number(cell.updater),
            loader: self.number(cell.loader),
        }
    }
}
