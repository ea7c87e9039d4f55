//! The calls that give up the records that no cell names.

ghost use Rattle.std.specs.Prelude.{◌≡◌, ◌≢◌, ◌↔◌, List, Bool, None, length, IsTrue};
ghost use Rattle.serial_judge.specs.Moves.{moved_cell, IsMarked, AreMoves};
ghost use Rattle.judge_library.specs.Begun.{IsHeld};
ghost use Rattle.judge_library.specs.Passed.{cell_of};
ghost use Rattle.judge_library.specs.Marking.{With, IfWith, IsMarkedBy, IsMoved};
ghost use Rattle.judge_library.specs.Faults as faults;

use crate::cell::PassedCell;
use crate::fault::{NO_MARKS, number_of};
use crate::handle::{Handle, give, take};
use serial_judge::{Fault, Marks};
use std::alloc::Global;

/// Begins to mark. Then all cells are marked, and no access is told until the mark ends.
#[unsafe(no_mangle)]
pub extern "C" fn cilkcheck_judge_begin_mark(alloc: Global, judge: &mut Handle) -> u32
    requires { IsTrue judge.old.is_begun }
    ensures marking { result ≡ 0 → With judge.new.held.marks (λ marks. length marks ≡ length judge.new.held.judge.records) }
    ensures same { judge.new.held.judge ≡ judge.old.held.judge }
    ensures refused { result ≢ 0 → (result ≡ faults.number_of Fault.Memory) × (judge.new.held ≡ judge.old.held) }
    ensures held { IsHeld judge.new }
{
    let mut held = take(alloc, judge);
    let answer = match held.judge.begin_mark(alloc) {
        Ok(marks) => {
            held.marks = Some(marks);
            0
        }
        Err(_) => number_of(Fault::Memory),
    };
    give(judge, held);
    answer
}

/// The marks, and those on the records of the cell.
#[inline(always)]
fn with_cell(marks: Marks<Global>, cell: &PassedCell) -> Marks<Global>
    ensures { IsMarkedBy marks result (cell_of cell.now) }
{
    let mut marks = marks;
    marks.mark(cell.cell());
    marks
}

/// Marks the records that this cell names.
#[unsafe(no_mangle)]
pub extern "C" fn cilkcheck_judge_mark(alloc: Global, judge: &mut Handle, cell: &PassedCell) -> u32
    requires { IsTrue judge.old.is_begun }
    ensures marked { result ≡ 0 →
        With judge.old.held.marks (λ old. With judge.new.held.marks (λ new. IsMarkedBy old new (cell_of cell.now))) }
    ensures same { judge.new.held.judge ≡ judge.old.held.judge }
    ensures no_marks { result ≡ faults.no_marks ↔ judge.old.held.marks ≡ None }
    ensures held { IsHeld judge.new }
{
    let mut held = take(alloc, judge);
    let answer = match held.marks.take() {
        None => NO_MARKS,
        Some(marks) => {
            held.marks = Some(with_cell(marks, cell));
            0
        }
    };
    give(judge, held);
    answer
}

/// Gives up the records that are not marked. Then each cell that was marked is renumbered, before it is used again.
#[unsafe(no_mangle)]
pub extern "C" fn cilkcheck_judge_end_mark(alloc: Global, judge: &mut Handle) -> u32
    requires begun { IsTrue judge.old.is_begun }
    requires alike { IfWith judge.old.held.marks (λ marks. length marks ≡ length judge.old.held.judge.records) }
    ensures moved { result ≡ 0 → With judge.old.held.marks (λ marks.
        IsMoved marks judge.old.held.judge judge.new.held.judge × With judge.new.held.moves (AreMoves marks)) }
    ensures no_marks { result ≡ faults.no_marks ↔ judge.old.held.marks ≡ None }
    ensures refused { result ≢ 0 → judge.new.held.judge ≡ judge.old.held.judge }
    ensures held { IsHeld judge.new }
{
    let mut held = take(alloc, judge);
    let answer = match held.marks.take() {
        None => NO_MARKS,
        Some(marks) => {
            let moves = held.judge.end_mark(marks);
            held.moves = Some(moves);
            0
        }
    };
    give(judge, held);
    answer
}

/// Gives a cell that was marked the new numbers of its records.
#[unsafe(no_mangle)]
pub extern "C" fn cilkcheck_judge_renumber(
    alloc: Global,
    judge: &mut Handle,
    cell: &mut PassedCell,
) -> u32
    requires { IsTrue judge.old.is_begun }
    ensures renumbered { result ≡ 0 → With judge.old.held.moves (λ moves. (marks : List Bool) → AreMoves marks moves →
        IsMarked marks (cell_of cell.old) → cell_of cell.new ≡ moved_cell marks (cell_of cell.old)) }
    ensures same { judge.new.held ≡ judge.old.held }
    ensures no_marks { result ≡ faults.no_marks ↔ judge.old.held.moves ≡ None }
    ensures held { IsHeld judge.new }
{
    let held = take(alloc, judge);
    let answer = match &held.moves {
        None => NO_MARKS,
        Some(moves) => {
            *cell = PassedCell::of(moves.renumber(cell.cell()));
            0
        }
    };
    give(judge, held);
    answer
}

/// Frees the new numbers, once all cells have them.
#[unsafe(no_mangle)]
pub extern "C" fn cilkcheck_judge_end_renumber(alloc: Global, judge: &mut Handle)
    requires { IsTrue judge.old.is_begun }
    ensures same { judge.new.held.judge ≡ judge.old.held.judge }
    ensures held { IsHeld judge.new }
{
    let mut held = take(alloc, judge);
    held.moves = None;
    give(judge, held);
}
