//! The judge of a serial run, for C: a static library over `serial_judge`.
//!
//! C holds a [`Handle`] on one judge, and keeps a cell for each location. [`cilkcheck_judge_access`] takes a cell and an access, and gives
//! the new cell and the verdict; its contract is that of [`SerialJudge::access`]. `judge.h` of the recorder's runtime says what C owes.
#![tactic(auto)]

ghost use Rattle.std.specs.Prelude.{◌≡◌, ◌≢◌, ◌↔◌, ◌≤◌, List, length, IsTrue, false};
ghost use Rattle.model_serial_runs.specs.Accesses.{Access};
ghost use Rattle.serial_judge.specs.Records.{most_records};
ghost use Rattle.serial_judge.specs.Runs.{Run, beginning, with_read};
ghost use Rattle.serial_judge.specs.ReducerRaces.{new_read, IsReadRightly};
ghost use Rattle.serial_judge.specs.Follows.{Follows};
ghost use Rattle.serial_judge.specs.Remembers.{Remembers, IsTaken, IsRepetition};
ghost use Rattle.judge_library.specs.Begun.{IsHeld};
ghost use Rattle.judge_library.specs.Passed.{cell_of, judged_of, kind_at, read_of};
ghost use Rattle.judge_library.specs.Faults as faults;

mod cell;
mod control;
mod fault;
mod handle;
mod held;
mod loose;
mod reclaim;

pub use cell::{PassedCell, PassedRace, PassedRead};
use fault::{BAD_KIND, number_of};
pub use handle::Handle;
use handle::{give, take};
pub use held::Held;
use serial_judge::{Fault, Judged, SerialJudge};
use std::alloc::Global;

/// Begins a judge for a run that is at its first strand.
#[unsafe(no_mangle)]
pub extern "C" fn cilkcheck_judge_begin(alloc: Global, judge: &mut Handle) -> u32
    requires { judge.old.is_begun ≡ false }
    ensures begun { result ≡ 0 → IsHeld judge.new × Follows judge.new.held.judge beginning }
    ensures refused { result ≢ 0 → (result ≡ faults.number_of Fault.Memory) × (judge.new.is_begun ≡ false) }
{
    let Ok(made) = SerialJudge::new(alloc) else {
        return number_of(Fault::Memory);
    };
    let held = Held {
        judge: made,
        marks: None,
        moves: None,
    };
    let Ok(boxed) = Box::new(alloc, held) else {
        return number_of(Fault::Memory);
    };
    give(judge, boxed);
    0
}

/// Ends the judge, and frees its memory.
#[unsafe(no_mangle)]
pub extern "C" fn cilkcheck_judge_end(alloc: Global, judge: &mut Handle)
    requires { IsTrue judge.old.is_begun }
    ensures { judge.new.is_begun ≡ false }
{
    let _ended = take(alloc, judge);
}

/// Whether the location's last access was by the running strand, and of a kind that has the same races: the new access need not be told.
#[unsafe(no_mangle)]
pub extern "C" fn cilkcheck_judge_is_repeated(
    alloc: Global,
    judge: &mut Handle,
    cell: &PassedCell,
    kind: u32,
) -> bool
    requires { IsTrue judge.old.is_begun }
    ensures repeated { IsTrue result → (run : Run) (accesses : List Access) → Follows judge.old.held.judge run → Remembers run (cell_of cell.now) accesses →
        IsRepetition run (cell_of cell.now) accesses (kind_at kind) }
    ensures same { judge.new.held ≡ judge.old.held }
    ensures held { IsHeld judge.new }
{
    let held = take(alloc, judge);
    let repeated = match cell::kind_of(kind) {
        Some(kind) => held.judge.is_repeated(cell.cell(), kind),
        None => false,
    };
    give(judge, held);
    repeated
}

/// Hands over what is said of an access.
#[inline(always)]
fn pass(judged: Judged, cell: &mut PassedCell, race: &mut PassedRace)
    ensures { judged_of cell.new race.new ≡ judged }
{
    *cell = PassedCell::of(judged.cell);
    *race = PassedRace::of(judged.race);
}

/// The running strand accesses the location with this cell.
#[unsafe(no_mangle)]
pub extern "C" fn cilkcheck_judge_access(
    alloc: Global,
    judge: &mut Handle,
    cell: &mut PassedCell,
    kind: u32,
    site: u32,
    race: &mut PassedRace,
) -> u32
    requires { IsTrue judge.old.is_begun }
    ensures taken { result ≡ 0 → (run : Run) → Follows judge.old.held.judge run →
        IsTaken run judge.new.held.judge (cell_of cell.old) (kind_at kind) site (judged_of cell.new race.new) }
    ensures refused { result ≢ 0 → (judge.new.held ≡ judge.old.held) × (cell.new ≡ cell.old) × (race.new ≡ race.old) }
    ensures full_only_at_limit { result ≡ faults.number_of Fault.Records → length judge.old.held.judge.records ≡ most_records }
    ensures kinds { (result ≡ faults.bad_kind) ↔ (4 ≤ kind) }
    ensures held { IsHeld judge.new }
{
    let mut held = take(alloc, judge);
    let answer = match cell::kind_of(kind) {
        None => BAD_KIND,
        Some(kind) => match held.judge.access(cell.cell(), kind, site) {
            Ok(judged) => {
                pass(judged, cell, race);
                0
            }
            Err(fault) => number_of(fault),
        },
    };
    give(judge, held);
    answer
}

/// The running strand reads a reducer.
#[unsafe(no_mangle)]
pub extern "C" fn cilkcheck_judge_reducer_read(
    alloc: Global,
    judge: &mut Handle,
    reducer: u32,
    site: u32,
    race: &mut PassedRead,
) -> u32
    requires { IsTrue judge.old.is_begun }
    ensures right { result ≡ 0 → (run : Run) → Follows judge.old.held.judge run → IsReadRightly run reducer (read_of race.new) }
    ensures follows { result ≡ 0 → (run : Run) → Follows judge.old.held.judge run →
        Follows judge.new.held.judge (with_read (new_read run reducer site) run) }
    ensures refused { result ≢ 0 → (judge.new.held ≡ judge.old.held) × (race.new ≡ race.old) }
    ensures held { IsHeld judge.new }
{
    let mut held = take(alloc, judge);
    let answer = match held.judge.reducer_read(reducer, site) {
        Ok(read) => {
            *race = PassedRead::of(read);
            0
        }
        Err(fault) => number_of(fault),
    };
    give(judge, held);
    answer
}

#[cfg(test)]
mod tests {
    use super::*;

    /// `tools/build-unproved` makes the library of what this test calls.
    #[test]
    fn each_export_is_called(rt: HostRuntime) {
        let alloc = rt.alloc();
        let mut judge = Handle::empty();
        let mut cell = PassedCell::of(serial_judge::Cell::EMPTY);
        let mut race = PassedRace::of(None);
        let mut read = PassedRead::of(None);
        assert!(rt; cilkcheck_judge_begin(alloc, &mut judge) == 0);
        assert!(rt; control::cilkcheck_judge_spawn(alloc, &mut judge, 1) == 0);
        assert!(rt; cilkcheck_judge_access(alloc, &mut judge, &mut cell, 3, 2, &mut race) == 0);
        assert!(rt; cilkcheck_judge_is_repeated(alloc, &mut judge, &cell, 0));
        assert!(rt; control::cilkcheck_judge_return(alloc, &mut judge) == 0);
        assert!(rt; cilkcheck_judge_access(alloc, &mut judge, &mut cell, 0, 3, &mut race) == 0);
        assert!(rt; race.is_race && race.site == 2);
        assert!(rt; cilkcheck_judge_reducer_read(alloc, &mut judge, 0, 4, &mut read) == 0);
        assert!(rt; control::cilkcheck_judge_call(alloc, &mut judge) == 0);
        assert!(rt; control::cilkcheck_judge_sync(alloc, &mut judge) == 0);
        assert!(rt; reclaim::cilkcheck_judge_begin_mark(alloc, &mut judge) == 0);
        assert!(rt; reclaim::cilkcheck_judge_mark(alloc, &mut judge, &cell) == 0);
        assert!(rt; reclaim::cilkcheck_judge_end_mark(alloc, &mut judge) == 0);
        assert!(rt; reclaim::cilkcheck_judge_renumber(alloc, &mut judge, &mut cell) == 0);
        reclaim::cilkcheck_judge_end_renumber(alloc, &mut judge);
        cilkcheck_judge_end(alloc, &mut judge);
    }
}
