//! Replays.

ghost use Rattle.std.specs.Prelude.{◌≡◌, ◌↔◌, ◌+◌, ◌<◌, ◌≤◌, ℕ, length, reverse, slice_get, Some, IsTrue, IfOk, OnOk, Err};
ghost use Rattle.model_histories.specs.declared.answer.Entry.{Entry as OneEntry};
ghost use Rattle.model_histories.specs.Extensions.{IsFinished};
ghost use Rattle.model_histories.specs.Shapes.{most_entries};
ghost use Rattle.model_histories.specs.States.{GateState, opening};
ghost use Rattle.model_races.specs.Judged.{IsJudged};
ghost use Rattle.race_gate.specs.Cores.{IsCoreOf};
ghost use Rattle.program_text.specs.Shapes.{shape_in};
ghost use Rattle.model_runs.specs.Runs.{IsFinishedRun};
ghost use Rattle.run_replay.specs.FrameTables.{IsPlayed, IsMisfit};
ghost use Rattle.run_replay.specs.Slots.{OpensIn, PlaysIn};
ghost use Rattle.run_replay.specs.Turns.{IsEntered};
ghost use Rattle.run_replay.specs.Replays.{IsUnfinishedRun, IsStrange};
ghost use Rattle.run_replay.specs.declared.replays.ReplayFault.{ReplayFault};
ghost use Rattle.run_replay.specs.declared.turn.Misfit.{Misfit};

use crate::frame_table::{FrameTable, MANY_SPAWNS};
use crate::turn::{Misfit, confirm};
use packed_history::Entries;
use program_text::Program;
use race_gate::{Answer, Core, Entry};
use std::alloc::{AllocError, Allocator};
use thiserror::Error;

/// Why entries are not a finished run.
#[derive(Clone, Copy, Debug, PartialEq, Eq, Error)]
pub enum ReplayFault {
    /// The first entry, by its number from 1 on, that is not the request of a frame that runs there, or has not the gate's answer, or is
    /// past the 1,000,000th.
    #[error("strange {0}")]
    Strange(u32),
    /// The root function has not returned.
    #[error("unfinished")]
    Unfinished,
    /// There is no memory.
    #[error("there is no memory")]
    Memory,
}

impl From<AllocError> for ReplayFault {
    ghost use Rattle.std.specs.Prelude.{◌≡◌};
    ghost use Rattle.run_replay.specs.declared.replays.ReplayFault.TheVariants.{Memory};

    ghost from_gives = { λ _ fault. fault ≡ Memory };

    fn from(_fault: AllocError) -> ReplayFault {
        ReplayFault::Memory
    }
}

/// The number of the entry that comes next.
fn next_number<A: Allocator + Clone>(core: &Core<A>) -> u32
    requires { core.now.entries ≤ most_entries }
    ensures { result ≡ core.now.entries + 1 }
{
    core.entries() + 1
}

/// The most entries of a gate's history.
const MOST_ENTRIES: u32 = 1_000_000;

/// A core of the program's shape, before any entry.
fn core_of<A: Allocator + Copy, B: Allocator>(
    alloc: A,
    program: &Program<B>,
) -> Result<Core<A>, AllocError>
    ensures { IfOk result (λ core. IsCoreOf core (opening (shape_in program.now) most_entries)) }
{
    let shape = program.shape(alloc)?;
    Core::new(alloc, &shape, MOST_ENTRIES)
}

/// Has a core judge an entry, and plays it.
fn judge_and_play<A: Allocator + Copy, B: Allocator>(
    core: &mut Core<A>,
    table: &mut FrameTable<A>,
    program: &Program<B>,
    entry: Entry,
) -> Result<(), Misfit>
    requires plays { (state : GateState) × PlaysIn program.now.functions (shape_in program.now) state
        table.old.slots.items table.old.homes.items table.old.places.items }
    ensures ok { (state : GateState) → IsCoreOf core.old state → PlaysIn program.now.functions (shape_in program.now) state
        table.old.slots.items table.old.homes.items table.old.places.items →
        OnOk result ((next : GateState) × IsCoreOf core.new next × PlaysIn program.now.functions (shape_in program.now) next
        table.new.slots.items table.new.homes.items table.new.places.items × IsPlayed entry state next) }
    ensures strange { (state : GateState) → IsCoreOf core.old state → PlaysIn program.now.functions (shape_in program.now) state
        table.old.slots.items table.old.homes.items table.old.places.items →
        result ≡ Err Misfit.Strange → IsMisfit program.now.functions (shape_in program.now) entry state }
{
    confirm(core, entry)?;
    table.play(program, entry)
}

/// Plays the entries, the oldest first, on what has been opened, before a fresh core.
fn play_all<A: Allocator + Copy, B: Allocator>(
    core: &mut Core<A>,
    table: &mut FrameTable<A>,
    program: &Program<B>,
    entries: &[Entry],
) -> Result<(), ReplayFault>
    requires core { IsCoreOf core.old (opening (shape_in program.now) most_entries) }
    requires opens { OpensIn program.now.functions (shape_in program.now)
        (opening (shape_in program.now) most_entries) table.old.slots.items table.old.homes.items table.old.places.items }
    ensures finished { OnOk result (IsFinishedRun program.now.functions (shape_in program.now) (reverse entries.now)) }
    ensures unfinished { result ≡ Err ReplayFault.Unfinished →
        IsUnfinishedRun program.now.functions (shape_in program.now) (reverse entries.now) }
    ensures strange { (number : ℕ) → result ≡ Err (ReplayFault.Strange number) →
        IsStrange program.now.functions (shape_in program.now) entries.now number }
{
    for entry in entries {
        let number = next_number(core);
        match judge_and_play(core, table, program, *entry) {
            Ok(()) => {}
            Err(Misfit::Strange) => return Err(ReplayFault::Strange(number)),
            Err(Misfit::Memory) => return Err(ReplayFault::Memory),
        }
    }
    if core.is_finished() {
        Ok(())
    } else {
        Err(ReplayFault::Unfinished)
    }
}

/// Whether the last entry is the return of the root function.
fn is_finished<A: Allocator>(entries: &Entries<A>) -> bool
    ensures { IsTrue result ↔ IsFinished (reverse entries.now.items) }
{
    let count = entries.len();
    count > 0 && matches!(entries.get(count - 1).answer, Answer::Finished)
}

/// As [`play_at`], of an entry that may be a refusal. It is a function of its own, so that all others are played from registers, and not from
/// a copy in memory.
#[cold]
#[inline(never)]
fn play_beside<A: Allocator + Copy, B: Allocator, C: Allocator>(
    table: &mut FrameTable<A>,
    program: &Program<B>,
    entries: &Entries<C>,
    at: usize,
) -> Result<(), Misfit>
    requires there { at < length entries.now.items }
    requires plays { (state : GateState) × PlaysIn program.now.functions (shape_in program.now) state
        table.old.slots.items table.old.homes.items table.old.places.items }
    ensures ok { (entry : OneEntry) → slice_get entries.now.items at ≡ Some entry →
        (state next : GateState) → PlaysIn program.now.functions (shape_in program.now) state
        table.old.slots.items table.old.homes.items table.old.places.items → IsEntered entry state next →
        OnOk result (PlaysIn program.now.functions (shape_in program.now) next
        table.new.slots.items table.new.homes.items table.new.places.items) }
    ensures strange { (entry : OneEntry) → slice_get entries.now.items at ≡ Some entry →
        (state : GateState) → PlaysIn program.now.functions (shape_in program.now) state
        table.old.slots.items table.old.homes.items table.old.places.items →
        result ≡ Err Misfit.Strange → IsMisfit program.now.functions (shape_in program.now) entry state }
{
    table.play(program, entries.get(at))
}

/// Plays the entry at this place.
#[inline(always)]
fn play_at<A: Allocator + Copy, B: Allocator, C: Allocator>(
    table: &mut FrameTable<A>,
    program: &Program<B>,
    entries: &Entries<C>,
    at: usize,
) -> Result<(), Misfit>
    requires there { at < length entries.now.items }
    requires plays { (state : GateState) × PlaysIn program.now.functions (shape_in program.now) state
        table.old.slots.items table.old.homes.items table.old.places.items }
    ensures ok { (entry : OneEntry) → slice_get entries.now.items at ≡ Some entry →
        (state next : GateState) → PlaysIn program.now.functions (shape_in program.now) state
        table.old.slots.items table.old.homes.items table.old.places.items → IsEntered entry state next →
        OnOk result (PlaysIn program.now.functions (shape_in program.now) next
        table.new.slots.items table.new.homes.items table.new.places.items) }
    ensures strange { (entry : OneEntry) → slice_get entries.now.items at ≡ Some entry →
        (state : GateState) → PlaysIn program.now.functions (shape_in program.now) state
        table.old.slots.items table.old.homes.items table.old.places.items →
        result ≡ Err Misfit.Strange → IsMisfit program.now.functions (shape_in program.now) entry state }
{
    if entries.is_clean(at) {
        table.play(program, entries.get(at))
    } else {
        play_beside(table, program, entries, at)
    }
}

/// Plays entries that are judged, the oldest first, on what has been opened.
fn follow_all<A: Allocator + Copy, B: Allocator, C: Allocator>(
    table: &mut FrameTable<A>,
    program: &Program<B>,
    entries: &Entries<C>,
) -> Result<(), ReplayFault>
    requires judged { IsJudged (shape_in program.now) (reverse entries.now.items) }
    requires opens { OpensIn program.now.functions (shape_in program.now)
        (opening (shape_in program.now) most_entries) table.old.slots.items table.old.homes.items table.old.places.items }
    ensures finished { OnOk result (IsFinishedRun program.now.functions (shape_in program.now) (reverse entries.now.items)) }
    ensures unfinished { result ≡ Err ReplayFault.Unfinished →
        IsUnfinishedRun program.now.functions (shape_in program.now) (reverse entries.now.items) }
    ensures strange { (number : ℕ) → result ≡ Err (ReplayFault.Strange number) →
        IsStrange program.now.functions (shape_in program.now) entries.now.items number }
{
    for at in 0..entries.len() {
        if at >= MOST_ENTRIES as usize {
            return Err(ReplayFault::Strange(MOST_ENTRIES + 1));
        }
        match play_at(table, program, entries, at) {
            Ok(()) => {}
            Err(Misfit::Strange) => return Err(ReplayFault::Strange(at as u32 + 1)),
            Err(Misfit::Memory) => return Err(ReplayFault::Memory),
        }
    }
    if !is_finished(entries) {
        return Err(ReplayFault::Unfinished);
    }
    Ok(())
}

/// Few programs spawn more often than at every so many entries.
const ENTRIES_OF_SPAWN: usize = 4;

/// How many entries are spawns.
fn spawns_of(entries: &[Entry]) -> usize {
    let mut spawns = 0usize;
    for entry in entries {
        if matches!(entry.answer, Answer::Split(_)) {
            spawns = spawns.saturating_add(1);
        }
    }
    spawns
}

/// Plays the entries, the oldest first, with the program's frames before a fresh core of the gate. It is Ok only on a finished run. Of a
/// run that is not finished it says so, and otherwise which entry is strange; a refused entry can be strange in its witness alone.
pub fn replay<A: Allocator + Copy, B: Allocator>(
    alloc: A,
    program: &Program<B>,
    entries: &[Entry],
) -> Result<(), ReplayFault>
    ensures finished { OnOk result (IsFinishedRun program.now.functions (shape_in program.now) (reverse entries.now)) }
    ensures unfinished { result ≡ Err ReplayFault.Unfinished →
        IsUnfinishedRun program.now.functions (shape_in program.now) (reverse entries.now) }
    ensures strange { (number : ℕ) → result ≡ Err (ReplayFault.Strange number) →
        IsStrange program.now.functions (shape_in program.now) entries.now number }
{
    let mut table = FrameTable::open(alloc, program)?;
    let mut core = core_of(alloc, program)?;
    let spawns = spawns_of(entries);
    table.make_room(spawns);
    if spawns >= MANY_SPAWNS {
        core.make_room(spawns.saturating_mul(3));
    }
    play_all(&mut core, &mut table, program, entries)
}

/// What [`replay`] says of these entries, where it is known that they are judged, as those of a gate are: no core judges them again. Room
/// for spawns is asked for by the number of entries, since what is not used of it costs less than to look at all entries once more.
pub fn follow<A: Allocator + Copy, B: Allocator, C: Allocator>(
    alloc: A,
    program: &Program<B>,
    entries: &Entries<C>,
) -> Result<(), ReplayFault>
    requires { IsJudged (shape_in program.now) (reverse entries.now.items) }
    ensures finished { OnOk result (IsFinishedRun program.now.functions (shape_in program.now) (reverse entries.now.items)) }
    ensures unfinished { result ≡ Err ReplayFault.Unfinished →
        IsUnfinishedRun program.now.functions (shape_in program.now) (reverse entries.now.items) }
    ensures strange { (number : ℕ) → result ≡ Err (ReplayFault.Strange number) →
        IsStrange program.now.functions (shape_in program.now) entries.now.items number }
{
    let mut table = FrameTable::open(alloc, program)?;
    table.make_room(entries.len() / ENTRIES_OF_SPAWN);
    follow_all(&mut table, program, entries)
}
