//! The indexes that wrap in a run.

ghost use Rattle.std.specs.Prelude.{◌≡◌, ◌≤◌, ◌==◌, ℕ, length, reverse, cond, Some, None, IfOk, OnOk};
ghost use Rattle.std.specs.Option.{option_or};
ghost use Rattle.model_histories.specs.Shapes.{most_entries};
ghost use Rattle.model_histories.specs.States.{GateState, opening};
ghost use Rattle.model_races.specs.Judged.{IsJudged};
ghost use Rattle.program_text.specs.Shapes.{shape_in};
ghost use Rattle.run_replay.specs.Slots.{OpensIn, PlaysIn};
ghost use Rattle.run_replay.specs.Turns.{IsEntered};
ghost use Rattle.run_replay.specs.Wraps.{index_at, AreWraps};

use crate::frame_table::FrameTable;
use crate::turn::Misfit;
use packed_history::Entries;
use program_text::Program;
use race_gate::Entry;
use std::alloc::{AllocError, Allocator};
use std::collections::BTreeMap;

/// The first index that wrapped at each line.
pub type Wraps<A> = BTreeMap<u32, u64, A>;

/// Keeps an index for a line, unless one is kept.
fn keep_first<A: Allocator + Copy>(
    wraps: &mut Wraps<A>,
    line: u32,
    index: u64,
) -> Result<(), AllocError>
    ensures { OnOk result ((other : ℕ) → index_at wraps.new other ≡ option_or (index_at wraps.old other) (cond (line == other) (Some index) None)) }
{
    if wraps.get(&line).is_none() {
        wraps.insert(line, index)?;
    }
    Ok(())
}

/// Keeps an index for a line, where there is an index and none is kept.
fn keep_wrap<A: Allocator + Copy>(
    wraps: &mut Wraps<A>,
    line: u32,
    wrap: Option<u64>,
) -> Result<(), AllocError>
    ensures { OnOk result ((other : ℕ) → index_at wraps.new other ≡ option_or (index_at wraps.old other) (cond (line == other) wrap None)) }
{
    match wrap {
        Some(index) => keep_first(wraps, line, index),
        None => Ok(()),
    }
}

/// Keeps the index that an entry wraps, and plays the entry.
fn keep_and_play<A: Allocator + Copy, B: Allocator>(
    table: &mut FrameTable<A>,
    wraps: &mut Wraps<A>,
    program: &Program<B>,
    entry: Entry,
) -> Result<(), Misfit>
    requires plays { (state : GateState) × PlaysIn program.now.functions (shape_in program.now) state
        table.old.slots.items table.old.homes.items table.old.places.items }
    ensures { (state next : GateState) → PlaysIn program.now.functions (shape_in program.now) state
        table.old.slots.items table.old.homes.items table.old.places.items → IsEntered entry state next →
        AreWraps program.now.functions (shape_in program.now) state.history wraps.old →
        OnOk result (PlaysIn program.now.functions (shape_in program.now) next
        table.new.slots.items table.new.homes.items table.new.places.items
        × AreWraps program.now.functions (shape_in program.now) next.history wraps.new) }
{
    let wrap = table.next_wrap(program, entry);
    match keep_wrap(wraps, entry.request.line, wrap) {
        Ok(()) => table.play(program, entry),
        Err(_) => Err(Misfit::Memory),
    }
}

/// Keeps the indexes that these entries wrap, the oldest first, on what has been opened.
fn keep_all<A: Allocator + Copy, B: Allocator, C: Allocator>(
    table: &mut FrameTable<A>,
    wraps: &mut Wraps<A>,
    program: &Program<B>,
    entries: &Entries<C>,
) -> Result<(), Misfit>
    requires judged { IsJudged (shape_in program.now) (reverse entries.now.items) }
    requires within { length entries.now.items ≤ most_entries }
    requires opens { OpensIn program.now.functions (shape_in program.now)
        (opening (shape_in program.now) most_entries) table.old.slots.items table.old.homes.items table.old.places.items }
    requires none { (line : ℕ) → index_at wraps.old line ≡ None }
    ensures { OnOk result (AreWraps program.now.functions (shape_in program.now) (reverse entries.now.items) wraps.new) }
{
    for at in 0..entries.len() {
        keep_and_play(table, wraps, program, entries.get(at))?;
    }
    Ok(())
}

/// The first index that wraps at each line, in the entries of a run of the program: where an access has an array and an index that is not
/// below the array's length.
///
/// Answers [`Misfit::Memory`] where there is no memory, and [`Misfit::Strange`] where the entries are no run.
pub fn find_wraps<A: Allocator + Copy, B: Allocator, C: Allocator>(
    alloc: A,
    program: &Program<B>,
    entries: &Entries<C>,
) -> Result<Wraps<A>, Misfit>
    requires judged { IsJudged (shape_in program.now) (reverse entries.now.items) }
    requires within { length entries.now.items ≤ most_entries }
    ensures { IfOk result (λ wraps. AreWraps program.now.functions (shape_in program.now) (reverse entries.now.items) wraps) }
{
    let mut table = match FrameTable::open(alloc, program) {
        Ok(table) => table,
        Err(_) => return Err(Misfit::Memory),
    };
    let mut wraps = BTreeMap::new(alloc);
    keep_all(&mut table, &mut wraps, program, entries)?;
    Ok(wraps)
}
