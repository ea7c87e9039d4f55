//! Strands as they are told apart, numbered and joined.

use sp_labels::{Returned, SpFault, Spawned, Strands, Synced};
use std::alloc::Global;
use std::test::Fail;

/// The outcome of a spawn that begins these strands, the first of its block or not.
macro_rules! split {
    ($child:expr, $next:expr, $join:expr, $first:expr) => {
        Ok(Spawned {
            child: $child,
            next: $next,
            join: $join,
            first: $first,
        })
    };
}

/// Whether a strand is before another in the English order, whether it is in the Hebrew one, whether it precedes it, and whether the two are
/// parallel.
type Relation = [bool; 4];

const PARALLEL: Relation = [true, false, false, true];

const SWAPPED: Relation = [false, true, false, true];

const ALIKE: Relation = [false, false, false, false];

const PATH: Relation = [true, true, true, false];

fn compare(strands: &Strands<Global>, a: u32, b: u32) -> Option<Relation> {
    if !strands.is_begun(a) || !strands.is_begun(b) {
        return None;
    }
    Some([
        strands.english_before(a, b),
        strands.hebrew_before(a, b),
        strands.precedes(a, b),
        strands.parallel(a, b),
    ])
}

/// What is asked of strands or seen in them. What is asked has its outcome last.
enum Step {
    /// A strand spawns.
    Spawns(u32, Result<Spawned, SpFault>),
    /// A strand syncs.
    Syncs(u32, Result<Synced, SpFault>),
    /// A strand calls.
    Calls(u32),
    /// A strand returns.
    Returns(u32, Result<Returned, SpFault>),
    /// Room is asked for.
    Reserves(Result<(), SpFault>),
    /// A strand has begun or not, runs or not, and there is room or none.
    Stands(u32, [bool; 3]),
    /// Two strands are told apart so, or one has not begun.
    Relates(u32, u32, Option<Relation>),
    /// Ten thousand spawns by the root function, whose children return.
    SpawnsLong,
    /// A million spawns, each by the child of the last one.
    Fills,
}

use Step::{Calls, Fills, Relates, Reserves, Returns, Spawns, SpawnsLong, Stands, Syncs};

/// Whether ten thousand spawns in one block, each by the strand behind the one before, have their outcomes, and the children's returns.
fn spawns_long(strands: &mut Strands<Global>) -> bool {
    let mut newest = 0;
    for k in 1..10_001u32 {
        let child = if k == 1 { 1 } else { 2 * k };
        if strands.spawn(newest) != split!(child, child + 1, 3, k == 1)
            || strands.ret(child) != Ok(Returned::Ended)
        {
            return false;
        }
        newest = child + 1;
    }
    true
}

/// Whether a million first spawns, each by the child of the one before, have their outcomes.
fn fills(strands: &mut Strands<Global>) -> bool {
    let mut newest = 0;
    for k in 0..1_000_000u32 {
        if strands.spawn(newest) != split!(3 * k + 1, 3 * k + 2, 3 * k + 3, true) {
            return false;
        }
        newest = 3 * k + 1;
    }
    true
}

/// Whether a step has its outcome.
fn goes(strands: &mut Strands<Global>, step: &Step) -> bool {
    match step {
        Spawns(strand, wanted) => strands.spawn(*strand) == *wanted,
        Syncs(strand, wanted) => strands.sync(*strand) == *wanted,
        Calls(strand) => strands.call(*strand).is_ok(),
        Returns(strand, wanted) => strands.ret(*strand) == *wanted,
        Reserves(wanted) => strands.reserve_event() == *wanted,
        Stands(strand, [is_begun, is_running, has_room]) => {
            strands.is_begun(*strand) == *is_begun
                && strands.is_running(*strand) == *is_running
                && strands.has_room() == *has_room
        }
        Relates(a, b, wanted) => compare(strands, *a, *b) == *wanted,
        SpawnsLong => spawns_long(strands),
        Fills => fills(strands),
    }
}

const RUNS: &[&[Step]] = &[
    // Parallel strands are told.
    &[
        Spawns(0, split!(1, 2, 3, true)),
        Relates(1, 2, Some(PARALLEL)),
        Relates(2, 1, Some(SWAPPED)),
        Relates(0, 0, Some(ALIKE)),
        Relates(0, 1, Some(PATH)),
        Relates(0, 3, None),
        Returns(0, Err(SpFault::NotRunning)),
        Returns(2, Err(SpFault::Unsynced)),
        Syncs(2, Ok(Synced::Waits)),
        Returns(1, Ok(Returned::EndedJoined(3))),
        Relates(1, 3, Some(PATH)),
        Stands(3, [true, true, false]),
        Stands(1, [true, false, false]),
    ],
    // A sync ends the block of its own function.
    &[
        Spawns(0, split!(1, 2, 3, true)),
        Calls(2),
        Spawns(2, split!(4, 5, 6, true)),
        Returns(4, Ok(Returned::Ended)),
        Syncs(5, Ok(Synced::Joined(6))),
        Returns(6, Ok(Returned::Resumed)),
        Syncs(6, Ok(Synced::Waits)),
        Returns(1, Ok(Returned::EndedJoined(3))),
        Returns(3, Ok(Returned::Finished)),
    ],
    // Spawns in a long loop.
    &[
        SpawnsLong,
        Syncs(20_001, Ok(Synced::Joined(3))),
        Returns(3, Ok(Returned::Finished)),
        Stands(20_001, [true, false, false]),
        Stands(20_002, [false, false, false]),
    ],
    // Then 20,002 items stand in the orders, strand 0 among them: the next that is placed has number 20,002.
    &[
        SpawnsLong,
        Stands(20_002, [false, false, false]),
        Spawns(20_001, split!(20_002, 20_003, 3, false)),
        Relates(20_002, 20_003, Some(PARALLEL)),
        Relates(1, 20_002, Some(PARALLEL)),
        Relates(20_001, 20_002, Some(PATH)),
        Stands(20_003, [true, true, false]),
        Stands(20_004, [false, false, false]),
    ],
    // Room is kept until the next event.
    &[
        Stands(0, [true, true, false]),
        Reserves(Ok(())),
        Syncs(1, Err(SpFault::NotRunning)),
        Stands(0, [true, true, true]),
        Syncs(0, Ok(Synced::Same)),
        Stands(0, [true, true, false]),
    ],
    // A million first spawns, and there is no room for another.
    &[
        Fills,
        Reserves(Err(SpFault::Full)),
        Spawns(2_999_998, Err(SpFault::Full)),
        Spawns(0, Err(SpFault::NotRunning)),
        Calls(2_999_998),
        Returns(2_999_998, Ok(Returned::Resumed)),
    ],
];

/// New strands go each run step by step.
#[test]
fn strands_are_told_apart_numbered_and_joined(rt: HostRuntime) -> Result<(), Fail> {
    for steps in RUNS {
        let mut strands = Strands::new(rt.alloc())?;
        for (place, step) in steps.iter().enumerate() {
            assert!(rt; goes(&mut strands, step), "step {place}");
        }
    }
    Ok(())
}
