//! Worked accesses of a shadow history, and its memory.

ghost use Rattle.std.specs.Prelude.{◌≡◌, ◌<◌, ◌≤◌, IfOk, length};
ghost use Rattle.shadow_history.specs.Shadow.{StandsOn};

use crate::checks::equal;
use access_table::{Kind, is_memory};
use linked_list_allocator::LocalHeap;
use shadow_history::{Shadow, Witness, laws};
use sp_labels::Strands;
use std::alloc::{AllocError, Allocator, Global};
use std::process::Abort;
use std::test::Fail;

/// What a strand does: the accesses are to location 0 or 1.
enum Act {
    Spawn,
    Sync,
    Call,
    Return,
    Access(Kind, u32),
}

use Act::{Access, Call, Return, Spawn, Sync};

/// Strand 0, before it has done anything.
fn opening<A: Allocator>(
    alloc: Global,
    cells: A,
    locations: u32,
) -> Result<(Strands<Global>, Shadow<A>), AllocError>
    ensures stands { IfOk result (λ both. StandsOn both.1 both.0) }
    ensures locations { IfOk result (λ both. length both.1 ≡ locations) }
{
    let strands = Strands::new(alloc)?;
    let shadow = Shadow::new(cells, locations)?;
    Ok((strands, shadow))
}

/// Does an act, if it is legal, and takes an access in where no earlier one races with it.
fn step<A: Allocator>(
    strands: &mut Strands<Global>,
    shadow: &mut Shadow<A>,
    entry: u32,
    strand: u32,
    act: &Act,
) -> Option<Witness>
    requires stands { StandsOn shadow.old strands.old }
    requires locations { 2 ≤ length shadow.old }
    ensures stands { StandsOn shadow.new strands.new }
    ensures locations { length shadow.new ≡ length shadow.old }
{
    match act {
        Spawn => {
            let _ = strands.spawn(strand);
            None
        }
        Sync => {
            let _ = strands.sync(strand);
            None
        }
        Call => {
            let _ = strands.call(strand);
            None
        }
        Return => {
            let _ = strands.ret(strand);
            None
        }
        Access(kind, location) => {
            let (kind, location) = (*kind, *location);
            if location > 1 || !is_memory(kind) || !strands.is_running(strand) {
                return None;
            }
            let found = shadow.find(strands, location, kind, strand);
            if found.is_none() {
                shadow.add(strands, location, kind, strand, entry);
            }
            found
        }
    }
}

/// The witness of this entry.
macro_rules! witness {
    ($entry:literal, $strand:literal, $kind:expr) => {
        Some(Witness {
            entry: $entry,
            strand: $strand,
            kind: $kind,
        })
    };
}

/// An act by a strand, and the witness that it finds.
type Found = (u32, Act, Option<Witness>);

/// Whether each act, by its strand, finds the witness beside it.
fn finds_all<A: Allocator>(
    strands: &mut Strands<Global>,
    shadow: &mut Shadow<A>,
    acts: &[Found],
) -> bool
    requires stands { StandsOn shadow.old strands.old }
    requires locations { 2 ≤ length shadow.old }
{
    let mut entry = 0u32;
    for (strand, act, expected) in acts {
        entry = entry.wrapping_add(1);
        if step(strands, shadow, entry, *strand, act) != *expected {
            return false;
        }
    }
    true
}

/// A bump, write or read by a child, and another access by its continuation, which finds the first or nothing. In another cell it finds
/// nothing.
macro_rules! pair {
    ($earlier:expr, $new:expr, $found:expr) => {
        &[
            (0, Spawn, None),
            (1, Access($earlier, 0), None),
            (2, Access($new, 0), $found),
            (2, Access($new, 1), None),
        ]
    };
}

/// Worked accesses.
const RUNS: &[&[Found]] = &[
    // A write races with the child that read.
    &[
        (0, Spawn, None),
        (1, Access(Kind::Read, 0), None),
        (2, Access(Kind::Read, 0), None),
        (2, Access(Kind::Write, 0), witness!(2, 1, Kind::Read)),
    ],
    &[
        (0, Spawn, None),
        (2, Access(Kind::Read, 0), None),
        (1, Access(Kind::Write, 0), witness!(2, 2, Kind::Read)),
    ],
    &[
        (0, Spawn, None),
        (2, Access(Kind::Read, 0), None),
        (1, Access(Kind::Read, 0), None),
        (1, Access(Kind::Write, 0), witness!(2, 2, Kind::Read)),
    ],
    // A refused write is not kept.
    &[
        (0, Spawn, None),
        (1, Access(Kind::Write, 0), None),
        (2, Access(Kind::Write, 0), witness!(2, 1, Kind::Write)),
        (1, Access(Kind::Read, 0), None),
    ],
    // A join comes behind its block.
    &[
        (0, Spawn, None),
        (1, Access(Kind::Read, 0), None),
        (2, Sync, None),
        (1, Return, None),
        (3, Access(Kind::Write, 0), None),
    ],
    // What comes behind a call comes behind what the called function spawned.
    &[
        (0, Call, None),
        (0, Spawn, None),
        (1, Access(Kind::Write, 0), None),
        (2, Access(Kind::Read, 0), witness!(3, 1, Kind::Write)),
        (2, Sync, None),
        (1, Return, None),
        (3, Return, None),
        (3, Access(Kind::Read, 0), None),
    ],
    // The first kind and its earliest entry count.
    &[
        (0, Spawn, None),
        (1, Access(Kind::Read, 0), None),
        (1, Access(Kind::Bump, 0), None),
        (1, Access(Kind::Bump, 0), None),
        (2, Access(Kind::Write, 0), witness!(3, 1, Kind::Bump)),
        (2, Access(Kind::Bump, 0), witness!(2, 1, Kind::Read)),
        (2, Access(Kind::Read, 0), witness!(3, 1, Kind::Bump)),
    ],
    // Bumps race with reads and writes alone.
    pair!(Kind::Bump, Kind::Bump, None),
    pair!(Kind::Bump, Kind::Write, witness!(2, 1, Kind::Bump)),
    pair!(Kind::Write, Kind::Bump, witness!(2, 1, Kind::Write)),
    pair!(Kind::Read, Kind::Bump, witness!(2, 1, Kind::Read)),
    pair!(Kind::Bump, Kind::Read, witness!(2, 1, Kind::Bump)),
    pair!(Kind::Read, Kind::Read, None),
];

#[test]
fn an_access_finds_the_access_that_it_races_with(rt: HostRuntime) -> Result<(), Fail> {
    for (place, acts) in RUNS.iter().enumerate() {
        let (mut strands, mut shadow) = opening(rt.alloc(), rt.alloc(), 2)?;
        equal(
            &rt,
            &place,
            &finds_all(&mut strands, &mut shadow, acts),
            &true,
        );
    }
    Ok(())
}

/// The bytes that the shadow history of so many locations takes from a heap of so many bytes: 0 where it is refused.
fn count_bytes(alloc: Global, bytes: usize, locations: u32) -> Result<usize, AllocError> {
    let heap = LocalHeap::new(alloc, bytes)?;
    match Shadow::new(&heap, locations) {
        Ok(_shadow) => Ok(heap.used()),
        Err(_) => Ok(0),
    }
}

/// A write and a read of location 1 find nothing.
const NOTHING: &[Found] = &[
    (0, Access(Kind::Write, 1), None),
    (0, Access(Kind::Read, 1), None),
];

/// Whether accesses of so many locations take no bytes of the heap beyond so many, which their cells take: then it has no room for a second
/// shadow history.
fn takes_no_more(
    alloc: Global,
    heap: &LocalHeap,
    locations: u32,
    bytes: usize,
) -> Result<bool, AllocError>
    requires { 2 ≤ locations }
{
    let (mut strands, mut shadow) = opening(alloc, heap, locations)?;
    Ok(
        heap.used() == bytes
            && Shadow::new(heap, 1).is_err()
            && finds_all(&mut strands, &mut shadow, NOTHING)
            && heap.used() == bytes,
    )
}

/// Checks that a million locations take so many bytes, a thousand times those of a thousand. A heap of as many bytes has room for them, and one
/// of 16 bytes less has none.
fn check_bytes(rt: &impl Abort, alloc: Global, bytes: usize) -> Result<(), AllocError>
    requires { 16 < bytes }
{
    let of_few = count_bytes(alloc, 64_000, 1_000)?;
    let of_many = count_bytes(alloc, bytes, 1_000_000)?;
    let without_room = count_bytes(alloc, bytes - 16, 1_000_000)?;
    let wanted = (bytes / 1_000, bytes, 0);
    equal(rt, &"bytes", &(of_few, of_many, without_room), &wanted);
    Ok(())
}

#[test]
fn many_locations_take_one_allocation_or_are_refused(rt: HostRuntime) -> Result<(), Fail> {
    let bytes = count_bytes(rt.alloc(), 64_000_000, 1_000_000)?;
    assert!(rt; 16 < bytes && bytes % 1_000 == 0);
    check_bytes(&rt, rt.alloc(), bytes)?;
    let heap = LocalHeap::new(rt.alloc(), bytes)?;
    assert!(rt; takes_no_more(rt.alloc(), &heap, 1_000_000, bytes)?);
    laws::later_law();
    laws::place_law();
    Ok(())
}
