//! Which strands of two blocks, one after the other, have one branch.

ghost use Rattle.std.specs.Prelude.{[]};
ghost use Rattle.branch_names.specs.Names.{Follows};

use crate::checks::equal;
use branch_names::Branches;
use sp_labels::Spawned;
use std::alloc::{AllocError, Global};
use std::test::Fail;

/// Whether there was room; whether join 3 had a name before it began, and then; and whether 0 and 3, 1 and 2, 0 and 1, 0 and 6 have one.
const NAMES: [bool; 7] = [true, false, true, true, false, false, true];

// A spawn by strand 0, the child's return, a sync that begins join 3; then the same by strand 3, and join 6.
fn names_two_joins(branches: &mut Branches<Global>) -> Result<[bool; 7], AllocError>
    requires { Follows branches.old [] }
{
    branches.reserve_event()?;
    let has_room = branches.has_room();
    branches.spawned(
        0,
        &Spawned {
            child: 1,
            next: 2,
            join: 3,
            first: true,
        },
    );
    let is_early = branches.is_named(3);

    branches.reserve_event()?;
    branches.joined(3);
    let is_named = branches.is_named(3);
    let with_join = branches.same(0, 3);
    let children = branches.same(1, 2);
    let with_child = branches.same(0, 1);

    branches.reserve_event()?;
    branches.spawned(
        3,
        &Spawned {
            child: 4,
            next: 5,
            join: 6,
            first: true,
        },
    );
    branches.reserve_event()?;
    branches.joined(6);
    let with_last = branches.same(0, 6);

    Ok([
        has_room, is_early, is_named, with_join, children, with_child, with_last,
    ])
}

#[test]
fn names_joins_as_their_openers(rt: HostRuntime) -> Result<(), Fail> {
    let mut branches = Branches::new(rt.alloc())?;
    let found = names_two_joins(&mut branches)?;
    equal(&rt, &"names", &found, &NAMES);
    Ok(())
}
