//! Reads of a reducer by strands with the peers of the first read, and with others.

ghost use Rattle.std.specs.Prelude.{◌≡◌, [], length};
ghost use Rattle.branch_names.specs.Names.{Follows};
ghost use Rattle.view_read_rule.specs.Reads.{Remembers};

use crate::checks::equal;
use access_table::Kind;
use branch_names::Branches;
use shadow_history::Witness;
use sp_labels::Spawned;
use std::alloc::{AllocError, Global};
use std::test::Fail;
use view_read_rule::{ReadPeers, ViewVerdict};

/// The verdicts on a get before each put, on a put, on a get with other peers, and on one with the same peers.
const VERDICTS: [ViewVerdict; 4] = [
    ViewVerdict::Unset,
    ViewVerdict::Granted,
    ViewVerdict::Refused(Witness {
        entry: 2,
        strand: 1,
        kind: Kind::Put,
    }),
    ViewVerdict::Granted,
];

// Strand 0 spawns 1 and 2, strand 1 puts, strand 2 asks for a get and spawns, strand 1 gets.
fn judges_reads(
    branches: &mut Branches<Global>,
    peers: &mut ReadPeers<Global>,
) -> Result<[ViewVerdict; 4], AllocError>
    requires follows { Follows branches.old [] }
    requires reducers { length peers.old ≡ 1 }
    requires empty { Remembers peers.old [] }
{
    let unset = peers.judge(branches, 0, Kind::Get, 0);
    let first = peers.judge(branches, 0, Kind::Put, 0);

    branches.reserve_event()?;
    branches.spawned(
        0,
        &Spawned {
            child: 1,
            next: 2,
            join: 3,
            first: true,
        },
    );
    peers.add(0, Kind::Put, 1, 2);
    let other = peers.judge(branches, 0, Kind::Get, 2);

    branches.reserve_event()?;
    branches.spawned(
        2,
        &Spawned {
            child: 4,
            next: 5,
            join: 3,
            first: false,
        },
    );
    let same = peers.judge(branches, 0, Kind::Get, 1);

    Ok([unset, first, other, same])
}

#[test]
fn judges_by_the_first_read(rt: HostRuntime) -> Result<(), Fail> {
    let mut peers = ReadPeers::new(rt.alloc(), 1)?;
    let mut branches = Branches::new(rt.alloc())?;
    let found = judges_reads(&mut branches, &mut peers)?;
    equal(&rt, &"verdicts", &found, &VERDICTS);
    Ok(())
}
