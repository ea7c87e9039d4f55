//! Where two strands part, and which spawns are outstanding at one of them.

ghost use Rattle.std.specs.Prelude.{◌≡◌, ◌↔◌, IfSome, IsSome};
ghost use Rattle.model_strands.specs.Dag.{IsParallel};
ghost use Rattle.model_histories.specs.Entries.{Entries, control_part};
ghost use Rattle.race_pairs.specs.Lineages.{AreSides};
ghost use Rattle.race_pairs.specs.Partings.{IsParting};
ghost use Rattle.race_pairs.specs.OpenSpawns.{IsOutstanding};

use crate::climbs::{find_meeting, open_behind, opposite, spawn_of};
use crate::kept::{Frame, Jump, Strand};
use crate::lineage::{OpenSpawn, Parting};

/// The spawn where two begun strands part.
pub(crate) fn find_parting(
    opened: &[Frame],
    strands: &[Strand],
    jumps: &[Jump],
    strand: u32,
    other: u32,
) -> Option<Parting>
    requires { (entries : Entries) × AreSides opened.now strands.now jumps.now entries strand other }
    ensures parts { (entries : Entries) → AreSides opened.now strands.now jumps.now entries strand other → IfSome result (IsParting entries strand other) }
    ensures found { (entries : Entries) → AreSides opened.now strands.now jumps.now entries strand other →
        (IsSome result ↔ IsParallel (control_part entries) strand other) }
{
    let (one, two, entry) = find_meeting(opened, strands, jumps, strand, other);
    if entry == 0 {
        return None;
    }
    let (spawner, spawned) = spawn_of(opened, strands, one);
    let (by_child, by_next) = if one == spawned.child && two == spawned.next {
        (strand, other)
    } else if two == spawned.child && one == spawned.next {
        (other, strand)
    } else {
        return None;
    };
    Some(Parting {
        entry,
        spawner,
        spawned,
        by_child,
        by_next,
    })
}

/// A spawn that is outstanding at one of two begun strands and not at the other.
pub(crate) fn find_outstanding(
    opened: &[Frame],
    strands: &[Strand],
    jumps: &[Jump],
    first: u32,
    second: u32,
) -> Option<OpenSpawn>
    requires { (entries : Entries) × AreSides opened.now strands.now jumps.now entries first second }
    ensures { (entries : Entries) → AreSides opened.now strands.now jumps.now entries first second → IfSome result (IsOutstanding entries first second) }
{
    let (one, two, maker) = find_meeting(opened, strands, jumps, first, second);
    if one == two {
        return if one == first {
            open_behind(opened, strands, first, second)
        } else if two == second {
            open_behind(opened, strands, second, first)
        } else {
            None
        };
    }
    let (spawner, spawned) = spawn_of(opened, strands, one);
    let (side, parallel, ordered) = if one == spawned.next
        || one == spawned.child && two != spawned.next
    {
        (one, first, second)
    } else {
        (two, second, first)
    };
    let peer = opposite(spawned, side)?;
    Some(OpenSpawn {
        entry: maker,
        spawner,
        spawned,
        peer,
        parallel,
        ordered,
    })
}
