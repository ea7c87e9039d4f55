//! Growths of what is kept of strands: of branches and views, and of the first reads and last accesses.

ghost use Rattle.std.specs.Prelude.{◌≡◌, ◌<◌, [], length, IsTrue, IfSome};
ghost use Rattle.model_strands.specs.History.{History};
ghost use Rattle.sp_labels.specs.Roster.{Follows};
ghost use Rattle.shadow_history.specs.Shadow.{Remembers, Runs, StandsOn};
ghost use Rattle.view_read_rule.specs.Reads.{StandsOn as PeersStandOn};

use super::{Asked, Heap, Told};
use branch_names::Branches;
use model_accesses::{Kind, Witness};
use reducer_views::Views;
use shadow_history::Shadow;
use sp_labels::Strands;
use std::alloc::{AllocError, Global};
use text_words::Monoid;
use view_read_rule::{ReadPeers, ViewVerdict};

/// Strand 0 alone has a name, and there is room for an event or not.
fn names_one(branches: &Branches<&Heap>, has_room: bool) -> bool {
    branches.is_named(0) && !branches.is_named(1) && branches.has_room() == has_room
}

/// New branches get room for an event.
fn ask_branches(branches: &mut Branches<&Heap>, told: &mut Told) -> bool {
    let was_new = names_one(branches, false);
    let reserved = twice!(
        told,
        "Branches::reserve_event",
        AllocError,
        branches.reserve_event(),
        names_one(branches, false)
    );
    was_new && reserved.is_ok() && names_one(branches, true)
}

pub(super) fn call_branches(heap: &Heap, told: &mut Told) -> Asked {
    let Ok(mut branches) = Branches::new(heap) else {
        return Err("Branches::new");
    };
    Ok(ask_branches(&mut branches, told))
}

/// Strand 0 alone is there and sees this number in the reducer, and there is room for an event or not.
fn sees(views: &Views<&Heap>, number: u64, has_room: bool) -> bool
    requires { 0 < length views.now.monoids }
{
    views.is_there(0)
        && !views.is_there(1)
        && views.has_room() == has_room
        && matches!(views.get(0, 0), Some(seen) if seen == number)
}

/// The views, of which strand 0 sees this number, get room for an event.
fn get_room(views: &mut Views<&Heap>, number: u64, told: &mut Told) -> bool
    requires { 0 < length views.old.monoids }
    ensures monoids { views.new.monoids ≡ views.old.monoids }
    ensures room { IsTrue result → IsTrue views.new.has_room }
    ensures there { IsTrue result → 0 < length views.new.strands }
{
    let reserved = twice!(
        told,
        "Views::reserve_event",
        AllocError,
        views.reserve_event(),
        sees(views, number, false)
    );
    reserved.is_ok() && sees(views, number, true) && views.has_room() && views.is_there(0)
}

/// Strand 0 of new views puts 5, and then adds 2.
fn ask_views(views: &mut Views<&Heap>, told: &mut Told) -> bool
    requires { 0 < length views.old.monoids }
{
    if !sees(views, 0, false) || !get_room(views, 0, told) {
        return false;
    }
    views.put(0, 0, 5);
    if !get_room(views, 5, told) {
        return false;
    }
    views.update(0, 0, 2);
    sees(views, 7, false)
}

pub(super) fn call_views(heap: &Heap, told: &mut Told) -> Asked {
    let Ok(mut views) = Views::new(heap, &[Monoid::Sum]) else {
        return Err("Views::new");
    };
    Ok(ask_views(&mut views, told))
}

/// New strands, of which strand 0 has spawned.
fn spawn_first(alloc: Global) -> Option<Strands<Global>>
    ensures { IfSome result (λ strands. (history : History) × Follows strands history) }
{
    match Strands::new(alloc) {
        Ok(mut strands) => match strands.spawn(0) {
            Ok(_) => Some(strands),
            Err(_) => None,
        },
        Err(AllocError) => None,
    }
}

/// Takes in a write by strand 1.
fn write_by_one(strands: &Strands<Global>, shadow: &mut Shadow<&Heap>, location: u32)
    requires stands { StandsOn shadow.old strands.now }
    requires runs { Runs strands.now 1 }
    requires location { location < length shadow.old }
    ensures stands { StandsOn shadow.new strands.now }
    ensures locations { length shadow.new ≡ length shadow.old }
{
    shadow.add(strands, location, Kind::Write, 1, 2);
}

/// The accesses of a location are none, and then the one that is taken in is found.
fn keeps(strands: &Strands<Global>, shadow: &mut Shadow<&Heap>, location: u32) -> bool
    requires stands { StandsOn shadow.old strands.now }
    requires location { location < length shadow.old }
    ensures stands { StandsOn shadow.new strands.now }
    ensures locations { length shadow.new ≡ length shadow.old }
{
    if !strands.is_running(1) || !strands.is_running(2) {
        return false;
    }
    if shadow.find(strands, location, Kind::Read, 2).is_some() {
        return false;
    }
    write_by_one(strands, shadow, location);
    let found = shadow.find(strands, location, Kind::Read, 2);
    matches!(
        found,
        Some(Witness {
            entry: 2,
            strand: 1,
            kind: Kind::Write
        })
    )
}

/// A new shadow history of three locations is as ever.
fn keeps_three(strands: &Strands<Global>, shadow: &mut Shadow<&Heap>) -> bool
    requires stands { StandsOn shadow.old strands.now }
    requires three { length shadow.old ≡ 3 }
{
    keeps(strands, shadow, 0) && keeps(strands, shadow, 1) && keeps(strands, shadow, 2)
}

/// The same of one that is empty.
fn keeps_new(strands: &Strands<Global>, shadow: &mut Shadow<&Heap>) -> bool
    requires follows { (history : History) × Follows strands.now history }
    requires empty { (history : History) → Remembers shadow.old history [] }
    requires three { length shadow.old ≡ 3 }
{
    keeps_three(strands, shadow)
}

pub(super) fn call_shadow(alloc: Global, heap: &Heap) -> Asked {
    let Ok(mut shadow) = Shadow::new(heap, 3) else {
        return Err("Shadow::new");
    };
    match spawn_first(alloc) {
        Some(strands) => Ok(keeps_new(&strands, &mut shadow)),
        None => Ok(false),
    }
}

/// The reads of three reducers are none.
fn are_unread(branches: &Branches<Global>, peers: &ReadPeers<&Heap>) -> bool
    requires stands { PeersStandOn peers.now branches.now }
    requires three { length peers.now ≡ 3 }
{
    if !branches.is_named(0) {
        return false;
    }
    let mut are_none = true;
    for reducer in 0..3u32 {
        are_none &= matches!(
            peers.judge(branches, reducer, Kind::Get, 0),
            ViewVerdict::Unset
        ) && matches!(
            peers.judge(branches, reducer, Kind::Put, 0),
            ViewVerdict::Granted
        );
    }
    are_none
}

pub(super) fn call_reads(alloc: Global, heap: &Heap) -> Asked {
    let Ok(peers) = ReadPeers::new(heap, 3) else {
        return Err("ReadPeers::new");
    };
    match Branches::new(alloc) {
        Ok(branches) => Ok(are_unread(&branches, &peers)),
        Err(AllocError) => Ok(false),
    }
}
