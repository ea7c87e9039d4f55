//! Growths of strands.

use super::{Asked, Heap, Told, note};
use sp_labels::{Returned, SpFault, Spawned, Strands};

/// The strand has begun or not, and runs or not.
fn stands(strands: &Strands<&Heap>, strand: u32, begun: bool, running: bool) -> bool {
    strands.is_begun(strand) == begun && strands.is_running(strand) == running
}

/// Strand 0 alone has begun, or it has spawned, and there is room for an event or not.
fn stand(strands: &Strands<&Heap>, has_spawned: bool, has_room: bool) -> bool {
    stands(strands, 0, true, !has_spawned)
        && stands(strands, 1, has_spawned, has_spawned)
        && stands(strands, 2, has_spawned, has_spawned)
        && strands.has_room() == has_room
}

/// Asks new strands for room, behind a hint, whose refused growth is no fault, or with none.
fn reserve(heap: &Heap, strands: &mut Strands<&Heap>, has_hint: bool, told: &mut Told) -> bool {
    if has_hint {
        let was_refused = heap.has_refused();
        strands.make_room(2);
        let is_refused = heap.has_refused() && !was_refused;
        note(told, "Strands::make_room", is_refused);
    }
    let was_new = stand(strands, false, false);
    let reserved = twice!(
        told,
        "Strands::reserve_event",
        SpFault::Memory,
        strands.reserve_event(),
        stand(strands, false, false)
    );
    was_new && reserved.is_ok() && stand(strands, false, true)
}

const SPLIT: Spawned = Spawned {
    child: 1,
    next: 2,
    join: 3,
    first: true,
};

/// Strand 0 spawns.
fn spawn(strands: &mut Strands<&Heap>, told: &mut Told) -> bool {
    let spawned = twice!(
        told,
        "Strands::spawn",
        SpFault::Memory,
        strands.spawn(0),
        stand(strands, false, false)
    );
    spawned == Ok(SPLIT) && stand(strands, true, false)
}

/// Strand 0 calls once, so that it returns to where it was, and is finished where it returns again.
fn call_function(strands: &mut Strands<&Heap>, told: &mut Told) -> bool {
    let called = twice!(
        told,
        "Strands::call",
        SpFault::Memory,
        strands.call(0),
        stand(strands, false, false)
    );
    called.is_ok()
        && strands.ret(0) == Ok(Returned::Resumed)
        && stand(strands, false, false)
        && strands.ret(0) == Ok(Returned::Finished)
}

/// Asks new strands for room, to spawn or to call.
fn ask(heap: &Heap, strands: &mut Strands<&Heap>, turn: u32, told: &mut Told) -> bool {
    stand(strands, false, false)
        && match turn {
            0 | 1 => reserve(heap, strands, turn == 1, told),
            2 => spawn(strands, told),
            _ => call_function(strands, told),
        }
}

/// Asks four new ones.
pub(super) fn call_strands(heap: &Heap, told: &mut Told) -> Asked {
    let mut is_right = true;
    for turn in 0..4u32 {
        let Ok(mut strands) = Strands::new(heap) else {
            return Err("Strands::new");
        };
        is_right &= ask(heap, &mut strands, turn, told);
    }
    Ok(is_right)
}
