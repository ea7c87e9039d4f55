//! Growths of order lists.

use super::{Asked, Heap, Told, note};
use order_list::{OrderFault, OrderList};

/// The list has one item, and room for so many more.
fn has_room(list: &OrderList<&Heap>, room: u32) -> bool {
    list.len() == 1 && list.reserved() == room
}

/// Asks a new list for room, which is enough for no item at first, behind a hint, whose refused growth is no fault, or with none.
fn ask_list(heap: &Heap, list: &mut OrderList<&Heap>, has_hint: bool, told: &mut Told) -> bool {
    if has_hint {
        let was_refused = heap.has_refused();
        list.make_room(20);
        let is_refused = heap.has_refused() && !was_refused;
        note(told, "OrderList::make_room", is_refused);
    }
    let was_new = has_room(list, 0) && list.reserve(0).is_ok();
    let reserved = twice!(
        told,
        "OrderList::reserve",
        OrderFault::Memory,
        list.reserve(20),
        has_room(list, 0) && list.reserve(0).is_ok()
    );
    was_new && reserved.is_ok() && has_room(list, 20)
}

/// Asks two new lists.
pub(super) fn call_list(heap: &Heap, told: &mut Told) -> Asked {
    let mut is_right = true;
    for has_hint in &[false, true] {
        let Ok(mut list) = OrderList::new(heap) else {
            return Err("OrderList::new");
        };
        is_right &= ask_list(heap, &mut list, *has_hint, told);
    }
    Ok(is_right)
}
