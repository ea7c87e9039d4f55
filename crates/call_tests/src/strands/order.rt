//! Items at one place of an order list. The tests of growths in `hostile` have lists without memory.

ghost use Rattle.std.specs.Prelude.{◌<◌};

use crate::checks::equal;
use order_list::{OrderFault, OrderList};
use std::alloc::Global;
use std::test::Fail;

/// The item that is placed behind this one, or none without it or without room.
fn insert_behind(list: &mut OrderList<Global>, after: u32) -> Option<u32> {
    if list.reserved() > 0 && (after as usize) < list.len() {
        Some(list.insert_reserved(after))
    } else {
        None
    }
}

/// Whether the first item of each pair stands before the second one, and not behind it.
fn stand_before(list: &OrderList<Global>, pairs: &[(u32, u32)]) -> bool {
    for (a, b) in pairs {
        let are_there = (*a as usize) < list.len() && (*b as usize) < list.len();
        if !are_there || !list.is_before(*a, *b) || list.is_before(*b, *a) {
            return false;
        }
    }
    true
}

/// Where a spawn places its strands.
enum Order {
    /// A child stands before the strand behind its spawn.
    English,
    /// It stands behind that strand.
    Hebrew,
}

/// Whether ten thousand spawns in one block, each by the strand behind the one before, place their children and the strands behind them, and
/// the first one the join.
fn spawns_long(list: &mut OrderList<Global>, order: &Order) -> bool {
    let mut newest = 0;
    for k in 1..10_001u32 {
        let child = if k == 1 { 1 } else { 2 * k };
        let (before_next, before_join) = match order {
            Order::English => (child, child + 1),
            Order::Hebrew => (newest, child),
        };
        if list.reserve(3).is_err()
            || insert_behind(list, newest) != Some(child)
            || insert_behind(list, before_next) != Some(child + 1)
            || (k == 1 && insert_behind(list, before_join) != Some(child + 2))
        {
            return false;
        }
        newest = child + 1;
    }
    true
}

/// Whether a hundred thousand items are placed behind the first one, and stand in the other order.
fn places_many(list: &mut OrderList<Global>) -> bool {
    for item in 1..100_001u32 {
        if insert_behind(list, 0) != Some(item) {
            return false;
        }
    }
    for item in 1..100_000u32 {
        if !stand_before(list, &[(item + 1, item)]) {
            return false;
        }
    }
    true
}

/// What is done with a list, or seen in it.
enum Step {
    /// Room is asked for so many items, with this outcome.
    Reserves(u32, Result<(), OrderFault>),
    /// An item is placed behind this one, and has this number.
    Places(u32, u32),
    /// There are so many items, and reserved room for so many more at least.
    Has(usize, u32),
    /// There is no reserved room.
    HasNoRoom,
    /// The first item of each pair stands before the second one.
    Stand(&'static [(u32, u32)]),
    /// An item, which is there, does not stand before itself.
    IsNotBefore(u32),
    /// A hundred thousand items are placed behind the first one.
    PlacesMany,
    /// The strands of ten thousand spawns are placed.
    SpawnsLong(Order),
}

use Step::{Has, HasNoRoom, IsNotBefore, Places, PlacesMany, Reserves, SpawnsLong, Stand};

/// Whether a step has its outcome.
fn goes(list: &mut OrderList<Global>, step: &Step) -> bool {
    match step {
        Reserves(count, wanted) => list.reserve(*count) == *wanted,
        Places(after, wanted) => insert_behind(list, *after) == Some(*wanted),
        Has(items, reserved) => list.len() == *items && list.reserved() >= *reserved,
        HasNoRoom => list.reserved() == 0,
        Stand(pairs) => stand_before(list, pairs),
        IsNotBefore(item) => (*item as usize) < list.len() && !list.is_before(*item, *item),
        PlacesMany => places_many(list),
        SpawnsLong(order) => spawns_long(list, order),
    }
}

const RUNS: &[&[Step]] = &[
    // Items are placed behind others.
    &[
        Has(1, 0),
        HasNoRoom,
        Reserves(3_000_001, Err(OrderFault::Full)),
        Reserves(0, Ok(())),
        Reserves(3, Ok(())),
        Has(1, 3),
        Places(0, 1),
        Places(0, 2),
        Places(1, 3),
        Has(4, 0),
        Stand(&[(0, 2), (2, 1), (1, 3), (0, 1), (0, 3), (2, 3)]),
        IsNotBefore(3),
    ],
    // There is room for as many items as there may be, and not for one more.
    &[
        Reserves(3_000_000, Ok(())),
        Has(1, 3_000_000),
        Reserves(3_000_001, Err(OrderFault::Full)),
        Has(1, 3_000_000),
    ],
    // Many items at one place.
    &[
        Reserves(100_000, Ok(())),
        PlacesMany,
        Has(100_001, 0),
        Stand(&[(0, 1)]),
    ],
    // The strands of many spawns are all in the order, which has these pairs among others.
    &[
        SpawnsLong(Order::English),
        Has(20_002, 0),
        Stand(&[
            (0, 1),
            (1, 2),
            (2, 4),
            (4, 5),
            (1, 20_001),
            (20_000, 20_001),
            (20_001, 3),
        ]),
    ],
    &[
        SpawnsLong(Order::Hebrew),
        Has(20_002, 0),
        Stand(&[
            (0, 2),
            (2, 5),
            (5, 4),
            (4, 1),
            (20_001, 20_000),
            (20_000, 4),
            (1, 3),
        ]),
    ],
];

/// A new list goes each run step by step.
#[test]
fn places_items_behind_others(rt: HostRuntime) -> Result<(), Fail> {
    for steps in RUNS {
        let mut list = OrderList::new(rt.alloc())?;
        for (place, step) in steps.iter().enumerate() {
            assert!(rt; goes(&mut list, step), "step {place}");
        }
    }
    Ok(())
}

#[test]
fn says_why_there_is_no_room(rt: HostRuntime) -> Result<(), Fail> {
    let told = format!(in rt.alloc(); "{}; {}", OrderFault::Full, OrderFault::Memory)?;
    let wanted = "the order list is full; out of memory";
    equal(&rt, &"faults", &told.as_str(), &wanted);
    Ok(())
}
