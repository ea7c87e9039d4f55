//! Labels between others, and labels given out anew where there is none.
ghost use Rattle.std.specs.Prelude.{◌≡◌, ◌+◌, ◌<◌, ◌≤◌, length, slice_index};
ghost use Rattle.order_list.specs.Order.{place_of};
ghost use Rattle.order_list.specs.Items.{items_of};
ghost use Rattle.order_list.specs.Labels.{labels_along, label_after, IsRising, HasGap, IsStretch, IsAllBefore, IsAllBehind, IsRoom};

use crate::ring::Ring;
use std::alloc::Allocator;

/// `count` items in a row, of which `item` is one, `first` is the first, and `end` follows the last.
#[derive(Clone, Copy)]
struct Stretch {
    item: u32,
    first: u32,
    end: u32,
    count: usize,
}

/// Labels from `low` to `high`, of which `free` are kept for what is inserted next.
#[derive(Clone, Copy)]
struct Room {
    low: u64,
    high: u64,
    free: u64,
}

/// How far the label that follows that of `item` is above it. Behind the last item that is the greatest one.
fn gap_behind<A: Allocator>(labels: &[u64], ring: &Ring<A>, item: u32) -> u64
    requires was_rising { IsRising labels.now (items_of ring.now) }
    requires known { item < length (items_of ring.now) }
    ensures { slice_index labels.now item + result ≡ label_after labels.now (items_of ring.now) item }
{
    match ring.next(item) {
        0 => u64::MAX - labels[item as usize],
        following => labels[following as usize] - labels[item as usize],
    }
}

/// Extends a stretch back, over all items whose labels are not below `low`.
fn widen_back<A: Allocator>(labels: &[u64], ring: &Ring<A>, stretch: Stretch, low: u64) -> Stretch
    requires labels_len { length labels.now ≡ length (items_of ring.now) }
    requires stretch { IsStretch (items_of ring.now) stretch }
    ensures stretch { IsStretch (items_of ring.now) result }
    ensures item { result.item ≡ stretch.item }
    ensures before { IsAllBefore labels.now (items_of ring.now) result low }
{
    let mut wider = stretch;
    'back: while wider.first != 0 {
        let before = ring.previous(wider.first);
        if labels[before as usize] < low {
            break;
        }
        wider.first = before;
        wider.count += 1;
    }
    wider
}

/// Extends a stretch ahead, over all items whose labels are not above `high`.
fn widen_ahead<A: Allocator>(labels: &[u64], ring: &Ring<A>, stretch: Stretch, high: u64) -> Stretch
    requires labels_len { length labels.now ≡ length (items_of ring.now) }
    requires stretch { IsStretch (items_of ring.now) stretch }
    ensures stretch { IsStretch (items_of ring.now) result }
    ensures item { result.item ≡ stretch.item }
    ensures first { result.first ≡ stretch.first }
    ensures behind { IsAllBehind labels.now (items_of ring.now) result high }
{
    let mut wider = stretch;
    'ahead: while wider.end != 0 && labels[wider.end as usize] <= high {
        wider.end = ring.next(wider.end);
        wider.count += 1;
    }
    wider
}

/// The items around `item` to be given new labels, and these: those of the smallest range of labels around its own, of
/// a size 2, 4, 8 and so on, that is sparse enough. A range of 2^k labels may hold (4/3)^k items. A quarter of it is left
/// free, since more items are likely to follow there. Where no range is sparse enough, it is all items and all labels.
fn sparse_room<A: Allocator>(labels: &[u64], ring: &Ring<A>, item: u32) -> (Stretch, Room)
    requires was_rising { IsRising labels.now (items_of ring.now) }
    requires known { item < length (items_of ring.now) }
    ensures stretch { IsStretch (items_of ring.now) result.0 }
    ensures item { result.0.item ≡ item }
    ensures room { IsRoom labels.now (items_of ring.now) result.0 result.1 }
{
    let label = labels[item as usize];
    let mut stretch = Stretch {
        item,
        first: item,
        end: ring.next(item),
        count: 1,
    };
    // how many items the range may hold, in 65536ths
    let mut most: u64 = 1 << 16;
    for bits in 1..64u32 {
        let mask = u64::MAX >> (64 - bits);
        let low = label - (label & mask);
        let high = low.saturating_add(mask);
        stretch = widen_back(labels, ring, stretch, low);
        stretch = widen_ahead(labels, ring, stretch, high);
        most = most.saturating_add(most / 3);
        let free = (high - low) / 4;
        let count = stretch.count as u64;
        if count <= most >> 16 && count <= (high - low - free) / 2 {
            return (stretch, Room { low, high, free });
        }
    }
    let whole = Stretch {
        item,
        first: 0,
        end: 0,
        count: ring.len(),
    };
    let all = Room {
        low: 0,
        high: u64::MAX,
        free: 0,
    };
    (whole, all)
}

/// Gives a stretch new labels, at equal distances but for the free ones directly behind `stretch.item`.
fn spread<A: Allocator>(labels: &mut [u64], ring: &Ring<A>, stretch: Stretch, room: Room)
    requires was_rising { IsRising labels.old (items_of ring.now) }
    requires stretch { IsStretch (items_of ring.now) stretch }
    requires room { IsRoom labels.old (items_of ring.now) stretch room }
    ensures rising { IsRising labels.new (items_of ring.now) }
    ensures gap { HasGap labels.new (items_of ring.now) stretch.item }
{
    let distance = (room.high - room.low - room.free) / stretch.count as u64;
    let mut item = stretch.first;
    let mut label = room.low;
    let mut free = room.free;
    for placed in 0..stretch.count {
        labels[item as usize] = label;
        label += distance;
        if item == stretch.item {
            label += free;
            free = 0;
        }
        item = ring.next(item);
    }
}

/// Sees to it that there is a label directly behind `item`.
fn make_gap<A: Allocator>(labels: &mut [u64], ring: &Ring<A>, item: u32)
    requires was_rising { IsRising labels.old (items_of ring.now) }
    requires known { item < length (items_of ring.now) }
    ensures rising { IsRising labels.new (items_of ring.now) }
    ensures gap { HasGap labels.new (items_of ring.now) item }
{
    if gap_behind(labels, ring, item) < 2 {
        let (stretch, room) = sparse_room(labels, ring, item);
        spread(labels, ring, stretch, room);
    }
}

/// A label for an item directly behind `item`, after new labels for others where there was none.
pub fn label_behind<A: Allocator>(labels: &mut [u64], ring: &Ring<A>, item: u32) -> u64
    requires was_rising { IsRising labels.old (items_of ring.now) }
    requires known { item < length (items_of ring.now) }
    ensures rising { IsRising labels.new (items_of ring.now) }
    ensures above { slice_index labels.new item < result }
    ensures below { let items = items_of ring.now in result < slice_index (labels_along labels.new items) (place_of item items + 1) }
{
    make_gap(labels, ring, item);
    labels[item as usize] + gap_behind(labels, ring, item) / 2
}
