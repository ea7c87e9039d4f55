//! Where items stand in groups, and a row of items moved to places at equal distances.
ghost use Rattle.std.specs.Prelude.{◌≡◌, [], ◌∷◌, ◌+◌, ◌<◌, ◌≤◌, ◌++◌, length, slice_index, set, vec_len, vec_capacity};
ghost use Rattle.order_list.specs.Order.{most_items, place_of};
ghost use Rattle.order_list.specs.Ring.{IsChain};
ghost use Rattle.order_list.specs.Places.{group_width, groups_of, locals_of, nexts_of, items_along, IsRow, IsGroupRow, IsEvened};

use std::alloc::Allocator;

/// Where an item stands: its group, its place in the group, and the item that follows it among all, which is written by itself where
/// another is tied in and so stands first.
#[derive(Clone, Copy)]
pub struct Place {
    pub next: u32,
    pub local: u32,
    pub group: u32,
}

/// The place of an item.
pub fn place_at(places: &[Place], item: u32) -> Place
    requires { item < length places.now }
    ensures local { result.local ≡ slice_index (locals_of places.now) item }
    ensures group { result.group ≡ slice_index (groups_of places.now) item }
    ensures next { result.next ≡ slice_index (nexts_of places.now) item }
{
    places[item as usize]
}

/// Moves an item to a place of a group.
fn put(places: &mut [Place], item: u32, group: u32, local: u32)
    requires { item < length places.old }
    ensures len { length places.new ≡ length places.old }
    ensures locals { locals_of places.new ≡ set (locals_of places.old) item local }
    ensures groups { groups_of places.new ≡ set (groups_of places.old) item group }
    ensures nexts { nexts_of places.new ≡ nexts_of places.old }
{
    let place = &mut places[item as usize];
    place.local = local;
    place.group = group;
}

/// Ties in a new item directly behind `after`, in its group and `ahead` places behind it, and gives its number.
pub fn tie<A: Allocator>(places: &mut Vec<Place, A>, after: u32, ahead: u32) -> u32
    requires room { vec_len places.old < vec_capacity places.old }
    requires few { vec_len places.old < most_items }
    requires known { after < length places.old.items }
    requires fits { slice_index (locals_of places.old.items) after + ahead < group_width }
    ensures item { result ≡ length places.old.items }
    ensures len { vec_len places.new ≡ vec_len places.old + 1 }
    ensures capacity { vec_capacity places.new ≡ vec_capacity places.old }
    ensures locals { let locals = locals_of places.old.items in
        locals_of places.new.items ≡ locals ++ (slice_index locals after + ahead) ∷ [] }
    ensures groups { let groups = groups_of places.old.items in groups_of places.new.items ≡ groups ++ slice_index groups after ∷ [] }
    ensures nexts { let nexts = nexts_of places.old.items in
        nexts_of places.new.items ≡ set (nexts ++ slice_index nexts after ∷ []) after result }
{
    let item = places.len() as u32;
    let here = places[after as usize];
    places.push_reserved(Place {
        local: here.local + ahead,
        group: here.group,
        next: here.next,
    });
    places[after as usize].next = item;
    item
}

/// How many items in a row have the group of `first`, from it on.
pub fn count_from(places: &[Place], first: u32) -> u32
    requires chain { IsChain (nexts_of places.now) (items_along places.now) }
    requires few { length places.now ≤ most_items }
    requires known { first < length places.now }
    ensures { IsGroupRow places.now (items_along places.now) first result }
{
    let here = place_at(places, first);
    let mut end = here.next;
    let mut count: u32 = 1;
    'ahead: while end != 0 {
        let following = place_at(places, end);
        if following.group != here.group {
            break;
        }
        end = following.next;
        count += 1;
    }
    count
}

/// The item that stands `count` positions behind `first`.
pub fn item_ahead(places: &[Place], first: u32, count: u32) -> u32
    requires chain { IsChain (nexts_of places.now) (items_along places.now) }
    requires known { first < length places.now }
    requires within { place_of first (items_along places.now) + count < length places.now }
    ensures value { let items = items_along places.now in result ≡ slice_index items (place_of first items + count) }
    ensures known { result < length places.now }
{
    let mut item = first;
    for _step in 0..count {
        item = place_at(places, item).next;
    }
    item
}

/// Moves `count` items from `first` on to a group, at equal distances, and gives the distance.
pub fn spread(places: &mut [Place], first: u32, count: u32, group: u32) -> u32
    requires chain { IsChain (nexts_of places.old) (items_along places.old) }
    requires few { length places.old ≤ most_items }
    requires row { IsRow (items_along places.old) first count }
    ensures evened { let items = items_along places.old in
        IsEvened places.old places.new (record { items = items; start = place_of first items; group = group; gap = result }) count 4294967295 }
    ensures some { 4 ≤ result }
{
    let distance = u32::MAX / count;
    let mut item = first;
    let mut local: u32 = 0;
    for placed in 0..count {
        put(places, item, group, local);
        local += distance;
        item = place_at(places, item).next;
    }
    distance
}
