//! Items in groups, and groups in their order: an item is compared by its group first, and then by its place in it.
ghost use Rattle.std.specs.Prelude.{◌+◌, ◌*◌, ◌≤◌, length, vec_len, vec_capacity};
ghost use Rattle.order_list.specs.Order.{most_items};
ghost use Rattle.order_list.specs.Places.{items_along, IsGrouped};

use crate::MOST_ITEMS;
use crate::groups::Groups;
use crate::place::{Place, count_from, item_ahead, place_at, spread, tie};
use std::alloc::{AllocError, Allocator};

/// Of the items that follow one, so many at most are moved to a new group; of more it is half.
const MANY: u32 = 64;

/// Items in groups, numbered as they were made.
#[derive(Drop)]
pub struct Grouping<A: Allocator> {
    places: Vec<Place, A>,
    firsts: Vec<u32, A>,
    groups: Groups<A>,
    reserved: u32,
    ghost grouped: { IsGrouped groups.items firsts.items places.items (items_along places.items) },
    ghost few: { vec_len places + reserved ≤ most_items },
    ghost room: { vec_len places + reserved ≤ vec_capacity places },
    ghost firsts_room: { vec_len firsts + groups.reserved ≤ vec_capacity firsts },
}

impl<A: Allocator> Grouping<A> {
    ghost use Rattle.std.specs.Prelude.{◌≡◌, ℕ, [], ◌∷◌, ◌+◌, ◌<◌, ◌≤◌, ◌↔◌, length, insert, slice_index, IsTrue, IfOk, OnOk, OnErr};
    ghost use Rattle.order_list.specs.Order.{most_items, place_of, insert_behind};
    ghost use Rattle.order_list.specs.Places.{items_along, groups_of, HasRoom, IsGroupRow};

    /// One item, 0, in one group, 0.
    pub fn new(alloc: A) -> Result<Grouping<A>, AllocError>
    where
        A: Clone,
        ensures items { IfOk result (λ list. items_along list.places.items ≡ 0 ∷ []) }
        ensures reserved { IfOk result (λ list. list.reserved ≡ 0) }
    {
        let first = Place {
            local: 0,
            group: 0,
            next: 0,
        };
        Ok(Grouping {
            places: Vec::from_slice(alloc.clone()?, &[first])?,
            firsts: Vec::from_slice(alloc.clone()?, &[0])?,
            groups: Groups::new(alloc)?,
            reserved: 0,
        })
    }

    /// How many items there are.
    pub fn len(&self) -> usize
        ensures { result ≡ length (items_along self.now.places.items) }
    {
        self.places.len()
    }

    /// For how many more there is room.
    pub fn reserved(&self) -> u32
        ensures { result ≡ self.now.reserved }
    {
        self.reserved
    }

    /// Makes room for the groups that `count` more items make: one each at most.
    fn reserve_groups(&mut self, count: u32) -> Result<(), AllocError>
        ensures places { self.new.places ≡ self.old.places }
        ensures reserved { self.new.reserved ≡ self.old.reserved }
    {
        let count = count.min(MOST_ITEMS - self.groups.len() as u32);
        if self.groups.reserved() >= count {
            return Ok(());
        }
        self.firsts.reserve(count as usize)?;
        self.groups.reserve(count)
    }

    /// Makes room for `count` more items, which the caller knows to be within the limit.
    #[cold]
    #[inline(never)]
    pub fn reserve(&mut self, count: u32) -> Result<(), AllocError>
        requires { length (items_along self.old.places.items) + count ≤ most_items }
        ensures items { items_along self.new.places.items ≡ items_along self.old.places.items }
        ensures ok { OnOk result (self.new.reserved ≡ count) }
        ensures err { OnErr result (self.new.reserved ≡ self.old.reserved) }
    {
        self.reserve_groups(count)?;
        self.places.reserve(count as usize)?;
        self.reserved = count;
        Ok(())
    }

    /// Asks for room for `count` more items, which the caller knows to be within the limit, and reserves none of it.
    pub fn ask_room(&mut self, count: u32)
        requires { length (items_along self.old.places.items) + count ≤ most_items }
        ensures items { items_along self.new.places.items ≡ items_along self.old.places.items }
        ensures reserved { self.new.reserved ≡ self.old.reserved }
    {
        // What is refused here is asked for again when it is needed.
        let _ = self.places.reserve(count as usize);
    }

    /// How much room there is behind an item, before the next one of its group or the group's end.
    fn gap_behind(&self, item: u32) -> u32
        requires { item < length (items_along self.now.places.items) }
        ensures { HasRoom self.now.groups.items self.now.places.items item result }
    {
        let here = place_at(&self.places, item);
        if here.next != 0 {
            let following = place_at(&self.places, here.next);
            if following.group == here.group {
                return following.local - here.local;
            }
        }
        u32::MAX - here.local
    }

    /// Where the items of a group begin that are to be moved where there is no room behind this one: at the item which follows in its
    /// group, or at itself where it is the last one or has no room before the end of the places.
    fn tail_begin(&self, item: u32) -> u32
        requires { item < length (items_along self.now.places.items) }
        ensures known { result < length (items_along self.now.places.items) }
        ensures group { slice_index (groups_of self.now.places.items) result ≡ slice_index (groups_of self.now.places.items) item }
    {
        let here = place_at(&self.places, item);
        if here.next != 0
            && here.local <= u32::MAX - 4
            && place_at(&self.places, here.next).group == here.group
        {
            return here.next;
        }
        item
    }

    /// The items to be moved where there is no room behind this one: from there on all of its group, or the second half of these where
    /// they are more than `most`. It gives the first of them, and their number.
    fn tail(&self, item: u32, most: u32) -> (u32, u32)
        requires { item < length (items_along self.now.places.items) }
        ensures group { slice_index (groups_of self.now.places.items) result.0 ≡ slice_index (groups_of self.now.places.items) item }
        ensures row { IsGroupRow self.now.places.items (items_along self.now.places.items) result.0 result.1 }
    {
        let begin = self.tail_begin(item);
        let count = count_from(&self.places, begin);
        if count <= most {
            return (begin, count);
        }
        let half = count / 2;
        (item_ahead(&self.places, begin, half), count - half)
    }

    /// Moves what follows an item in its group to a new group behind it, or the second half of it where that is more than `most` items.
    fn part(&mut self, item: u32, most: u32)
        requires { item < length (items_along self.old.places.items) }
        ensures items { items_along self.new.places.items ≡ items_along self.old.places.items }
        ensures reserved { self.new.reserved ≡ self.old.reserved }
    {
        let group = place_at(&self.places, item).group;
        let (begin, count) = self.tail(item, most);
        if begin == self.firsts[group as usize] || self.groups.reserved() == 0 {
            return;
        }
        let behind = self.groups.insert_reserved(group);
        self.firsts.push_reserved(begin);
        spread(&mut self.places, begin, count, behind);
    }

    /// Gives the items of an item's group places at equal distances, and gives the distance.
    fn even_out(&mut self, item: u32) -> u32
        requires { item < length (items_along self.old.places.items) }
        ensures items { items_along self.new.places.items ≡ items_along self.old.places.items }
        ensures reserved { self.new.reserved ≡ self.old.reserved }
        ensures some { 4 ≤ result }
        ensures room { HasRoom self.new.groups.items self.new.places.items item result }
    {
        let group = place_at(&self.places, item).group;
        let first = self.firsts[group as usize];
        let count = count_from(&self.places, first);
        spread(&mut self.places, first, count, group)
    }

    /// Makes room behind an item where there is none, and says how much there is.
    #[cold]
    #[inline(never)]
    fn make_room(&mut self, item: u32) -> u32
        requires { item < length (items_along self.old.places.items) }
        ensures items { items_along self.new.places.items ≡ items_along self.old.places.items }
        ensures reserved { self.new.reserved ≡ self.old.reserved }
        ensures some { 4 ≤ result }
        ensures room { HasRoom self.new.groups.items self.new.places.items item result }
    {
        // Where many follow, half of them go first, so that no group is walked over again and again.
        self.part(item, MANY);
        let gap = self.gap_behind(item);
        if gap >= 4 {
            return gap;
        }
        self.part(item, u32::MAX);
        let gap = self.gap_behind(item);
        if gap >= 4 {
            return gap;
        }
        self.even_out(item)
    }

    /// How much room there is behind an item, after room was made where there was too little for three items.
    #[inline]
    fn room_behind(&mut self, item: u32) -> u32
        requires { item < length (items_along self.old.places.items) }
        ensures items { items_along self.new.places.items ≡ items_along self.old.places.items }
        ensures reserved { self.new.reserved ≡ self.old.reserved }
        ensures some { 4 ≤ result }
        ensures room { HasRoom self.new.groups.items self.new.places.items item result }
    {
        let gap = self.gap_behind(item);
        if gap >= 4 {
            return gap;
        }
        self.make_room(item)
    }

    /// Ties in a new item directly behind `after`, in its group and `ahead` places behind it, and gives its number.
    #[inline]
    fn place_behind(&mut self, after: u32, ahead: u32) -> u32
        requires reserved { 0 < self.old.reserved }
        requires known { after < length (items_along self.old.places.items) }
        requires some { 0 < ahead }
        requires room { HasRoom self.old.groups.items self.old.places.items after (ahead + 1) }
        ensures item { result ≡ length (items_along self.old.places.items) }
        ensures items { let items = items_along self.old.places.items in
            items_along self.new.places.items ≡ insert items (place_of after items + 1) result }
        ensures reserved { self.new.reserved + 1 ≡ self.old.reserved }
        ensures before { HasRoom self.new.groups.items self.new.places.items after ahead }
        ensures behind { (gap : ℕ) → HasRoom self.old.groups.items self.old.places.items after (ahead + gap) →
            HasRoom self.new.groups.items self.new.places.items result gap }
    {
        self.reserved -= 1;
        tie(&mut self.places, after, ahead)
    }

    /// Puts a new item directly behind `after`, and gives its number.
    #[inline]
    pub fn insert_reserved(&mut self, after: u32) -> u32
        requires reserved { 0 < self.old.reserved }
        requires known { after < length (items_along self.old.places.items) }
        ensures item { result ≡ length (items_along self.old.places.items) }
        ensures items { let items = items_along self.old.places.items in
            items_along self.new.places.items ≡ insert items (place_of after items + 1) result }
        ensures reserved { self.new.reserved + 1 ≡ self.old.reserved }
    {
        let gap = self.room_behind(after);
        self.place_behind(after, gap / 2)
    }

    /// Puts two new items behind `after`, the second behind the first, and gives the number of the first. It takes the place
    /// next to `after`, behind which little is likely to follow.
    #[inline]
    pub fn insert_two(&mut self, after: u32) -> u32
        requires reserved { 1 < self.old.reserved }
        requires known { after < length (items_along self.old.places.items) }
        ensures item { result ≡ length (items_along self.old.places.items) }
        ensures items { items_along self.new.places.items
            ≡ insert_behind result (result + 1) (insert_behind after result (items_along self.old.places.items)) }
        ensures reserved { self.new.reserved + 2 ≡ self.old.reserved }
    {
        let gap = self.room_behind(after);
        let first = self.place_behind(after, 1);
        self.place_behind(first, gap / 2);
        first
    }

    /// Puts two new items behind `after`, the second before the first, and gives the number of the first. The second takes
    /// the place next to `after`, behind which little is likely to follow.
    #[inline]
    pub fn insert_two_swapped(&mut self, after: u32) -> u32
        requires reserved { 1 < self.old.reserved }
        requires known { after < length (items_along self.old.places.items) }
        ensures item { result ≡ length (items_along self.old.places.items) }
        ensures items { items_along self.new.places.items
            ≡ insert_behind after (result + 1) (insert_behind after result (items_along self.old.places.items)) }
        ensures reserved { self.new.reserved + 2 ≡ self.old.reserved }
    {
        let gap = self.room_behind(after);
        let first = self.place_behind(after, gap / 2);
        self.place_behind(after, 1);
        first
    }

    /// Whether `a` stands before `b`.
    #[inline]
    pub fn is_before(&self, a: u32, b: u32) -> bool
        requires a_known { a < length (items_along self.now.places.items) }
        requires b_known { b < length (items_along self.now.places.items) }
        ensures { let items = items_along self.now.places.items in IsTrue result ↔ (place_of a items < place_of b items) }
    {
        let place = place_at(&self.places, a);
        let other = place_at(&self.places, b);
        if place.group == other.group {
            return place.local < other.local;
        }
        self.groups.is_before(place.group, other.group)
    }
}
