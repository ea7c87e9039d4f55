//! Items in a ring: each knows the item that follows it and the one that it follows.
ghost use Rattle.std.specs.Prelude.{◌+◌, ◌≤◌, vec_len, vec_capacity};
ghost use Rattle.order_list.specs.Order.{most_items};
ghost use Rattle.order_list.specs.Ring.{order_of, IsRing};

use std::alloc::{AllocError, Allocator};

/// Items in one order, numbered as they were made. Item 0 stands first, and follows the last one.
#[derive(Drop)]
pub struct Ring<A: Allocator> {
    next: Vec<u32, A>,
    previous: Vec<u32, A>,
    reserved: u32,
    ghost tied: { IsRing next.items previous.items (order_of next.items) },
    ghost few: { vec_len next + reserved ≤ most_items },
    ghost next_room: { vec_len next + reserved ≤ vec_capacity next },
    ghost previous_room: { vec_len previous + reserved ≤ vec_capacity previous },
}

impl<A: Allocator> Ring<A> {
    ghost use Rattle.std.specs.Prelude.{◌≡◌, [], ◌∷◌, ◌+◌, ◌<◌, ◌≤◌, length, slice_index, insert, IfOk, OnOk, OnErr};
    ghost use Rattle.order_list.specs.Order.{most_items, place_of};
    ghost use Rattle.order_list.specs.Items.{items_of};

    /// A ring of one item, 0.
    pub fn new(alloc: A) -> Result<Ring<A>, AllocError>
    where
        A: Clone,
        ensures items { IfOk result (λ ring. items_of ring ≡ 0 ∷ []) }
        ensures reserved { IfOk result (λ ring. ring.reserved ≡ 0) }
    {
        Ok(Ring {
            next: Vec::from_slice(alloc.clone()?, &[0])?,
            previous: Vec::from_slice(alloc, &[0])?,
            reserved: 0,
        })
    }

    /// How many items there are.
    pub fn len(&self) -> usize
        ensures { result ≡ length (items_of self.now) }
    {
        self.next.len()
    }

    /// For how many more there is room.
    pub fn reserved(&self) -> u32
        ensures { result ≡ self.now.reserved }
    {
        self.reserved
    }

    /// The item that follows `item`, and 0 behind the last one.
    pub fn next(&self, item: u32) -> u32
        requires { item < length (items_of self.now) }
        ensures value { let items = items_of self.now in result ≡ slice_index items (place_of item items + 1) }
        ensures known { result < length (items_of self.now) }
    {
        self.next[item as usize]
    }

    /// The item that `item` follows.
    pub fn previous(&self, item: u32) -> u32
        requires known { item < length (items_of self.now) }
        requires not_first { 0 < item }
        ensures place { let items = items_of self.now in place_of result items + 1 ≡ place_of item items }
        ensures known { result < length (items_of self.now) }
    {
        self.previous[item as usize]
    }

    /// Makes room for `count` more items, which the caller knows to be within the limit.
    pub fn reserve(&mut self, count: u32) -> Result<(), AllocError>
        requires { length (items_of self.old) + count ≤ most_items }
        ensures items { items_of self.new ≡ items_of self.old }
        ensures ok { OnOk result (self.new.reserved ≡ count) }
        ensures err { OnErr result (self.new.reserved ≡ self.old.reserved) }
    {
        self.next.reserve(count as usize)?;
        self.previous.reserve(count as usize)?;
        self.reserved = count;
        Ok(())
    }

    /// Ties in a new item directly behind `after`, and gives its number.
    pub fn insert_reserved(&mut self, after: u32) -> u32
        requires room { 0 < self.old.reserved }
        requires known { after < length (items_of self.old) }
        ensures item { result ≡ length (items_of self.old) }
        ensures items { let items = items_of self.old in items_of self.new ≡ insert items (place_of after items + 1) result }
        ensures reserved { self.new.reserved + 1 ≡ self.old.reserved }
    {
        let item = self.len() as u32;
        let following = self.next(after);
        self.reserved -= 1;
        self.next.push_reserved(following);
        self.next[after as usize] = item;
        self.previous.push_reserved(after);
        self.previous[following as usize] = item;
        item
    }
}
