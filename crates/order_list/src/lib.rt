//! An order list: items in one order, any two of which are compared by one or two comparisons of numbers.
//!
//! A contract sees an `OrderList` as the list of all its items. `insert_reserved` puts a new item directly behind another
//! and moves no other, and `is_before` is the order of positions, whatever was relabelled in between: each contract says
//! so. `reserve` answers `Full` only where there would be more than `MOST_ITEMS` items.
//!
//! Items lie in groups, and each has a place of 32 bits in its group. The groups have labels of 64 bits, which rise along
//! their order (Dietz and Sleator 1987). Where an insertion finds no place behind an item, those that follow it in its group go
//! to a new group, at equal distances; where they are many, half of them go to another one first. Where there is no label for a
//! new group, the smallest sparse enough stretch of groups around is given new ones (Bender, Cole, Demaine, Farach-Colton and
//! Zito 2002). All of this is done in place. The items are numbered as they were made, and each knows the one that follows it.
#![tactic(auto)]

ghost use Rattle.std.specs.Prelude.{◌≡◌, [], ◌∷◌, ◌+◌, ◌<◌, ◌≤◌, ◌↔◌, length, max, insert, IsTrue, IfOk, IsErrOf, OnOk, OnErr};
ghost use Rattle.order_list.specs.Order.{Order, most_items, place_of, insert_behind, IsNumbered, IsListing};
ghost use Rattle.order_list.specs.Places.{items_along};

mod grouping;
mod groups;
mod place;
mod relabel;
mod ring;

use grouping::Grouping;
use std::alloc::{AllocError, Allocator};
use std::marker::Model;
use thiserror::Error;

/// The most items that an order list holds.
pub const MOST_ITEMS: u32 = 3_000_001;

/// Why there is no room for more items.
#[derive(Debug, Clone, Copy, PartialEq, Eq, Error)]
pub enum OrderFault {
    /// There would be more than `MOST_ITEMS` items.
    #[error("the order list is full")]
    Full,
    /// There is no memory.
    #[error("out of memory")]
    Memory,
}

impl From<AllocError> for OrderFault {
    ghost use Rattle.std.specs.Prelude.{◌≡◌};
    ghost use Rattle.order_list.specs.declared.OrderFault.TheVariants.{Memory};

    ghost from_gives = { λ _ fault. fault ≡ Memory };

    fn from(_fault: AllocError) -> OrderFault {
        OrderFault::Memory
    }
}

/// Items in one order, numbered as they were made.
pub struct OrderList<A: Allocator> {
    list: Grouping<A>,
}

/// Written out, so that what lets a list go calls one function.
impl<A: Allocator> Drop for OrderList<A> {
    fn drop(self) {
        let OrderList { list: _ } = self;
    }
}

impl<A: Allocator> Model for OrderList<A> {
    ghost Value = { Order };

    ghost view = { λ order. record { items = items_along order.list.places.items; reserved = order.list.reserved } };
}

impl<A: Allocator> OrderList<A> {
    /// A list of one item, 0, and no room for more. It fails only for want of memory, so its error is std's `AllocError`.
    pub fn new(alloc: A) -> Result<OrderList<A>, AllocError>
    where
        A: Clone,
        ensures items { IfOk result (λ list. list.items ≡ 0 ∷ []) }
        ensures reserved { IfOk result (λ list. list.reserved ≡ 0) }
    {
        Ok(OrderList {
            list: Grouping::new(alloc)?,
        })
    }

    /// How many items there are.
    pub fn len(&self) -> usize
        ensures value { result ≡ length self.now.items }
        ensures few { result + self.now.reserved ≤ most_items }
        ensures not_empty { 0 < result }
        ensures numbered { IsNumbered self.now.items }
        ensures listing { IsListing self.now.items }
    {
        self.list.len()
    }

    /// How many more can be inserted before `reserve` is called again.
    pub fn reserved(&self) -> u32
        ensures { result ≡ self.now.reserved }
    {
        self.list.reserved()
    }

    /// Makes room for `count` more items at least. A refusal changes nothing: `Full` where there would be more than
    /// `MOST_ITEMS` items, and else `Memory` where there is none.
    #[inline(always)]
    pub fn reserve(&mut self, count: u32) -> Result<(), OrderFault>
        ensures items { self.new.items ≡ self.old.items }
        ensures ok { OnOk result (self.new.reserved ≡ max self.old.reserved count) }
        ensures err { OnErr result (self.new ≡ self.old) }
        ensures full { IsErrOf result OrderFault.Full ↔ (most_items < length self.old.items + count) }
        ensures memory { IsErrOf result OrderFault.Memory → self.old.reserved < count }
    {
        if count <= self.list.reserved() {
            return Ok(());
        }
        if count > MOST_ITEMS - self.list.len() as u32 {
            return Err(OrderFault::Full);
        }
        self.list.reserve(count)?;
        Ok(())
    }

    /// Asks for room for `count` more items, so that the list need not grow by and by. It is a hint: it reserves no place and
    /// changes nothing that is seen, and where there is no memory the list grows as it is filled.
    pub fn make_room(&mut self, count: u32)
        ensures { self.new ≡ self.old }
    {
        let left = MOST_ITEMS - self.list.len() as u32;
        self.list.ask_room(count.min(left));
    }

    /// Puts a new item directly behind `after`, and gives its number, which is the length so far. It takes one of the
    /// reserved places, and no memory.
    pub fn insert_reserved(&mut self, after: u32) -> u32
        requires room { 0 < self.old.reserved }
        requires known { after < length self.old.items }
        ensures item { result ≡ length self.old.items }
        ensures items { self.new.items ≡ insert self.old.items (place_of after self.old.items + 1) result }
        ensures len { length self.new.items ≡ length self.old.items + 1 }
        ensures reserved { self.new.reserved + 1 ≡ self.old.reserved }
    {
        self.list.insert_reserved(after)
    }

    /// Puts two new items behind `after`: the first directly behind it, and the second behind the first. It gives the number
    /// of the first, and does what two calls of `insert_reserved` do, sooner.
    pub fn insert_two(&mut self, after: u32) -> u32
        requires room { 1 < self.old.reserved }
        requires known { after < length self.old.items }
        ensures item { result ≡ length self.old.items }
        ensures items { self.new.items ≡ insert_behind result (result + 1) (insert_behind after result self.old.items) }
        ensures few { result + 2 ≤ most_items }
        ensures len { length self.new.items ≡ length self.old.items + 2 }
        ensures reserved { self.new.reserved + 2 ≡ self.old.reserved }
    {
        self.list.insert_two(after)
    }

    /// The same in the other order: both are put directly behind `after`, the first and then the second.
    pub fn insert_two_swapped(&mut self, after: u32) -> u32
        requires room { 1 < self.old.reserved }
        requires known { after < length self.old.items }
        ensures item { result ≡ length self.old.items }
        ensures items { self.new.items ≡ insert_behind after (result + 1) (insert_behind after result self.old.items) }
        ensures len { length self.new.items ≡ length self.old.items + 2 }
        ensures reserved { self.new.reserved + 2 ≡ self.old.reserved }
    {
        self.list.insert_two_swapped(after)
    }

    /// Puts three new items behind `after`, each behind the one before it, and gives the number of the first.
    pub fn insert_three(&mut self, after: u32) -> u32
        requires room { 2 < self.old.reserved }
        requires known { after < length self.old.items }
        ensures item { result ≡ length self.old.items }
        ensures items { self.new.items ≡ insert_behind (result + 1) (result + 2)
            (insert_behind result (result + 1) (insert_behind after result self.old.items)) }
        ensures few { result + 3 ≤ most_items }
        ensures len { length self.new.items ≡ length self.old.items + 3 }
        ensures reserved { self.new.reserved + 3 ≡ self.old.reserved }
    {
        let first = self.list.insert_two(after);
        self.list.insert_reserved(first + 1);
        first
    }

    /// Puts three new items behind `after`: the first and the second directly behind it, as `insert_two_swapped` does, and
    /// the third behind the first. It gives the number of the first.
    pub fn insert_three_swapped(&mut self, after: u32) -> u32
        requires room { 2 < self.old.reserved }
        requires known { after < length self.old.items }
        ensures item { result ≡ length self.old.items }
        ensures items { self.new.items ≡ insert_behind result (result + 2)
            (insert_behind after (result + 1) (insert_behind after result self.old.items)) }
        ensures len { length self.new.items ≡ length self.old.items + 3 }
        ensures reserved { self.new.reserved + 3 ≡ self.old.reserved }
    {
        let first = self.list.insert_two_swapped(after);
        self.list.insert_reserved(first);
        first
    }

    /// Whether `a` stands before `b` in the list. No item stands before itself.
    pub fn is_before(&self, a: u32, b: u32) -> bool
        requires a_known { a < length self.now.items }
        requires b_known { b < length self.now.items }
        ensures { IsTrue result ↔ (place_of a self.now.items < place_of b self.now.items) }
    {
        self.list.is_before(a, b)
    }
}
