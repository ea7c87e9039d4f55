//! The groups of an order list, in their order.
ghost use Rattle.std.specs.Prelude.{◌≡◌, [], ◌∷◌, ◌+◌, ◌<◌, ◌≤◌, ◌↔◌, length, insert, vec_len, vec_capacity, IsTrue, IfOk, OnOk, OnErr};
ghost use Rattle.order_list.specs.Order.{Order, most_items, place_of, IsNumbered, IsListing};
ghost use Rattle.order_list.specs.Ring.{order_of};
ghost use Rattle.order_list.specs.Labels.{IsRising};

use crate::relabel::label_behind;
use crate::ring::Ring;
use std::alloc::{AllocError, Allocator};
use std::marker::Model;

/// Groups in one order, numbered as they were made. Each has a label of 64 bits, and the labels rise along the order.
pub struct Groups<A: Allocator> {
    labels: Vec<u64, A>,
    ring: Ring<A>,
}

/// Written out, so that what lets the groups go calls one function.
impl<A: Allocator> Drop for Groups<A> {
    fn drop(self) {
        let Groups { labels: _, ring: _ } = self;
    }
}

impl<A: Allocator> Model for Groups<A> {
    ghost Value = { Order };

    ghost view = { λ groups. record { items = order_of groups.ring.next.items; reserved = groups.ring.reserved } };

    ghost invariant = { λ groups. IsRising groups.labels.items (order_of groups.ring.next.items)
        × (vec_len groups.labels + groups.ring.reserved ≤ vec_capacity groups.labels) };
}

impl<A: Allocator> Groups<A> {
    /// One group, 0, and no room for more.
    pub fn new(alloc: A) -> Result<Groups<A>, AllocError>
    where
        A: Clone,
        ensures items { IfOk result (λ groups. groups.items ≡ 0 ∷ []) }
        ensures reserved { IfOk result (λ groups. groups.reserved ≡ 0) }
    {
        Ok(Groups {
            labels: Vec::from_slice(alloc.clone()?, &[0])?,
            ring: Ring::new(alloc)?,
        })
    }

    /// How many groups there are.
    pub fn len(&self) -> usize
        ensures value { result ≡ length self.now.items }
        ensures few { result + self.now.reserved ≤ most_items }
        ensures not_empty { 0 < result }
        ensures numbered { IsNumbered self.now.items }
        ensures listing { IsListing self.now.items }
    {
        self.ring.len()
    }

    /// How many more can be inserted before `reserve` is called again.
    pub fn reserved(&self) -> u32
        ensures value { result ≡ self.now.reserved }
        ensures few { length self.now.items + result ≤ most_items }
    {
        self.ring.reserved()
    }

    /// Makes room for `count` more groups, which the caller knows to be within the limit.
    pub fn reserve(&mut self, count: u32) -> Result<(), AllocError>
        requires { length self.old.items + count ≤ most_items }
        ensures items { self.new.items ≡ self.old.items }
        ensures ok { OnOk result (self.new.reserved ≡ count) }
        ensures err { OnErr result (self.new ≡ self.old) }
    {
        self.labels.reserve(count as usize)?;
        self.ring.reserve(count)
    }

    /// Puts a new group directly behind `after`, and gives its number. It takes one of the reserved places, and no memory.
    pub fn insert_reserved(&mut self, after: u32) -> u32
        requires room { 0 < self.old.reserved }
        requires known { after < length self.old.items }
        ensures item { result ≡ length self.old.items }
        ensures items { self.new.items ≡ insert self.old.items (place_of after self.old.items + 1) result }
        ensures reserved { self.new.reserved + 1 ≡ self.old.reserved }
    {
        let label = label_behind(&mut self.labels, &self.ring, after);
        self.labels.push_reserved(label);
        self.ring.insert_reserved(after)
    }

    /// Whether `a` stands before `b`.
    pub fn is_before(&self, a: u32, b: u32) -> bool
        requires a_known { a < length self.now.items }
        requires b_known { b < length self.now.items }
        ensures { IsTrue result ↔ (place_of a self.now.items < place_of b self.now.items) }
    {
        self.labels[a as usize] < self.labels[b as usize]
    }
}
