//! A list of entries.

ghost use Rattle.std.specs.Prelude.{◌≡◌, ◌↔◌, ◌<◌, ◌++◌, ◌∷◌, [], true, get_or, length, slice_get, Some, IsTrue, IfOk, OnOk, OnErr};
ghost use Rattle.model_histories.specs.declared.answer.Entry.{Entry as OneEntry};
ghost use Rattle.model_histories.specs.declared.reply.Receipt.{Receipt as OneReceipt};
ghost use Rattle.model_histories.specs.Extensions.{IsClean, IsCleanAnswer};
ghost use Rattle.packed_history.specs.Entries.{entry_of as entry_spec};

use crate::deed::is_same_entry;
use crate::list::Receipts;
use model_histories::{Entry, Receipt};
use std::alloc::{AllocError, Allocator, Global};
use std::marker::Model;

/// The entry that a receipt is of.
#[inline(always)]
fn entry_of(receipt: Receipt) -> Entry
    ensures { result ≡ entry_spec receipt }
{
    Entry {
        request: receipt.request,
        answer: receipt.answer,
    }
}

/// Entries of a history in their order, the oldest first. Each is kept as its receipt is in [`Receipts`], so that a receipt can be held
/// against it as both are kept.
#[derive(Drop)]
pub struct Entries<A: Allocator = Global> {
    receipts: Receipts<A>,
}

impl<A: Allocator> Model for Entries<A> {
    ghost use Rattle.packed_history.specs.Entries.{Kept, entries_of};

    ghost Value = { Kept };

    ghost view = { λ list. record { items = entries_of list.receipts.items; has_room = list.receipts.has_room } };
}

impl<A: Allocator + Copy> Entries<A> {
    /// No entries.
    pub fn new(alloc: A) -> Entries<A>
        ensures { result.items ≡ [] }
    {
        Entries {
            receipts: Receipts::new(alloc),
        }
    }
}

impl<A: Allocator> Entries<A> {
    /// Makes room for an entry. Where there is no memory for it, nothing changes.
    #[inline(always)]
    pub fn reserve(&mut self) -> Result<(), AllocError>
        ensures ok { OnOk result (self.new ≡ record self.old { has_room = true }) }
        ensures err { OnErr result (self.new ≡ self.old) }
    {
        self.receipts.reserve()
    }

    /// Adds the entry of a receipt at the end, for which room was made.
    #[inline(always)]
    pub fn push_reserved(&mut self, receipt: Receipt)
        requires { self.old.has_room ≡ true }
        ensures { self.new.items ≡ self.old.items ++ entry_spec receipt ∷ [] }
    {
        self.receipts.push_reserved(receipt);
    }

    /// How many entries there are.
    pub fn len(&self) -> usize
        ensures { result ≡ length self.now.items }
    {
        self.receipts.len()
    }

    /// Whether it is known that none of them is refused, since each such has something beside.
    pub fn are_clean(&self) -> bool
        ensures { IsTrue result → IsClean self.now.items }
    {
        self.receipts.are_clean()
    }

    /// Whether it is known that the entry at a place is not refused, since each such has something beside.
    #[inline(always)]
    pub fn is_clean(&self, at: usize) -> bool
        requires { at < length self.now.items }
        ensures { IsTrue result → (entry : OneEntry) → slice_get self.now.items at ≡ Some entry → IsCleanAnswer entry.answer }
    {
        self.receipts.is_clean(at)
    }

    /// The entry at a place.
    #[inline(always)]
    pub fn get(&self, at: usize) -> Entry
        requires { at < length self.now.items }
        ensures { slice_get self.now.items at ≡ Some result }
    {
        entry_of(self.receipts.get(at))
    }

    /// As [`Entries::is_of`], by the entry and the receipt.
    #[cold]
    #[inline(never)]
    fn is_slowly<B: Allocator>(&self, at: usize, receipts: &Receipts<B>, place: usize) -> bool
        requires at { at < length self.now.items }
        requires place { place < length receipts.now.items }
        ensures { IsTrue result ↔
            ((e : OneEntry) (r : OneReceipt) → entry_spec (get_or receipts.now.items place r) ≡ get_or self.now.items at e) }
    {
        self.receipts.is_plainly_refused(at, receipts, place)
            || is_same_entry(entry_of(receipts.get(place)), self.get(at))
    }

    /// Whether the receipt at a place of a list is of the entry at this place, whatever its number.
    #[inline(always)]
    pub fn is_of<B: Allocator>(&self, at: usize, receipts: &Receipts<B>, place: usize) -> bool
        requires at { at < length self.now.items }
        requires place { place < length receipts.now.items }
        ensures { IsTrue result ↔
            ((e : OneEntry) (r : OneReceipt) → entry_spec (get_or receipts.now.items place r) ≡ get_or self.now.items at e) }
    {
        self.receipts.is_plainly(at, receipts, place) || self.is_slowly(at, receipts, place)
    }

    /// The entries as a list of whole ones.
    pub fn to_vec<B: Allocator>(&self, alloc: B) -> Result<Vec<Entry, B>, AllocError>
        ensures { IfOk result (λ list. list.items ≡ self.now.items) }
    {
        let mut list = Vec::with_capacity(alloc, self.len())?;
        for at in 0..self.len() {
            list.push(self.get(at))?;
        }
        Ok(list)
    }
}
