//! How a gate keeps its entries.

ghost use Rattle.std.specs.Prelude.{◌≡◌, ◌<◌, ◌++◌, ◌∷◌, [], true, List, OnOk, vec_len, vec_capacity};
ghost use Rattle.model_histories.specs.declared.answer.Entry.{Entry as OneEntry};
ghost use Rattle.packed_history.specs.Entries.{entry_of};

use model_histories::{Entry, Receipt};
use packed_history::Entries;
use std::alloc::{AllocError, Allocator};

/// A list of entries that grows at its end. Contracts see the entries, the oldest first, and whether there is room for one more.
pub trait History: Drop {
    ghost entries: { Self → List OneEntry };

    ghost HasRoom: { Self → Type 0 };

    /// Makes room for an entry. The entries stay, also where there is no memory for it.
    fn reserve_entry(&mut self) -> Result<(), AllocError>
        ensures room { OnOk result (HasRoom self.new) }
        ensures same { entries self.new ≡ entries self.old };

    /// Adds the entry of a receipt at the end, for which room was made.
    fn push_entry(&mut self, receipt: Receipt)
        requires { HasRoom self.old }
        ensures { entries self.new ≡ entries self.old ++ entry_of receipt ∷ [] };
}

/// A list of entries that is made with this allocator.
pub trait NewHistory<A: Allocator>: History {
    /// No entries.
    fn empty(alloc: A) -> Self
        ensures { Self.entries result ≡ [] };
}

/// Whole entries.
impl<A: Allocator> History for Vec<Entry, A> {
    ghost entries = { λ list. list.items };

    ghost HasRoom = { λ list. vec_len list < vec_capacity list };

    #[inline(always)]
    fn reserve_entry(&mut self) -> Result<(), AllocError> {
        self.reserve(1)
    }

    #[inline(always)]
    fn push_entry(&mut self, receipt: Receipt) {
        self.push_reserved(Entry {
            request: receipt.request,
            answer: receipt.answer,
        });
    }
}

impl<A: Allocator> NewHistory<A> for Vec<Entry, A> {
    fn empty(alloc: A) -> Vec<Entry, A> {
        Vec::new(alloc)
    }
}

/// Packed entries.
impl<A: Allocator> History for Entries<A> {
    ghost entries = { λ list. list.items };

    ghost HasRoom = { λ list. list.has_room ≡ true };

    #[inline(always)]
    fn reserve_entry(&mut self) -> Result<(), AllocError> {
        self.reserve()
    }

    #[inline(always)]
    fn push_entry(&mut self, receipt: Receipt) {
        self.push_reserved(receipt);
    }
}

impl<A: Allocator + Copy> NewHistory<A> for Entries<A> {
    fn empty(alloc: A) -> Entries<A> {
        Entries::new(alloc)
    }
}
