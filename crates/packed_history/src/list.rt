//! A list of receipts.

ghost use Rattle.std.specs.Prelude.{◌≡◌, ◌↔◌, ◌<◌, ◌++◌, ◌∷◌, [], true, get_or, length, slice_get, Some, IsTrue, OnOk, OnErr};
ghost use Rattle.std.specs.List.{All};
ghost use Rattle.model_histories.specs.declared.reply.Receipt.{Receipt as OneReceipt};
ghost use Rattle.model_histories.specs.Extensions.{IsCleanAnswer};
ghost use Rattle.packed_history.specs.Packing.{unpacked};
ghost use Rattle.packed_history.specs.Refusals.{refused as refused_spec};
ghost use Rattle.packed_history.specs.Shorts.{index_of as index_spec, is_long as is_long_spec, is_refused as is_refused_spec, plain as plain_spec};

use crate::packed::{Packed, long_at, packed_of, refused_of};
use crate::refusal::{Refusal, is_same_refusal};
use model_histories::Receipt;
use std::alloc::{AllocError, Allocator, Global};
use std::marker::Model;

/// The receipt that is kept beside.
fn long_of(longs: &[Receipt], short: Packed) -> Receipt
    requires { is_long_spec (unpacked short).deed ≡ true }
    ensures { result ≡ get_or longs.now (index_spec (unpacked short).deed) (plain_spec (unpacked short)) }
{
    match longs.get(short.index() as usize) {
        Some(receipt) => *receipt,
        None => short.unpack(),
    }
}

/// The receipt of a refused access that has something beside.
fn refused_in(refusals: &[Refusal], short: Packed) -> Receipt
    requires { is_refused_spec (unpacked short).deed ≡ true }
    ensures { result ≡ refused_spec (slice_get refusals.now (index_spec (unpacked short).deed)) (unpacked short) }
{
    match refusals.get(short.place() as usize) {
        Some(refusal) => short.unpack_refused(*refusal),
        None => short.unpack(),
    }
}

/// Whether one thing stands at these places of the two lists.
fn is_same_at(ones: &[Refusal], at: usize, others: &[Refusal], place: usize) -> bool
    ensures { IsTrue result → slice_get ones.now at ≡ slice_get others.now place }
{
    match (ones.get(at), others.get(place)) {
        (Some(one), Some(other)) => is_same_refusal(*one, *other),
        _ => false,
    }
}

/// Receipts in their order.
pub struct Receipts<A: Allocator = Global> {
    shorts: Vec<Packed, A>,
    longs: Vec<Receipt, A>,
    refusals: Vec<Refusal, A>,
    has_room: bool,
    /// Whether there is room in the lists beside, which most receipts leave as they are.
    has_room_beside: bool,
}

/// The lists are made small before they are let go: a great block that is let go raises the size below which the C library's heap copies
/// a list that grows, where it would move its pages.
impl<A: Allocator> Drop for Receipts<A> {
    fn drop(self) {
        let Receipts {
            mut shorts,
            mut longs,
            mut refusals,
            has_room: _,
            has_room_beside: _,
        } = self;
        shorts.clear();
        shorts.shrink_to(1);
        longs.clear();
        longs.shrink_to(1);
        refusals.clear();
        refusals.shrink_to(1);
    }
}

impl<A: Allocator> Model for Receipts<A> {
    ghost use Rattle.std.specs.Prelude.{◌≡◌, ◌<◌, true, vec_len, vec_capacity};
    ghost use Rattle.packed_history.specs.Lists.{Listed, receipts_of, AreKept};

    ghost Value = { Listed };

    ghost view = { λ list. record { items = receipts_of list.longs.items list.refusals.items list.shorts.items; has_room = list.has_room } };

    ghost invariant = { λ list. AreKept list.longs.items list.refusals.items list.shorts.items
        × (list.has_room ≡ true → (vec_len list.shorts < vec_capacity list.shorts) × (vec_len list.longs < vec_capacity list.longs)
        × (vec_len list.refusals < vec_capacity list.refusals))
        × (list.has_room_beside ≡ true → (vec_len list.longs < vec_capacity list.longs) × (vec_len list.refusals < vec_capacity list.refusals)) };
}

impl<A: Allocator + Copy> Receipts<A> {
    /// No receipts.
    pub fn new(alloc: A) -> Receipts<A>
        ensures { result.items ≡ [] }
    {
        Receipts {
            shorts: Vec::new(alloc),
            longs: Vec::new(alloc),
            refusals: Vec::new(alloc),
            has_room: false,
            has_room_beside: false,
        }
    }
}

impl<A: Allocator> Receipts<A> {
    /// Makes room for a receipt. Where there is no memory for it, nothing changes.
    #[inline(always)]
    pub fn reserve(&mut self) -> Result<(), AllocError>
        ensures ok { OnOk result (self.new ≡ record self.old { has_room = true }) }
        ensures err { OnErr result (self.new ≡ self.old) }
    {
        if !self.has_room {
            self.shorts.reserve(1)?;
            if !self.has_room_beside {
                self.longs.reserve(1)?;
                self.refusals.reserve(1)?;
                self.has_room_beside = true;
            }
            self.has_room = true;
        }
        Ok(())
    }

    /// Adds a receipt that has no form in sixteen bytes alone.
    #[inline(always)]
    fn push_beside(&mut self, receipt: Receipt)
        requires { self.old.has_room ≡ true }
        ensures { self.new.items ≡ self.old.items ++ receipt ∷ [] }
    {
        self.has_room = false;
        self.has_room_beside = false;
        match refused_of(receipt, self.refusals.len()) {
            Some((short, refusal)) => {
                self.refusals.push_reserved(refusal);
                self.shorts.push_reserved(short);
            }
            None => {
                let short = long_at(self.longs.len());
                self.longs.push_reserved(receipt);
                self.shorts.push_reserved(short);
            }
        }
    }

    /// Adds a receipt at the end, for which room was made.
    #[inline(always)]
    pub fn push_reserved(&mut self, receipt: Receipt)
        requires { self.old.has_room ≡ true }
        ensures { self.new.items ≡ self.old.items ++ receipt ∷ [] }
    {
        match packed_of(receipt) {
            Some(short) => {
                self.has_room = false;
                self.shorts.push_reserved(short);
            }
            None => self.push_beside(receipt),
        }
    }

    /// Adds a receipt at the end. Where there is no memory for it, the list stays as it is.
    pub fn push(&mut self, receipt: Receipt) -> Result<(), AllocError>
        ensures pushed { OnOk result (self.new.items ≡ self.old.items ++ receipt ∷ []) }
        ensures unchanged { OnErr result (self.new ≡ self.old) }
    {
        self.reserve()?;
        self.push_reserved(receipt);
        Ok(())
    }

    /// How many receipts there are.
    pub fn len(&self) -> usize
        ensures { result ≡ length self.now.items }
    {
        self.shorts.len()
    }

    /// Whether it is known that none of them is a refusal, since each such has something beside.
    pub fn are_clean(&self) -> bool
        ensures { IsTrue result → All (λ receipt. IsCleanAnswer receipt.answer) self.now.items }
    {
        self.longs.is_empty() && self.refusals.is_empty()
    }

    /// Whether it is known that the receipt at a place is no refusal, since each such has something beside.
    #[inline(always)]
    pub fn is_clean(&self, at: usize) -> bool
        requires { at < length self.now.items }
        ensures { IsTrue result → (receipt : OneReceipt) → slice_get self.now.items at ≡ Some receipt → IsCleanAnswer receipt.answer }
    {
        self.shorts[at].is_short()
    }

    /// Whether there are none.
    pub fn is_empty(&self) -> bool
        ensures { IsTrue result ↔ (self.now.items ≡ []) }
    {
        self.shorts.is_empty()
    }

    /// The receipt at a place, be it kept short or beside.
    #[cold]
    #[inline(never)]
    fn either(&self, at: usize) -> Receipt
        requires { at < length self.now.items }
        ensures { slice_get self.now.items at ≡ Some result }
    {
        let short = self.shorts[at];
        if short.is_short() {
            short.unpack()
        } else if short.is_long() {
            long_of(self.longs.as_slice(), short)
        } else {
            refused_in(self.refusals.as_slice(), short)
        }
    }

    /// The number of a receipt that is kept beside, in a function of its own, so that where it is kept short no memory is made ready for
    /// the whole receipt.
    #[cold]
    #[inline(never)]
    fn number_beside(&self, at: usize) -> u32
        requires { at < length self.now.items }
        ensures { (d : OneReceipt) → (get_or self.now.items at d).number ≡ result }
    {
        self.either(at).number
    }

    /// The number of the receipt at a place.
    #[inline(always)]
    pub fn number(&self, at: usize) -> u32
        requires { at < length self.now.items }
        ensures { (d : OneReceipt) → (get_or self.now.items at d).number ≡ result }
    {
        if self.shorts[at].is_long() {
            self.number_beside(at)
        } else {
            self.shorts[at].number()
        }
    }

    /// Whether it is seen at once that the receipt at a place is that of another list: both are kept short, and in the same bytes.
    #[inline(always)]
    pub(crate) fn is_plainly<B: Allocator>(
        &self,
        at: usize,
        other: &Receipts<B>,
        place: usize,
    ) -> bool
        requires at { at < length self.now.items }
        requires place { place < length other.now.items }
        ensures { IsTrue result → slice_get self.now.items at ≡ slice_get other.now.items place }
    {
        let short = self.shorts[at];
        short.is_short() && short.is_same(other.shorts[place])
    }

    /// Whether it is seen at once that the receipt at a place is that of another list: both are of refused accesses, in the same bytes but
    /// for the places of what they have beside.
    pub(crate) fn is_plainly_refused<B: Allocator>(
        &self,
        at: usize,
        other: &Receipts<B>,
        place: usize,
    ) -> bool
        requires at { at < length self.now.items }
        requires place { place < length other.now.items }
        ensures { IsTrue result → slice_get self.now.items at ≡ slice_get other.now.items place }
    {
        let one = self.shorts[at];
        let another = other.shorts[place];
        if one.is_short() || one.is_long() || !one.is_alike(another) {
            return false;
        }
        is_same_at(
            self.refusals.as_slice(),
            one.place() as usize,
            other.refusals.as_slice(),
            another.place() as usize,
        )
    }

    /// The receipt at a place.
    #[inline(always)]
    pub fn get(&self, at: usize) -> Receipt
        requires { at < length self.now.items }
        ensures { slice_get self.now.items at ≡ Some result }
    {
        if self.shorts[at].is_short() {
            self.shorts[at].unpack()
        } else {
            self.either(at)
        }
    }
}
