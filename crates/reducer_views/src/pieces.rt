//! The pieces of the serial order that the strands of a running program stand for.

ghost use Rattle.std.specs.Prelude.{◌≡◌, ◌+◌, ◌<◌, ◌≤◌, ◌^◌, ℕ, List, [], length, vec_len, vec_capacity, IfOk};
ghost use Rattle.model_reducers.specs.declared.monoid.Monoid.{Monoid};
ghost use Rattle.reducer_views.specs.Pieces.{AreKept, AreLater, Combines, Grown, SameHomes, SetsAt, SetsIn};
ghost use Rattle.reducer_views.specs.Pieces.{TakesOver, all_kept, first_kept, home_at, kept_of, later_at, touches_at};
ghost use Rattle.reducer_views.specs.Touched.{added, listed_of, look_up};

use crate::touched::{Slot, Slots, Spare, Touch, absorb, find, gather, give_back, set};
use std::alloc::{AllocError, Allocator, Global};
use std::mem::{replace, size_of};

/// What is kept of a strand, in sixteen bytes: its home, under whose number its view is kept, and its later strand, which of a
/// join is the first continuation of its block, of a continuation the one after it in its block; else 0.
#[derive(Drop)]
pub enum Piece<A: Allocator> {
    /// No reducer is touched by the strands whose home is here.
    Untouched { home: u32, later: u32 },
    /// The first slot of what they have touched, which keeps the later strand as well.
    Touched { home: u32, slot: Box<Slot<A>, A> },
}

const _: () = prove!(size_of::<Piece<Global>>() == 16);

impl<A: Allocator> Piece<A> {
    /// The strand under whose number its view is kept.
    #[inline(always)]
    fn home(&self) -> u32
        ensures { result ≡ (kept_of self.now).home }
    {
        match self {
            Piece::Untouched { home, .. } | Piece::Touched { home, .. } => *home,
        }
    }

    /// Its later strand.
    #[inline(always)]
    fn later(&self) -> u32
        ensures { result ≡ (kept_of self.now).later }
    {
        match self {
            Piece::Untouched { later, .. } => *later,
            Piece::Touched { slot, .. } => slot.later,
        }
    }

    /// Sets its later strand.
    #[inline(always)]
    fn set_later(&mut self, strand: u32)
        ensures { kept_of self.new ≡ record (kept_of self.old) { later = strand } }
    {
        match self {
            Piece::Untouched { later, .. } => *later = strand,
            Piece::Touched { slot, .. } => slot.later = strand,
        }
    }

    /// The touch of a reducer by the strands whose home is here, if there is one.
    #[inline(always)]
    fn touch(&self, reducer: u32) -> Option<Touch>
        ensures { result ≡ look_up (kept_of self.now).touches reducer }
    {
        match self {
            Piece::Untouched { .. } => None,
            Piece::Touched { slot, .. } => find(slot, reducer),
        }
    }

    /// Takes out the table of what is touched.
    #[inline(always)]
    fn take_slots(&mut self) -> Slots<A>
        ensures table { listed_of result ≡ (kept_of self.old).touches }
        ensures rest { kept_of self.new ≡ record (kept_of self.old) { touches = [] } }
    {
        let rest = Piece::Untouched {
            home: self.home(),
            later: self.later(),
        };
        match replace(self, rest) {
            Piece::Untouched { .. } => None,
            Piece::Touched { slot, .. } => Some(slot),
        }
    }

    /// Puts a table where none is.
    #[inline(always)]
    fn put_slots(&mut self, slots: Slots<A>)
        requires untouched { (kept_of self.old).touches ≡ [] }
        ensures { kept_of self.new ≡ record (kept_of self.old) { touches = listed_of slots } }
    {
        if let Some(mut slot) = slots {
            slot.later = self.later();
            *self = Piece::Touched {
                home: self.home(),
                slot,
            };
        }
    }

    /// Sets the touch of a reducer.
    #[inline(always)]
    fn set(&mut self, spare: &mut Spare<A>, reducer: u32, touch: Touch)
        requires room { reducer + 1 < 2 ^ vec_len spare.old }
        ensures { SetsIn (kept_of self.old) (kept_of self.new) reducer touch }
    {
        let mut slots = self.take_slots();
        set(&mut slots, spare, reducer, touch);
        self.put_slots(slots);
    }

    /// Combines a touch on the right of the reducer's.
    #[inline(always)]
    fn gather(&mut self, spare: &mut Spare<A>, reducer: u32, touch: Touch)
        requires room { reducer + 1 < 2 ^ vec_len spare.old }
        ensures { SetsIn (kept_of self.old) (kept_of self.new) reducer
            (added (look_up (kept_of self.old).touches reducer) touch) }
    {
        match self {
            Piece::Untouched { .. } => self.set(spare, reducer, touch),
            Piece::Touched { slot, .. } => gather(slot, spare, reducer, touch),
        }
    }
}

/// The home of a strand.
#[inline(always)]
pub fn home_of<A: Allocator>(pieces: &[Piece<A>], strand: u32) -> u32
    requires known { strand < length pieces.now }
    ensures { result ≡ home_at (all_kept pieces.now) strand }
{
    pieces[strand as usize].home()
}

/// The later strand of a strand.
#[inline(always)]
fn later_of<A: Allocator>(pieces: &[Piece<A>], strand: u32) -> u32
    requires known { strand < length pieces.now }
    ensures { result ≡ later_at (all_kept pieces.now) strand }
{
    pieces[strand as usize].later()
}

/// The touch of a reducer that is kept at a home, if there is one.
#[inline(always)]
pub fn touch_of<A: Allocator>(pieces: &[Piece<A>], home: u32, reducer: u32) -> Option<Touch>
    requires home_known { home < length pieces.now }
    ensures { result ≡ touches_at (all_kept pieces.now) home reducer }
{
    pieces[home as usize].touch(reducer)
}

/// What is kept of strand 0 at first.
pub fn first_piece<A: Allocator + Clone>(alloc: &A) -> Result<Vec<Piece<A>, A>, AllocError>
    ensures { IfOk result (λ pieces. all_kept pieces.items ≡ first_kept) }
{
    let mut pieces = Vec::new(alloc.clone()?);
    pieces.push(Piece::Untouched { home: 0, later: 0 })?;
    Ok(pieces)
}

/// Adds a child, which goes on at the home, a continuation with a home of its own, and, at the first spawn of a block, its join.
pub fn grow<A: Allocator>(pieces: &mut Vec<Piece<A>, A>, home: u32, next: u32, first: bool)
    requires room { vec_len pieces.old + 3 ≤ vec_capacity pieces.old }
    requires next_is_new { next ≡ length pieces.old.items + 1 }
    requires home_known { home < length pieces.old.items }
    ensures { Grown (all_kept pieces.old.items) (all_kept pieces.new.items) home first }
{
    pieces.push_reserved(Piece::Untouched { home, later: 0 });
    pieces.push_reserved(Piece::Untouched {
        home: next,
        later: 0,
    });
    if first {
        pieces.push_reserved(Piece::Untouched { home, later: next });
        return;
    }
    pieces[home as usize].set_later(next);
}

/// Combines a touch on the right of the one that is kept at a home.
pub fn gather_at<A: Allocator>(
    pieces: &mut [Piece<A>],
    spare: &mut Spare<A>,
    home: u32,
    reducer: u32,
    touch: Touch,
)
    requires home_known { home < length pieces.old }
    requires room { reducer + 1 < 2 ^ vec_len spare.old }
    ensures { SetsAt (all_kept pieces.old) (all_kept pieces.new) home reducer
        (added (touches_at (all_kept pieces.old) home reducer) touch) }
{
    pieces[home as usize].gather(spare, reducer, touch);
}

/// Sets the touch that is kept at a home.
pub fn set_at<A: Allocator>(
    pieces: &mut [Piece<A>],
    spare: &mut Spare<A>,
    home: u32,
    reducer: u32,
    touch: Touch,
)
    requires home_known { home < length pieces.old }
    requires room { reducer + 1 < 2 ^ vec_len spare.old }
    ensures { SetsAt (all_kept pieces.old) (all_kept pieces.new) home reducer touch }
{
    pieces[home as usize].set(spare, reducer, touch);
}

/// Combines what is touched at a later number on the right of what is at a home. What slots both had, go to the reserve.
fn take_over<A: Allocator>(pieces: &mut [Piece<A>], spare: &mut Spare<A>, home: u32, later: u32)
    requires home_known { home < length pieces.old }
    requires later_known { later < length pieces.old }
    requires apart { home < later }
    ensures { TakesOver (all_kept pieces.old) (all_kept pieces.new) home later }
{
    let mut taken = pieces[later as usize].take_slots();
    if taken.is_none() {
        return;
    }
    let piece = &mut pieces[home as usize];
    let mut slots = piece.take_slots();
    absorb(&mut slots, &mut taken);
    piece.put_slots(slots);
    give_back(&mut taken, spare);
}

/// Combines the views of a block's children and of its syncing strand, in order, at the home of its join.
pub fn gather_block<A: Allocator>(pieces: &mut [Piece<A>], spare: &mut Spare<A>, join: u32)
    requires known { join < length pieces.old }
    requires sound { (monoids : List Monoid) × AreKept monoids (all_kept pieces.old) }
    ensures same { SameHomes (all_kept pieces.old) (all_kept pieces.new) }
    ensures sound { (monoids : List Monoid) → AreKept monoids (all_kept pieces.old) → AreKept monoids (all_kept pieces.new) }
    ensures block { (monoids : List Monoid) → AreKept monoids (all_kept pieces.old) → (continuations : List ℕ) →
        AreLater (later_at (all_kept pieces.old)) (later_at (all_kept pieces.old) join) continuations →
        Combines monoids (all_kept pieces.old) (all_kept pieces.new) (home_at (all_kept pieces.old) join) continuations }
{
    let home = home_of(pieces, join);
    let mut at = later_of(pieces, join);
    while at != 0 {
        take_over(pieces, spare, home, at);
        at = later_of(pieces, at);
    }
}
