//! The reducers that a piece of the serial order has touched, each with its view.

ghost use Rattle.std.specs.Prelude.{◌≡◌, ◌+◌, ◌<◌, ◌≤◌, ◌^◌, ◌/◌, ◌%◌, ℕ, OnOk, vec_len};
ghost use Rattle.reducer_views.specs.Touched.{Changes, ChangesPlace, added, both, column_from, column_of, combined, later_in, touch_in, touches_of};

use crate::view::product;
use model_reducers::{Monoid, View};
use std::alloc::{AllocError, Allocator};
use std::mem::swap;

/// The view that was gathered of a reducer, and its monoid.
#[derive(Clone, Copy)]
pub struct Touch {
    pub monoid: Monoid,
    pub view: View,
}

impl Touch {
    /// Combines the view of a serially later touch on the right.
    fn with(self, later: Touch) -> Touch
        ensures { result ≡ combined self later }
    {
        Touch {
            monoid: self.monoid,
            view: product(self.monoid, self.view, later.view),
        }
    }
}

/// The touch that two pieces of the serial order make, the earlier one on the left.
fn join_touches(left: Option<Touch>, right: Option<Touch>) -> Option<Touch>
    ensures { result ≡ both left right }
{
    match (left, right) {
        (Some(left), Some(right)) => Some(left.with(right)),
        (Some(left), None) => Some(left),
        (None, right) => right,
    }
}

/// The touch that a later one makes behind the one that there may be.
fn touch_behind(earlier: Option<Touch>, later: Touch) -> Touch
    ensures { result ≡ added earlier later }
{
    match earlier {
        Some(touch) => touch.with(later),
        None => later,
    }
}

/// How many touches stand in a row.
const PLACES: usize = 4;

/// The touches of four reducers whose numbers follow one another: reducer n is at place n % 4 of row n / 4. Where there are no
/// more than four, one slot has them all.
#[derive(Clone, Copy)]
struct Row {
    touches: [Option<Touch>; PLACES],
}

impl Row {
    /// No touches.
    fn empty() -> Row
        ensures { (place : ℕ) → touch_in result place ≡ None }
    {
        Row {
            touches: [None; PLACES],
        }
    }

    /// The touch at a place.
    #[inline(always)]
    fn at(&self, place: usize) -> Option<Touch>
        requires { place < 4 }
        ensures { result ≡ touch_in self.now place }
    {
        self.touches[place]
    }

    /// Sets the touch at a place.
    #[inline(always)]
    fn set(&mut self, place: usize, touch: Touch)
        requires { place < 4 }
        ensures { Changes (touch_in self.old) (touch_in self.new) place touch }
    {
        self.touches[place] = Some(touch);
    }

    /// Combines a touch on the right of the one at a place.
    #[inline(always)]
    fn gather(&mut self, place: usize, touch: Touch)
        requires { place < 4 }
        ensures { Changes (touch_in self.old) (touch_in self.new) place (added (touch_in self.old place) touch) }
    {
        self.touches[place] = Some(touch_behind(self.touches[place], touch));
    }

    /// The touches that two pieces of the serial order make, the earlier one on the left.
    fn joined(&self, later: &Row) -> Row
        ensures { (place : ℕ) → touch_in result place ≡ both (touch_in self.now place) (touch_in later.now place) }
    {
        let left = &self.touches;
        let right = &later.touches;
        Row {
            touches: [
                join_touches(left[0], right[0]),
                join_touches(left[1], right[1]),
                join_touches(left[2], right[2]),
                join_touches(left[3], right[3]),
            ],
        }
    }
}

/// Of a table of rows that of number 0, and two tables: those of the odd numbers and of the other even ones, both counted
/// from 0 on.
#[derive(Drop)]
pub struct Slot<A: Allocator> {
    row: Row,
    odd: Slots<A>,
    even: Slots<A>,
    /// In the first slot of a piece's table the later continuation that is kept of the piece; else it counts for nothing.
    pub later: u32,
}

/// A table of reducers, by the rows in which they stand. The way to a row goes by at most 31 slots.
pub type Slots<A> = Option<Box<Slot<A>, A>>;

/// Slots in reserve.
pub type Spare<A> = Vec<Box<Slot<A>, A>, A>;

/// How many slots a reserve is filled up to: more than lie on the way to any row.
pub const DEPTH: usize = 33;

/// A new slot, which is empty.
fn new_slot<A: Allocator + Clone>(alloc: &A) -> Result<Box<Slot<A>, A>, AllocError> {
    let slot = Slot {
        row: Row::empty(),
        odd: None,
        even: None,
        later: 0,
    };
    Ok(Box::new(alloc.clone()?, slot)?)
}

/// Fills the reserve. A refused growth answers `AllocError`.
#[cold]
#[inline(never)]
pub fn fill<A: Allocator + Clone>(spare: &mut Spare<A>, alloc: &A) -> Result<(), AllocError>
    ensures ok { OnOk result (DEPTH ≤ vec_len spare.new) }
    ensures kept { vec_len spare.old ≤ vec_len spare.new }
{
    for _ in spare.len()..DEPTH {
        spare.push(new_slot(alloc)?)?;
    }
    Ok(())
}

/// The touch of a reducer in the table that begins with a slot, if there is one.
pub fn find<A: Allocator>(first: &Slot<A>, reducer: u32) -> Option<Touch>
    ensures { result ≡ column_from first.now (reducer % 4) (reducer / 4) }
{
    let mut slot = first;
    let mut number = reducer / 4;
    while number != 0 {
        let behind = if number % 2 == 1 {
            &slot.odd
        } else {
            &slot.even
        };
        let Some(next) = behind else { return None };
        slot = next;
        number = (number - 1) / 2;
    }
    slot.row.at((reducer % 4) as usize)
}

/// Takes an empty slot from the reserve.
fn take_slot<A: Allocator>(spare: &mut Spare<A>) -> Box<Slot<A>, A>
    requires { 0 < vec_len spare.old }
    ensures less { vec_len spare.new + 1 ≡ vec_len spare.old }
    ensures empty { (place number : ℕ) → column_of (Some result) place number ≡ None }
{
    let Some(mut slot) = spare.pop() else {
        unreachable!()
    };
    slot.row = Row::empty();
    slot.odd = None;
    slot.even = None;
    slot.later = 0;
    slot
}

/// Takes the first slot out of a table, or an empty one from the reserve.
fn take_first<A: Allocator>(slots: &mut Slots<A>, spare: &mut Spare<A>) -> Box<Slot<A>, A>
    requires { 0 < vec_len spare.old }
    ensures less { vec_len spare.old ≤ vec_len spare.new + 1 }
    ensures same { (place number : ℕ) → column_of (Some result) place number ≡ column_of slots.old place number }
{
    match slots.take() {
        Some(slot) => slot,
        None => take_slot(spare),
    }
}

/// Sets the touch at a place of a row, with slots of the reserve where there are none on the way.
fn set_in<A: Allocator>(
    slots: &mut Slots<A>,
    spare: &mut Spare<A>,
    number: u32,
    place: usize,
    touch: Touch,
)
    requires room { number + 1 < 2 ^ vec_len spare.old }
    requires place { place < 4 }
    ensures { ChangesPlace (column_of slots.old) (column_of slots.new) number place touch }
{
    let mut slot = take_first(slots, spare);
    if number == 0 {
        slot.row.set(place, touch);
    } else if number % 2 == 1 {
        set_in(&mut slot.odd, spare, (number - 1) / 2, place, touch);
    } else {
        set_in(&mut slot.even, spare, (number - 1) / 2, place, touch);
    }
    *slots = Some(slot);
}

/// Sets the touch of a reducer, with slots of the reserve where there are none on the way.
pub fn set<A: Allocator>(slots: &mut Slots<A>, spare: &mut Spare<A>, reducer: u32, touch: Touch)
    requires { reducer + 1 < 2 ^ vec_len spare.old }
    ensures { Changes (touches_of slots.old) (touches_of slots.new) reducer touch }
{
    set_in(slots, spare, reducer / 4, (reducer % 4) as usize, touch);
}

/// Combines a touch on the right of the one at a place of a row of the table that begins with a slot.
#[cycle(gather)]
fn gather_in<A: Allocator>(
    slot: &mut Slot<A>,
    spare: &mut Spare<A>,
    number: u32,
    place: usize,
    touch: Touch,
)
    requires room { number + 1 < 2 ^ vec_len spare.old }
    requires place { place < 4 }
    ensures touches { ChangesPlace (column_from slot.old) (column_from slot.new) number place
        (added (column_from slot.old place number) touch) }
    ensures later { later_in slot.new ≡ later_in slot.old }
{
    if number == 0 {
        slot.row.gather(place, touch);
    } else if number % 2 == 1 {
        gather_behind(&mut slot.odd, spare, (number - 1) / 2, place, touch);
    } else {
        gather_behind(&mut slot.even, spare, (number - 1) / 2, place, touch);
    }
}

/// Combines a touch on the right of the one at a place of a row, in its slot where there is one, and else with slots of the
/// reserve.
#[cycle(gather)]
fn gather_behind<A: Allocator>(
    slots: &mut Slots<A>,
    spare: &mut Spare<A>,
    number: u32,
    place: usize,
    touch: Touch,
)
    requires room { number + 1 < 2 ^ vec_len spare.old }
    requires place { place < 4 }
    ensures { ChangesPlace (column_of slots.old) (column_of slots.new) number place
        (added (column_of slots.old place number) touch) }
{
    match slots {
        Some(slot) => gather_in(slot, spare, number, place, touch),
        None => set_in(slots, spare, number, place, touch),
    }
}

/// Combines a touch on the right of the reducer's in the table that begins with a slot, with slots of the reserve where there
/// are none on the way.
pub fn gather<A: Allocator>(first: &mut Slot<A>, spare: &mut Spare<A>, reducer: u32, touch: Touch)
    requires { reducer + 1 < 2 ^ vec_len spare.old }
    ensures touches { ChangesPlace (column_from first.old) (column_from first.new) (reducer / 4) (reducer % 4)
        (added (column_from first.old (reducer % 4) (reducer / 4)) touch) }
    ensures later { later_in first.new ≡ later_in first.old }
{
    gather_in(first, spare, reducer / 4, (reducer % 4) as usize, touch);
}

/// Gives the slots of a table back to the reserve, as far as there is room for them.
pub fn give_back<A: Allocator>(slots: &mut Slots<A>, spare: &mut Spare<A>) {
    let Some(slot) = slots else { return };
    let behind: &mut Slot<A> = slot;
    give_back(&mut behind.odd, spare);
    give_back(&mut behind.even, spare);
    if spare.len() < spare.capacity()
        && let Some(slot) = slots.take()
    {
        spare.push_reserved(slot);
    }
}

/// Combines the views of a later piece on the right, and leaves of it the slots that both pieces had.
pub fn absorb<A: Allocator>(slots: &mut Slots<A>, later: &mut Slots<A>)
    ensures { (reducer : ℕ) → touches_of slots.new reducer ≡ both (touches_of slots.old reducer) (touches_of later.old reducer) }
{
    let Some(other) = later else { return };
    let Some(slot) = slots else {
        swap(slots, later);
        return;
    };
    let slot: &mut Slot<A> = slot;
    let other: &mut Slot<A> = other;
    slot.row = slot.row.joined(&other.row);
    absorb(&mut slot.odd, &mut other.odd);
    absorb(&mut slot.even, &mut other.even);
}
