//! The views of the strands of a running program.

ghost use Rattle.std.specs.Prelude.{◌≡◌, ◌+◌, ◌<◌, ◌↔◌, ℕ, [], ◌∷◌, length, true, false, IsTrue, IfOk, OnOk, OnErr};
ghost use Rattle.model_strands.specs.History.{ended_joined, joined};
ghost use Rattle.model_strands.specs.Strands.{Running};
ghost use Rattle.model_strands.specs.Legal.{Allowed};
ghost use Rattle.law_values.specs.Accesses.{AreLegal, control_steps};
ghost use Rattle.model_reducers.specs.Steps.{Steps, control, put, update};
ghost use Rattle.reducer_views.specs.Held.{Holds, split_of, view_of};
ghost use Rattle.reducer_views.specs.Homes.{IsCurrent};
ghost use Rattle.model_reducers.specs.Products.{view_number};

use crate::pieces::{Piece, first_piece, gather_at, gather_block, grow, home_of, set_at, touch_of};
use crate::touched::{DEPTH, Spare, Touch, fill};
use crate::view::{identity, of_put, of_update, value};
use model_reducers::Monoid;
use model_strands::Spawned;
use std::alloc::{AllocError, Allocator};
use std::marker::Model;

/// How many empty slots are kept at most, to be used again.
const KEPT: usize = 1024;

/// The views of strands, per reducer. A strand's view is kept under the number of its home. A child goes on at its spawner's
/// home and a join at that of the strand that opened its block; a continuation has a home of its own.
pub struct Views<A: Allocator + Clone> {
    monoids: Vec<Monoid, A>,
    pieces: Vec<Piece<A>, A>,
    spare: Spare<A>,
    has_room: bool,
    alloc: A,
}

/// Written out, so that what lets views go calls one function.
impl<A: Allocator + Clone> Drop for Views<A> {
    fn drop(self) {
        let Views {
            monoids: _,
            pieces: _,
            spare: _,
            has_room: _,
            alloc: _,
        } = self;
    }
}

impl<A: Allocator + Clone> Model for Views<A> {
    ghost use Rattle.std.specs.Prelude.{◌≡◌, ◌+◌, ◌≤◌, true, vec_len, vec_capacity};
    ghost use Rattle.reducer_views.specs.Held.{Holding};
    ghost use Rattle.reducer_views.specs.Pieces.{AreKept, all_kept};

    ghost Value = { Holding };

    ghost view = { λ v. record { monoids = v.monoids.items; strands = all_kept v.pieces.items; has_room = v.has_room } };

    ghost invariant = { λ v. AreKept v.monoids.items (all_kept v.pieces.items)
        × (v.has_room ≡ true → (33 ≤ vec_len v.spare) × (vec_len v.pieces + 3 ≤ vec_capacity v.pieces)) };
}

impl<A: Allocator + Clone> Views<A> {
    /// The views of strand 0, which has touched no reducer.
    pub fn new(alloc: A, monoids: &[Monoid]) -> Result<Views<A>, AllocError>
        ensures monoids { IfOk result (λ views. views.monoids ≡ monoids.now) }
        ensures opens { IfOk result (λ views. Holds views []) }
        ensures room { IfOk result (λ views. views.has_room ≡ false) }
    {
        Ok(Views {
            monoids: Vec::from_slice(alloc.clone()?, monoids)?,
            pieces: first_piece(&alloc)?,
            spare: Vec::with_capacity(alloc.clone()?, KEPT)?,
            has_room: false,
            alloc,
        })
    }

    /// Makes room for the next event. A refused growth answers `AllocError` and changes nothing; where there is room, none is asked for.
    #[inline(always)]
    pub fn reserve_event(&mut self) -> Result<(), AllocError>
        ensures ok { OnOk result (self.new ≡ record self.old { has_room = true }) }
        ensures err { OnErr result (self.new ≡ self.old) }
        ensures only_without_room { OnErr result (self.old.has_room ≡ false) }
    {
        if !self.has_room {
            self.pieces.reserve(3)?;
            if self.spare.len() < DEPTH {
                fill(&mut self.spare, &self.alloc)?;
            }
            self.has_room = true;
        }
        Ok(())
    }

    /// Asks for room for so many more strands, so that their pieces need not grow by and by. It is a hint: it changes nothing that is
    /// seen, and where there is no memory they grow as they are made.
    pub fn make_room(&mut self, strands: usize)
        ensures { self.new ≡ self.old }
    {
        // Each event wants room for three.
        let _ = self.pieces.reserve(strands.saturating_add(3));
    }

    /// Whether there is room for the next event.
    pub fn has_room(&self) -> bool
        ensures { result ≡ self.now.has_room }
    {
        self.has_room
    }

    /// Whether the number is that of a strand, or of a join that is reserved.
    pub fn is_there(&self, strand: u32) -> bool
        ensures { IsTrue result ↔ (strand < length self.now.strands) }
    {
        (strand as usize) < self.pieces.len()
    }

    /// The strand spawned. The child goes on with its views, and the next strand begins with identities.
    pub fn spawned(&mut self, strand: u32, spawned: &Spawned)
        requires room { IsTrue self.old.has_room }
        requires there { strand < length self.old.strands }
        requires newest { spawned.now.next ≡ length self.old.strands + 1 }
        ensures monoids { self.new.monoids ≡ self.old.monoids }
        ensures room_used { self.new.has_room ≡ false }
        ensures follows { (steps : Steps) → AreLegal steps → Holds self.old steps →
            Allowed (control_steps steps) (split_of strand spawned.now) →
            Holds self.new (control (split_of strand spawned.now) ∷ steps) }
    {
        let home = home_of(&self.pieces, strand);
        grow(&mut self.pieces, home, spawned.next, spawned.first);
        self.has_room = false;
    }

    /// The join began, with the views of its block's children in order of spawning and then of the syncing strand.
    pub fn joined(&mut self, join: u32)
        requires room { IsTrue self.old.has_room }
        requires there { join < length self.old.strands }
        ensures monoids { self.new.monoids ≡ self.old.monoids }
        ensures room_used { self.new.has_room ≡ false }
        ensures at_sync { (steps : Steps) → AreLegal steps → Holds self.old steps → (strand : ℕ) →
            Allowed (control_steps steps) (joined strand join) →
            Holds self.new (control (joined strand join) ∷ steps) }
        ensures at_return { (steps : Steps) → AreLegal steps → Holds self.old steps → (strand : ℕ) →
            Allowed (control_steps steps) (ended_joined strand join) →
            Holds self.new (control (ended_joined strand join) ∷ steps) }
    {
        gather_block(&mut self.pieces, &mut self.spare, join);
        self.has_room = false;
    }

    /// The strand updated the reducer.
    #[inline(always)]
    pub fn update(&mut self, strand: u32, reducer: u32, number: u64)
        requires room { IsTrue self.old.has_room }
        requires there { strand < length self.old.strands }
        requires known { reducer < length self.old.monoids }
        ensures monoids { self.new.monoids ≡ self.old.monoids }
        ensures room_used { self.new.has_room ≡ false }
        ensures follows { (steps : Steps) → AreLegal steps → Holds self.old steps → Running (control_steps steps) strand →
            Holds self.new (update strand reducer number ∷ steps) }
    {
        let home = home_of(&self.pieces, strand);
        let monoid = self.monoids[reducer as usize];
        let view = of_update(monoid, number);
        let touch = Touch { monoid, view };
        gather_at(&mut self.pieces, &mut self.spare, home, reducer, touch);
        self.has_room = false;
    }

    /// The strand set the reducer.
    pub fn put(&mut self, strand: u32, reducer: u32, number: u64)
        requires room { IsTrue self.old.has_room }
        requires there { strand < length self.old.strands }
        requires known { reducer < length self.old.monoids }
        ensures monoids { self.new.monoids ≡ self.old.monoids }
        ensures room_used { self.new.has_room ≡ false }
        ensures follows { (steps : Steps) → AreLegal steps → Holds self.old steps → Running (control_steps steps) strand →
            Holds self.new (put strand reducer number ∷ steps) }
    {
        let home = home_of(&self.pieces, strand);
        let monoid = self.monoids[reducer as usize];
        let view = of_put(monoid, number);
        let touch = Touch { monoid, view };
        set_at(&mut self.pieces, &mut self.spare, home, reducer, touch);
        self.has_room = false;
    }

    /// The value that the strand sees in the reducer. The strand is one whose view is kept: it runs, or it has arrived at a join
    /// that has not begun.
    pub fn get(&self, strand: u32, reducer: u32) -> Option<u64>
        requires there { strand < length self.now.strands }
        requires known { reducer < length self.now.monoids }
        ensures { (steps : Steps) → AreLegal steps → Holds self.now steps → IsCurrent (control_steps steps) strand →
            result ≡ view_number (view_of self.now.monoids reducer steps strand) }
    {
        let home = home_of(&self.pieces, strand);
        match touch_of(&self.pieces, home, reducer) {
            Some(touch) => value(touch.view),
            None => value(identity(self.monoids[reducer as usize])),
        }
    }
}
