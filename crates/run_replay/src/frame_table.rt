//! The frames of a history, and in which of them each strand stands.

ghost use Rattle.std.specs.Prelude.{◌≡◌, ◌≢◌, ◌⊎◌, ◌↔◌, ◌<◌, ◌++◌, [], ◌∷◌, ℕ, List, length, slice_get, Some, None, MatchOption, IfOk, IfErr, IfSome, OnOk, Err};
ghost use Rattle.model_bodies.specs.Codes.{Code};
ghost use Rattle.model_histories.specs.Shapes.{Shape, most_entries};
ghost use Rattle.model_histories.specs.States.{GateState, opening};
ghost use Rattle.frame_steps.specs.States.{FrameState};
ghost use Rattle.model_programs.specs.Exchanges.{Exchange};
ghost use Rattle.frame_steps.specs.Frames.{Stands, IsAfter, Wraps};
ghost use Rattle.frame_steps.specs.declared.phase.Phase.{Phase};
ghost use Rattle.run_replay.specs.declared.frame_table.Slot.{Slot};
ghost use Rattle.program_text.specs.Shapes.{shape_in};
ghost use Rattle.run_replay.specs.FrameTables.{new_places, IsBegun, Opens, IsMisfit};
ghost use Rattle.run_replay.specs.Slots.{AreHeld, OpensIn, PlaysIn};
ghost use Rattle.run_replay.specs.Turns.{IsTurn, HasNoTurn, IsEntered};
ghost use Rattle.run_replay.specs.Wraps.{EntryWraps};
ghost use Rattle.run_replay.specs.declared.turn.Misfit.{Misfit};

use crate::turn::{Misfit, advance_frame};
use frame_steps::{Frame, Target};
use program_text::Program;
use race_gate::{Answer, Entry};
use std::alloc::{AllocError, Allocator};

/// A frame, and its number among the frames in order of their spawns, that of the root function being 0.
#[derive(Drop)]
pub struct Slot<A: Allocator> {
    number: usize,
    frame: Frame<A>,
}

/// The frames that play. A frame that begins takes the slot of one that has ended, so there are as many slots as frames were alive at
/// once. For each frame that has begun there is its slot, also where another has it now, and for each strand that has begun or is reserved
/// the number of its frame. The entries that were played are not kept.
#[derive(Drop)]
pub struct FrameTable<A: Allocator + Copy> {
    alloc: A,
    slots: Vec<Slot<A>, A>,
    homes: Vec<u32, A>,
    places: Vec<u32, A>,
    free: Vec<usize, A>,
}

/// From how many spawns on their room is asked for at once.
pub const MANY_SPAWNS: usize = 1_000;

/// A list of one item.
fn list_of_one<T: Drop, A: Allocator>(alloc: A, item: T) -> Result<Vec<T, A>, AllocError>
    ensures { IfOk result (λ list. list.items ≡ item ∷ []) }
{
    let mut list = Vec::new(alloc);
    list.push(item)?;
    Ok(list)
}

/// The number in four bytes, of which there are as many as strands.
fn to_u32(number: usize) -> Result<u32, AllocError>
    ensures { IfOk result (λ small. small ≡ number) }
{
    if number > 4_294_967_295 {
        return Err(AllocError);
    }
    Ok(number as u32)
}

/// Seats the strands of a split.
fn add_places<A: Allocator>(
    places: &mut Vec<u32, A>,
    child: u32,
    spawner: u32,
    first: bool,
) -> Result<(), AllocError>
    ensures { OnOk result (places.new.items ≡ places.old.items ++ new_places first child spawner) }
{
    places.push(child)?;
    places.push(spawner)?;
    if first {
        places.push(spawner)?;
    }
    Ok(())
}

/// Goes on with the frame of this number by an entry, and gives the function that it spawns. The slot is another's where the frame has
/// ended.
fn advance_slot<A: Allocator, B: Allocator>(
    slot: &mut Slot<A>,
    number: usize,
    program: &Program<B>,
    entry: Entry,
) -> Result<Option<Target>, Misfit>
    requires stands { slot.old.number ≡ number → Stands program.now.functions slot.old.frame }
    ensures ok { IfOk result (λ target.
        (slot.old.number ≡ number) × (slot.new.number ≡ number) × IsTurn program.now.functions entry target slot.old.frame slot.new.frame) }
    ensures strange { result ≡ Err Misfit.Strange →
        (slot.old.number ≢ number) ⊎ ((slot.old.number ≡ number) × HasNoTurn program.now.functions entry slot.old.frame) }
{
    if slot.number != number {
        return Err(Misfit::Strange);
    }
    advance_frame(&mut slot.frame, program, entry)
}

/// The index of the element that the frame of this number reads or writes next, where it is not below the length of the array. The slot is
/// another's where the frame has ended.
fn slot_wrap<A: Allocator, B: Allocator>(
    slot: &Slot<A>,
    number: usize,
    program: &Program<B>,
) -> Option<u64>
    requires stands { slot.now.number ≡ number → Stands program.now.functions slot.now.frame }
    ensures own { slot.now.number ≡ number → (function argument : ℕ) (history : List Exchange) →
        IsAfter program.now.functions function argument history slot.now.frame → (index : ℕ) →
        (result ≡ Some index) ↔ Wraps program.now.functions function argument history index }
    ensures lost { slot.now.number ≢ number → result ≡ None }
{
    if number != slot.number {
        return None;
    }
    slot.frame.next_wrap(program)
}

impl<A: Allocator + Copy> FrameTable<A> {
    /// The root function before its first request.
    pub fn open<B: Allocator>(alloc: A, program: &Program<B>) -> Result<FrameTable<A>, AllocError>
        ensures { IfOk result (λ table.
            OpensIn program.now.functions (shape_in program.now) (opening (shape_in program.now) most_entries)
            table.slots.items table.homes.items table.places.items) }
    {
        let frame = Frame::new(alloc, program, program.main(), 0);
        let slots = list_of_one(alloc, Slot { number: 0, frame })?;
        let homes = list_of_one(alloc, 0)?;
        let places = list_of_one(alloc, 0)?;
        Ok(FrameTable {
            alloc,
            slots,
            homes,
            places,
            free: Vec::new(alloc),
        })
    }

    /// Asks for room for so many more spawns, where they are many. It is a hint, which changes nothing that is seen.
    pub fn make_room(&mut self, spawns: usize)
        ensures slots { self.new.slots ≡ self.old.slots }
        ensures homes { self.new.homes.items ≡ self.old.homes.items }
        ensures places { self.new.places.items ≡ self.old.places.items }
    {
        if spawns >= MANY_SPAWNS {
            let _homes = self.homes.reserve(spawns);
            let _places = self.places.reserve(spawns.saturating_mul(3));
        }
    }

    /// A slot whose frame has ended, if one is known.
    fn take_free_slot(&mut self) -> Option<usize>
        ensures ended { IfSome result (λ home.
            (slot : Slot A) × (slice_get self.old.slots.items home ≡ Some slot) × (slot.frame.phase ≡ Phase.Over)) }
        ensures rest { (self.new.slots ≡ self.old.slots) × (self.new.homes ≡ self.old.homes)
            × (self.new.places ≡ self.old.places) }
    {
        let home = self.free.pop()?;
        match self.slots.get(home) {
            Some(slot) => {
                if slot.frame.is_over() {
                    Some(home)
                } else {
                    None
                }
            }
            None => None,
        }
    }

    /// Gives a frame that begins a slot, one whose frame has ended or a new one.
    fn place_frame<B: Allocator>(
        &mut self,
        program: &Program<B>,
        number: usize,
        target: Target,
    ) -> Result<usize, AllocError>
        requires there { target.function < length program.now.functions }
        ensures frames { IfOk result (λ home.
            (frames : List FrameState) → (length frames ≡ number) → AreHeld self.old.slots.items self.old.homes.items frames →
            (next : List FrameState) × AreHeld self.new.slots.items (self.old.homes.items ++ home ∷ []) next
            × IsBegun program.now.functions target frames next) }
        ensures rest { OnOk result ((self.new.homes ≡ self.old.homes)
            × (self.new.places ≡ self.old.places)) }
    {
        match self.take_free_slot() {
            Some(home) => {
                let slot = &mut self.slots[home];
                slot.frame
                    .restart(program, target.function, target.argument);
                slot.number = number;
                Ok(home)
            }
            None => {
                let home = self.slots.len();
                let frame = Frame::new(self.alloc, program, target.function, target.argument);
                self.slots.push(Slot { number, frame })?;
                Ok(home)
            }
        }
    }

    /// Begins a spawned function: its child and, in the spawner's frame, the next strand and where the block begins its join.
    fn begin<B: Allocator>(
        &mut self,
        program: &Program<B>,
        place: u32,
        target: Target,
        first: bool,
    ) -> Result<(), AllocError>
        requires there { target.function < length program.now.functions }
        ensures frames { OnOk result ((frames : List FrameState) → AreHeld self.old.slots.items self.old.homes.items frames →
            (next : List FrameState) × AreHeld self.new.slots.items self.new.homes.items next
            × IsBegun program.now.functions target frames next) }
        ensures places { OnOk result
            (self.new.places.items ≡ self.old.places.items ++ new_places first (length self.old.homes.items) place) }
    {
        let child = self.homes.len();
        let home = self.place_frame(program, child, target)?;
        self.homes.push(to_u32(home)?)?;
        add_places(&mut self.places, to_u32(child)?, place, first)
    }

    /// Keeps a slot for another frame where its frame has ended by this answer.
    fn vacate(&mut self, home: usize, answer: Answer) -> Result<(), Misfit>
        ensures rest { (self.new.slots ≡ self.old.slots) × (self.new.homes ≡ self.old.homes)
            × (self.new.places ≡ self.old.places) }
        ensures err { IfErr result (λ fault. fault ≡ Misfit.Memory) }
    {
        match answer {
            Answer::Ended | Answer::EndedJoined(_) => match self.free.push(home) {
                Ok(()) => Ok(()),
                Err(_) => Err(Misfit::Memory),
            },
            _ => Ok(()),
        }
    }

    /// The number of the frame in which the strand of an entry stands, and its slot. None where no strand has this number.
    #[inline(always)]
    fn find_slot(&self, entry: Entry) -> Option<(u32, u32)>
        requires plays { (functions : List Code) × (shape : Shape) × (state : GateState) ×
            PlaysIn functions shape state self.now.slots.items self.now.homes.items self.now.places.items }
        ensures { MatchOption result (slice_get self.now.places.items entry.request.strand ≡ None) (λ found.
            (slice_get self.now.places.items entry.request.strand ≡ Some found.0) × (slice_get self.now.homes.items found.0 ≡ Some found.1)
            × (found.1 < length self.now.slots.items)) }
    {
        let place = *self.places.get(entry.request.strand as usize)?;
        Some((place, self.homes[place as usize]))
    }

    /// The index of the element that an entry reads or writes, where it is not below the length of the array, by the frame that asks it.
    pub fn next_wrap<B: Allocator>(&self, program: &Program<B>, entry: Entry) -> Option<u64>
        requires plays { (state : GateState) × PlaysIn program.now.functions (shape_in program.now) state
            self.now.slots.items self.now.homes.items self.now.places.items }
        ensures { (state next : GateState) → PlaysIn program.now.functions (shape_in program.now) state
            self.now.slots.items self.now.homes.items self.now.places.items → IsEntered entry state next → (index : ℕ) →
            (result ≡ Some index) ↔ EntryWraps program.now.functions (shape_in program.now) state.history entry index }
    {
        let (place, home) = self.find_slot(entry)?;
        slot_wrap(&self.slots[home as usize], place as usize, program)
    }

    /// Plays an entry, which some gate has entered: its frame asks, and is answered.
    pub fn play<B: Allocator>(&mut self, program: &Program<B>, entry: Entry) -> Result<(), Misfit>
        requires plays { (state : GateState) × PlaysIn program.now.functions (shape_in program.now) state
            self.old.slots.items self.old.homes.items self.old.places.items }
        ensures ok { (state next : GateState) → PlaysIn program.now.functions (shape_in program.now) state
            self.old.slots.items self.old.homes.items self.old.places.items → IsEntered entry state next →
            OnOk result (PlaysIn program.now.functions (shape_in program.now) next
            self.new.slots.items self.new.homes.items self.new.places.items) }
        ensures strange { (state : GateState) → PlaysIn program.now.functions (shape_in program.now) state
            self.old.slots.items self.old.homes.items self.old.places.items →
            result ≡ Err Misfit.Strange → IsMisfit program.now.functions (shape_in program.now) entry state }
    {
        let Some((place, home)) = self.find_slot(entry) else {
            return Err(Misfit::Strange);
        };
        let target = advance_slot(
            &mut self.slots[home as usize],
            place as usize,
            program,
            entry,
        )?;
        match (target, entry.answer) {
            (Some(target), Answer::Split(strands)) => {
                match self.begin(program, place, target, strands.first) {
                    Ok(()) => Ok(()),
                    Err(_) => Err(Misfit::Memory),
                }
            }
            _ => self.vacate(home as usize, entry.answer),
        }
    }
}
