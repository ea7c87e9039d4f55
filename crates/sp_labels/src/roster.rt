//! The strands of one spawn-sync program.

ghost use Rattle.std.specs.Prelude.{◌≡◌, ◌≢◌, ◌⊎◌, ◌↔◌, ◌+◌, ◌<◌, ◌≤◌, ℕ, [], ◌∷◌, true, false, length};
ghost use Rattle.std.specs.Prelude.{IsTrue, IfOk, IfErr, OnOk, OnErr, IsErrOf, IsOk};
ghost use Rattle.slab.specs.Slab.{HasRoomFor};
ghost use Rattle.model_strands.specs.History.{History, call};
ghost use Rattle.model_strands.specs.Strands.{Running, Begun};
ghost use Rattle.model_strands.specs.Blocks.{IsSynced, Stack, spawned, block, stack};
ghost use Rattle.model_strands.specs.Dag.{Reaches, IsParallel};
ghost use Rattle.law_strands.specs.Addresses.{IsEnglishBefore, IsHebrewBefore};
ghost use Rattle.order_list.specs.Order.{most_items};
ghost use Rattle.sp_labels.specs.Roster.{most_callers, Follows, HasBegun, HasFewLeft, event_of_spawn, event_of_sync, event_of_return};

use crate::answer::{Returned, SpFault, Synced};
use crate::record::{PackedRecord, Record, Scope, Standing, push, put, record_of, set_standing};
use model_strands::Spawned;
use order_list::{MOST_ITEMS, OrderFault, OrderList};
use slab::Slab;
use std::alloc::{AllocError, Allocator};
use std::marker::Model;

/// No order holds more strands.
const MOST_STRANDS: usize = 3_000_001;

/// How many calls may be open at once, so that 32 bits tell one from another. No memory holds as many.
const MOST_CALLERS: usize = 4_294_967_296;

/// How many places of an order are reserved at once, so that most events find theirs.
const AHEAD: u32 = 96;

/// Reserves places for three more strands, and where there are numbers left for many, theirs too.
#[inline(always)]
fn reserve_three<A: Allocator>(order: &mut OrderList<A>) -> Result<(), SpFault>
    ensures items { order.new.items ≡ order.old.items }
    ensures ok { OnOk result (3 ≤ order.new.reserved) }
    ensures causes { IfErr result (λ fault. (fault ≡ SpFault.Full) ⊎ (fault ≡ SpFault.Memory)) }
    ensures full { IsErrOf result SpFault.Full ↔ (most_items < length order.old.items + 3) }
{
    let left = MOST_ITEMS - order.len() as u32;
    if order.reserved() >= 3 {
        return Ok(());
    }
    match order.reserve(if left < AHEAD { 3 } else { AHEAD }) {
        Ok(()) => Ok(()),
        Err(OrderFault::Full) => Err(SpFault::Full),
        Err(OrderFault::Memory) => Err(SpFault::Memory),
    }
}

/// Makes room for one more caller, whose key has 32 bits.
fn reserve_caller<A: Allocator>(callers: &mut Slab<Scope, A>) -> Result<(), AllocError>
    ensures room { OnOk result (HasRoomFor callers.new 1) }
    ensures few { OnOk result (callers.new.capacity ≤ most_callers) }
    ensures had_room { HasRoomFor callers.old 1 → callers.old.capacity ≤ most_callers → IsOk result × (callers.new ≡ callers.old) }
    ensures kept { callers.new ≡ record callers.old { capacity = callers.new.capacity } }
{
    callers.reserve(1)?;
    if callers.capacity() > MOST_CALLERS {
        return Err(AllocError);
    }
    Ok(())
}

/// The strands of one spawn-sync program.
pub struct Strands<A: Allocator> {
    records: Vec<PackedRecord, A>,
    /// The scope in which each called function was called, until it returns.
    callers: Slab<Scope, A>,
    english: OrderList<A>,
    hebrew: OrderList<A>,
    has_room: bool,
}

/// Written out, so that what lets strands go calls one function.
impl<A: Allocator> Drop for Strands<A> {
    fn drop(self) {
        let Strands {
            records: _,
            callers: _,
            english: _,
            hebrew: _,
            has_room: _,
        } = self;
    }
}

impl<A: Allocator> Model for Strands<A> {
    ghost use Rattle.std.specs.Prelude.{vec_len, vec_capacity};
    ghost use Rattle.slab.specs.Slab.{slab_len};
    ghost use Rattle.sp_labels.specs.Packing.{all_unpacked};
    ghost use Rattle.sp_labels.specs.Roster.{Roster, FollowsSome, IsReady};

    ghost Value = { Roster };

    ghost view = { λ v. record {
      records = all_unpacked v.records.items;
      callers = v.callers.slots;
      english = v.english.items;
      hebrew = v.hebrew.items;
      has_room = v.has_room;
    } };

    ghost invariant = { λ v.
        FollowsSome (record {
          records = all_unpacked v.records.items;
          callers = v.callers.slots;
          english = v.english.items;
          hebrew = v.hebrew.items;
          has_room = v.has_room;
        })
        × IsReady v.has_room (record {
          records = vec_len v.records;
          records_fit = vec_capacity v.records;
          callers = slab_len v.callers;
          callers_fit = v.callers.capacity;
          english = v.english.reserved;
          hebrew = v.hebrew.reserved;
        }) };
}

impl<A: Allocator> Strands<A> {
    /// Strand 0 runs in the root function.
    pub fn new(alloc: A) -> Result<Strands<A>, AllocError>
    where
        A: Clone,
        ensures opening { IfOk result (λ strands. Follows strands []) }
        ensures room { IfOk result (λ strands. strands.has_room ≡ false) }
    {
        let root = PackedRecord::of(Record::running(Scope::Root));
        Ok(Strands {
            records: Vec::from_slice(alloc.clone()?, &[root])?,
            english: OrderList::new(alloc.clone()?)?,
            hebrew: OrderList::new(alloc.clone()?)?,
            callers: Slab::new(alloc),
            has_room: false,
        })
    }

    /// Makes room for one event, so that the next one takes no memory. A refusal changes nothing.
    pub fn reserve_event(&mut self) -> Result<(), SpFault>
        ensures ok { OnOk result (self.new ≡ record self.old { has_room = true }) }
        ensures err { OnErr result (self.new ≡ self.old) }
        ensures causes { IfErr result (λ fault. (fault ≡ SpFault.Full) ⊎ (fault ≡ SpFault.Memory)) }
        ensures full { (history : History) → Follows self.old history →
            IsErrOf result SpFault.Full ↔ (self.old.has_room ≡ false) × HasFewLeft history }
        ensures memory { IsErrOf result SpFault.Memory → self.old.has_room ≡ false }
    {
        if !self.has_room {
            reserve_three(&mut self.english)?;
            reserve_three(&mut self.hebrew)?;
            self.records.reserve(3)?;
            reserve_caller(&mut self.callers)?;
            self.has_room = true;
        }
        Ok(())
    }

    /// Asks for room for so many more strands, so that they need not grow by and by. It is a hint: it changes nothing that is seen, and
    /// where there is no memory they grow as they are made.
    pub fn make_room(&mut self, strands: usize)
        ensures { self.new ≡ self.old }
    {
        // Places are reserved ahead of the strands that take them.
        let strands = strands.min(MOST_STRANDS) + AHEAD as usize;
        let _ = self.records.reserve(strands);
        self.english.make_room(strands as u32);
        self.hebrew.make_room(strands as u32);
    }

    /// Whether there is room for one event.
    pub fn has_room(&self) -> bool
        ensures { result ≡ self.now.has_room }
    {
        self.has_room
    }

    /// Whether `strand` has begun and not ended.
    #[inline(always)]
    pub fn is_running(&self, strand: u32) -> bool
        ensures running { (history : History) → Follows self.now history → IsTrue result ↔ Running history strand }
        ensures begun { IsTrue result → HasBegun self.now strand }
    {
        (strand as usize) < self.records.len()
            && matches!(record_of(&self.records, strand).standing, Standing::Running)
    }

    /// Whether `strand` has begun, and perhaps ended.
    #[inline(always)]
    pub fn is_begun(&self, strand: u32) -> bool
        ensures each { (history : History) → Follows self.now history → IsTrue result ↔ Begun history strand }
        ensures begun { IsTrue result ↔ HasBegun self.now strand }
    {
        (strand as usize) < self.records.len()
            && matches!(
                record_of(&self.records, strand).standing,
                Standing::Running | Standing::Over
            )
    }

    /// Whether the innermost function of a running strand has no open block.
    #[inline(always)]
    pub fn is_synced(&self, strand: u32) -> bool
        requires { (history : History) → Follows self.now history → Running history strand }
        ensures { (history : History) → Follows self.now history → IsTrue result ↔ IsSynced (stack history strand) }
    {
        !matches!(
            record_of(&self.records, strand).scope,
            Scope::Block { join: _ }
        )
    }

    /// `strand` spawns a function: the child runs in it, and next goes on after the spawn.
    pub fn spawn(&mut self, strand: u32) -> Result<Spawned, SpFault>
        ensures ok { IfOk result (λ spawned.
            (history : History) → Follows self.old history → Follows self.new (event_of_spawn strand spawned ∷ history)) }
        ensures room { OnOk result (self.new.has_room ≡ false) }
        ensures err { OnErr result (self.new ≡ self.old) }

        ensures not_running { (history : History) → Follows self.old history →
            IsErrOf result SpFault.NotRunning ↔ (Running history strand → ⊥) }
        ensures not_unsynced { result ≢ Err SpFault.Unsynced }
        ensures full { (history : History) → Follows self.old history →
            IsErrOf result SpFault.Full ↔ Running history strand × (self.old.has_room ≡ false) × HasFewLeft history }
        ensures memory { IsErrOf result SpFault.Memory → self.old.has_room ≡ false }
    {
        if !self.is_running(strand) {
            return Err(SpFault::NotRunning);
        }
        self.reserve_event()?;
        match record_of(&self.records, strand).scope {
            Scope::Block { join } => Ok(self.spawn_in_block(strand, join)),
            _ => Ok(self.spawn_first(strand)),
        }
    }

    /// A spawn that opens a block.
    fn spawn_first(&mut self, strand: u32) -> Spawned
        requires room { self.old.has_room ≡ true }
        requires running { (history : History) → Follows self.old history → Running history strand }
        requires synced { (history : History) → Follows self.old history → IsSynced (stack history strand) }
        ensures spawned { (history : History) → Follows self.old history → Follows self.new (event_of_spawn strand result ∷ history) }
        ensures room { self.new.has_room ≡ false }
    {
        self.has_room = false;
        let child = self.english.insert_three(strand);
        let next = child + 1;
        let join = child + 2;
        self.hebrew.insert_three_swapped(strand);

        let scope = record_of(&self.records, strand).scope;
        set_standing(&mut self.records, strand, Standing::Over);
        push(
            &mut self.records,
            Record::running(Scope::Child { block: join }),
        );
        push(&mut self.records, Record::running(Scope::Block { join }));
        push(
            &mut self.records,
            Record {
                standing: Standing::Reserved,
                scope,
                children_left: 1,
            },
        );
        Spawned {
            child,
            next,
            join,
            first: true,
        }
    }

    /// A later spawn of the block with this join.
    fn spawn_in_block(&mut self, strand: u32, join: u32) -> Spawned
        requires room { self.old.has_room ≡ true }
        requires running { (history : History) → Follows self.old history → Running history strand }
        requires in_block { (history : History) → Follows self.old history → (below : Stack) × (stack history strand ≡ block join below) }
        ensures spawned { (history : History) → Follows self.old history → Follows self.new (event_of_spawn strand result ∷ history) }
        ensures room { self.new.has_room ≡ false }
    {
        self.has_room = false;
        let child = self.english.insert_two(strand);
        let next = child + 1;
        self.hebrew.insert_two_swapped(strand);

        set_standing(&mut self.records, strand, Standing::Over);
        let joining = record_of(&self.records, join);
        put(
            &mut self.records,
            join,
            Record {
                children_left: joining.children_left + 1,
                ..joining
            },
        );
        push(
            &mut self.records,
            Record::running(Scope::Child { block: join }),
        );
        push(&mut self.records, Record::running(Scope::Block { join }));
        Spawned {
            child,
            next,
            join,
            first: false,
        }
    }

    /// `strand` syncs in its innermost function.
    #[inline(always)]
    pub fn sync(&mut self, strand: u32) -> Result<Synced, SpFault>
        ensures ok { IfOk result (λ synced.
            (history : History) → Follows self.old history → Follows self.new (event_of_sync strand synced ∷ history)) }
        ensures room { OnOk result (self.new.has_room ≡ false) }
        ensures err { OnErr result (self.new ≡ self.old) }
        ensures not_running { (history : History) → Follows self.old history →
            IsErrOf result SpFault.NotRunning ↔ (Running history strand → ⊥) }
        ensures causes { IfErr result (λ fault. fault ≡ SpFault.NotRunning) }
    {
        if !self.is_running(strand) {
            return Err(SpFault::NotRunning);
        }
        self.has_room = false;
        match record_of(&self.records, strand).scope {
            Scope::Block { join } => {
                set_standing(&mut self.records, strand, Standing::Over);
                if record_of(&self.records, join).children_left == 0 {
                    set_standing(&mut self.records, join, Standing::Running);
                    Ok(Synced::Joined(join))
                } else {
                    set_standing(&mut self.records, join, Standing::Awaited);
                    Ok(Synced::Waits)
                }
            }
            _ => Ok(Synced::Same),
        }
    }

    /// `strand` calls a function, and goes on in it.
    #[inline(always)]
    pub fn call(&mut self, strand: u32) -> Result<(), SpFault>
        ensures ok { OnOk result ((history : History) → Follows self.old history → Follows self.new (call strand ∷ history)) }
        ensures room { OnOk result (self.new.has_room ≡ false) }
        ensures err { OnErr result (self.new ≡ self.old) }

        ensures not_running { (history : History) → Follows self.old history →
            IsErrOf result SpFault.NotRunning ↔ (Running history strand → ⊥) }
        ensures causes { IfErr result (λ fault. (fault ≡ SpFault.NotRunning) ⊎ (fault ≡ SpFault.Memory)) }
        ensures memory { IsErrOf result SpFault.Memory → self.old.has_room ≡ false }
    {
        if !self.is_running(strand) {
            return Err(SpFault::NotRunning);
        }
        reserve_caller(&mut self.callers)?;
        self.has_room = false;
        let kept = record_of(&self.records, strand);
        let caller = self.callers.insert_reserved(kept.scope) as u32;
        put(
            &mut self.records,
            strand,
            Record {
                scope: Scope::Call { caller },
                ..kept
            },
        );
        Ok(())
    }

    /// The innermost function of `strand` returns.
    #[inline(always)]
    pub fn ret(&mut self, strand: u32) -> Result<Returned, SpFault>
        ensures ok { IfOk result (λ returned.
            (history : History) → Follows self.old history → Follows self.new (event_of_return strand returned ∷ history)) }
        ensures room { OnOk result (self.new.has_room ≡ false) }
        ensures err { OnErr result (self.new ≡ self.old) }

        ensures not_running { (history : History) → Follows self.old history →
            IsErrOf result SpFault.NotRunning ↔ (Running history strand → ⊥) }
        ensures unsynced { (history : History) → Follows self.old history →
            IsErrOf result SpFault.Unsynced ↔ Running history strand × (IsSynced (stack history strand) → ⊥) }
        ensures causes { IfErr result (λ fault. (fault ≡ SpFault.NotRunning) ⊎ (fault ≡ SpFault.Unsynced)) }
    {
        if !self.is_running(strand) {
            return Err(SpFault::NotRunning);
        }
        let kept = record_of(&self.records, strand);
        match kept.scope {
            Scope::Block { join: _ } => Err(SpFault::Unsynced),
            Scope::Call { caller } => {
                self.has_room = false;
                let scope = self.callers.remove(caller as usize);
                put(&mut self.records, strand, Record { scope, ..kept });
                Ok(Returned::Resumed)
            }
            Scope::Root => {
                self.has_room = false;
                set_standing(&mut self.records, strand, Standing::Over);
                Ok(Returned::Finished)
            }
            Scope::Child { block } => Ok(self.end_child(strand, block)),
        }
    }

    /// A spawned function, child of the block with this join, returns.
    fn end_child(&mut self, strand: u32, join: u32) -> Returned
        requires running { (history : History) → Follows self.old history → Running history strand }
        requires child { (history : History) → Follows self.old history → (number : ℕ) × (stack history strand ≡ spawned number join) }
        ensures returned { (history : History) → Follows self.old history → Follows self.new (event_of_return strand result ∷ history) }
        ensures room { self.new.has_room ≡ false }
    {
        self.has_room = false;
        set_standing(&mut self.records, strand, Standing::Over);
        let joining = record_of(&self.records, join);
        let children_left = joining.children_left - 1;
        if children_left == 0 && matches!(joining.standing, Standing::Awaited) {
            put(
                &mut self.records,
                join,
                Record {
                    standing: Standing::Running,
                    children_left,
                    ..joining
                },
            );
            Returned::EndedJoined(join)
        } else {
            put(
                &mut self.records,
                join,
                Record {
                    children_left,
                    ..joining
                },
            );
            Returned::Ended
        }
    }

    /// Whether `a` stands before `b` in the English order, which is the serial order. False for `a = b`.
    pub fn english_before(&self, a: u32, b: u32) -> bool
        requires a_begun { HasBegun self.now a }
        requires b_begun { HasBegun self.now b }
        ensures { (history : History) → Follows self.now history → IsTrue result ↔ IsEnglishBefore history a b }
    {
        self.english.is_before(a, b)
    }

    /// Whether `a` stands before `b` in the Hebrew order, which takes next before child. False for `a = b`.
    pub fn hebrew_before(&self, a: u32, b: u32) -> bool
        requires a_begun { HasBegun self.now a }
        requires b_begun { HasBegun self.now b }
        ensures { (history : History) → Follows self.now history → IsTrue result ↔ IsHebrewBefore history a b }
    {
        self.hebrew.is_before(a, b)
    }

    /// Whether there is a path from `a` to another strand `b`.
    pub fn precedes(&self, a: u32, b: u32) -> bool
        requires a_begun { HasBegun self.now a }
        requires b_begun { HasBegun self.now b }
        ensures { (history : History) → Follows self.now history → IsTrue result ↔ Reaches history a b × (a ≢ b) }
    {
        self.english_before(a, b) && self.hebrew_before(a, b)
    }

    /// Whether there is no path between `a` and `b`, either way.
    pub fn parallel(&self, a: u32, b: u32) -> bool
        requires a_begun { HasBegun self.now a }
        requires b_begun { HasBegun self.now b }
        ensures { (history : History) → Follows self.now history → IsTrue result ↔ IsParallel history a b }
    {
        self.english_before(a, b) != self.hebrew_before(a, b)
    }
}
