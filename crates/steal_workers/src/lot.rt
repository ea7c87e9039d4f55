//! Where tasks wait for their joins.

ghost use Rattle.std.specs.Prelude.{◌≡◌, ◌≢◌, ◌<◌, ℕ, get_or, length, IfOk, IfSome, IsOk, OnOk, is_some};
ghost use Rattle.slab.specs.Slab.{get};
ghost use Rattle.steal_workers.specs.Places.{Parks, Wakes, place_at, task_in, OthersStay};
ghost use Rattle.steal_workers.specs.Tasks.{IsOn};

use crate::task::Task;
use slab::Slab;
use std::alloc::{AllocError, Allocator, Global};
use std::sync::atomic::{AtomicU64, Ordering};
use std::sync::{Mutex, Wait};
use std::time::Duration;
use thiserror::Error;

/// Why a call for a join has no answer.
#[derive(Clone, Copy, PartialEq, Eq, Debug, Error)]
pub enum LotFault {
    /// The same call came for this join before, or both calls did.
    #[error("the same call for a join again")]
    Torn,
    /// There is no memory.
    #[error("out of memory")]
    Memory,
}

/// For how many microseconds a worker dozes that finds nothing to do: at first, and at most.
pub(crate) const DOZE: u64 = 200;

const LONGEST_DOZE: u64 = 3_200;

/// For how many joins more there is a mark at once.
const MORE_MARKS: usize = 1_024;

/// What came for a join.
#[derive(Clone, Copy)]
enum Mark {
    /// Nothing.
    Unmet,
    /// A task, which waits in this slot.
    Parked(u32),
    /// The last child's end. The task is still to come.
    Woken,
    /// Both.
    Met,
}

/// A task, and the join for which it waits.
#[derive(Drop)]
struct Waiting<'p, A: Allocator> {
    join: u32,
    task: Task<'p, A>,
}

/// Whether the task of this join waits in this slot.
fn holds<'p, A: Allocator>(waiting: &Slab<Waiting<'p, A>, A>, slot: u32, join: u32) -> bool
    ensures { result ≡ is_some (task_in (get waiting.now slot) join) }
{
    match waiting.get(slot as usize) {
        Some(found) => found.join == join,
        None => false,
    }
}

/// The task of this join, where it waits in this slot.
fn take_waiting<'p, A: Allocator>(
    waiting: &mut Slab<Waiting<'p, A>, A>,
    slot: u32,
    join: u32,
) -> Option<Task<'p, A>>
    ensures task { result ≡ task_in (get waiting.old slot) join }
    ensures others { OthersStay waiting.old waiting.new join }
{
    if !holds(waiting, slot, join) {
        return None;
    }
    match waiting.try_remove(slot as usize) {
        Some(found) => {
            let Waiting { join: _, task } = found;
            Some(task)
        }
        None => None,
    }
}

/// What lies under the lock: a mark for each join up to some, and the tasks that wait.
#[derive(Drop)]
struct JoinTable<'p, A: Allocator> {
    marks: Vec<Mark, A>,
    waiting: Slab<Waiting<'p, A>, A>,
}

impl<'p, A: Allocator> JoinTable<'p, A> {
    /// Sees that there is a mark for this join.
    fn reserve_mark(&mut self, join: u32) -> Result<(), AllocError>
        ensures ok { OnOk result (join < length self.new.marks.items) }
        ensures succeeds { join < length self.old.marks.items → IsOk result }
        ensures marks { (other : ℕ) → get_or self.new.marks.items other Mark.Unmet ≡ get_or self.old.marks.items other Mark.Unmet }
        ensures waiting { self.new.waiting ≡ self.old.waiting }
    {
        if (join as usize) < self.marks.len() {
            return Ok(());
        }
        self.marks.resize(join as usize + MORE_MARKS, Mark::Unmet)
    }

    /// Keeps a task for this join, for which nothing came yet.
    fn keep(&mut self, join: u32, task: Task<'p, A>) -> Result<Option<Task<'p, A>>, LotFault>
        requires reached { join < length self.old.marks.items }
        requires nothing { place_at self.old.marks.items self.old.waiting join ≡ None }
        ensures parks { Parks join task.entry None result (place_at self.new.marks.items self.new.waiting join) }
        ensures others { (other : ℕ) → other ≢ join →
            place_at self.new.marks.items self.new.waiting other ≡ place_at self.old.marks.items self.old.waiting other }
    {
        let slot = self.waiting.vacant_key();
        if slot > 4_294_967_295 || self.waiting.reserve(1).is_err() {
            return Err(LotFault::Memory);
        }
        self.waiting.insert_reserved(Waiting { join, task });
        self.marks[join as usize] = Mark::Parked(slot as u32);
        Ok(None)
    }

    fn park(&mut self, join: u32, task: Task<'p, A>) -> Result<Option<Task<'p, A>>, LotFault>
        ensures parks { Parks join task.entry (place_at self.old.marks.items self.old.waiting join) result
            (place_at self.new.marks.items self.new.waiting join) }
        ensures others { (other : ℕ) → other ≢ join →
            place_at self.new.marks.items self.new.waiting other ≡ place_at self.old.marks.items self.old.waiting other }
    {
        if self.reserve_mark(join).is_err() {
            return Err(LotFault::Memory);
        }
        match self.marks[join as usize] {
            Mark::Woken => {
                self.marks[join as usize] = Mark::Met;
                Ok(Some(task.on(join)))
            }
            Mark::Met => Err(LotFault::Torn),
            Mark::Parked(slot) => {
                if holds(&self.waiting, slot, join) {
                    Err(LotFault::Torn)
                } else {
                    self.keep(join, task)
                }
            }
            Mark::Unmet => self.keep(join, task),
        }
    }

    fn wake(&mut self, join: u32) -> Result<Option<Task<'p, A>>, LotFault>
        ensures wakes { Wakes join (place_at self.old.marks.items self.old.waiting join) result
            (place_at self.new.marks.items self.new.waiting join) }
        ensures others { (other : ℕ) → other ≢ join →
            place_at self.new.marks.items self.new.waiting other ≡ place_at self.old.marks.items self.old.waiting other }
    {
        if self.reserve_mark(join).is_err() {
            return Err(LotFault::Memory);
        }
        match self.marks[join as usize] {
            Mark::Parked(slot) => match take_waiting(&mut self.waiting, slot, join) {
                Some(task) => {
                    self.marks[join as usize] = Mark::Met;
                    Ok(Some(task.on(join)))
                }
                None => {
                    self.marks[join as usize] = Mark::Woken;
                    Ok(None)
                }
            },
            Mark::Unmet => {
                self.marks[join as usize] = Mark::Woken;
                Ok(None)
            }
            Mark::Woken | Mark::Met => Err(LotFault::Torn),
        }
    }
}

/// The tasks that wait for their joins, and whether the run is over. Any thread may call it.
#[derive(Drop)]
pub struct Lot<'p, A: Allocator = Global> {
    places: Mutex<JoinTable<'p, A>>,
    /// 1 once the lot is closed, 0 before.
    closed: AtomicU64,
}

impl<'p, A: Allocator + Copy> Lot<'p, A> {
    /// An empty lot, which is not closed.
    pub fn new(alloc: A) -> Lot<'p, A> {
        Lot {
            places: Mutex::new(JoinTable {
                marks: Vec::new(alloc),
                waiting: Slab::new(alloc),
            }),
            closed: AtomicU64::new(0),
        }
    }
}

impl<'p, A: Allocator> Lot<'p, A> {
    /// A task comes for a join. Where the join was woken before, the task is handed back, with the join as its strand; otherwise it stays.
    /// An `Err` drops it.
    pub fn park<R: Wait>(
        &self,
        rt: &R,
        join: u32,
        task: Task<'p, A>,
    ) -> Result<Option<Task<'p, A>>, LotFault>
        ensures { IfOk result (λ out. IfSome out (IsOn join task.entry)) }
    {
        self.places.lock(rt).park(join, task)
    }

    /// The last child of a join ends. Where the join's task came before, it is handed out, with the join as its strand.
    pub fn wake<R: Wait>(&self, rt: &R, join: u32) -> Result<Option<Task<'p, A>>, LotFault>
        ensures { IfOk result (λ out. IfSome out (λ t. t.strand ≡ join)) }
    {
        self.places.lock(rt).wake(join)
    }

    /// Closes the lot: the run is over. Whoever dozes wakes.
    pub fn close<R: Wait>(&self, _rt: &R) {
        self.closed.store(1, Ordering::SeqCst);
        self.closed.wake_all();
    }

    /// Whether the lot is closed.
    pub fn look<R: Wait>(&self, _rt: &R) -> bool {
        self.closed.load(Ordering::SeqCst) != 0
    }

    /// Sleeps for so many microseconds, or until the lot is closed, and answers for how many it is to be the next time. It may come back
    /// at once.
    pub(crate) fn sleep<R: Wait>(&self, rt: &R, doze: u64) -> u64 {
        self.closed.park_timeout(rt, 0, Duration::from_micros(doze));
        doze.saturating_mul(2).min(LONGEST_DOZE)
    }
}
