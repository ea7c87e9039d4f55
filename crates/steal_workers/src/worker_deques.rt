//! A worker's ends of the deques.

ghost use Rattle.std.specs.Prelude.{◌≡◌, [], All, IfOk, OnErr, OnOk, map, vec_len};
ghost use Rattle.std.specs.List.{range_with_len};
ghost use Rattle.steal_workers.specs.PassLogs.{pass_log, pushing};
ghost use Rattle.steal_workers.specs.StealHandles.{own_deque, own_view, deque_of, deques_of, views_of};
ghost use Rattle.steal_workers.specs.StealHandles.{hands_of, places_of, AllLeadTo, SameEnds, TakesFrom};

use crate::pass_log::{Owner, Pushed, Taken};
use crate::steal_handle::StealHandle;
use crate::task::Task;
use std::alloc::{AllocError, Allocator, Global};

/// How many tasks a deque holds before it grows.
const ROOM: usize = 64;

/// What a worker has of the deques.
pub struct WorkerDeques<'p, A: Allocator = Global> {
    /// Its place among the workers.
    pub(crate) place: usize,
    /// Its own deque.
    pub(crate) owner: Owner<'p, A>,
    /// A reach into each worker's deque, by their places.
    pub(crate) reaches: Vec<StealHandle<'p, A>, A>,
}

impl<'p, A: Allocator> Drop for WorkerDeques<'p, A> {
    fn drop(self) {
        let WorkerDeques {
            place: _,
            owner: _,
            reaches: _,
        } = self;
    }
}

impl<'p, A: Allocator> WorkerDeques<'p, A> {
    /// The task becomes the newest of its own deque.
    pub(crate) fn push(&mut self, task: Task<'p, A>) -> Result<(), AllocError>
        ensures same { SameEnds self.old self.new }
        ensures ok { OnOk result (own_view self.new ≡ pushing task.entry.strand (own_view self.old)) }
        ensures err { OnErr result (own_view self.new ≡ own_view self.old) }
    {
        match self.owner.push_as::<Pushed>(task) {
            Ok(()) => Ok(()),
            Err(_refused) => Err(AllocError),
        }
    }

    /// The newest task of its own deque, or the oldest of another's.
    pub(crate) fn find(&mut self) -> Option<Task<'p, A>>
        ensures same { SameEnds self.old self.new }
        ensures pushed { (own_view self.new).pushed ≡ (own_view self.old).pushed }
        ensures takes { TakesFrom (hands_of self.old) (hands_of self.new) result }
    {
        match self.owner.pop_as::<Taken>() {
            Some(task) => Some(task),
            None => steal_round(&mut self.reaches, self.place),
        }
    }

    /// Its own deque, and the reaches into all of them.
    pub(crate) fn into_parts(self) -> (Owner<'p, A>, Vec<StealHandle<'p, A>, A>)
        ensures { (result.0 ≡ self.entry.owner) × (result.1 ≡ self.entry.reaches) }
    {
        let WorkerDeques {
            place: _,
            owner,
            reaches,
        } = self;
        (owner, reaches)
    }
}

/// The oldest task of another's deque. A worker looks first at the deque behind its own and goes round, so that not all look at one.
fn steal_round<'p, A: Allocator>(
    reaches: &mut Vec<StealHandle<'p, A>, A>,
    place: usize,
) -> Option<Task<'p, A>>
    ensures deques { map deque_of reaches.new.items ≡ map deque_of reaches.old.items }
    ensures takes { TakesFrom (views_of reaches.old) (views_of reaches.new) result }
{
    let all = reaches.len();
    let mut at = place;
    for _ in 1..all {
        at = if at < all - 1 { at + 1 } else { 0 };
        if let Some(task) = reaches[at].steal() {
            return Some(task);
        }
    }
    None
}

/// A deque for each worker.
fn make_own_deques<'p, A: Allocator + Copy>(
    alloc: A,
    workers: usize,
) -> Result<Vec<WorkerDeques<'p, A>, A>, AllocError>
    ensures workers { IfOk result (λ ends. vec_len ends ≡ workers) }
    ensures places { IfOk result (λ ends. places_of ends.items ≡ map (λ place. place) (range_with_len 0 workers)) }
    ensures views { IfOk result (λ ends. All (λ v. v ≡ pass_log [] []) (map own_view ends.items)) }
{
    let mut ends = Vec::with_capacity(alloc, workers)?;
    for place in 0..workers {
        ends.push_reserved(WorkerDeques {
            place,
            owner: Owner::lifo_as(alloc, ROOM)?,
            reaches: Vec::new(alloc),
        });
    }
    Ok(ends)
}

/// A reach into each deque.
fn make_steal_handles<'p, A: Allocator>(
    alloc: A,
    ends: &mut Vec<WorkerDeques<'p, A>, A>,
) -> Result<Vec<StealHandle<'p, A>, A>, AllocError>
    ensures workers { vec_len ends.new ≡ vec_len ends.old }
    ensures places { OnOk result (places_of ends.new.items ≡ places_of ends.old.items) }
    ensures deques { OnOk result (map own_deque ends.new.items ≡ map own_deque ends.old.items) }
    ensures views { OnOk result (map own_view ends.new.items ≡ map own_view ends.old.items) }
    ensures reaches { OnOk result (map deques_of ends.new.items ≡ map deques_of ends.old.items) }
    ensures ok { IfOk result (λ reaches. map deque_of reaches.items ≡ map own_deque ends.old.items) }
{
    let mut reaches = Vec::with_capacity(alloc, ends.len())?;
    for place in 0..ends.len() {
        reaches.push_reserved(StealHandle::new(&mut ends[place].owner)?);
    }
    Ok(reaches)
}

/// A deque for each worker, and for each a reach into all of them.
pub fn make_worker_deques<'p, A: Allocator + Copy>(
    alloc: A,
    workers: usize,
) -> Result<Vec<WorkerDeques<'p, A>, A>, AllocError>
    ensures workers { IfOk result (λ ends. vec_len ends ≡ workers) }
    ensures places { IfOk result (λ ends. places_of ends.items ≡ map (λ place. place) (range_with_len 0 workers)) }
    ensures lead { IfOk result (λ ends. AllLeadTo (map own_deque ends.items) (map deques_of ends.items)) }
    ensures views { IfOk result (λ ends. All (λ v. v ≡ pass_log [] []) (map own_view ends.items)) }
{
    let mut ends = make_own_deques(alloc, workers)?;
    for place in 0..workers {
        let reaches = make_steal_handles(alloc, &mut ends)?;
        ends[place].reaches = reaches;
    }
    Ok(ends)
}
