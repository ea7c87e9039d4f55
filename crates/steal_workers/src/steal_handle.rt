//! Stealing.

ghost use Rattle.std.specs.Prelude.{◌≡◌, [], IfOk, MatchOption, OnErr};
ghost use Rattle.crossbeam_deque.specs.Handles.{IsPassOf, stealer_deque, view, worker_deque, worker_view};
ghost use Rattle.steal_workers.specs.PassLogs.{pass_log, joined, taking};

use crate::pass_log::{DequePass, Merged, NewPass, Owner, Taken, Thief};
use crate::task::Task;
use crossbeam_deque::Steal;
use std::alloc::{AllocError, Allocator};

/// The end of a deque at which a worker steals, with its pass of that deque.
pub(crate) struct StealHandle<'p, A: Allocator> {
    thief: Thief<'p, A>,
    hold: DequePass<'p, A>,
    ghost of: { IsPassOf (stealer_deque thief) hold },
}

impl<'p, A: Allocator> Drop for StealHandle<'p, A> {
    fn drop(self) {
        let StealHandle { thief: _, hold: _ } = self;
    }
}

impl<'p, A: Allocator> StealHandle<'p, A> {
    ghost use Rattle.steal_workers.specs.StealHandles.{deque_of, view_of};

    /// A reach into the deque of this owner, which gives a pass for it and keeps what it knows.
    pub(crate) fn new(owner: &mut Owner<'p, A>) -> Result<StealHandle<'p, A>, AllocError>
        ensures owner { (worker_deque owner.new ≡ worker_deque owner.old) × (worker_view owner.new ≡ worker_view owner.old) }
        ensures reach { IfOk result (λ reach. (deque_of reach ≡ worker_deque owner.old) × (view_of reach ≡ pass_log [] [])) }
    {
        let thief = owner.stealer()?;
        let hold = owner.another::<NewPass>();
        Ok(StealHandle { thief, hold })
    }

    /// Takes the first task of the deque. None says nothing of what it holds.
    pub(crate) fn steal(&mut self) -> Option<Task<'p, A>>
        ensures deque { deque_of self.new ≡ deque_of self.old }
        ensures view { MatchOption result
            (view_of self.new ≡ view_of self.old)
            (λ task. view_of self.new ≡ taking task.strand (view_of self.old)) }
    {
        let StealHandle { thief, hold } = self;
        match thief.steal_as::<Taken>(hold) {
            Steal::Success(task) => Some(task),
            Steal::Empty | Steal::Retry => None,
        }
    }

    /// The pass goes back to the deque's owner, which then knows what it did too.
    pub(crate) fn give_back(self, owner: &mut Owner<'p, A>)
        requires { deque_of self ≡ worker_deque owner.old }
        ensures deque { worker_deque owner.new ≡ worker_deque owner.old }
        ensures view { worker_view owner.new ≡ joined (worker_view owner.old) (view_of self.entry) }
    {
        let StealHandle { thief: _, hold } = self;
        owner.absorb::<Merged>(hold);
    }
}
