//! The rule of each deque: what all passes pushed is what they took and what the deque holds.

ghost use Rattle.std.specs.Prelude.{◌≡◌, [], ◌++◌};
ghost use Rattle.steal_workers.specs.PassLogs.{pass_log, strands_of, Balanced};

use crate::task::Task;
use crossbeam_deque::protocol::{Join, Outcome, Protocol, Split};
use crossbeam_deque::{Pass, Stealer, Worker};
use std::alloc::Allocator;
use std::collections::LinkedList;

/// The strands that a pass has pushed, and those that it has taken. No value of it is made.
pub struct PassLog {
    /// The strands of the tasks that were pushed.
    pub pushed: LinkedList<u32>,
    /// The strands of the tasks that were taken.
    pub taken: LinkedList<u32>,
}

/// The rule of a deque.
pub struct Lossless;

impl<'p, A: Allocator> Protocol<Task<'p, A>, PassLog> for Lossless {
    ghost holds = { Balanced };

    ghost first = { pass_log [] [] };

    ghost guest = { pass_log [] [] };
}

/// A new pass begins with nothing.
pub struct NewPass;

impl Split<PassLog> for NewPass {
    ghost left = { λ v. v };

    ghost right = { λ v. pass_log [] [] };
}

/// A pass that comes back brings what it did.
pub struct Merged;

impl Join<PassLog> for Merged {
    ghost both = { λ v w. pass_log (v.pushed ++ w.pushed) (v.taken ++ w.taken) };

    ghost spent = { pass_log [] [] };
}

/// Tasks were pushed.
pub struct Pushed;

impl<'p, A: Allocator> Outcome<Task<'p, A>, PassLog> for Pushed {
    ghost then = { λ v xs w. w ≡ pass_log (v.pushed ++ strands_of xs) v.taken };
}

/// Tasks were taken.
pub struct Taken;

impl<'p, A: Allocator> Outcome<Task<'p, A>, PassLog> for Taken {
    ghost then = { λ v xs w. w ≡ pass_log v.pushed (v.taken ++ strands_of xs) };
}

/// A worker's own end of its deque.
pub type Owner<'p, A> = Worker<Task<'p, A>, A, PassLog, Lossless>;

/// The end of a deque at which the others steal.
pub type Thief<'p, A> = Stealer<Task<'p, A>, A, PassLog, Lossless>;

/// What a worker knows of a deque of another's.
pub type DequePass<'p, A> = Pass<Task<'p, A>, PassLog, A>;
