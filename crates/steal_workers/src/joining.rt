//! What workers bring back, and the end of their deques.

ghost use Rattle.std.specs.Prelude.{◌≡◌, ◌+◌, ℕ, [], None, map, OnOk};
ghost use Rattle.crossbeam_deque.specs.Handles.{worker_deque, worker_view};
ghost use Rattle.steal_workers.specs.StealHandles.{deque_of, views_of, joined_each, joined_all, AllLeadTo};
ghost use Rattle.steal_workers.specs.Collecting.{HasRoom, Brings, Adds, AreSame, owned, led_to, settled};

use crate::fault::first_of;
use crate::pass_log::Owner;
use crate::steal_handle::StealHandle;
use crate::worker::Worker;
use locked_replay::{RunFault, WorkerLog, finished_logs};
use std::alloc::{AllocError, Allocator, Global};
use std::sync::ledger::Ledger;

/// What workers have brought back: their logs, the ends of their deques, and the first of their faults.
pub struct Collection<'p, L: Ledger, A: Allocator = Global> {
    logs: Vec<WorkerLog<L, A>, A>,
    owners: Vec<Owner<'p, A>, A>,
    passes: Vec<Vec<StealHandle<'p, A>, A>, A>,
    pub(crate) fault: Option<RunFault>,
}

impl<'p, L: Ledger, A: Allocator> Drop for Collection<'p, L, A> {
    fn drop(self) {
        let Collection {
            logs: _,
            owners: _,
            passes: _,
            fault: _,
        } = self;
    }
}

impl<'p, L: Ledger, A: Allocator + Copy> Collection<'p, L, A> {
    /// What no worker has brought anything to yet.
    pub fn new(alloc: A) -> Collection<'p, L, A>
        ensures { Brings None [] result }
    {
        Collection {
            logs: Vec::new(alloc),
            owners: Vec::new(alloc),
            passes: Vec::new(alloc),
            fault: None,
        }
    }

    /// Makes room for so many workers more, so that [`Collection::add`] takes no memory.
    pub fn reserve(&mut self, workers: usize) -> Result<(), AllocError>
        ensures same { AreSame self.old self.new }
        ensures room { OnOk result (HasRoom workers self.new) }
    {
        self.logs.reserve(workers)?;
        self.owners.reserve(workers)?;
        self.passes.reserve(workers)
    }

    /// Adds what one more worker brings back.
    pub fn add(&mut self, worker: Worker<'p, L, A>)
        requires room { HasRoom 1 self.old }
        ensures room { (more : ℕ) → HasRoom (more + 1) self.old → HasRoom more self.new }
        ensures adds { Adds worker.entry self.old self.new }
    {
        self.fault = first_of(self.fault, worker.fault);
        let (log, owner, passes) = worker.into_parts();
        self.logs.push_reserved(log);
        self.owners.push_reserved(owner);
        self.passes.push_reserved(passes);
    }

    /// What a run answers by what its workers brought back: the first of their faults, where one was met, and otherwise their logs, where
    /// one of them saw the run's end. Then all passes of each deque go back to its owner, which knows all that was pushed there and taken.
    pub fn settle(self) -> Result<Vec<WorkerLog<L, A>, A>, RunFault>
        requires { self.fault ≡ None → AllLeadTo (owned self) (led_to self) }
        ensures { result ≡ settled self.entry.fault self.entry.logs }
    {
        if let Some(fault) = self.fault {
            return Err(fault);
        }
        let Collection {
            logs,
            mut owners,
            passes,
            fault: _,
        } = self;
        join_all(&mut owners, passes);
        finished_logs(logs)
    }
}

/// All passes go back to the owners of their deques.
fn join_all<'p, A: Allocator>(
    owners: &mut Vec<Owner<'p, A>, A>,
    passes: Vec<Vec<StealHandle<'p, A>, A>, A>,
)
    requires { AllLeadTo (map worker_deque owners.old.items) (map (λ reaches. map deque_of reaches.items) passes.items) }
    ensures { map worker_view owners.new.items ≡ joined_all (map worker_view owners.old.items) (map views_of passes.entry.items) }
{
    for reaches in passes {
        join_each(owners, reaches);
    }
}

/// A worker's passes go back to the owners of their deques, the last first.
fn join_each<'p, A: Allocator>(
    owners: &mut Vec<Owner<'p, A>, A>,
    mut reaches: Vec<StealHandle<'p, A>, A>,
)
    requires { map deque_of reaches.items ≡ map worker_deque owners.old.items }
    ensures deques { map worker_deque owners.new.items ≡ map worker_deque owners.old.items }
    ensures views { map worker_view owners.new.items ≡ joined_each (map worker_view owners.old.items) (views_of reaches.entry) }
{
    while let Some(reach) = reaches.pop() {
        reach.give_back(&mut owners[reaches.len()]);
    }
}
