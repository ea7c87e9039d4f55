//! Runs of a program by many workers.

ghost use Rattle.std.specs.Prelude.{◌≡◌, ◌+◌, ◌<◌, ◌≤◌, [], true, false, length, map, All, IfOk, OnOk, vec_len, vec_capacity};
ghost use Rattle.std.specs.List.{sum_by};
ghost use Rattle.locked_replay.specs.Logs.{all_receipts, all_asked};
ghost use Rattle.steal_workers.specs.PassLogs.{pass_log};
ghost use Rattle.steal_workers.specs.StealHandles.{own_deque, own_view, deques_of, AllLeadTo};
ghost use Rattle.steal_workers.specs.Workers.{station_of, stations_of, TornAtJoin};
ghost use Rattle.steal_workers.specs.Beginning.{own_hands, HaveRoot, IsReady};
ghost use Rattle.steal_workers.specs.Collecting.{HasRoom, AreSame, Joins, Completes};
ghost use Rattle.steal_workers.specs.Ending.{AreSomeOf, IsAnswered};
ghost use Rattle.locked_replay.specs.Finishing.{some_finished};

use crate::fault::thread_fault_of;
use crate::joining::Collection;
use crate::lot::Lot;
use crate::worker::Worker;
use crate::worker_deques::{WorkerDeques, make_worker_deques};
use locked_replay::{Ask, RunFault, Seat, WorkerLog};
use program_text::Program;
use std::alloc::{AllocError, Allocator, Global};
use std::snapshot::Snapshot;
use std::sync::Wait;
use std::sync::ledger::Ledger;
use std::thread;
use std::thread::{Promise, PromisedHandle, Scope, Threads};

/// A worker as it was before its thread began.
struct IdleWorker<'p, L: Ledger, A: Allocator>(Snapshot<Worker<'p, L, A>>);

impl<'p, L: Ledger, A: Allocator> Drop for IdleWorker<'p, L, A> {
    fn drop(self) {
        let IdleWorker(_) = self;
    }
}

impl<'p, L: Ledger, A: Allocator> Promise<Worker<'p, L, A>> for IdleWorker<'p, L, A> {
    ghost kept_by = { λ hired worker. (station_of worker ≡ station_of hired.0.value) × TornAtJoin worker };
}

/// A worker that runs.
type Running<'p, L, A> = PromisedHandle<Worker<'p, L, A>, IdleWorker<'p, L, A>>;

/// The workers. The last of them has the given seat, and each other one a part of it.
fn hire<'p, L: Ledger, A: Allocator + Copy>(
    alloc: A,
    mut ends: Vec<WorkerDeques<'p, A>, A>,
    mut seat: Seat<L>,
) -> Result<Vec<Worker<'p, L, A>, A>, AllocError>
    requires workers { 0 < vec_len ends }
    requires parts { vec_len ends ≤ seat.parts }
    requires lead { AllLeadTo (map own_deque ends.items) (map deques_of ends.items) }
    requires views { All (λ v. v ≡ pass_log [] []) (map own_view ends.items) }
    ensures workers { IfOk result (λ hired. vec_len hired ≡ vec_len ends.entry) }
    ensures ready { IfOk result (λ hired. IsReady hired.items) }
    ensures before { IfOk result (λ hired. sum_by (λ w. w.before) hired.items ≡ seat.asked) }
{
    let mut hired = Vec::with_capacity(alloc, ends.len())?;
    let Some(last) = ends.pop() else {
        unreachable!()
    };
    hire_each(alloc, ends, &mut seat, &mut hired);
    hired.push_reserved(Worker::new(alloc, seat, last));
    Ok(hired)
}

/// A worker for each of these ends, on a part of the seat. There is room for one more.
fn hire_each<'p, L: Ledger, A: Allocator + Copy>(
    alloc: A,
    ends: Vec<WorkerDeques<'p, A>, A>,
    seat: &mut Seat<L>,
    hired: &mut Vec<Worker<'p, L, A>, A>,
)
    requires parts { vec_len ends < seat.old.parts }
    requires room { vec_len hired.old + vec_len ends < vec_capacity hired.old }
    requires empty { vec_len hired.old ≡ 0 }
    ensures room { vec_len hired.new < vec_capacity hired.new }
    ensures ends { map (λ w. w.ends) hired.new.items ≡ ends.entry.items }
    ensures before { sum_by (λ w. w.before) hired.new.items ≡ 0 }
    ensures asked { seat.new.asked ≡ seat.old.asked }
{
    for it in ends {
        hired.push_reserved(Worker::new(alloc, seat.split(), it));
    }
}

/// Makes room for the threads of the workers and for what they bring back, and gives the first its task, before any of them begins.
fn prepare<'p, L: Ledger, A: Allocator + Copy>(
    program: &'p Program<Global>,
    hired: &mut Vec<Worker<'p, L, A>, A>,
    running: &mut Vec<Running<'p, L, A>, A>,
    back: &mut Collection<'p, L, A>,
) -> Result<(), AllocError>
    requires { IsReady hired.old.items }
    ensures workers { OnOk result (vec_len hired.new ≡ vec_len hired.old) }
    ensures stations { OnOk result (stations_of hired.new.items ≡ stations_of hired.old.items) }
    ensures root { OnOk result (HaveRoot (own_hands hired.new.items)) }
    ensures running { OnOk result ((running.new.items ≡ running.old.items) × (vec_len running.new ≡ vec_len running.old)
        × (vec_len running.new + vec_len hired.old ≤ vec_capacity running.new)) }
    ensures back { OnOk result (AreSame back.old back.new × HasRoom (vec_len hired.old) back.new) }
{
    running.reserve(hired.len())?;
    back.reserve(hired.len())?;
    hired[0].begin(program)
}

/// Starts a thread for each of these workers, and says whether all of them could be started. Where one could not, the run is over.
fn start<
    's,
    'p: 's,
    E,
    L: Ledger + Send + 's,
    A: Allocator + Copy + Send + Sync + 's,
    G: Ask<L> + Sync + 's,
    R: Threads + Wait + Sync + 's,
>(
    rt: &'s R,
    scope: &Scope<'s, E>,
    hired: Vec<Worker<'p, L, A>, A>,
    gate: &'s G,
    lot: &'s Lot<'p, A>,
    running: &mut Vec<Running<'p, L, A>, A>,
) -> bool
    requires room { (running.old.items ≡ []) × (vec_len running.old ≡ 0) × (vec_len hired ≤ vec_capacity running.old) }
    ensures hired { result ≡ true → map (λ h. h.promise.0.value) running.new.items ≡ hired.entry.items }
    ensures some { AreSomeOf (map (λ h. h.promise.0.value) running.new.items) hired.entry.items }
    ensures at_most { vec_len running.new ≤ vec_len hired.entry }
    ensures fewer { result ≡ false → vec_len running.new < vec_len hired.entry }
{
    let mut all = true;
    for worker in hired {
        let before = IdleWorker(Snapshot::of(&worker));
        match scope.spawn_with(before, move || worker.run(rt, gate, lot)) {
            Ok(thread) => running.push_reserved(thread),
            Err(_refused) => {
                gate.stop(rt);
                lot.close(rt);
                all = false;
            }
        }
    }
    all
}

/// What a run answers whose workers work here: the first on this thread, and each other one on a thread that is started and joined.
fn run_workers<
    's,
    'p: 's,
    E,
    L: Ledger + Send + 's,
    A: Allocator + Copy + Send + Sync + 's,
    G: Ask<L> + Sync + 's,
    R: Threads + Wait + Sync + 's,
>(
    rt: &'s R,
    alloc: A,
    scope: &Scope<'s, E>,
    program: &'p Program<Global>,
    mut hired: Vec<Worker<'p, L, A>, A>,
    gate: &'s G,
    lot: &'s Lot<'p, A>,
) -> Result<Vec<WorkerLog<L, A>, A>, RunFault>
    requires { IsReady hired.items }
    ensures { Completes hired.entry.items result }
{
    let mut running = Vec::new(alloc);
    let mut back = Collection::new(alloc);
    prepare(program, &mut hired, &mut running, &mut back)?;
    let first = hired.remove(0);
    back.fault = thread_fault_of(start(rt, scope, hired, gate, lot, &mut running));
    back.add(first.run(rt, gate, lot));
    join_workers(rt, running, &mut back);
    back.settle()
}

/// Waits for the workers on threads, which come back in their order, and collects what they bring.
fn join_workers<'p, L: Ledger, A: Allocator + Copy, R: Threads>(
    rt: &R,
    running: Vec<Running<'p, L, A>, A>,
    back: &mut Collection<'p, L, A>,
)
    requires { HasRoom (vec_len running) back.old }
    ensures { Joins (map (λ h. h.promise.0.value) running.entry.items) back.old back.new }
{
    for thread in running {
        back.add(thread.join(rt));
    }
}

/// What a run by these workers answers. It is apart from [`run`], since no closure gets a proof that captures a reference to a local of its
/// function whose type names the lifetime of another capture.
fn run_in_scope<
    'p,
    L: Ledger + Send,
    A: Allocator + Copy + Send + Sync,
    G: Ask<L> + Sync,
    R: Threads + Wait + Sync,
>(
    rt: &R,
    alloc: A,
    program: &'p Program<Global>,
    hired: Vec<Worker<'p, L, A>, A>,
    gate: &G,
    lot: &Lot<'p, A>,
) -> Result<Vec<WorkerLog<L, A>, A>, RunFault>
    requires { IsReady hired.items }
    ensures { Completes hired.entry.items result }
{
    thread::scope(
        thread::scope_env(),
        rt,
        move |scope| -> Result<Vec<WorkerLog<L, A>, A>, RunFault>
            requires { IsReady hired.items }
            ensures { Completes hired.entry.items result }
        { run_workers(rt, alloc, scope, program, hired, gate, lot) },
    )
}

/// Runs the program by so many workers, which ask the gate on parts of the seat. The first works on the thread of the caller, and each
/// other one on its own. At Ok the run came to its end, and there is one log for each worker, with what it brought back. Otherwise the
/// answer is Limit, Torn, Strange or Memory, the first of these that a worker met, and Stopped where none met another; a thread that can't
/// be started counts as a worker that met Memory. It is Memory too where there is none before a worker begins, and Strange where no worker
/// met a fault and none saw the run's end.
pub fn run<
    L: Ledger + Send + Sync,
    A: Allocator + Copy + Send + Sync,
    G: Ask<L> + Sync,
    R: Threads + Wait + Sync,
>(
    rt: &R,
    alloc: A,
    program: &Program<Global>,
    workers: usize,
    gate: &G,
    seat: Seat<L>,
) -> Result<Vec<WorkerLog<L, A>, A>, RunFault>
    requires workers { (0 < workers) × (workers ≤ 64) }
    requires parts { workers ≤ seat.parts }
    ensures one_each { IfOk result (λ logs. vec_len logs ≡ workers) }
    ensures counted { IfOk result (λ logs. all_asked logs.items ≡ seat.asked + length (all_receipts logs.items)) }
    ensures finished { IfOk result (λ logs. some_finished logs.items ≡ true) }
    ensures answered { IsAnswered workers seat.asked result }
{
    let hired = hire(alloc, make_worker_deques(alloc, workers)?, seat)?;
    let lot = Lot::new(alloc);
    run_in_scope(rt, alloc, program, hired, gate, &lot)
}
