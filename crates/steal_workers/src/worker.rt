//! A worker.

ghost use Rattle.std.specs.Prelude.{◌≡◌, ◌+◌, ◌<◌, [], ◌∷◌, ◌++◌, Err, IfErr, IfOk};
ghost use Rattle.std.specs.Prelude.{IfSome, MatchOption, OnOk, length, vec_len};
ghost use Rattle.locked_replay.specs.declared.fault.RunFault.{RunFault};
ghost use Rattle.steal_workers.specs.PassLogs.{pushing};
ghost use Rattle.steal_workers.specs.Goings.{GoesOn, HandsOut, IsAtJoin};

use crate::fault::lot_fault_of;
use crate::lot::{DOZE, Lot};
use crate::pass_log::Owner;
use crate::steal_handle::StealHandle;
use crate::task::{NextRequest, Spare, Task};
use crate::worker_deques::WorkerDeques;
use crossbeam_utils::Backoff;
use frame_steps::Target;
use locked_replay::{Ask, RunFault, Seat, WorkerLog};
use packed_history::Receipts;
use program_text::Program;
use race_gate::Answer;
use std::alloc::{AllocError, Allocator, Global};
use std::sync::Wait;
use std::sync::ledger::Ledger;
use text_words::Request;

/// Where a worker goes on after an answer.
enum NextStep {
    /// With the task that it has.
    Ahead,
    /// With another: the task waits for this join.
    Parks(u32),
    /// With the task that waits for this join, if it has come: the one that it has ended last of the join's children.
    Wakes(u32),
    /// With another: the task has ended.
    Ends,
}

/// Hands out a task that does not go ahead. What comes out goes on in its place, and the frame of a task that has ended is kept in reserve.
fn hand_out<'p, A: Allocator, R: Wait>(
    rt: &R,
    lot: &Lot<'p, A>,
    going: NextStep,
    task: Task<'p, A>,
    spare: &mut Spare<A>,
) -> Result<Option<Task<'p, A>>, RunFault>
    ensures handed { HandsOut going task.entry result }
    ensures torn { result ≡ Err RunFault.Torn → IsAtJoin going }
{
    match going {
        NextStep::Ahead => Ok(Some(task)),
        NextStep::Parks(join) => lot.park(rt, join, task).map_err(lot_fault_of),
        NextStep::Wakes(join) => {
            task.retire(spare);
            lot.wake(rt, join).map_err(lot_fault_of)
        }
        NextStep::Ends => {
            task.retire(spare);
            Ok(None)
        }
    }
}

/// A worker: what was asked on its seat before it began, what it was told since, its ends of the deques, and frames to be used again.
pub struct Worker<'p, L: Ledger, A: Allocator = Global> {
    pub(crate) before: u64,
    seat: Seat<L>,
    pub(crate) receipts: Receipts<A>,
    pub(crate) ends: WorkerDeques<'p, A>,
    spare: Spare<A>,
    /// The fault that it met, once it has run.
    pub fault: Option<RunFault>,
    ghost counted: { seat.asked ≡ before + length receipts.items },
}

impl<'p, L: Ledger, A: Allocator> Drop for Worker<'p, L, A> {
    fn drop(self) {
        let Worker {
            before: _,
            seat: _,
            receipts: _,
            ends: _,
            spare: _,
            fault: _,
        } = self;
    }
}

impl<'p, L: Ledger, A: Allocator + Copy> Worker<'p, L, A> {
    ghost use Rattle.locked_replay.specs.Asking.{KeepsReceipt};
    ghost use Rattle.steal_workers.specs.StealHandles.{own_view};
    ghost use Rattle.steal_workers.specs.Workers.{station_of, AsksFor, MeetsJoin, EndsAtJoin, TornAtJoin, child_of};

    /// A worker on this seat, with these ends, which has done nothing yet.
    pub fn new(alloc: A, seat: Seat<L>, ends: WorkerDeques<'p, A>) -> Worker<'p, L, A>
        ensures before { result.before ≡ seat.asked }
        ensures ends { result.ends ≡ ends.entry }
    {
        Worker {
            before: seat.asked(),
            seat,
            receipts: Receipts::new(alloc),
            ends,
            spare: Vec::new(alloc),
            fault: None,
        }
    }

    /// The task of the program's begin becomes one of this worker's deque.
    pub fn begin(&mut self, program: &'p Program<Global>) -> Result<(), AllocError>
        ensures station { station_of self.new ≡ station_of self.old }
        ensures ok { OnOk result (own_view self.new.ends ≡ pushing 0 (own_view self.old.ends)) }
    {
        let root = Task::root(program, &mut self.spare)?;
        self.ends.push(root)
    }

    /// Asks what a task asks next, and goes on with it in place as far as the answer says so. Whoever is told to hand it out does that.
    fn step<G: Ask<L>, R: Wait>(
        &mut self,
        rt: &R,
        gate: &G,
        lot: &Lot<'p, A>,
        task: &mut Task<'p, A>,
    ) -> Result<NextStep, RunFault>
        ensures station { station_of self.new ≡ station_of self.old }
        ensures asks { OnOk result (AsksFor task.old self.old.receipts.items self.new.receipts.items) }
        ensures joins { IfOk result (λ going. IsAtJoin going → EndsAtJoin self.new.receipts.items) }
        ensures torn { result ≡ Err RunFault.Torn → EndsAtJoin self.new.receipts.items }
    {
        let next = task.next_request()?;
        let answer = self.seat.ask(rt, gate, &mut self.receipts, next.request)?;
        task.answer(&answer)?;
        self.follow(rt, lot, task, answer, next)
    }

    /// Where the worker goes on after an answer that the frame took, and on which strand.
    fn follow<R: Wait>(
        &mut self,
        rt: &R,
        lot: &Lot<'p, A>,
        task: &mut Task<'p, A>,
        answer: Answer,
        asked: NextRequest,
    ) -> Result<NextStep, RunFault>
        requires { IfSome asked.target (λ t. t.function < length task.old.program.now.functions) }
        ensures station { station_of self.new ≡ station_of self.old }
        ensures pushed { OnOk result ((own_view self.new.ends).pushed ≡ (own_view self.old.ends).pushed ++ child_of answer) }
        ensures receipts { self.new.receipts ≡ self.old.receipts }
        ensures goes_on { GoesOn answer asked.join task.old.strand task.new.strand result }
        ensures joins { IfOk result (λ going. IsAtJoin going → MeetsJoin answer) }
        ensures torn { result ≡ Err RunFault.Torn → ⊥ }
    {
        match answer {
            Answer::Split(strands) => {
                self.spawn(task.program, strands.child, asked.target)?;
                task.strand = strands.next;
                Ok(NextStep::Ahead)
            }
            Answer::Joined(join) => {
                task.strand = join;
                Ok(NextStep::Ahead)
            }
            Answer::Waits => match asked.join {
                Some(join) => Ok(NextStep::Parks(join)),
                None => Err(RunFault::Strange),
            },
            Answer::Ended => Ok(NextStep::Ends),
            Answer::EndedJoined(join) => Ok(NextStep::Wakes(join)),
            Answer::Finished => {
                lot.close(rt);
                Ok(NextStep::Ends)
            }
            Answer::Same
            | Answer::Resumed
            | Answer::Granted
            | Answer::Value(_)
            | Answer::Refused { .. }
            | Answer::Unset => Ok(NextStep::Ahead),
        }
    }

    /// The child's frame becomes a task of this worker's deque.
    fn spawn(
        &mut self,
        program: &'p Program<Global>,
        child: u32,
        target: Option<Target>,
    ) -> Result<(), RunFault>
        requires { IfSome target (λ t. t.function < length program.now.functions) }
        ensures station { station_of self.new ≡ station_of self.old }
        ensures receipts { self.new.receipts ≡ self.old.receipts }
        ensures ok { OnOk result ((own_view self.new.ends).pushed ≡ (own_view self.old.ends).pushed ++ child ∷ []) }
        ensures err { MatchOption target (result ≡ Err RunFault.Strange) (λ _. IfErr result (λ fault. fault ≡ RunFault.Memory)) }
    {
        match target {
            Some(target) => {
                let task = Task::for_child(program, child, target, &mut self.spare)?;
                self.ends.push(task)?;
                Ok(())
            }
            None => Err(RunFault::Strange),
        }
    }

    /// Goes on with a task, and with those that the lot gives in its place, until there is none.
    fn walk<G: Ask<L>, R: Wait>(
        &mut self,
        rt: &R,
        gate: &G,
        lot: &Lot<'p, A>,
        mut task: Task<'p, A>,
    ) -> Result<(), RunFault>
        ensures station { station_of self.new ≡ station_of self.old }
        ensures torn { result ≡ Err RunFault.Torn → EndsAtJoin self.new.receipts.items }
    {
        for _ in rt.forever() {
            match self.step(rt, gate, lot, &mut task)? {
                NextStep::Ahead => {}
                going => match hand_out(rt, lot, going, task, &mut self.spare)? {
                    Some(next) => task = next,
                    None => return Ok(()),
                },
            }
        }
        Ok(())
    }

    fn work<G: Ask<L>, R: Wait>(
        &mut self,
        rt: &R,
        gate: &G,
        lot: &Lot<'p, A>,
    ) -> Result<(), RunFault>
        ensures station { station_of self.new ≡ station_of self.old }
        ensures torn { result ≡ Err RunFault.Torn → EndsAtJoin self.new.receipts.items }
    {
        let backoff = Backoff::new();
        let mut doze = DOZE;
        for _ in rt.forever() {
            match self.ends.find() {
                Some(task) => {
                    backoff.reset();
                    doze = DOZE;
                    self.walk(rt, gate, lot, task)?;
                }
                None => {
                    if lot.look(rt) {
                        break;
                    }
                    if backoff.is_completed() {
                        doze = lot.sleep(rt, doze);
                    } else {
                        backoff.snooze();
                    }
                }
            }
        }
        Ok(())
    }

    /// Works until the lot is closed. A fault stops the gate and closes the lot.
    pub fn run<G: Ask<L>, R: Wait>(mut self, rt: &R, gate: &G, lot: &Lot<'p, A>) -> Worker<'p, L, A>
        ensures station { station_of result ≡ station_of self.entry }
        ensures torn { TornAtJoin result }
    {
        match self.work(rt, gate, lot) {
            Ok(()) => self.fault = None,
            Err(fault) => {
                gate.stop(rt);
                lot.close(rt);
                self.fault = Some(fault);
            }
        }
        self
    }

    /// What the worker brings back, its own deque, and the reaches into all of them.
    pub(crate) fn into_parts(self) -> (WorkerLog<L, A>, Owner<'p, A>, Vec<StealHandle<'p, A>, A>)
        ensures log { (result.0.seat.asked ≡ self.entry.before + length result.0.receipts.items)
            × (result.0.receipts ≡ self.entry.receipts) }
        ensures owner { result.1 ≡ self.entry.ends.owner }
        ensures reaches { result.2 ≡ self.entry.ends.reaches }
    {
        let Worker {
            before: _,
            seat,
            receipts,
            ends,
            spare: _,
            fault: _,
        } = self;
        let (owner, reaches) = ends.into_parts();
        (WorkerLog { seat, receipts }, owner, reaches)
    }
}
