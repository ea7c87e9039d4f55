//! Tasks.

ghost use Rattle.std.specs.Prelude.{◌≡◌, ◌≢◌, ◌<◌, ℕ, List, [], length, IfErr, IfOk, IfSome};
ghost use Rattle.std.proofs.Props.{props};
ghost use Rattle.frame_steps.specs.Frames.{IsAfter, CanFollow, Stands};
ghost use Rattle.locked_replay.specs.declared.fault.RunFault.{RunFault};
ghost use Rattle.model_programs.specs.Exchanges.{Exchange};
ghost use Rattle.steal_workers.specs.Standing.{stands_once};

use crate::fault::frame_fault_of;
use frame_steps::{Frame, Target};
use locked_replay::RunFault;
use program_text::Program;
use race_gate::Answer;
use std::alloc::{AllocError, Allocator, Global};
use text_words::{Act, Request};

/// Frames of tasks that have ended, to be used again.
pub(crate) type Spare<A> = Vec<Box<Frame<A>, A>, A>;

/// How many frames a worker keeps to be used again.
const MOST_SPARE: usize = 256;

/// A frame of a program, and the strand on which it goes on. The frame is boxed, since a task goes from deques to workers and to the lot.
pub struct Task<'p, A: Allocator = Global> {
    /// The strand.
    pub strand: u32,
    /// The program of the frame.
    pub program: &'p Program<Global>,
    /// The frame.
    pub frame: Box<Frame<A>, A>,
    ghost stands: { Stands program.now.functions frame.value } by { stands_once (Prim.hlevel props) (Prim.hlevel props) _ _ },
}

/// Written out, so that what lets a task go calls one function; so it is with the types that own tasks or deques.
impl<'p, A: Allocator> Drop for Task<'p, A> {
    fn drop(self) {
        let Task {
            strand: _,
            program: _,
            frame: _,
        } = self;
    }
}

/// What a task asks next, and what its frame knows of it before it is answered.
#[derive(Clone, Copy)]
pub(crate) struct NextRequest {
    pub(crate) request: Request,
    /// The function that the request spawns.
    pub(crate) target: Option<Target>,
    /// The join of the block that is open.
    pub(crate) join: Option<u32>,
}

impl<'p, A: Allocator + Copy> Task<'p, A> {
    ghost use Rattle.steal_workers.specs.Tasks.{IsBegun};

    /// The function `main` with argument 0, on the first strand.
    pub(crate) fn root(
        program: &'p Program<Global>,
        spare: &mut Spare<A>,
    ) -> Result<Task<'p, A>, AllocError>
        ensures strand { IfOk result (λ task. task.strand ≡ 0) }
        ensures program { IfOk result (λ task. task.program ≡ program.entry) }
        ensures begun { IfOk result (IsBegun program.now.main 0) }
    {
        let function = program.main();
        let target = Target {
            function,
            argument: 0,
        };
        Task::for_child(program, 0, target, spare)
    }

    /// A function at its begin, on this strand. It takes memory only where no frame is in reserve.
    pub(crate) fn for_child(
        program: &'p Program<Global>,
        strand: u32,
        target: Target,
        spare: &mut Spare<A>,
    ) -> Result<Task<'p, A>, AllocError>
        requires { target.function < length program.now.functions }
        ensures strand { IfOk result (λ task. task.strand ≡ strand) }
        ensures program { IfOk result (λ task. task.program ≡ program.entry) }
        ensures begun { IfOk result (IsBegun target.function target.argument) }
    {
        let frame = match spare.pop() {
            Some(mut frame) => {
                frame.restart(program, target.function, target.argument);
                frame
            }
            None => {
                let alloc = *spare.allocator();
                let frame = Frame::new(alloc, program, target.function, target.argument);
                Box::new(alloc, frame)?
            }
        };
        Ok(Task {
            strand,
            program,
            frame,
        })
    }
}

impl<'p, A: Allocator> Task<'p, A> {
    ghost use Rattle.steal_workers.specs.Tasks.{IsOn};
    ghost use Rattle.steal_workers.specs.Workers.{IsWanted};

    /// What the task asks next, with room for a call. Asked again before an answer, it asks the same.
    #[inline(always)]
    pub(crate) fn next_request(&mut self) -> Result<NextRequest, RunFault>
        ensures strand { self.new.strand ≡ self.old.strand }
        ensures program { self.new.program ≡ self.old.program }
        ensures on { IfOk result (λ next. next.request.strand ≡ self.old.strand) }
        ensures wanted { IfOk result (λ next. IsWanted self.old next.request) }
        ensures target { IfOk result (λ next.
            IfSome next.target (λ target. target.function < length self.old.program.now.functions)) }
        ensures err { IfErr result (λ fault. fault ≢ RunFault.Torn) }
    {
        let (frame, program) = (&mut *self.frame, self.program);
        if frame.is_over() {
            return Err(RunFault::Strange);
        }
        frame.reserve_call()?;
        let want = frame.next(program);
        Ok(NextRequest {
            request: Request {
                strand: self.strand,
                act: want.act,
                line: want.line,
            },
            // The frame is not asked where it can be none.
            target: match want.act {
                Act::Spawn => frame.spawns(program),
                _ => None,
            },
            join: frame.block_join(),
        })
    }

    /// The frame takes the answer to what it asked.
    #[inline(always)]
    pub(crate) fn answer(&mut self, answer: &Answer) -> Result<(), RunFault>
        ensures strand { self.new.strand ≡ self.old.strand }
        ensures program { self.new.program ≡ self.old.program }
        ensures err { IfErr result (λ fault. fault ≢ RunFault.Torn) }
    {
        self.frame
            .answer(self.program, answer)
            .map_err(frame_fault_of)
    }

    /// The frame goes on on this strand.
    pub(crate) fn on(mut self, strand: u32) -> Task<'p, A>
        ensures { IsOn strand self.entry result }
    {
        self.strand = strand;
        self
    }

    /// Keeps the frame in reserve, where there is room for it.
    pub(crate) fn retire(self, spare: &mut Spare<A>) {
        let Task {
            strand: _,
            program: _,
            frame,
        } = self;
        if spare.len() < MOST_SPARE {
            let _kept = spare.push(frame);
        }
    }
}
