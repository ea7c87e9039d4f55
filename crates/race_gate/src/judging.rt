//! Judging without a history.

ghost use Rattle.std.specs.Prelude.{◌≡◌, ◌≤◌, ◌+◌, ◌↔◌, true, length, IsTrue, IfOk, IfErr, MatchResult};
ghost use Rattle.race_gate.specs.Shapes.{shape_of};
ghost use Rattle.model_accesses.specs.Limits.{most_cells};
ghost use Rattle.model_reducers.specs.Limits.{most_reducers};
ghost use Rattle.model_histories.specs.Shapes.{most_entries};
ghost use Rattle.model_races.specs.Memory.{IsMemory};
ghost use Rattle.model_histories.specs.Extensions.{IsEnd};
ghost use Rattle.model_histories.specs.States.{GateState, opening};
ghost use Rattle.model_histories.specs.Faults.{IsFaultless, IsFirstFault};
ghost use Rattle.race_gate.specs.Kept.{with_entry};
ghost use Rattle.model_histories.specs.Replies.{Judges, reply_of};
ghost use Rattle.model_histories.specs.declared.reply.Reply.TheVariants.{Done};
ghost use Rattle.model_histories.specs.Admission.{IsAdmitted, IsOfTheGate};
ghost use Rattle.race_gate.specs.Cores.{IsCoreOf, IsCore, reply_with};
ghost use Rattle.race_gate.specs.Accesses.{act_of_cell, act_of_reducer};

use crate::access::{CellAct, ReducerAct};
use crate::step::is_in_range;
use crate::tracks::Tracks;
use model_accesses::{Act, Request};
use model_histories::{Answer, GateFault, Receipt, Reply};
use std::alloc::{AllocError, Allocator};
use std::marker::Model;
use text_words::{Monoids, Shape};

/// All of a gate but its history: it judges requests one after another as a gate does, and counts its answers in place of keeping them.
/// Contracts speak of every state of a gate that fits it; whoever wants one state keeps it, and gets the next one from each request.
pub struct Core<A: Allocator + Clone> {
    shape: Shape<A>,
    limit: u32,
    stopped: bool,
    entries: u32,
    finished: bool,
    memory: Vec<u64, A>,
    tracks: Tracks<A>,
}

/// Written out, so that what lets a core go calls one function.
impl<A: Allocator + Clone> Drop for Core<A> {
    fn drop(self) {
        let Core {
            shape: _,
            limit: _,
            stopped: _,
            entries: _,
            finished: _,
            memory: _,
            tracks: _,
        } = self;
    }
}

impl<A: Allocator + Clone> Model for Core<A> {
    ghost use Rattle.race_gate.specs.Shapes.{shape_of};
    ghost use Rattle.race_gate.specs.Kept.{tracks_of};
    ghost use Rattle.race_gate.specs.Cores.{CoreState, IsCore};

    ghost Value = { CoreState };

    ghost view = { λ core. record {
      shape = shape_of core.shape;
      limit = core.limit;
      stopped = core.stopped;
      entries = core.entries;
      finished = core.finished;
      memory = core.memory.items;
      tracks = tracks_of core.tracks;
    } };

    ghost invariant = { λ core. IsCore (record {
      shape = shape_of core.shape;
      limit = core.limit;
      stopped = core.stopped;
      entries = core.entries;
      finished = core.finished;
      memory = core.memory.items;
      tracks = tracks_of core.tracks;
    }) };
}

/// A copy of what a program declares.
fn copy_shape<A: Allocator + Clone, B: Allocator>(
    alloc: &A,
    shape: &Shape<B>,
) -> Result<Shape<A>, AllocError>
    ensures { IfOk result (λ copy. shape_of copy ≡ shape_of shape.now) }
{
    let cells = shape.cells;
    let monoids = Vec::from_slice(alloc.clone()?, shape.monoids.as_slice())?;
    Ok(Shape {
        cells,
        monoids: Monoids::new(monoids),
    })
}

/// Whether the answer is that the root function returned.
#[inline(always)]
fn is_end(answer: Answer) -> bool
    ensures { IsTrue result ↔ IsEnd answer }
{
    matches!(answer, Answer::Finished)
}

impl<A: Allocator + Clone> Core<A> {
    /// A core before any request, over these cells and reducers, that answers so many; 0 is a limit too. Each cell holds 0.
    /// Out of line, so that a loop that judges has what a core keeps in memory and not, by halves, in registers.
    #[inline(never)]
    pub fn new<B: Allocator>(alloc: A, shape: &Shape<B>, limit: u32) -> Result<Core<A>, AllocError>
        requires cells { shape.now.cells ≤ most_cells }
        requires entries { limit ≤ most_entries }
        requires reducers { length shape.now.monoids ≤ most_reducers }
        ensures { IfOk result (λ core. IsCoreOf core (opening (shape_of shape.now) limit)) }
    {
        let shape = copy_shape(&alloc, shape)?;
        Ok(Core {
            tracks: Tracks::new(&alloc, shape.cells, shape.monoids.as_slice())?,
            memory: vec![in alloc; 0; shape.cells as usize]?,
            shape,
            limit,
            stopped: false,
            entries: 0,
            finished: false,
        })
    }

    /// Asks for room for so many more strands, as [`Strands::make_room`](sp_labels::Strands::make_room) does. It is a hint, which changes
    /// nothing that is seen.
    pub fn make_room(&mut self, strands: usize)
        ensures { self.new ≡ self.old }
    {
        self.tracks.strands.make_room(strands);
        if let Some(reducers) = &mut self.tracks.reducers {
            reducers.make_room(strands);
        }
    }

    /// How many cells there are, and the monoids of the reducers, as handed to `new`.
    pub fn shape(&self) -> &Shape<A>
        ensures { shape_of result.now ≡ self.now.shape }
    {
        &self.shape
    }

    /// How many entries a gate that judged the same requests has.
    pub fn entries(&self) -> u32
        ensures { result ≡ self.now.entries }
    {
        self.entries
    }

    /// What the cells hold.
    pub fn memory(&self) -> &[u64]
        ensures cells { result.now ≡ self.now.memory }
        ensures values { (state : GateState) → IsCoreOf self.now state → IsMemory state.shape.cells state.history result.now }
    {
        self.memory.as_slice()
    }

    /// What the cells hold, as [`Core::memory`], taken out of the core.
    pub(crate) fn into_memory(self) -> Vec<u64, A>
        ensures { result.items ≡ self.memory }
    {
        let Core {
            shape: _,
            limit: _,
            stopped: _,
            entries: _,
            finished: _,
            memory,
            tracks: _,
        } = self;
        memory
    }

    /// Whether the root function has returned.
    pub fn is_finished(&self) -> bool
        ensures { result ≡ self.now.finished }
    {
        self.finished
    }

    /// Whether the core was stopped.
    pub fn is_stopped(&self) -> bool
        ensures { result ≡ self.now.stopped }
    {
        self.stopped
    }

    /// How many requests the core may answer; it never answers more.
    pub fn limit(&self) -> u32
        ensures { result ≡ self.now.limit }
    {
        self.limit
    }

    /// Stops the core: from now on it judges no request.
    pub fn stop(&mut self)
        ensures is { self.new ≡ record self.old { stopped = true } }
        ensures fits { (state : GateState) → IsCoreOf self.old state → IsCoreOf self.new (record state { stopped = true }) }
    {
        self.stopped = true;
    }

    /// The first fault of a request, but for want of memory, which is the last and comes when the request is answered.
    #[inline(always)]
    pub fn check(&self, request: Request) -> Result<(), GateFault>
        ensures fits { IsCore self.now }
        ensures fault { (state : GateState) → IsCoreOf self.now state →
            MatchResult result (λ _. IsFaultless state request) (IsFirstFault state request) }
    {
        if self.stopped {
            return Err(GateFault::Stopped);
        }
        if self.entries >= self.limit {
            return Err(GateFault::Limit);
        }
        if !self.tracks.strands.is_running(request.strand) {
            return Err(GateFault::NotRunning);
        }
        if !is_in_range(&self.shape, request.act) {
            return Err(GateFault::BadName);
        }
        if matches!(request.act, Act::Return) && !self.tracks.strands.is_synced(request.strand) {
            return Err(GateFault::Unsynced);
        }
        Ok(())
    }

    /// Answers a request that has no fault, and does what was granted. Where memory is refused, nothing changes.
    #[inline(always)]
    pub(crate) fn answer(&mut self, request: Request) -> Result<Answer, GateFault>
        requires { (state : GateState) × IsCoreOf self.old state × IsFaultless state request }
        ensures { (state : GateState) → IsCoreOf self.old state → IsFaultless state request → MatchResult result
            (λ answer. IsCoreOf self.new (with_entry state request answer self.new.memory))
            (λ fault. (fault ≡ GateFault.Memory) × IsCoreOf self.new state) }
    {
        let number = self.entries + 1;
        let answer = self
            .tracks
            .answer(self.memory.as_mut_slice(), number, request)?;
        self.entries = number;
        self.finished = is_end(answer);
        Ok(answer)
    }

    /// Answers a request of a strand and does what was granted, as [`Gate::judge`](crate::Gate::judge) does. A fault is the first one, in
    /// the order of [`GateFault`], that has its cause. It changes nothing, and none but the last depends on memory. A request that the
    /// rules of legal histories admit is answered unless the core was stopped, is at its limit, or has no memory.
    #[inline(always)]
    pub fn judge(&mut self, request: Request) -> Result<Answer, GateFault>
        ensures judges { (state : GateState) → IsCoreOf self.old state →
            (next : GateState) × Judges state request (reply_with (self.old.entries + 1) request result) next × IsCoreOf self.new next }
        ensures admitted { (state : GateState) → IsCoreOf self.old state → IsAdmitted state.shape state.history request →
            IfErr result IsOfTheGate }
    {
        self.check(request)?;
        self.answer(request)
    }

    /// Answers a request that has no fault and whose act is this access of a cell, and does what was granted. The receipt is of its
    /// entry. Like [`Core::answer_reducer`] it stands apart from [`Core::check`], so that a caller that knows the sort of its requests
    /// has a way of its own for faults, and nothing to tell apart where there is none. Takes no memory.
    #[inline(always)]
    pub fn answer_cell(&mut self, request: Request, act: CellAct) -> Receipt
        requires is { request.act ≡ act_of_cell act }
        requires faultless { (state : GateState) × IsCoreOf self.old state × IsFaultless state request }
        ensures { (state : GateState) → IsCoreOf self.old state → IsFaultless state request →
            (next : GateState) × Judges state request (Done result) next × IsCoreOf self.new next }
    {
        let number = self.entries + 1;
        let answer = self
            .tracks
            .access_cell(self.memory.as_mut_slice(), number, request, act);
        self.entries = number;
        self.finished = is_end(answer);
        Receipt {
            number,
            request,
            answer,
        }
    }

    /// Answers a request that has no fault and whose act is this access of a reducer, and does what was granted. The receipt is of its
    /// entry. Where memory is refused, nothing changes.
    #[inline(always)]
    pub fn answer_reducer(
        &mut self,
        request: Request,
        act: ReducerAct,
    ) -> Result<Receipt, GateFault>
        requires is { request.act ≡ act_of_reducer act }
        requires faultless { (state : GateState) × IsCoreOf self.old state × IsFaultless state request }
        ensures { (state : GateState) → IsCoreOf self.old state → IsFaultless state request →
            (next : GateState) × Judges state request (reply_of result) next × IsCoreOf self.new next }
    {
        let number = self.entries + 1;
        let answer = self.tracks.access_reducer(number, request, act)?;
        self.entries = number;
        self.finished = is_end(answer);
        Ok(Receipt {
            number,
            request,
            answer,
        })
    }

    /// Answers a request as [`Core::judge`] does, and gives the reply of a gate that judged the same requests.
    #[inline(always)]
    pub fn reply(&mut self, request: Request) -> Reply
        ensures { (state : GateState) → IsCoreOf self.old state →
            (next : GateState) × Judges state request result next × IsCoreOf self.new next }
    {
        match self.judge(request) {
            Ok(answer) => Reply::Done(Receipt {
                number: self.entries,
                request,
                answer,
            }),
            Err(fault) => Reply::Illegal(fault),
        }
    }
}
