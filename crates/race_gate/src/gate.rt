//! The gate.

ghost use Rattle.std.specs.Prelude.{◌≡◌, ◌≤◌, ◌↔◌, true, length, reverse, IsTrue, IfOk, IfErr};
ghost use Rattle.race_gate.specs.Shapes.{shape_of};
ghost use Rattle.model_accesses.specs.Limits.{most_cells};
ghost use Rattle.model_reducers.specs.Limits.{most_reducers};
ghost use Rattle.model_histories.specs.Shapes.{most_entries};
ghost use Rattle.model_races.specs.Memory.{IsMemory};
ghost use Rattle.model_races.specs.Judged.{IsJudged};
ghost use Rattle.model_histories.specs.Extensions.{IsFinished};
ghost use Rattle.model_histories.specs.States.{opening};
ghost use Rattle.model_histories.specs.Replies.{Judges, reply_of};
ghost use Rattle.model_histories.specs.Admission.{IsAdmitted, IsOfTheGate};

use crate::history::{History, NewHistory};
use crate::judging::Core;
use model_accesses::Request;
use model_histories::{Entry, GateFault, Receipt};
use packed_history::Entries;
use std::alloc::{AllocError, Allocator, Global};
use std::marker::Model;
use text_words::Shape;

/// A gate: it judges requests one after another and keeps the history of its answers, in a vector unless another list is named. Contracts
/// see its shape, its limit, whether it was stopped, its history, the newest entry first, and what its cells hold.
pub struct Gate<A: Allocator + Clone, H: History = Vec<Entry, A>> {
    core: Core<A>,
    history: H,
}

/// A gate whose entries are packed, in a third of the room. They are not lent as a slice: [`Entries`] shows them one by one, and compares
/// them with receipts as both are kept.
pub type ShortGate<A = Global> = Gate<A, Entries<A>>;

/// Written out, so that what lets a gate go calls one function.
impl<A: Allocator + Clone, H: History> Drop for Gate<A, H> {
    fn drop(self) {
        let Gate {
            core: _,
            history: _,
        } = self;
    }
}

impl<A: Allocator + Clone, H: History> Model for Gate<A, H> {
    ghost use Rattle.std.specs.Prelude.{reverse};
    ghost use Rattle.model_histories.specs.States.{GateState};
    ghost use Rattle.race_gate.specs.Cores.{IsCoreOf, with_history};

    ghost Value = { GateState };

    ghost view = { λ gate. with_history gate.core (reverse (H.entries gate.history)) };

    ghost invariant = { λ gate. IsCoreOf gate.core (with_history gate.core (reverse (H.entries gate.history))) };
}

impl<A: Allocator + Clone, H: NewHistory<A>> Gate<A, H> {
    /// A gate without entries, over these cells and reducers, whose history takes so many entries; 0 is a limit too. Each cell holds 0.
    pub fn new<B: Allocator>(
        alloc: A,
        shape: &Shape<B>,
        limit: u32,
    ) -> Result<Gate<A, H>, AllocError>
        requires cells { shape.now.cells ≤ most_cells }
        requires entries { limit ≤ most_entries }
        requires reducers { length shape.now.monoids ≤ most_reducers }
        ensures { IfOk result (λ gate. gate ≡ opening (shape_of shape.now) limit) }
    {
        Ok(Gate {
            core: Core::new(alloc.clone()?, shape, limit)?,
            history: H::empty(alloc),
        })
    }
}

impl<A: Allocator + Clone, H: History> Gate<A, H> {
    /// How many cells there are, and the monoids of the reducers, as handed to `new`.
    pub fn shape(&self) -> &Shape<A>
        ensures { shape_of result.now ≡ self.now.shape }
    {
        self.core.shape()
    }

    /// The entries so far, the oldest first, as they are kept.
    pub fn kept_history(&self) -> &H
        ensures entries { reverse (H.entries result.now) ≡ self.now.history }
        ensures judged { IsJudged self.now.shape self.now.history }
        ensures within { length self.now.history ≤ self.now.limit }
    {
        &self.history
    }

    /// What the cells hold.
    pub fn memory(&self) -> &[u64]
        ensures cells { result.now ≡ self.now.memory }
        ensures values { IsMemory self.now.shape.cells self.now.history self.now.memory }
    {
        self.core.memory()
    }

    /// The entries, the oldest first, and what the cells hold, as [`Gate::kept_history`] and [`Gate::memory`] show them, taken out of the
    /// gate.
    pub fn into_parts(self) -> (H, Vec<u64, A>)
        ensures entries { reverse (H.entries result.0) ≡ self.history }
        ensures cells { result.1.items ≡ self.memory }
        ensures judged { IsJudged self.shape self.history }
        ensures values { IsMemory self.shape.cells self.history self.memory }
        ensures within { length self.history ≤ self.limit }
    {
        let Gate { core, history } = self;
        (history, core.into_memory())
    }

    /// Whether the root function has returned.
    pub fn is_finished(&self) -> bool
        ensures { IsTrue result ↔ IsFinished self.now.history }
    {
        self.core.is_finished()
    }

    /// Whether the gate was stopped.
    pub fn is_stopped(&self) -> bool
        ensures { result ≡ self.now.stopped }
    {
        self.core.is_stopped()
    }

    /// How many entries the history may have; it never has more.
    pub fn limit(&self) -> u32
        ensures is { result ≡ self.now.limit }
        ensures within { length self.now.history ≤ self.now.limit }
    {
        self.core.limit()
    }

    /// Stops the gate: from now on it judges no request.
    pub fn stop(&mut self)
        ensures { self.new ≡ record self.old { stopped = true } }
    {
        self.core.stop();
    }

    /// Answers a request of a strand, does what was granted, and enters both in the history. A fault is the first one, in the order of
    /// [`GateFault`], that has its cause. It changes nothing, and none but the last depends on memory. A request that the rules of legal
    /// histories admit, that is, one that some answer may follow, is entered unless the gate was stopped, is at its limit, or has no
    /// memory.
    pub fn judge(&mut self, request: Request) -> Result<Receipt, GateFault>
        ensures replies { Judges self.old request (reply_of result) self.new }
        ensures admitted { IsAdmitted self.old.shape self.old.history request → IfErr result IsOfTheGate }
        ensures judged { IsJudged self.new.shape self.new.history }
        ensures values { IsMemory self.new.shape.cells self.new.history self.new.memory }
    {
        self.core.check(request)?;
        self.history.reserve_entry()?;
        let answer = self.core.answer(request)?;
        let receipt = Receipt {
            number: self.core.entries(),
            request,
            answer,
        };
        self.history.push_entry(receipt);
        Ok(receipt)
    }
}

impl<A: Allocator + Clone> Gate<A> {
    /// The entries so far, the oldest first.
    pub fn history(&self) -> &[Entry]
        ensures entries { reverse result.now ≡ self.now.history }
        ensures judged { IsJudged self.now.shape self.now.history }
        ensures within { length self.now.history ≤ self.now.limit }
    {
        self.kept_history().as_slice()
    }
}
