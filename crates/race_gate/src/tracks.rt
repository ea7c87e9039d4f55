//! What the gate keeps beside the history and the cells.

ghost use Rattle.std.specs.Prelude.{◌≡◌, ◌<◌, ◌^◌, ℕ, List, length, IfOk, MatchResult};
ghost use Rattle.race_gate.specs.Kept.{IsKept, IsReady, OpensTracks, tracks_of, with_entry};
ghost use Rattle.model_histories.specs.States.{GateState};
ghost use Rattle.race_gate.specs.Accesses.{act_of_control, act_of_cell, act_of_reducer};

use crate::access::{CellAct, ControlAct, ReducerAct, Sort, sort_of};
use crate::reducers::{ReducerTracks, opening_reducers};
use crate::step::{answer_to, control_with, judge_access};
use model_accesses::Request;
use model_histories::{Answer, GateFault};
use model_reducers::Monoid;
use shadow_history::Shadow;
use sp_labels::Strands;
use std::alloc::{AllocError, Allocator};

/// What is kept of the strands, of the granted accesses of cells, and of the reducers.
pub struct Tracks<A: Allocator + Clone> {
    /// The strands, as the acts of control so far left them.
    pub strands: Strands<A>,
    /// The accesses of each cell that later ones are judged by.
    pub shadow: Shadow<A>,
    /// None where the program has no reducers.
    pub reducers: Option<ReducerTracks<A>>,
}

/// Written out, so that what lets tracks go calls one function.
impl<A: Allocator + Clone> Drop for Tracks<A> {
    fn drop(self) {
        let Tracks {
            strands: _,
            shadow: _,
            reducers: _,
        } = self;
    }
}

impl<A: Allocator + Clone> Tracks<A> {
    /// What is kept of these cells and reducers before any entry.
    pub fn new(alloc: &A, cells: u32, monoids: &[Monoid]) -> Result<Tracks<A>, AllocError>
        requires { length monoids.now < 2 ^ 32 }
        ensures { IfOk result (λ tracks. OpensTracks (tracks_of tracks) cells monoids.now) }
    {
        Ok(Tracks {
            strands: Strands::new(alloc.clone()?)?,
            shadow: Shadow::new(alloc.clone()?, cells)?,
            reducers: opening_reducers(alloc, monoids)?,
        })
    }

    /// Answers a request that has no fault, and does what was granted. `number` is that of its entry. Where memory is refused, nothing
    /// changes.
    #[inline(always)]
    pub fn answer(
        &mut self,
        memory: &mut [u64],
        number: u32,
        request: Request,
    ) -> Result<Answer, GateFault>
        requires { (state : GateState) × IsReady state (tracks_of self.old) memory.old request number }
        ensures { (state : GateState) → IsReady state (tracks_of self.old) memory.old request number → MatchResult result
            (λ answer. IsKept (with_entry state request answer memory.new) (tracks_of self.new))
            (λ fault. (fault ≡ GateFault.Memory) × (memory.new ≡ memory.old) × IsKept state (tracks_of self.new)) }
    {
        match sort_of(request.act) {
            Sort::Cell(act) => Ok(self.access_cell(memory, number, request, act)),
            Sort::Reducer(act) => self.access_reducer(number, request, act),
            Sort::Control(act) => self.control(number, request, act),
        }
    }

    /// The same of a request whose act is this access of a cell. It takes no memory.
    #[inline(always)]
    pub fn access_cell(
        &mut self,
        memory: &mut [u64],
        number: u32,
        request: Request,
        act: CellAct,
    ) -> Answer
        requires is { request.act ≡ act_of_cell act }
        requires ready { (state : GateState) × IsReady state (tracks_of self.old) memory.old request number }
        ensures { (state : GateState) → IsReady state (tracks_of self.old) memory.old request number →
            IsKept (with_entry state request result memory.new) (tracks_of self.new) }
    {
        judge_access(
            &self.strands,
            &mut self.shadow,
            memory,
            number,
            request.strand,
            act,
        )
    }

    /// The same of a request whose act is this access of a reducer. Room for it is made first.
    #[inline(always)]
    pub fn access_reducer(
        &mut self,
        number: u32,
        request: Request,
        act: ReducerAct,
    ) -> Result<Answer, GateFault>
        requires is { request.act ≡ act_of_reducer act }
        requires ready { (state : GateState) × (cells : List ℕ) × IsReady state (tracks_of self.old) cells request number }
        ensures { (state : GateState) (cells : List ℕ) → IsReady state (tracks_of self.old) cells request number → MatchResult result
            (λ answer. IsKept (with_entry state request answer cells) (tracks_of self.new))
            (λ fault. (fault ≡ GateFault.Memory) × IsKept state (tracks_of self.new)) }
    {
        let Some(reducers) = &mut self.reducers else {
            unreachable!()
        };
        reducers.reserve_for(act)?;
        Ok(reducers.answer(number, request.strand, act))
    }

    /// The same of a request whose act is this act of control.
    #[inline(always)]
    pub fn control(
        &mut self,
        number: u32,
        request: Request,
        act: ControlAct,
    ) -> Result<Answer, GateFault>
        requires is { request.act ≡ act_of_control act }
        requires ready { (state : GateState) × (cells : List ℕ) × IsReady state (tracks_of self.old) cells request number }
        ensures { (state : GateState) (cells : List ℕ) → IsReady state (tracks_of self.old) cells request number → MatchResult result
            (λ answer. IsKept (with_entry state request answer cells) (tracks_of self.new))
            (λ fault. (fault ≡ GateFault.Memory) × IsKept state (tracks_of self.new)) }
    {
        match &mut self.reducers {
            None => answer_to(&mut self.strands, request.strand, act),
            Some(reducers) => control_with(&mut self.strands, reducers, request.strand, act),
        }
    }
}
