//! What the gate keeps of reducers.

ghost use Rattle.std.specs.Prelude.{◌≡◌, ◌<◌, ◌^◌, [], ℕ, List, length, true, Some, IfOk, OnOk, IsTrue, MatchOption};
ghost use Rattle.model_accesses.specs.Table.{is_reducer_read};
ghost use Rattle.model_strands.specs.History.{Event};
ghost use Rattle.model_strands.specs.Strands.{Running};
ghost use Rattle.model_reducers.specs.Steps.{Steps};
ghost use Rattle.law_values.specs.Accesses.{control_steps};
ghost use Rattle.model_accesses.specs.Reads.{ReducerRead};
ghost use Rattle.model_histories.specs.Entries.{event_between};
ghost use Rattle.race_gate.specs.Accesses.{act_of_reducer, reducer_of};
ghost use Rattle.race_gate.specs.Books.{Keeps, KeepsRunning, KeepsStill, KeepsOn, TakesEvent, HasRoom, HasRoomFor};
ghost use Rattle.race_gate.specs.Books.{IsRefusal, MayRead, answered_act, AnswersAccess, OpensBooks};

use crate::access::ReducerAct;
use access_table::{Kind, rule};
use branch_names::Branches;
use model_accesses::Act;
use model_histories::Answer;
use model_reducers::Monoid;
use reducer_views::Views;
use std::alloc::{AllocError, Allocator};
use std::marker::Model;
use view_read_rule::{ReadPeers, ViewVerdict};

/// The branches of the strands, the first granted read of each reducer, and the strands' views of reducers.
#[derive(Drop)]
pub struct ReducerTracks<A: Allocator + Clone> {
    branches: Branches<A>,
    reads: ReadPeers<A>,
    views: Views<A>,
}

impl<A: Allocator + Clone> Model for ReducerTracks<A> {
    ghost use Rattle.race_gate.specs.Books.{Books};

    ghost Value = { Books };

    ghost view = { λ reducers. record { branches = reducers.branches; reads = reducers.reads; views = reducers.views } };
}

/// What is kept of these reducers before any event; nothing where there are none.
pub fn opening_reducers<A: Allocator + Clone>(
    alloc: &A,
    monoids: &[Monoid],
) -> Result<Option<ReducerTracks<A>>, AllocError>
    requires { length monoids.now < 2 ^ 32 }
    ensures { IfOk result (λ reducers. OpensBooks reducers monoids.now) }
{
    if monoids.is_empty() {
        return Ok(None);
    }
    Ok(Some(ReducerTracks::new(alloc, monoids)?))
}

impl<A: Allocator + Clone> ReducerTracks<A> {
    /// Reducers that no strand has touched.
    fn new(alloc: &A, monoids: &[Monoid]) -> Result<ReducerTracks<A>, AllocError>
        requires { length monoids.now < 2 ^ 32 }
        ensures keeps { IfOk result (λ reducers. Keeps reducers [] []) }
        ensures monoids { IfOk result (λ reducers. reducers.views.monoids ≡ monoids.now) }
    {
        Ok(ReducerTracks {
            branches: Branches::new(alloc.clone()?)?,
            reads: ReadPeers::new(alloc.clone()?, monoids.len() as u32)?,
            views: Views::new(alloc.clone()?, monoids)?,
        })
    }

    /// Makes room for an event of control. A refusal changes nothing.
    #[inline(always)]
    pub fn reserve_event(&mut self) -> Result<(), AllocError>
        ensures still { KeepsStill self.old self.new }
        ensures room { OnOk result (HasRoom self.new) }
    {
        self.branches.reserve_event()?;
        self.views.reserve_event()
    }

    /// Asks for room for so many more strands. It is a hint, which changes nothing that is seen.
    pub fn make_room(&mut self, strands: usize)
        ensures { self.new ≡ self.old }
    {
        self.branches.make_room(strands);
        self.views.make_room(strands);
    }

    /// Makes room for an update or a put; a get needs none. A refusal changes nothing.
    #[inline(always)]
    pub fn reserve_for(&mut self, act: ReducerAct) -> Result<(), AllocError>
        ensures still { KeepsStill self.old self.new }
        ensures room { OnOk result (HasRoomFor self.new act) }
    {
        match act {
            ReducerAct::Get(_) => Ok(()),
            ReducerAct::Update(_, _) | ReducerAct::Put(_, _) => self.views.reserve_event(),
        }
    }

    /// Judges an access by a running strand, and does it where it is granted. `number` is that of its entry. Takes no memory.
    #[inline(always)]
    pub fn answer(&mut self, number: u32, strand: u32, act: ReducerAct) -> Answer
        requires in_range { reducer_of act < length self.old.views.monoids }
        requires room { HasRoomFor self.old act }
        requires keeps { KeepsRunning self.old strand }
        ensures { AnswersAccess self.old self.new (answered_act number strand (act_of_reducer act) result) }
    {
        match act {
            ReducerAct::Update(reducer, value) => self.update(strand, reducer, value),
            ReducerAct::Put(reducer, value) => self.put(number, strand, reducer, value),
            ReducerAct::Get(reducer) => self.get(number, strand, reducer),
        }
    }

    /// Takes in the event of control that the strand's act was answered by. Takes no memory.
    #[inline(always)]
    pub fn follow(&mut self, strand: u32, answer: Answer)
        requires room { HasRoom self.old }
        requires takes { TakesEvent self.old strand answer }
        ensures follows { (act : Act) (event : Event) → event_between strand act answer ≡ Some event → KeepsOn self.old self.new event }
    {
        match answer {
            Answer::Split(spawned) => {
                self.branches.spawned(strand, &spawned);
                self.views.spawned(strand, &spawned);
            }
            Answer::Joined(join) | Answer::EndedJoined(join) => {
                self.branches.joined(join);
                self.views.joined(join);
            }
            _ => {}
        }
    }

    /// Takes in an update of the reducer by a running strand. Takes no memory.
    #[inline(always)]
    fn update(&mut self, strand: u32, reducer: u32, value: u64) -> Answer
        requires in_range { reducer < length self.old.views.monoids }
        requires room { self.old.views.has_room ≡ true }
        requires keeps { KeepsRunning self.old strand }
        ensures { (number : ℕ) → AnswersAccess self.old self.new (answered_act number strand (Act.Update reducer value) result) }
    {
        self.views.update(strand, reducer, value);
        Answer::Granted
    }

    /// The answer to a put or a get that is not granted, if it is not. Takes no memory.
    fn refusal(&self, strand: u32, reducer: u32, kind: Kind) -> Option<Answer>
        requires in_range { reducer < length self.now.views.monoids }
        requires reducer_read { IsTrue (is_reducer_read kind) }
        requires keeps { KeepsRunning self.now strand }
        ensures { (steps : Steps) (earlier : List ReducerRead) → Keeps self.now steps earlier → Running (control_steps steps) strand →
            MatchOption result
            (MayRead (control_steps steps) earlier strand reducer kind)
            (IsRefusal (control_steps steps) earlier strand reducer kind) }
    {
        match self.reads.judge(&self.branches, reducer, kind, strand) {
            ViewVerdict::Granted => None,
            ViewVerdict::Refused(witness) => Some(Answer::Refused {
                rule: rule(witness.kind, kind),
                witness,
            }),
            ViewVerdict::Unset => Some(Answer::Unset),
        }
    }

    /// Judges a put of a value by a running strand, and does it where it is granted. `number` is that of its entry. Takes no memory.
    fn put(&mut self, number: u32, strand: u32, reducer: u32, value: u64) -> Answer
        requires in_range { reducer < length self.old.views.monoids }
        requires room { self.old.views.has_room ≡ true }
        requires keeps { KeepsRunning self.old strand }
        ensures { AnswersAccess self.old self.new (answered_act number strand (Act.Put reducer value) result) }
    {
        if let Some(refused) = self.refusal(strand, reducer, Kind::Put) {
            return refused;
        }
        self.reads.add(reducer, Kind::Put, strand, number);
        self.views.put(strand, reducer, value);
        Answer::Granted
    }

    /// Judges a get by a running strand, and answers the value of its view where it is granted. `number` is that of its entry. Takes no
    /// memory.
    fn get(&mut self, number: u32, strand: u32, reducer: u32) -> Answer
        requires in_range { reducer < length self.old.views.monoids }
        requires keeps { KeepsRunning self.old strand }
        ensures { AnswersAccess self.old self.new (answered_act number strand (Act.Get reducer) result) }
    {
        if let Some(refused) = self.refusal(strand, reducer, Kind::Get) {
            return refused;
        }
        self.reads.add(reducer, Kind::Get, strand, number);
        match self.views.get(strand, reducer) {
            Some(value) => Answer::Value(value),
            None => unreachable!(),
        }
    }
}
