//! Frames.

ghost use Rattle.std.specs.Prelude.{◌≡◌, ◌≢◌, ℕ, ◌<◌, ◌↔◌, Bool, true, false, IsTrue, List, []};
ghost use Rattle.std.specs.Prelude.{◌∷◌, ◌++◌, Some, None, length, IfSome, OnOk, OnErr, IfErr, Err};
ghost use Rattle.model_bodies.specs.declared.statement.Statement.{Statement};
ghost use Rattle.model_accesses.specs.declared.request.Act.{Act};
ghost use Rattle.model_bodies.specs.Codes.{Code};
ghost use Rattle.model_bodies.specs.Trees.{Step};
ghost use Rattle.model_programs.specs.Values.{first_registers};
ghost use Rattle.model_programs.specs.Answers.{IsReturned};
ghost use Rattle.model_programs.specs.Exchanges.{Exchange};
ghost use Rattle.model_programs.specs.Dialogue.{Whole, Part, DialogueOf};
ghost use Rattle.frame_steps.specs.Activations.{left, statement_of, is_plain, IsInPlace};
ghost use Rattle.frame_steps.specs.Joins.{join_after, open_join};
ghost use Rattle.frame_steps.specs.States.{FrameState};
ghost use Rattle.frame_steps.specs.Frames.{Stands, Wants, IsAfter, CanFollow, MayAnswer, IsAnswered, IsCalled, IsLeft, Wraps, began_by};

use crate::activation::Activation;
use crate::answer::apply_answer;
use crate::phase::Phase;
use crate::request::Want;
use crate::value::value_of;
use crate::wrap::wrap_of;
use model_histories::Answer;
use model_programs::Target;
use program_text::{Program, Statement};
use std::alloc::{AllocError, Allocator};
use std::marker::Model;
use thiserror::Error;

/// A spawned function with the functions that it has called. Later calls are handed the program with which it was made.
#[derive(Drop)]
pub struct Frame<A: Allocator> {
    top: Activation,
    callers: Vec<Activation, A>,
    phase: Phase,
    has_room: bool,
}

/// Why a frame refuses an answer. The frame is unchanged then.
#[derive(Clone, Copy, Debug, PartialEq, Eq, Error)]
pub enum FrameFault {
    /// No such answer belongs to what is wanted, or nothing is wanted.
    #[error("strange")]
    Strange,
    /// A call found no memory.
    #[error("memory")]
    Memory,
}

impl<A: Allocator> Model for Frame<A> {
    ghost use Rattle.std.specs.Prelude.{◌≡◌, ◌<◌, true, vec_len, vec_capacity};
    ghost use Rattle.frame_steps.specs.States.{FrameState};

    ghost Value = { FrameState };

    ghost view = { λ frame. record { phase = frame.phase; top = frame.top; callers = frame.callers.items; has_room = frame.has_room } };

    ghost invariant = { λ frame. frame.has_room ≡ true → vec_len frame.callers < vec_capacity frame.callers };
}

impl<A: Allocator> Frame<A> {
    /// A function at its begin. Takes no memory.
    pub fn new<B: Allocator>(
        alloc: A,
        program: &Program<B>,
        function: u32,
        argument: u64,
    ) -> Frame<A>
        requires { function < length program.now.functions }
        ensures stands { Stands program.now.functions result }
        ensures running { result.phase ≡ Phase.Running }
        ensures begun { IsAfter program.now.functions function argument [] result }
    {
        Frame {
            top: Activation::begin(function, argument),
            callers: Vec::new(alloc),
            phase: Phase::Running,
            has_room: false,
        }
    }

    /// Begins another function in this one's place, in the room that it has. Takes no memory.
    pub fn restart<B: Allocator>(&mut self, program: &Program<B>, function: u32, argument: u64)
        requires { function < length program.now.functions }
        ensures stands { Stands program.now.functions self.new }
        ensures running { self.new.phase ≡ Phase.Running }
        ensures begun { IsAfter program.now.functions function argument [] self.new }
    {
        self.top = Activation::begin(function, argument);
        self.callers.clear();
        self.phase = Phase::Running;
        self.has_room = false;
    }

    /// Whether the function has ended. What was said is a dialogue, and a whole one then.
    pub fn is_over(&self) -> bool
        ensures over { IsTrue result ↔ (self.now.phase ≡ Phase.Over) }
        ensures part { (functions : List Code) (function argument : ℕ) (history : List Exchange) →
            IsAfter functions function argument history self.now → DialogueOf functions function argument Part history }
        ensures whole { IsTrue result → (functions : List Code) (function argument : ℕ) (history : List Exchange) →
            IsAfter functions function argument history self.now → DialogueOf functions function argument Whole history }
    {
        matches!(self.phase, Phase::Over)
    }

    /// The join of the topmost function's last split, where it has not been answered a sync since.
    pub fn block_join(&self) -> Option<u32>
        ensures { (functions : List Code) (function argument : ℕ) (history : List Exchange) →
            IsAfter functions function argument history self.now → result ≡ open_join history }
    {
        match self.phase {
            Phase::Running => self.top.join,
            Phase::Wanting => self.top.join,
            Phase::Over => None,
        }
    }

    /// The function that the wanted act spawns, and its argument; None where no spawn is wanted.
    pub fn spawns<B: Allocator>(&self, program: &Program<B>) -> Option<Target>
        requires stands { Stands program.now.functions self.now }
        ensures target { (x : Exchange) → Wants program.now.functions self.now x → result ≡ x.target }
        ensures wanting { IfSome result (λ target. self.now.phase ≡ Phase.Wanting) }
        ensures there { IfSome result (λ target. target.function < length program.now.functions) }
    {
        if !matches!(self.phase, Phase::Wanting) {
            return None;
        }
        match self.top.statement(program) {
            Some(
                Statement::Spawn {
                    function,
                    argument,
                    ..
                },
            ) => Some(Target {
                function,
                argument: value_of(&self.top.registers, argument),
            }),
            _ => None,
        }
    }

    /// The index of the element that the next request reads or writes, where it is not below the length of the array. The frame stays where
    /// it stands.
    pub fn next_wrap<B: Allocator>(&self, program: &Program<B>) -> Option<u64>
        requires stands { Stands program.now.functions self.now }
        ensures { (function argument : ℕ) (history : List Exchange) → IsAfter program.now.functions function argument history self.now →
            (index : ℕ) → (result ≡ Some index) ↔ Wraps program.now.functions function argument history index }
    {
        if matches!(self.phase, Phase::Over) {
            return None;
        }
        let mut top = self.top;
        let _want = top.seek(program);
        match top.statement(program) {
            Some(statement) => wrap_of(&top.registers, statement),
            None => None,
        }
    }

    /// What is asked for next, after the statements that ask nothing. Called again before an answer, it gives the same. Takes no memory.
    pub fn next<B: Allocator>(&mut self, program: &Program<B>) -> Want
        requires stands { Stands program.now.functions self.old }
        requires on { self.old.phase ≢ Phase.Over }
        ensures stands { Stands program.now.functions self.new }
        ensures wanting { self.new.phase ≡ Phase.Wanting }
        ensures room { self.new.has_room ≡ self.old.has_room }
        ensures asks { (x : Exchange) → Wants program.now.functions self.new x → (x.act ≡ result.act) × (x.line ≡ result.line) }
        ensures after { (function argument : ℕ) (history : List Exchange) →
            IsAfter program.now.functions function argument history self.old →
            IsAfter program.now.functions function argument history self.new }
        ensures only { (function argument : ℕ) (history : List Exchange) (x : Exchange) →
            IsAfter program.now.functions function argument history self.old →
            CanFollow program.now.functions function argument history x ↔ Wants program.now.functions self.new x }
    {
        let want = self.top.seek(program);
        self.phase = Phase::Wanting;
        want
    }

    /// Whether the next answer takes no memory.
    pub fn has_room(&self) -> bool
        ensures { result ≡ self.now.has_room }
    {
        self.has_room
    }

    /// Makes room for a call, so that the next answer takes no memory. A refused growth answers `AllocError` and changes nothing.
    pub fn reserve_call(&mut self) -> Result<(), AllocError>
        ensures ok { OnOk result (self.new ≡ record self.old { has_room = true }) }
        ensures err { OnErr result (self.new ≡ self.old) }
        ensures only_without_room { OnErr result (self.old.has_room ≡ false) }
    {
        if !self.has_room {
            self.callers.reserve(1)?;
            self.has_room = true;
        }
        Ok(())
    }

    /// Answers what is wanted; then nothing is wanted until `next`. Room for a call is kept behind an act that is none. `Strange` where no
    /// such answer belongs to the wanted act or nothing is wanted, and `Memory` where a call finds none.
    pub fn answer<B: Allocator>(
        &mut self,
        program: &Program<B>,
        answer: &Answer,
    ) -> Result<(), FrameFault>
        requires stands { Stands program.now.functions self.old }
        ensures stands { Stands program.now.functions self.new }
        ensures belongs { OnOk result (MayAnswer program.now.functions self.old answer.now) }
        ensures after { OnOk result ((function argument : ℕ) (history : List Exchange) (x : Exchange) →
            IsAfter program.now.functions function argument history self.old → Wants program.now.functions self.old x →
            x.answer ≡ answer.now → IsAfter program.now.functions function argument (history ++ x ∷ []) self.new) }
        ensures unasked { OnOk result (self.new.phase ≢ Phase.Wanting) }
        ensures room { OnOk result ((x : Exchange) → Wants program.now.functions self.old x → x.act ≢ Act.Call →
            self.new.has_room ≡ self.old.has_room) }
        ensures err { OnErr result (self.new ≡ self.old) }
        ensures strange { result ≡ Err FrameFault.Strange → MayAnswer program.now.functions self.old answer.now → ⊥ }
        ensures memory { result ≡ Err FrameFault.Memory →
            (self.old.has_room ≡ false) × ((x : Exchange) → Wants program.now.functions self.old x → x.act ≡ Act.Call)
            × MayAnswer program.now.functions self.old answer.now }
    {
        if !matches!(self.phase, Phase::Wanting) {
            return Err(FrameFault::Strange);
        }
        self.answer_wanted(program, answer)
    }

    /// Answers the act that is wanted.
    fn answer_wanted<B: Allocator>(
        &mut self,
        program: &Program<B>,
        answer: &Answer,
    ) -> Result<(), FrameFault>
        requires stands { Stands program.now.functions self.old }
        requires wanting { self.old.phase ≡ Phase.Wanting }
        ensures { IsAnswered program.now.functions self.old answer.now result self.new }
    {
        match self.top.statement(program) {
            None => self.leave(answer),
            Some(
                Statement::Call {
                    function,
                    argument,
                    ..
                },
            ) => match answer {
                Answer::Same => {
                    let argument = value_of(&self.top.registers, argument);
                    self.call(program, function, argument)
                }
                _ => Err(FrameFault::Strange),
            },
            Some(statement) => {
                if apply_answer(&mut self.top.registers, statement, answer) {
                    self.go_on(program, answer);
                    Ok(())
                } else {
                    Err(FrameFault::Strange)
                }
            }
        }
    }

    /// Goes behind the statement that was answered.
    fn go_on<B: Allocator>(&mut self, program: &Program<B>, answer: &Answer)
        requires place { IsInPlace program.now.functions self.old.top }
        ensures place { IsInPlace program.now.functions self.new.top }
        ensures function { self.new.top.function ≡ self.old.top.function }
        ensures registers { self.new.top.registers ≡ self.old.top.registers }
        ensures join { self.new.top.join ≡ join_after answer.now self.old.top.join }
        ensures behind { (statement : Statement) →
            statement_of program.now.functions self.old.top ≡ Some statement → IsTrue (is_plain statement) →
            left program.now.functions self.old.top ≡ Step statement (left program.now.functions self.new.top) }
        ensures rest { (self.new.callers ≡ self.old.callers) × (self.new.phase ≡ Phase.Running) × (self.new.has_room ≡ self.old.has_room) }
    {
        self.top.join = join_after(self.top.join, answer);
        self.top.step(program);
        self.phase = Phase::Running;
    }

    /// Begins a called function.
    fn call<B: Allocator>(
        &mut self,
        program: &Program<B>,
        function: u32,
        argument: u64,
    ) -> Result<(), FrameFault>
        requires place { IsInPlace program.now.functions self.old.top }
        ensures ok { OnOk result (IsCalled program.now.functions function argument self.old self.new) }
        ensures err { OnErr result (self.new ≡ self.old) }
        ensures memory { IfErr result (λ fault. (fault ≡ FrameFault.Memory) × (self.old.has_room ≡ false)) }
    {
        match self.reserve_call() {
            Ok(()) => {}
            Err(_) => return Err(FrameFault::Memory),
        }
        let mut caller = self.top;
        caller.step(program);
        self.callers.push_reserved(caller);
        self.has_room = false;
        self.top = Activation::begin(function, argument);
        self.phase = Phase::Running;
        Ok(())
    }

    /// Leaves the topmost function.
    fn leave(&mut self, answer: &Answer) -> Result<(), FrameFault>
        ensures ok { OnOk result (IsLeft answer.now self.old self.new) }
        ensures returned { OnOk result (IsReturned (began_by self.old.callers) answer.now) }
        ensures unasked { OnOk result (self.new.phase ≢ Phase.Wanting) }
        ensures room { OnOk result (self.new.has_room ≡ self.old.has_room) }
        ensures err { OnErr result (self.new ≡ self.old) }
        ensures strange { IfErr result (λ fault. (fault ≡ FrameFault.Strange) × (IsReturned (began_by self.old.callers) answer.now → ⊥)) }
    {
        match answer {
            Answer::Resumed => match self.callers.pop() {
                Some(caller) => {
                    self.top = caller;
                    self.phase = Phase::Running;
                    Ok(())
                }
                None => Err(FrameFault::Strange),
            },
            Answer::Ended => self.end(),
            Answer::EndedJoined(_) => self.end(),
            Answer::Finished => self.end(),
            _ => Err(FrameFault::Strange),
        }
    }

    /// Ends, where no called function is on top.
    fn end(&mut self) -> Result<(), FrameFault>
        ensures ok { OnOk result ((self.old.callers ≡ []) × (self.new.top ≡ self.old.top)
            × (self.new.callers ≡ []) × (self.new.phase ≡ Phase.Over)) }
        ensures room { OnOk result (self.new.has_room ≡ self.old.has_room) }
        ensures err { OnErr result (self.new ≡ self.old) }
        ensures strange { IfErr result (λ fault. (fault ≡ FrameFault.Strange) × (self.old.callers ≢ [])) }
    {
        if self.callers.is_empty() {
            self.phase = Phase::Over;
            Ok(())
        } else {
            Err(FrameFault::Strange)
        }
    }
}

/// The open block's join after an answer to a statement other than a call.
fn join_after(join: Option<u32>, answer: &Answer) -> Option<u32>
    ensures { result ≡ join_after answer.now join }
{
    match answer {
        Answer::Split(strands) => Some(strands.join),
        Answer::Same => None,
        Answer::Joined(_) => None,
        Answer::Waits => None,
        _ => join,
    }
}
