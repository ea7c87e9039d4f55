//! One entry: the turn of its frame, and the gate's answer.

ghost use Rattle.std.specs.Prelude.{◌≡◌, ◌≢◌, ◌↔◌, ◌<◌, length, IsTrue, IfOk, IfSome, OnOk, Err};
ghost use Rattle.model_histories.specs.States.{GateState};
ghost use Rattle.model_histories.specs.Faults.{HasCause};
ghost use Rattle.race_gate.specs.Cores.{IsCoreOf};
ghost use Rattle.model_programs.specs.Exchanges.{Exchange};
ghost use Rattle.frame_steps.specs.Frames.{Stands, Wants};
ghost use Rattle.run_replay.specs.Turns.{IsTurn, HasNoTurn, IsEntered, IsOdd};
ghost use Rattle.run_replay.specs.declared.turn.Misfit.{Misfit};

use frame_steps::{Frame, FrameFault, Target};
use model_accesses::Act;
use packed_history::is_same_answer;
use program_text::Program;
use race_gate::{Core, Entry, GateFault};
use std::alloc::Allocator;

/// Why an entry is not played.
#[derive(Clone, Copy)]
pub enum Misfit {
    /// It does not follow, or is not answered so, or is one too many.
    Strange,
    /// There is no memory.
    Memory,
}

fn is_same_act(one: Act, other: Act) -> bool
    ensures { IsTrue result ↔ one ≡ other }
{
    one == other
}

fn is_spawn(act: Act) -> bool
    ensures { IsTrue result ↔ act ≡ Act.Spawn }
{
    matches!(act, Act::Spawn)
}

/// The function that a frame spawns, which wants this act. The frame is not asked where it can be none.
fn spawn_target<A: Allocator, B: Allocator>(
    frame: &Frame<A>,
    program: &Program<B>,
    act: Act,
) -> Option<Target>
    requires { Stands program.now.functions frame.now }
    ensures target { (x : Exchange) → Wants program.now.functions frame.now x → x.act ≡ act → result ≡ x.target }
    ensures there { IfSome result (λ target. target.function < length program.now.functions) }
{
    if is_spawn(act) {
        frame.spawns(program)
    } else {
        None
    }
}

/// Goes on with a frame by an entry, and gives the function that it spawns.
pub fn advance_frame<A: Allocator, B: Allocator>(
    frame: &mut Frame<A>,
    program: &Program<B>,
    entry: Entry,
) -> Result<Option<Target>, Misfit>
    requires stands { Stands program.now.functions frame.old }
    ensures ok { IfOk result (λ target. IsTurn program.now.functions entry target frame.old frame.new) }
    ensures strange { result ≡ Err Misfit.Strange → HasNoTurn program.now.functions entry frame.old }
{
    if frame.is_over() {
        return Err(Misfit::Strange);
    }
    let want = frame.next(program);
    if !is_same_act(want.act, entry.request.act) || want.line != entry.request.line {
        return Err(Misfit::Strange);
    }
    let target = spawn_target(frame, program, want.act);
    match frame.answer(program, &entry.answer) {
        Ok(()) => Ok(target),
        Err(FrameFault::Strange) => Err(Misfit::Strange),
        Err(FrameFault::Memory) => Err(Misfit::Memory),
    }
}

/// Has a core judge an entry's request, and compares the answer. A request that has another fault of the gate than want of
/// memory is strange, so want of memory is told only where it has none.
pub fn confirm<A: Allocator + Clone>(core: &mut Core<A>, entry: Entry) -> Result<(), Misfit>
    ensures ok { (state : GateState) → IsCoreOf core.old state →
        OnOk result ((next : GateState) × IsCoreOf core.new next × IsEntered entry state next) }
    ensures strange { (state : GateState) → IsCoreOf core.old state → result ≡ Err Misfit.Strange → IsOdd entry state }
    ensures fault { (state : GateState) → IsCoreOf core.old state →
        (fault : GateFault) → fault ≢ GateFault.Memory → HasCause state entry.request fault → result ≡ Err Misfit.Strange }
{
    match core.judge(entry.request) {
        Ok(answer) => {
            if is_same_answer(answer, entry.answer) {
                Ok(())
            } else {
                Err(Misfit::Strange)
            }
        }
        Err(GateFault::Memory) => Err(Misfit::Memory),
        Err(_) => Err(Misfit::Strange),
    }
}
