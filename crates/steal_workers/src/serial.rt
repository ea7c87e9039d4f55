//! One worker by itself, which runs each child before what follows its spawn, as a program of Cilk runs on one processor.

ghost use Rattle.std.specs.Prelude.{◌≡◌, ◌<◌, IfOk, IfSome, length};

use crate::task::{Spare, Task};
use frame_steps::Target;
use locked_replay::RunFault;
use program_text::Program;
use race_gate::{Answer, ShortGate};
use std::alloc::{Allocator, Global};
use std::mem;

/// The most requests that a gate answers.
const MOST_REQUESTS: u32 = 1_000_000;

/// Tasks that wait for the child that they spawned last, the innermost at the end.
type Waiting<'p, A> = Vec<Task<'p, A>, A>;

/// Asks the gate what a task asks next. The task's frame takes the answer, which is given with the function that was spawned.
fn ask_next<A: Allocator + Clone>(
    gate: &mut ShortGate<A>,
    task: &mut Task<'_, A>,
) -> Result<(Answer, Option<Target>), RunFault>
    ensures target { IfOk result (λ asked. IfSome asked.1 (λ target. target.function < length task.old.program.now.functions)) }
    ensures program { task.new.program ≡ task.old.program }
{
    let next = task.next_request()?;
    let receipt = gate.judge(next.request)?;
    task.answer(&receipt.answer)?;
    Ok((receipt.answer, next.target))
}

/// Goes on behind an answer: with the task, with the child that it spawned, or with what waited for its return. Answers whether the run
/// goes on.
fn go_on<'p, A: Allocator + Copy>(
    waiting: &mut Waiting<'p, A>,
    spare: &mut Spare<A>,
    task: &mut Task<'p, A>,
    answer: Answer,
    target: Option<Target>,
) -> Result<bool, RunFault>
    requires { IfSome target (λ target. target.function < length task.old.program.now.functions) }
{
    match answer {
        Answer::Split(strands) => {
            let Some(target) = target else {
                return Err(RunFault::Strange);
            };
            waiting.reserve(1)?;
            let child = Task::for_child(task.program, strands.child, target, spare)?;
            let spawner = mem::replace(task, child);
            waiting.push_reserved(spawner.on(strands.next));
            Ok(true)
        }
        Answer::Joined(join) => {
            task.strand = join;
            Ok(true)
        }
        Answer::Ended => {
            let Some(spawner) = waiting.pop() else {
                return Err(RunFault::Strange);
            };
            mem::replace(task, spawner).retire(spare);
            Ok(true)
        }
        // Each child has returned before its spawner goes on.
        Answer::Waits | Answer::EndedJoined(_) => Err(RunFault::Strange),
        Answer::Finished => Ok(false),
        Answer::Same
        | Answer::Resumed
        | Answer::Granted
        | Answer::Value(_)
        | Answer::Refused { .. }
        | Answer::Unset => Ok(true),
    }
}

/// Runs a program to its end by asking this gate, each child before what follows its spawn. The gate is to be of the program and to have
/// answered nothing. Errors where the gate does not answer, where it has answers that no frame takes, and where there is no memory.
pub fn run_serially<A: Allocator + Copy>(
    alloc: A,
    program: &Program<Global>,
    gate: &mut ShortGate<A>,
) -> Result<(), RunFault> {
    let mut spare = Vec::new(alloc);
    let mut waiting = Vec::new(alloc);
    let mut task = Task::root(program, &mut spare)?;
    for _ in 0..=MOST_REQUESTS {
        let (answer, target) = ask_next(gate, &mut task)?;
        if !go_on(&mut waiting, &mut spare, &mut task, answer, target)? {
            return Ok(());
        }
    }
    Err(RunFault::Limit)
}
