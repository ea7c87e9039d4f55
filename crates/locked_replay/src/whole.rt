//! Whole runs.

ghost use Rattle.std.specs.Prelude.{◌≡◌, ◌↔◌, true, reverse, IsTrue, IfOk, IfErr, OnOk, Err};
ghost use Rattle.model_races.specs.Memory.{IsMemory};
ghost use Rattle.model_histories.specs.Extensions.{IsCleanAnswer, IsClean};
ghost use Rattle.model_histories.specs.States.{GateState};
ghost use Rattle.race_gate.specs.States.{IsRight};
ghost use Rattle.program_text.specs.Shapes.{shape_in};
ghost use Rattle.model_runs.specs.Runs.{IsFinishedRun};
ghost use Rattle.model_runs.specs.Laws.{IsElided, AllAgree};
ghost use Rattle.locked_replay.specs.Faults.{HasFault};
ghost use Rattle.locked_replay.specs.Logs.{AreWhole};
ghost use Rattle.locked_replay.specs.Strange.{run_fault_of, IsStrangeGate};

use crate::fault::RunFault;
use crate::locked::LockedGate;
use crate::logs::check_logs;
use crate::same::is_same_shape;
use crate::worker::WorkerLog;
use packed_history::Entries;
use program_text::Program;
use race_gate::{Answer, ShortGate};
use run_replay::{ReplayFault, follow};
use std::alloc::{AllocError, Allocator, Global};
use std::sync::ledger::Ledger;

/// A finished run of a program.
#[derive(Drop)]
pub struct Whole<A: Allocator = Global> {
    /// The entries of its history, the oldest first.
    pub entries: Entries<A>,
    /// What the cells hold at its end.
    pub memory: Vec<u64, A>,
    /// Whether nothing was refused.
    pub clean: bool,
}

/// Whether the answer is no refusal.
fn is_clean_answer(answer: Answer) -> bool
    ensures { IsTrue result ↔ IsCleanAnswer answer }
{
    !matches!(answer, Answer::Refused { .. } | Answer::Unset)
}

/// Whether nothing is refused or unset in these entries.
pub fn is_clean<A: Allocator>(entries: &Entries<A>) -> bool
    ensures { IsTrue result ↔ IsClean entries.now.items }
{
    if entries.are_clean() {
        return true;
    }
    for at in 0..entries.len() {
        if !is_clean_answer(entries.get(at).answer) {
            return false;
        }
    }
    true
}

/// The fault of a history that is no finished run.
fn fault_of(fault: ReplayFault) -> RunFault
    ensures told { result ≡ run_fault_of fault }
    ensures faults { ¬ (result ≡ RunFault.Limit) × ¬ (result ≡ RunFault.Stopped) × ¬ (result ≡ RunFault.Torn) }
{
    match fault {
        ReplayFault::Strange(_) | ReplayFault::Unfinished => RunFault::Strange,
        ReplayFault::Memory => RunFault::Memory,
    }
}

/// Whether the gate is of the program's shape.
fn has_its_shape<A: Allocator + Copy, B: Allocator>(
    alloc: A,
    program: &Program<B>,
    gate: &ShortGate<A>,
) -> Result<bool, AllocError>
    ensures { IfOk result (λ same. IsTrue same ↔ gate.now.shape ≡ shape_in program.now) }
{
    let shape = program.shape(alloc)?;
    Ok(is_same_shape(gate.shape(), &shape))
}

/// Whether the gate is of the program's shape, and its history a finished run of the program. Strange where not, and Memory at a refused
/// growth.
pub fn check_run<A: Allocator + Copy, B: Allocator>(
    alloc: A,
    program: &Program<B>,
    gate: &ShortGate<A>,
) -> Result<(), RunFault>
    ensures shape { OnOk result (gate.now.shape ≡ shape_in program.now) }
    ensures run { OnOk result (IsFinishedRun program.now.functions (shape_in program.now) gate.now.history) }
    ensures strange { result ≡ Err RunFault.Strange → IsStrangeGate program.now.functions (shape_in program.now) gate.now }
    ensures faults { ¬ (result ≡ Err RunFault.Limit) × ¬ (result ≡ Err RunFault.Stopped) × ¬ (result ≡ Err RunFault.Torn) }
{
    if !has_its_shape(alloc, program, gate)? {
        return Err(RunFault::Strange);
    }
    match follow(alloc, program, gate.kept_history()) {
        Ok(()) => Ok(()),
        Err(fault) => Err(fault_of(fault)),
    }
}

/// The finished run of the program that the gate's history is, or what [`check_run`] answers of this gate. What else the gate kept is let go
/// before the replay, which may have its room.
pub fn whole_of_gate<A: Allocator + Copy, B: Allocator>(
    alloc: A,
    program: &Program<B>,
    gate: ShortGate<A>,
) -> Result<Whole<A>, RunFault>
    ensures shape { OnOk result (gate.shape ≡ shape_in program.now) }
    ensures entries { IfOk result (λ whole. reverse whole.entries.items ≡ gate.history) }
    ensures memory { IfOk result (λ whole. whole.memory.items ≡ gate.memory) }
    ensures clean { IfOk result (λ whole. IsTrue whole.clean ↔ IsClean (reverse whole.entries.items)) }
    ensures run { IfOk result (λ whole. IsFinishedRun program.now.functions (shape_in program.now) (reverse whole.entries.items)) }
    ensures strange { result ≡ Err RunFault.Strange → IsStrangeGate program.now.functions (shape_in program.now) gate }
    ensures faults { ¬ (result ≡ Err RunFault.Limit) × ¬ (result ≡ Err RunFault.Stopped) × ¬ (result ≡ Err RunFault.Torn) }
{
    if !has_its_shape(alloc, program, &gate)? {
        return Err(RunFault::Strange);
    }
    let (entries, memory) = gate.into_parts();
    match follow(alloc, program, &entries) {
        Ok(()) => {
            let clean = is_clean(&entries);
            Ok(Whole {
                entries,
                memory,
                clean,
            })
        }
        Err(fault) => Err(fault_of(fault)),
    }
}

/// Takes the gate out of its lock. Ok where the logs are whole and the history is a finished run of the program; where nothing was refused
/// in it, it is the program's serial elision, and every run of the program agrees with it. Otherwise it answers what [`check_logs`] says of
/// the gate and the logs, and then what [`check_run`] says of the gate, and drops both.
pub fn gather<L: Ledger, A: Allocator + Copy, B: Allocator>(
    alloc: A,
    program: &Program<B>,
    locked: LockedGate<L, A>,
    logs: Vec<WorkerLog<L, A>, A>,
) -> Result<Whole<A>, RunFault>
    ensures run { IfOk result (λ whole. IsFinishedRun program.now.functions (shape_in program.now) (reverse whole.entries.items)) }
    ensures logs { IfOk result (λ whole. AreWhole whole.entries.items logs.items) }
    ensures memory { IfOk result (λ whole. IsMemory (shape_in program.now).cells (reverse whole.entries.items) whole.memory.items) }
    ensures clean { IfOk result (λ whole. IsTrue whole.clean ↔ IsClean (reverse whole.entries.items)) }
    ensures elided { IfOk result (λ whole.
        IsTrue whole.clean → IsElided program.now.functions (shape_in program.now) (reverse whole.entries.items)) }
    ensures agree { IfOk result (λ whole.
        IsTrue whole.clean → AllAgree program.now.functions (shape_in program.now) (reverse whole.entries.items)) }
    ensures faults { IfErr result (λ fault.
        (gate : GateState) × IsRight gate × HasFault program.now.functions (shape_in program.now) gate logs.items fault) }
    ensures limit { ¬ (result ≡ Err RunFault.Limit) }
{
    let gate = locked.into_gate();
    check_logs(alloc, &gate, logs.as_slice())?;
    // The replay may have the room of the receipts.
    drop(logs);
    whole_of_gate(alloc, program, gate)
}
