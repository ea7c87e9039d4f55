//! Whether the logs of all workers are those of a gate.

ghost use Rattle.std.specs.Prelude.{◌≡◌, ◌↔◌, ◌≤◌, ◌^◌, [], true, length, reverse, IsTrue, IfOk, OnOk, MatchOption, Err};
ghost use Rattle.std.specs.Bool.{MatchBool};
ghost use Rattle.std.specs.List.{All, sum_by};
ghost use Rattle.locked_replay.specs.Receipts.{Rises, AreMarked};
ghost use Rattle.locked_replay.specs.Logs.{all_receipts, all_asked, AreTheirs, AreWhole};

use crate::fault::RunFault;
use crate::receipts::mark_all;
use crate::worker::WorkerLog;
use packed_history::Entries;
use race_gate::ShortGate;
use std::alloc::{AllocError, Allocator};
use std::sync::ledger::Ledger;

/// How many receipts there are in all logs, or None where no u64 holds it.
fn count_of<L: Ledger, A: Allocator>(logs: &[WorkerLog<L, A>]) -> Option<u64>
    ensures { MatchOption result
        (2 ^ 64 ≤ sum_by (λ log. length log.receipts.items) logs.now)
        (λ count. count ≡ sum_by (λ log. length log.receipts.items) logs.now) }
{
    let mut count = 0u64;
    for log in logs {
        count = count.checked_add(log.receipts.len() as u64)?;
    }
    Some(count)
}

/// Marks the entries whose receipts are in the logs, where the receipts rise in number in each log, and no entry has two of them.
fn mark_logs<L: Ledger, A: Allocator>(
    marks: &mut [bool],
    entries: &Entries<A>,
    logs: &[WorkerLog<L, A>],
) -> bool
    requires { length marks.old ≡ length entries.now.items }
    ensures { AreMarked marks.old entries.now.items [] →
        MatchBool result
        (All (λ log. Rises log.receipts.items) logs.now × AreMarked marks.new entries.now.items (all_receipts logs.now))
        (¬ (AreTheirs entries.now.items logs.now)) }
{
    for log in logs {
        if !mark_all(marks, entries, &log.receipts) {
            return false;
        }
    }
    true
}

/// Whether in each log the receipts rise in number, and all of them together are those of the entries, each once.
fn are_theirs<L: Ledger, A: Allocator>(
    alloc: A,
    entries: &Entries<A>,
    logs: &[WorkerLog<L, A>],
) -> Result<bool, AllocError>
    ensures { IfOk result (λ theirs. IsTrue theirs ↔ AreTheirs entries.now.items logs.now) }
{
    let length = entries.len();
    let Some(count) = count_of(logs) else {
        return Ok(false);
    };
    if count != length as u64 {
        return Ok(false);
    }
    let mut marks = vec![in alloc; false; length]?;
    Ok(mark_logs(marks.as_mut_slice(), entries, logs))
}

/// What was asked on all seats, or None where no u64 holds it.
fn asked_of<L: Ledger, A: Allocator>(logs: &[WorkerLog<L, A>]) -> Option<u64>
    ensures { MatchOption result (2 ^ 64 ≤ all_asked logs.now) (λ asked. asked ≡ all_asked logs.now) }
{
    let mut asked = 0u64;
    for log in logs {
        asked = asked.checked_add(log.seat.asked())?;
    }
    Some(asked)
}

/// Whether the logs are whole: in each the receipts rise in number, all of them together are those of the gate's history, each once, and
/// as much was asked on all seats. Stopped where the gate is stopped, and else Torn only where they aren't whole.
pub fn check_logs<L: Ledger, A: Allocator + Clone>(
    alloc: A,
    gate: &ShortGate<A>,
    logs: &[WorkerLog<L, A>],
) -> Result<(), RunFault>
    ensures whole { OnOk result (AreWhole (reverse gate.now.history) logs.now) }
    ensures stopped { (result ≡ Err RunFault.Stopped) ↔ (gate.now.stopped ≡ true) }
    ensures torn { result ≡ Err RunFault.Torn → ¬ (AreWhole (reverse gate.now.history) logs.now) }
    ensures faults { ¬ (result ≡ Err RunFault.Limit) × ¬ (result ≡ Err RunFault.Strange) }
{
    if gate.is_stopped() {
        return Err(RunFault::Stopped);
    }
    let entries = gate.kept_history();
    let length = entries.len() as u64;
    let Ok(theirs) = are_theirs(alloc, entries, logs) else {
        return Err(RunFault::Memory);
    };
    if !theirs {
        return Err(RunFault::Torn);
    }
    match asked_of(logs) {
        Some(asked) if asked == length => Ok(()),
        _ => Err(RunFault::Torn),
    }
}
