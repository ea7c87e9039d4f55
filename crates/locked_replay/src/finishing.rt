//! Whether the logs of all workers tell of a run's end.

ghost use Rattle.std.specs.Prelude.{◌≡◌, true};
ghost use Rattle.std.specs.List.{list_any};
ghost use Rattle.locked_replay.specs.Finishing.{finishes, some_finished, finished_logs};

use crate::fault::RunFault;
use crate::worker::WorkerLog;
use packed_history::Receipts;
use race_gate::{Answer, Receipt};
use std::alloc::Allocator;
use std::sync::ledger::Ledger;

fn is_finishing(receipt: Receipt) -> bool
    ensures { result ≡ finishes receipt.answer }
{
    matches!(receipt.answer, Answer::Finished)
}

fn has_finished<A: Allocator>(receipts: &Receipts<A>) -> bool
    ensures { result ≡ list_any (λ receipt. finishes receipt.answer) receipts.now.items }
{
    for at in 0..receipts.len() {
        if is_finishing(receipts.get(at)) {
            return true;
        }
    }
    false
}

/// Whether the last receipt is that of the run's end.
fn is_finished_last<A: Allocator>(receipts: &Receipts<A>) -> bool
    ensures { result ≡ true → list_any (λ receipt. finishes receipt.answer) receipts.now.items ≡ true }
{
    let count = receipts.len();
    if count == 0 {
        return false;
    }
    is_finishing(receipts.get(count - 1))
}

/// Whether some log ends with the receipt of the run's end, as that of the worker does that saw it.
fn is_some_log_finished_last<L: Ledger, A: Allocator>(logs: &[WorkerLog<L, A>]) -> bool
    ensures { result ≡ true → some_finished logs.now ≡ true }
{
    for log in logs {
        if is_finished_last(&log.receipts) {
            return true;
        }
    }
    false
}

/// Whether some receipt is that of the run's end. The ends of the logs are looked at first.
fn is_some_log_finished<L: Ledger, A: Allocator>(logs: &[WorkerLog<L, A>]) -> bool
    ensures { result ≡ some_finished logs.now }
{
    if is_some_log_finished_last(logs) {
        return true;
    }
    logs.iter().any(|log| has_finished(&log.receipts))
}

/// The logs, where some receipt is that of the run's end, and else Strange.
pub fn finished_logs<L: Ledger, A: Allocator>(
    logs: Vec<WorkerLog<L, A>, A>,
) -> Result<Vec<WorkerLog<L, A>, A>, RunFault>
    ensures { result ≡ finished_logs logs }
{
    if is_some_log_finished(logs.as_slice()) {
        Ok(logs)
    } else {
        Err(RunFault::Strange)
    }
}
