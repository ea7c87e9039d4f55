//! The calls that follow the strands of the run.

ghost use Rattle.std.specs.Prelude.{◌≡◌, ◌≢◌, ◌↔◌, ◌≤◌, IsTrue};
ghost use Rattle.model_strands.specs.Blocks.{IsSynced, root, stack};
ghost use Rattle.model_serial_runs.specs.Current.{current};
ghost use Rattle.serial_judge.specs.Runs.{Run};
ghost use Rattle.serial_judge.specs.Follows.{Follows};
ghost use Rattle.serial_judge.specs.Control.{most_events, FollowsCall, FollowsSpawn, FollowsSync, FollowsReturn};
ghost use Rattle.judge_library.specs.Begun.{IsHeld};
ghost use Rattle.judge_library.specs.Faults as faults;

use crate::fault::number_of;
use crate::handle::{Handle, give, take};
use serial_judge::Fault;
use std::alloc::Global;

/// The running strand calls a function, and goes on in it.
#[unsafe(no_mangle)]
pub extern "C" fn cilkcheck_judge_call(alloc: Global, judge: &mut Handle) -> u32
    requires { IsTrue judge.old.is_begun }
    ensures taken { result ≡ 0 → (run : Run) → Follows judge.old.held.judge run → FollowsCall judge.new.held.judge run }
    ensures refused { result ≢ 0 → judge.new.held ≡ judge.old.held }
    ensures events { (result ≡ faults.number_of Fault.Events) ↔ (most_events ≤ judge.old.held.judge.events) }
    ensures held { IsHeld judge.new }
{
    let mut held = take(alloc, judge);
    let answer = match held.judge.call() {
        Ok(()) => 0,
        Err(fault) => number_of(fault),
    };
    give(judge, held);
    answer
}

/// The running strand spawns a function at this site, and the run goes on in it.
#[unsafe(no_mangle)]
pub extern "C" fn cilkcheck_judge_spawn(alloc: Global, judge: &mut Handle, site: u32) -> u32
    requires { IsTrue judge.old.is_begun }
    ensures taken { result ≡ 0 → (run : Run) → Follows judge.old.held.judge run → FollowsSpawn judge.new.held.judge site run }
    ensures refused { result ≢ 0 → judge.new.held ≡ judge.old.held }
    ensures events { (result ≡ faults.number_of Fault.Events) ↔ (most_events ≤ judge.old.held.judge.events) }
    ensures held { IsHeld judge.new }
{
    let mut held = take(alloc, judge);
    let answer = match held.judge.spawn(site) {
        Ok(()) => 0,
        Err(fault) => number_of(fault),
    };
    give(judge, held);
    answer
}

/// The running strand syncs in its function.
#[unsafe(no_mangle)]
pub extern "C" fn cilkcheck_judge_sync(alloc: Global, judge: &mut Handle) -> u32
    requires { IsTrue judge.old.is_begun }
    ensures taken { result ≡ 0 → (run : Run) → Follows judge.old.held.judge run → FollowsSync judge.new.held.judge run }
    ensures refused { result ≢ 0 → judge.new.held ≡ judge.old.held }
    ensures events { (result ≡ faults.number_of Fault.Events) ↔ (most_events ≤ judge.old.held.judge.events) }
    ensures held { IsHeld judge.new }
{
    let mut held = take(alloc, judge);
    let answer = match held.judge.sync() {
        Ok(()) => 0,
        Err(fault) => number_of(fault),
    };
    give(judge, held);
    answer
}

/// The function of the running strand returns. The run goes on in its caller, or beside its spawn.
#[unsafe(no_mangle)]
pub extern "C" fn cilkcheck_judge_return(alloc: Global, judge: &mut Handle) -> u32
    requires { IsTrue judge.old.is_begun }
    ensures taken { result ≡ 0 → (run : Run) → Follows judge.old.held.judge run → FollowsReturn judge.new.held.judge run }
    ensures refused { result ≢ 0 → judge.new.held ≡ judge.old.held }
    ensures unsynced { (run : Run) → Follows judge.old.held.judge run →
        (result ≡ faults.number_of Fault.Unsynced) ↔ (IsSynced (stack run.history (current run.history)) → ⊥) }
    ensures at_root { (run : Run) → Follows judge.old.held.judge run →
        (result ≡ faults.number_of Fault.Root) ↔ (stack run.history (current run.history) ≡ root) }
    ensures held { IsHeld judge.new }
{
    let mut held = take(alloc, judge);
    let answer = match held.judge.returns() {
        Ok(()) => 0,
        Err(fault) => number_of(fault),
    };
    give(judge, held);
    answer
}
