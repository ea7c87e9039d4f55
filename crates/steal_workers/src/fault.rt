//! Which fault a run answers.

ghost use Rattle.std.specs.Prelude.{◌≡◌};
ghost use Rattle.steal_workers.specs.Faults.{rank, refusal_of, meeting_of, refused_thread, IsFirst};

use crate::lot::LotFault;
use frame_steps::FrameFault;
use locked_replay::RunFault;

/// What a refused answer means for the run.
pub(crate) fn frame_fault_of(fault: FrameFault) -> RunFault
    ensures { result ≡ refusal_of fault }
{
    match fault {
        FrameFault::Strange => RunFault::Strange,
        FrameFault::Memory => RunFault::Memory,
    }
}

/// What a fault of the lot means for the run.
pub(crate) fn lot_fault_of(fault: LotFault) -> RunFault
    ensures { result ≡ meeting_of fault }
{
    match fault {
        LotFault::Torn => RunFault::Torn,
        LotFault::Memory => RunFault::Memory,
    }
}

/// The fault of threads that could not all be started.
pub fn thread_fault_of(all: bool) -> Option<RunFault>
    ensures { result ≡ refused_thread all }
{
    if all { None } else { Some(RunFault::Memory) }
}

fn rank(fault: RunFault) -> u8
    ensures { result ≡ rank fault }
{
    match fault {
        RunFault::Limit => 1,
        RunFault::Torn => 2,
        RunFault::Strange => 3,
        RunFault::Memory => 4,
        RunFault::Stopped => 5,
    }
}

/// The fault that a run answers for these two.
pub fn first_of(one: Option<RunFault>, other: Option<RunFault>) -> Option<RunFault>
    ensures { IsFirst one other result }
{
    match (one, other) {
        (Some(fault), Some(second)) => {
            if rank(second) < rank(fault) {
                Some(second)
            } else {
                Some(fault)
            }
        }
        (Some(fault), None) | (None, Some(fault)) => Some(fault),
        (None, None) => None,
    }
}
