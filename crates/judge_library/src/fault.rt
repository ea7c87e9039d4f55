//! Faults as numbers.

ghost use Rattle.std.specs.Prelude.{◌≡◌, ◌<◌};
ghost use Rattle.judge_library.specs.Faults as faults;

use serial_judge::Fault;

/// There is no kind with the number that was passed.
pub(crate) const BAD_KIND: u32 = 6;

/// No mark has begun, or none has ended.
pub(crate) const NO_MARKS: u32 = 7;

/// The number of a fault in `judge.h`, where 0 says that the call was taken.
pub(crate) fn number_of(fault: Fault) -> u32
    ensures is { result ≡ faults.number_of fault }
    ensures refused { 0 < result }
    ensures known { result < 6 }
{
    match fault {
        Fault::Unsynced => 1,
        Fault::Root => 2,
        Fault::Records => 3,
        Fault::Events => 4,
        Fault::Memory => 5,
    }
}
