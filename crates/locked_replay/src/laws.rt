//! The laws of whole runs, each as the contract of a function that does nothing: that of both together, and passed on with it the two that
//! it stands on, a clean run as the serial elision and a clean run as one that speaks for every schedule.

ghost use Rattle.locked_replay.specs.Laws.{WholeLaw};

pub use law_elision::laws::elision_law;
pub use law_schedules::laws::clean_law;

/// A finished run of a sound program in which nothing was refused is the program's serial elision, what `elide` tells of that is so of the
/// run, and it speaks for every schedule: every run of the program agrees with it.
pub fn whole_law()
    ensures { WholeLaw }
{}
