//! The laws of serial runs, each the contract of a function that does nothing.

ghost use Rattle.law_serial_runs.specs.Examples.{WorkedRuns};
ghost use Rattle.law_serial_runs.specs.Laws.{CurrentLaw, LastEventLaw, DirectLaw, StackLaw};
ghost use Rattle.law_serial_runs.specs.Laws.{SerialParallelLaw, StabilityLaw, HebrewLastLaw, KeptLaw};
ghost use Rattle.law_serial_runs.specs.Laws.{SpansLaw, PassedLaw, PassedMoreLaw, PassingLaw, OpenLaw, FreshLaw, ChildLaw, SpawnLaw, BlocksLaw, FramesLaw};
ghost use Rattle.law_serial_runs.specs.Laws.{KindsLaw, GateLaw, AnswersLaw, ViewRacesLaw, ReadGateLaw};

/// The strand at which a serial run is runs until the root function returns, and no sync of it waits. An event moves no other strand.
pub fn current_law()
    ensures runs { CurrentLaw }
    ensures last { LastEventLaw }
    ensures direct { DirectLaw }
    ensures stacks { StackLaw }
{}

/// What has been current is before the current strand in the English order. It is parallel to it exactly where the Hebrew order has the two
/// the other way round, and that is where it is in a child that has returned and that no sync has followed.
pub fn parallel_law()
    ensures earlier { SerialParallelLaw }
    ensures spans { SpansLaw }
{}

/// Later events do not change which strands are parallel, and of earlier strands the last in the Hebrew order tells whether one is parallel to
/// the current strand.
pub fn later_law()
    ensures stable { StabilityLaw }
    ensures last { HebrewLastLaw }
    ensures kept { KeptLaw }
{}

/// A return adds a spawner to those that the current strand has passed, and a sync takes those of its block away. The strands in a child are
/// those that become current between its spawn and its return.
pub fn span_law()
    ensures passed { PassedLaw }
    ensures more { PassedMoreLaw }
    ensures passing { PassingLaw }
    ensures opened { OpenLaw }
    ensures fresh { FreshLaw }
    ensures child { ChildLaw }
{}

/// To the strands that have begun, those that a spawn begins stand as the spawner does. The current strand leads to the end of each open block,
/// and stands in the innermost of the functions that the run is in.
pub fn block_law()
    ensures spawn { SpawnLaw }
    ensures blocks { BlocksLaw }
    ensures frames { FramesLaw }
{}

/// Some access of a location races with an earlier one of it exactly where the gate refuses one on one of the location's two cells. The gate
/// has answers to the accesses of each run.
pub fn gate_law()
    ensures kinds { KindsLaw }
    ensures gate { GateLaw }
    ensures answers { AnswersLaw }
{}

/// Some read of a reducer sees another view than an earlier one exactly where the gate refuses a put or a get of it. Branches tell whether two
/// reads see one view.
pub fn read_gate_law()
    ensures views { ViewRacesLaw }
    ensures gate { ReadGateLaw }
{}

/// The worked runs are serial and have the races that are said of them, and what is said not to be is not.
pub fn examples_law()
    ensures { WorkedRuns }
{}
