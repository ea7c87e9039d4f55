//! The laws of traces, each the contract of a function that does nothing.

ghost use Rattle.law_traces.specs.Examples.{WorkedHistories};
ghost use Rattle.law_traces.specs.Laws.{LocationLaw, ReducerLaw, SetLaw, CoveringLaw};
ghost use Rattle.law_traces.specs.Laws.{RepeatedAccessLaw, ReadBesideWriteLaw, OtherLocationsLaw};
ghost use Rattle.law_traces.specs.Laws.{EqualLocationsLaw, LeftOutLocationLaw};
ghost use Rattle.law_traces.specs.Laws.{MovedStrandsLaw, MovedLocationLaw, MovedCoveringLaw, FunctionLaw, StandInLaw};
ghost use Rattle.law_traces.specs.Laws.{NearPairLaw, PairCellLaw, KeptPairsLaw};
ghost use Rattle.law_traces.specs.Laws.{OpenBlockLaw, MomentLaw, EpochLaw, RemainingLaw, EmptySpawnLaw, CleanTraceLaw};

/// Some access of a cell is refused exactly where two accesses of it, granted or not, conflict and are of parallel strands,
/// in the dag at hand and in each longer one.
pub fn location_law()
    ensures { LocationLaw }
{}

/// Some put or get of a reducer is refused exactly where two that were not unset are of strands with other peers in the finished dag.
pub fn reducer_law()
    ensures { ReducerLaw }
{}

/// Whether some access of a cell is refused is decided by the addresses and kinds of its accesses alone, and two cells whose
/// accesses cover one another have one verdict, whatever history each is of.
pub fn set_law()
    ensures one { SetLaw }
    ensures two { CoveringLaw }
{}

/// An access that repeats one of the same kind by the same strand may be left out.
pub fn a_repeated_access()
    ensures { RepeatedAccessLaw }
{}

/// A read by a strand that also writes there may be left out.
pub fn a_read_beside_a_write()
    ensures { ReadBesideWriteLaw }
{}

/// All accesses of other locations may be left out.
pub fn other_locations()
    ensures { OtherLocationsLaw }
{}

/// One of two locations to which the same strands do the same may be left out.
pub fn equal_locations()
    ensures in_one { EqualLocationsLaw }
    ensures left_out { LeftOutLocationLaw }
{}

/// Whether some access of a cell is refused is decided by what is done behind an address with which those of its strands begin. So one cell
/// may stand for all to which the same is done behind other addresses, as for the locals of each call of one function.
pub fn a_moved_location()
    ensures parallel { MovedStrandsLaw }
    ensures same { MovedLocationLaw }
    ensures covered { MovedCoveringLaw }
    ensures in_function { FunctionLaw }
    ensures left_out { StandInLaw }
{}

/// Of the accesses of a cell that conflict the near pairs decide, where no access between the two conflicts with both: some access of the cell
/// is refused exactly where the strands of a near pair are parallel. So each near pair may be written as a cell of its own, at its addresses or
/// behind another one, and all those that are alike but for where they are as one cell.
pub fn near_pairs()
    ensures near { NearPairLaw }
    ensures of_one { PairCellLaw }
    ensures left_out { KeptPairsLaw }
{}

/// No block is open where a running strand stands in none. All that was done then is ordered before all that will be, so what is
/// done to a location before and after that moment may be taken as done to two locations.
pub fn an_epoch()
    ensures moments { OpenBlockLaw }
    ensures ordered { MomentLaw }
    ensures verdicts { EpochLaw }
{}

/// A spawn of a function in which nothing is accessed may be left out, and the strands that remain are parallel where they were.
pub fn an_empty_spawn()
    ensures parallel { RemainingLaw }
    ensures verdicts { EmptySpawnLaw }
{}

/// Where nothing is refused, no location has a race, in whatever order the strands run and ask the same: each such history is clean, gives the
/// same values and leaves the same memory. So it is with each that asks at no address more, up to where it ends.
pub fn a_clean_trace()
    ensures { CleanTraceLaw }
{}

/// The worked histories are judged, and the wrong omissions in them change a verdict.
pub fn examples_law()
    ensures { WorkedHistories }
{}
