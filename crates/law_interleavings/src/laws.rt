//! What one clean history says of all that ask the same, each law as the contract of a function that does nothing.

ghost use Rattle.law_interleavings.specs.Examples.{WorkedHistories};
ghost use Rattle.law_interleavings.specs.Laws.{InterleavingLaw, SameStrandsLaw};

/// One clean history speaks for each that asks at no address more than it does: nothing is refused in that one either, each act is given
/// the same value, and where it is finished, it leaves the same memory.
pub fn interleaving_law()
    ensures { InterleavingLaw }
{}

/// One clean history speaks for each order in which its strands can come: whatever asks the same at each address is clean, is given the
/// same values, and leaves the same memory.
pub fn same_strands_law()
    ensures { SameStrandsLaw }
{}

/// Worked histories: two orders of the same strands, a history that asks something else, and two orders that are not clean.
pub fn examples_law()
    ensures { WorkedHistories }
{}
