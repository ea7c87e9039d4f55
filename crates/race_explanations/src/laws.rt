//! The law of findings, as the contract of a function that does nothing.

ghost use Rattle.race_explanations.specs.FoundSyncs.{FoundLaw};

/// What is found in several traces has the leads that [`are_sure`](crate::are_sure) speaks of: each is that of a pair of its trace.
pub fn found_law()
    ensures { FoundLaw }
{}
