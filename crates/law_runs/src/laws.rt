//! The laws of runs, each as the contract of a function that does nothing.

ghost use Rattle.law_runs.specs.Examples.{ExamplesLaw};
ghost use Rattle.law_runs.specs.Laws.{PrefixLaw, NumbersLaw};

/// What a run begins with is a run.
pub fn prefix_law()
    ensures { PrefixLaw }
{}

/// The values that a run of a sound program asks with are numbers of 64 bits.
pub fn numbers_law()
    ensures { NumbersLaw }
{}

/// Worked programs, each of a text, with runs of them, and judged histories that are no runs.
pub fn examples_law()
    ensures { ExamplesLaw }
{}
