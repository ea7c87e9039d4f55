//! The laws of the traces of runs, each as the contract of a function that does nothing.

ghost use Rattle.run_traces.specs.Laws.{FittingLaw, MeaningLaw, RequestsLaw, ShapeLaw};

/// What a run of a program asks, a line of a trace that declares the same can say: its strands, cells, reducers, values and lines are in
/// their ranges, and the program's version has its acts.
pub fn fitting_law()
    ensures { FittingLaw }
{}

/// The plain text of the trace of a run means that trace.
pub fn meaning_law()
    ensures { MeaningLaw }
{}

/// The requests of the trace of entries are those of the entries, in their order.
pub fn requests_law()
    ensures { RequestsLaw }
{}

/// The trace of entries of a program declares as many cells as the program, and reducers of the same monoids.
pub fn shape_law()
    ensures { ShapeLaw }
{}
