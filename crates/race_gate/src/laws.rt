//! The laws of judged histories, each as the contract of a function that does nothing.

ghost use Rattle.race_gate.specs.Admission.{AdmissionLaw, EntryLaw};
ghost use Rattle.race_gate.specs.Examples.{WorkedHistories};
ghost use Rattle.race_gate.specs.ReducerExamples.{WorkedReducers};
ghost use Rattle.race_gate.specs.Laws.{RaceLaw, ValueLaw};
ghost use Rattle.model_races.specs.Laws.{VerdictLaw, ReadLaw};

/// Later entries change no race.
pub fn race_law()
    ensures { RaceLaw }
{}

/// The verdicts of a judged history are those of its whole dag, so those of a finished history are those of the finished dag.
pub fn verdict_law()
    ensures { VerdictLaw }
{}

/// The verdicts on puts and gets of a judged history are those of the dag of each of its finished extensions.
pub fn read_law()
    ensures { ReadLaw }
{}

/// A cell holds the value of its last granted write, or 0, and the granted bumps since.
pub fn value_law()
    ensures { ValueLaw }
{}

/// A request has no fault exactly where the rules of legal histories admit it, some answer to it may follow, and the gate goes on below its
/// limit. So what judges an admitted request enters it in the history, unless the gate was stopped, is at its limit, or has no memory.
pub fn admission_law()
    ensures faultless { AdmissionLaw }
    ensures entered { EntryLaw }
{}

/// The worked histories are judged, and the wrong answers in them are not.
pub fn examples_law()
    ensures cells { WorkedHistories }
    ensures reducers { WorkedReducers }
{}
