//! The laws of clean runs, each as the contract of a function that does nothing.

ghost use Rattle.law_elision.specs.Laws.{ExpansionLaw, SerialListLaw, OneEvaluationLaw, OneElisionLaw, EvaluatedLaw, CleanElisionLaw};
ghost use Rattle.model_runs.specs.Laws.{ElisionLaw, ElidedRunLaw};

/// A whole dialogue, with what the spawned functions did behind each spawn, is an evaluation where each value is the serial one.
pub fn expansion_law()
    ensures { ExpansionLaw }
{}

/// The frames of a history, each behind the split that begins it, give the list of its entries in serial order.
pub fn serial_list_law()
    ensures { SerialListLaw }
{}

/// A finished run of a sound program in which nothing was refused is the serial elision: its entries in serial order do and are given what
/// the elision's requests do and are given, and the memory that it leaves is the elision's.
pub fn elision_law()
    ensures { ElisionLaw }
{}

/// What is told of the serial elision of a sound program is so of each finished run of it in which nothing was refused: the elision leaves
/// the memory of that run, makes as many requests as it has entries, and needs no more.
pub fn elided_run_law()
    ensures { ElidedRunLaw }
{}

/// What is left of a function is evaluated in one way, and so is a program from its one `main` on: it has one serial elision, which does one
/// list of requests and leaves one memory. So whatever evaluates it tells how it ends.
pub fn evaluation_law()
    ensures one { OneEvaluationLaw }
    ensures program { OneElisionLaw }
    ensures elides { EvaluatedLaw }
{}

/// A finished run of a sound program in which nothing was refused tells how the program ends: the elision leaves the memory of that run and
/// makes as many requests as it has entries.
pub fn clean_elision_law()
    ensures { CleanElisionLaw }
{}
