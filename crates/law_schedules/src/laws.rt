//! What one run says of all runs of its program, each law as the contract of a function that does nothing.

ghost use Rattle.model_runs.specs.Laws.{CleanLaw};
ghost use Rattle.law_schedules.specs.Agreement.{AgreementLaw};

/// What a function asks is determined by what it was answered: the values, and not the strands.
pub fn agreement_law()
    ensures { AgreementLaw }
{}

/// Where one finished run of a program has no refusal, none has: each run does at each address what that one begins with there, and a
/// finished run does all of it and leaves the same memory.
pub fn clean_law()
    ensures { CleanLaw }
{}
