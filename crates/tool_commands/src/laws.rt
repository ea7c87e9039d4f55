//! The law of clean reports, as the contract of a function that does nothing.

ghost use Rattle.tool_commands.specs.Laws.{CleanReportLaw};

/// Where the line of a run has status 0, every run of that program, which is every schedule, is clean, and each that comes to its end
/// leaves the memory of the program's serial elision, which is the memory in the line.
pub fn clean_report_law()
    ensures { CleanReportLaw }
{}
