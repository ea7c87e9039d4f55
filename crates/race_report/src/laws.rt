//! The law of reports, as the contract of a function that does nothing.

ghost use Rattle.race_report.specs.Laws.{SchedulesLaw};

/// Where the report of a finished run tells that the program is clean for every schedule, it is.
pub fn schedules_law()
    ensures { SchedulesLaw }
{}
