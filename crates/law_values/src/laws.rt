//! The laws of reducer values, each as the contract of a function that does nothing.

ghost use Rattle.std.specs.Prelude.{ℕ, Option};
ghost use Rattle.law_values.specs.Laws.{CountedLaw, ExamplesLaw, LogLaw, ProjectionLaw, StayLaw, ValueLaw};

/// At a granted get the strand's log is the last put and then the updates that count.
pub fn log_law()
    ensures { LogLaw }
{}

/// Only one list is of the updates that count at a get, in serial order.
pub fn counted_law()
    ensures { CountedLaw }
{}

/// At a granted get the strand's view is the last put combined with the updates that count, in serial order.
pub fn value_law()
    ensures numbers { ValueLaw ℕ }
    ensures options { ValueLaw (Option ℕ) }
    ensures pairs { ValueLaw (ℕ × ℕ) }
{}

/// An item changes the views of the strands that it begins, or of the strand that updates or puts, and no other.
pub fn stay_law()
    ensures numbers { StayLaw ℕ }
    ensures options { StayLaw (Option ℕ) }
    ensures pairs { StayLaw (ℕ × ℕ) }
{}

/// Each reducer sees all events of a history with the accesses of all of them, and what it sees is legal exactly where the whole is.
pub fn projection_law()
    ensures { ProjectionLaw }
{}

/// The gets of the worked histories are granted, with these updates that count and these views.
pub fn examples_law()
    ensures { ExamplesLaw }
{}
