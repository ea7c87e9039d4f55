//! What holds of branches, as contracts of functions that do nothing: laws of strands, passed on, and one of names.

ghost use Rattle.branch_names.specs.Names.{OtherEventsLaw};

pub use law_strands::laws::{branch_address_law, branch_law, finish_law};

/// Names that follow a history follow it after an event that begins no strand.
pub fn other_events_law()
    ensures { OtherEventsLaw }
{}
