//! What holds of granted reads, as contracts of functions that do nothing.

ghost use Rattle.view_read_rule.specs.Laws.{AddedLaw, LaterLaw};

/// The reads of a reducer are of one branch at first, after one more of that branch, and in every legal extension of the
/// history.
pub fn granted_law()
    ensures added { AddedLaw }
    ensures later { LaterLaw }
{}
