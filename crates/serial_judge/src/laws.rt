//! What holds of all cells, as contracts of functions that do nothing.

ghost use Rattle.serial_judge.specs.Laws.{LaterLaw, MovedLaw, EmptyLaw, RecordedLaw};

/// The empty cell remembers no accesses.
pub fn empty_law()
    ensures { EmptyLaw }
{}

/// What a cell remembers stays as the run goes on, and where a record is made.
pub fn later_law()
    ensures later { LaterLaw }
    ensures recorded { RecordedLaw }
{}

/// Where all records that a cell names are kept, the cell with their new numbers remembers what it did.
pub fn moved_law()
    ensures { MovedLaw }
{}
