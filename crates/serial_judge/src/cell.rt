//! What is kept of one location.

use model_serial_runs::AccessKind;

/// What is kept of the accesses of one location: numbers of records, and 0 for none.
#[derive(Clone, Copy, Debug, PartialEq, Eq)]
pub struct Cell {
    /// Of the last plain access twice its record's number, and one more where it was a write.
    pub latest: u32,
    /// A write that is parallel to whatever comes where any write is.
    pub writer: u32,
    /// A plain read that is so, where the writer is not.
    pub reader: u32,
    /// An update that is so, where the writer is not.
    pub updater: u32,
    /// An atomic load that is so, where the writer is not.
    pub loader: u32,
}

impl Cell {
    /// A location without accesses.
    pub const EMPTY: Cell = Cell {
        latest: 0,
        writer: 0,
        reader: 0,
        updater: 0,
        loader: 0,
    };
}

/// A race: an earlier access that conflicts with the new one, and is of a parallel strand.
#[derive(Clone, Copy, Debug, PartialEq, Eq)]
pub struct Race {
    /// The record of the earlier access, by its number.
    pub record: u32,
    /// Its place in the program.
    pub site: u32,
    pub kind: AccessKind,
    /// The site of the spawn where the two strands part: the earlier one is in the child, the new one behind the spawn. No clause says so.
    pub spawn: u32,
}

/// What is said of an access.
#[derive(Clone, Copy, Debug, PartialEq, Eq)]
pub struct Judged {
    /// What is kept of the location from now on.
    pub cell: Cell,
    pub race: Option<Race>,
}
