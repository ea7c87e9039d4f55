//! Accesses of cells.

use model_accesses::Kind;

/// An access of a cell of memory.
#[derive(Clone, Copy)]
pub struct CellAccess {
    /// What it does to the cell.
    pub kind: Kind,
    /// The number of the cell.
    pub location: u32,
}
