//! The kinds of access, and the rules between them.

/// What an access does to its cell or reducer, in the order of the table.
#[derive(Clone, Copy, Debug, PartialEq, Eq)]
pub enum Kind {
    /// Sets a memory cell.
    Write,
    /// Adds to a memory cell: bumps give the same sum in any order, so they do not conflict with one another.
    Bump,
    /// Reads a memory cell.
    Read,
    /// Combines a value into the strand's view of a reducer.
    Update,
    /// Sets a reducer, which is a reducer read.
    Put,
    /// Reads a reducer.
    Get,
}

/// How an earlier access and a new one, both of one cell or reducer, stand to each other.
#[derive(Clone, Copy, Debug, PartialEq, Eq)]
pub enum Rule {
    /// They do not conflict.
    Free,
    /// They race where their strands are parallel (Feng and Leiserson 1997).
    Race,
    /// They race where their strands have different peers (Lee and Schardl 2015).
    View,
}
