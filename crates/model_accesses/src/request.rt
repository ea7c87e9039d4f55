//! What strands ask.

/// What a strand asks. A location is the number of a cell, and a reducer is given by its number.
#[derive(Clone, Copy, Debug, PartialEq, Eq)]
pub enum Act {
    /// Begins a child.
    Spawn,
    /// Waits until the children have returned.
    Sync,
    /// Calls a function.
    Call,
    /// Returns from a function.
    Return,
    /// Reads a location.
    Read(u32),
    /// Writes a value to a location.
    Write(u32, u64),
    /// Adds a value to a location. Version 2 alone has it.
    Bump(u32, u64),
    /// Combines a value into the strand's view of a reducer.
    Update(u32, u64),
    /// Sets a reducer to a value.
    Put(u32, u64),
    /// Gets the value of a reducer.
    Get(u32),
}

/// An act of a strand, and the line of the program text on which it stands.
#[derive(Clone, Copy, Debug, PartialEq, Eq)]
pub struct Request {
    /// The strand's number.
    pub strand: u32,
    /// The line of the program, from 1 on.
    pub line: u32,
    /// What the strand asks.
    pub act: Act,
}
