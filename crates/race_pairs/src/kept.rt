//! What is kept of the spawns, calls and returns of a history.

use model_strands::Spawned;

/// A spawn or a call of a history.
#[derive(Clone, Copy)]
pub struct Opener {
    /// The number of its entry, from 1 on.
    pub number: u32,
    /// The strand that asked for it.
    pub strand: u32,
    /// What a spawn began. None of a call.
    pub spawned: Option<Spawned>,
}

/// The function that a spawn or a call opened. A place in a list is counted from 1 on, and 0 is none.
#[derive(Clone, Copy)]
pub struct Frame {
    /// What opened it.
    pub opener: Opener,
    /// The place of the frame in which it was opened.
    pub outer: u32,
}

/// A call or a return by which a strand came to stand in another frame.
#[derive(Clone, Copy)]
pub struct Turn {
    /// The number of its entry.
    pub number: u32,
    /// The place of the frame in which the strand stands from then on.
    pub frame: u32,
    /// The place of the strand's turn before this one.
    pub before: u32,
}

/// A strand, or a join that is kept back.
#[derive(Clone, Copy)]
pub struct Strand {
    /// The place of the frame whose spawn made it.
    pub maker: u32,
    /// The place of its last turn.
    pub turn: u32,
}

/// How far down a strand stands, and where the way up from it is shortened.
#[derive(Clone, Copy)]
pub struct Jump {
    /// How many spawns lead to the strand.
    pub depth: u32,
    /// A strand above it; strand 0 where it has none.
    pub to: u32,
}
