//! What is answered to a request, and what a history keeps of it.

use model_accesses::{Request, Rule, Witness};
use model_strands::Spawned;

/// What the gate answers to a request.
#[derive(Clone, Copy, Debug, PartialEq, Eq)]
pub enum Answer {
    /// A spawn began a child and the next strand of the spawner.
    Split(Spawned),
    /// A call, or a sync with no open block: the strand goes on.
    Same,
    /// All children of the block had returned, and this join began.
    Joined(u32),
    /// The last child to return will begin the join.
    Waits,
    /// A called function returned, and the strand goes on in the caller.
    Resumed,
    /// A spawned function returned.
    Ended,
    /// A spawned function returned as the last child that a sync waited for, and this join began.
    EndedJoined(u32),
    /// The root function returned.
    Finished,
    /// A write, bump, update or put was done.
    Granted,
    /// A read or get was done, and this is the value.
    Value(u64),
    /// The access was not done: it races with the witness under the rule.
    Refused { rule: Rule, witness: Witness },
    /// A get of a reducer that no granted access has read.
    Unset,
}

/// A request and its answer, as the history keeps them.
#[derive(Clone, Copy, PartialEq, Eq)]
pub struct Entry {
    /// What was asked for.
    pub request: Request,
    /// What was answered.
    pub answer: Answer,
}
