//! What becomes of a request.

use crate::answer::Answer;
use crate::fault::GateFault;
use model_accesses::Request;

/// An entry of the history and its number.
#[derive(Clone, Copy, Debug, PartialEq, Eq)]
pub struct Receipt {
    /// The entry's number, from 1 on.
    pub number: u32,
    /// What was asked for.
    pub request: Request,
    /// What was answered.
    pub answer: Answer,
}

/// What became of a request.
#[derive(Clone, Copy, Debug, PartialEq, Eq)]
pub enum Reply {
    /// It was answered and entered in the history.
    Done(Receipt),
    /// It was not, and nothing changed.
    Illegal(GateFault),
}
