//! What the calls of `Strands` answer.

use std::alloc::AllocError;
use thiserror::Error;

/// What a sync did.
#[derive(Clone, Copy, PartialEq, Eq)]
pub enum Synced {
    /// The function has no open block, and the strand goes on.
    Same,
    /// All children of the block had returned, and this join began.
    Joined(u32),
    /// The last child to return will begin the join.
    Waits,
}

/// What a return did.
#[derive(Clone, Copy, PartialEq, Eq)]
pub enum Returned {
    /// The strand goes on in the caller.
    Resumed,
    /// The strand ended.
    Ended,
    /// The strand ended, and this join, whose sync waited for it, began.
    EndedJoined(u32),
    /// The root function returned.
    Finished,
}

/// Why a strand's act was refused: the first of these causes.
#[derive(Debug, Clone, Copy, PartialEq, Eq, Error)]
pub enum SpFault {
    /// No such strand is running.
    #[error("no such strand is running")]
    NotRunning,
    /// The function that returns has an open block.
    #[error("the function has an open block")]
    Unsynced,
    /// Fewer than three strand numbers are left of 3,000,001.
    #[error("there are too many strands")]
    Full,
    /// There is no memory.
    #[error("there is no memory")]
    Memory,
}

impl From<AllocError> for SpFault {
    ghost use Rattle.std.specs.Prelude.{◌≡◌};
    ghost use Rattle.sp_labels.specs.declared.answer.SpFault.TheVariants.{Memory};

    ghost from_gives = { λ _ fault. fault ≡ Memory };

    fn from(_fault: AllocError) -> SpFault {
        SpFault::Memory
    }
}
