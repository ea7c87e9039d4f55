//! Why a request is not answered.

use std::alloc::AllocError;
use thiserror::Error;

/// Why a request is not answered: the first of these causes. Only the last depends on memory.
#[derive(Debug, Clone, Copy, PartialEq, Eq, Error)]
pub enum GateFault {
    /// The gate was stopped.
    #[error("the gate is stopped")]
    Stopped,
    /// The history has as many entries as the limit allows.
    #[error("the history is at its limit")]
    Limit,
    /// No such strand is running.
    #[error("no such strand is running")]
    NotRunning,
    /// There is no such cell or reducer.
    #[error("there is no such cell or reducer")]
    BadName,
    /// The function that returns has an open block.
    #[error("the function has an open block")]
    Unsynced,
    /// There is no memory.
    #[error("there is no memory")]
    Memory,
}

impl From<AllocError> for GateFault {
    ghost use Rattle.std.specs.Prelude.{◌≡◌};
    ghost use Rattle.model_histories.specs.declared.fault.GateFault.TheVariants.{Memory};

    ghost from_gives = { λ _ fault. fault ≡ Memory };

    fn from(_fault: AllocError) -> GateFault {
        GateFault::Memory
    }
}
