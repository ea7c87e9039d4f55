//! Why there is no whole run.

use race_gate::GateFault;
use std::alloc::AllocError;
use thiserror::Error;

/// Why there is no whole run, the first of these that a worker met or that what the workers brought shows.
#[derive(Clone, Copy, Debug, PartialEq, Eq, Error)]
pub enum RunFault {
    /// The gate was at its limit.
    #[error("limit")]
    Limit,
    /// The gate was stopped.
    #[error("stopped")]
    Stopped,
    /// What the workers brought is not the history, or a join was met twice.
    #[error("torn")]
    Torn,
    /// Something was asked or answered that the program does not do.
    #[error("strange")]
    Strange,
    /// There is no memory.
    #[error("memory")]
    Memory,
}

impl From<AllocError> for RunFault {
    ghost use Rattle.std.specs.Prelude.{◌≡◌};
    ghost use Rattle.locked_replay.specs.declared.fault.RunFault.TheVariants.{Memory};

    ghost from_gives = { λ _ fault. fault ≡ Memory };

    fn from(_fault: AllocError) -> RunFault {
        RunFault::Memory
    }
}

/// What a fault of the gate means for the run.
impl From<GateFault> for RunFault {
    ghost use Rattle.std.specs.Prelude.{◌≡◌};
    ghost use Rattle.locked_replay.specs.Asking.{fault_of};

    ghost from_gives = { λ cause fault. fault ≡ fault_of cause };

    fn from(cause: GateFault) -> RunFault {
        match cause {
            GateFault::Stopped => RunFault::Stopped,
            GateFault::Limit => RunFault::Limit,
            GateFault::NotRunning | GateFault::BadName | GateFault::Unsynced => RunFault::Strange,
            GateFault::Memory => RunFault::Memory,
        }
    }
}
