//! Why a call was refused.

use std::alloc::{AllocError, AllocFailed};
use thiserror::Error;

/// Why a call of the judge was refused. A refused call changes nothing.
#[derive(Debug, Clone, Copy, PartialEq, Eq, Error)]
pub enum Fault {
    /// The function that returns has an open block.
    #[error("a function returned with children that no sync waited for")]
    Unsynced,
    /// The root function returns.
    #[error("the root function returned")]
    Root,
    /// There are 2^30 records, and another one is wanted.
    #[error("there are too many records")]
    Records,
    /// There were 2^62 events.
    #[error("there were too many events")]
    Events,
    /// There is no memory.
    #[error("there is no memory")]
    Memory,
}

impl From<AllocError> for Fault {
    ghost use Rattle.std.specs.Prelude.{◌≡◌};
    ghost use Rattle.serial_judge.specs.declared.fault.Fault.TheVariants.{Memory};

    ghost from_gives = { λ _ fault. fault ≡ Memory };

    fn from(_fault: AllocError) -> Fault {
        Fault::Memory
    }
}

impl<T: Drop> From<AllocFailed<T>> for Fault {
    ghost use Rattle.std.specs.Prelude.{◌≡◌};
    ghost use Rattle.serial_judge.specs.declared.fault.Fault.TheVariants.{Memory};

    ghost from_gives = { λ _ fault. fault ≡ Memory };

    fn from(_fault: AllocFailed<T>) -> Fault {
        Fault::Memory
    }
}
