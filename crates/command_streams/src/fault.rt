//! Why a command fails.

ghost use Rattle.std.specs.Prelude.{◌≡◌};
ghost use Rattle.command_streams.specs.Faults.{status_of_fault, fault_of_text};

use std::alloc::{AllocError, AllocFailed};
use text_words::TextFault;
use thiserror::Error;

/// Why a command fails. Its text stands behind `cilkcheck: ` in one line on standard error, and nothing is written on standard output,
/// but for the part that a failed write may have written.
#[derive(Debug, Drop, Error)]
pub enum CliFault {
    /// The words of the command line ask for nothing that there is.
    #[error("{0}")]
    Usage(String),
    /// The input can't be read.
    #[error("read")]
    Read,
    /// The output can't be written.
    #[error("write")]
    Write,
    /// The file of a trace can't be created or written.
    #[error("cannot write OUT")]
    Unwritten,
    /// The input has more than 67,108,864 bytes.
    #[error("too long")]
    TooLong,
    /// The input means no trace.
    #[error("trace {0}")]
    Trace(TextFault),
    /// The input means no program.
    #[error("program {0}")]
    Program(TextFault),
    /// The program and the trace do not declare the same.
    #[error("shape")]
    Shape,
    /// The request of the trace with this number, from 1 on, is illegal.
    #[error("illegal request {0}")]
    Illegal(u32),
    /// There are more requests than the limit.
    #[error("limit")]
    Limit,
    /// More than 10,000 strands have begun, which are too many to draw.
    #[error("too many strands to draw: 10000 at most")]
    TooManyStrands,
    /// The gate was stopped.
    #[error("stopped")]
    Stopped,
    /// What the workers brought back is not the gate's history.
    #[error("torn")]
    Torn,
    /// Something was asked or answered that the program does not do.
    #[error("strange")]
    Strange,
    /// There is no memory.
    #[error("memory")]
    Memory,
}

impl CliFault {
    /// The exit status of the program: 3 for want of memory, 4 where the limit was passed, there is too much to draw or a run did not come
    /// to its end, and else 2.
    pub fn status(&self) -> u8
        ensures { result ≡ status_of_fault self.now }
    {
        match self {
            CliFault::Memory
            | CliFault::Trace(TextFault::Memory)
            | CliFault::Program(TextFault::Memory) => 3,
            CliFault::Limit
            | CliFault::TooManyStrands
            | CliFault::Stopped
            | CliFault::Torn
            | CliFault::Strange => 4,
            _ => 2,
        }
    }
}

impl From<AllocError> for CliFault {
    ghost use Rattle.std.specs.Prelude.{◌≡◌};
    ghost use Rattle.command_streams.specs.declared.fault.CliFault.TheVariants.{Memory};

    ghost from_gives = { λ _ fault. fault ≡ Memory };

    fn from(_fault: AllocError) -> CliFault {
        CliFault::Memory
    }
}

impl<T: Drop> From<AllocFailed<T>> for CliFault {
    ghost use Rattle.std.specs.Prelude.{◌≡◌};
    ghost use Rattle.command_streams.specs.declared.fault.CliFault.TheVariants.{Memory};

    ghost from_gives = { λ _ fault. fault ≡ Memory };

    fn from(_fault: AllocFailed<T>) -> CliFault {
        CliFault::Memory
    }
}

/// The fault of a text as one of the command. Want of memory is want of memory wherever it comes.
impl From<TextFault> for CliFault {
    ghost use Rattle.std.specs.Prelude.{◌≡◌};
    ghost use Rattle.command_streams.specs.Faults.{fault_of_text};

    ghost from_gives = { λ fault given. given ≡ fault_of_text fault };

    fn from(fault: TextFault) -> CliFault {
        match fault {
            TextFault::Memory => CliFault::Memory,
            fault => CliFault::Trace(fault),
        }
    }
}
