//! Why a text could not be read.

ghost use Rattle.std.specs.Prelude.{◌≡◌};
ghost use Rattle.text_words.specs.declared.fault.TextFault.TheVariants.{Memory};
ghost use Rattle.text_words.specs.Causes.{both_of, cause_number};

use std::alloc::{AllocError, AllocFailed};
use thiserror::Error;

/// What is wrong with a line, the lowest of what is.
#[derive(Clone, Copy, Debug, PartialEq, Eq)]
pub enum Cause {
    /// A byte that no line may hold.
    NotText = 1,
    /// The first line is not the header.
    BadHeader,
    /// A word of another shape than its place wants, a wrong number of words, or an unknown first word.
    BadWord,
    /// A number that is none, or is out of the range of its place.
    BadNumber,
    /// A name that is not declared as what its place wants.
    UnknownName,
    /// A name that is declared already.
    TwiceNamed,
    /// A line where none of its kind may stand.
    BadNesting,
    /// No main function.
    NoMain,
    /// The first line that passes a limit.
    TooMany,
}

impl Cause {
    /// Its number, by which causes in one line are ordered.
    pub fn number(self) -> u8
        ensures { result ≡ cause_number self }
    {
        self as u8
    }
}

/// Why a text means nothing.
#[derive(Debug, Drop, Error)]
pub enum TextFault {
    /// The first faulty line, and the lowest cause in it.
    #[error("line {line}: {why:?}")]
    At { line: u32, why: Cause },
    /// Memory ran out.
    #[error("memory")]
    Memory,
}

impl From<AllocError> for TextFault {
    ghost from_gives = { λ _ fault. fault ≡ Memory };

    fn from(_fault: AllocError) -> TextFault {
        TextFault::Memory
    }
}

impl<T: Drop> From<AllocFailed<T>> for TextFault {
    ghost from_gives = { λ _ fault. fault ≡ Memory };

    fn from(_fault: AllocFailed<T>) -> TextFault {
        TextFault::Memory
    }
}

/// Both, or the lower cause.
pub fn both<A: Drop, B: Drop>(a: Result<A, Cause>, b: Result<B, Cause>) -> Result<(A, B), Cause>
    ensures { result ≡ both_of a b }
{
    match a {
        Ok(a) => match b {
            Ok(b) => Ok((a, b)),
            Err(cause) => Err(cause),
        },
        Err(first) => match b {
            Ok(_) => Err(first),
            Err(second) => {
                if first.number() < second.number() {
                    Err(first)
                } else {
                    Err(second)
                }
            }
        },
    }
}
