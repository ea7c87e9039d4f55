//! The fault of a text.

ghost use Rattle.std.specs.Prelude.{IfOk, MatchOption};
ghost use Rattle.fault_lists.specs.FaultLists.{HasMeaning, HasFault};

use program_text::Program;
use source_quotes::Meant;
use std::alloc::{AllocError, Global};
use text_words::{Cause, TextFault};
use trace_text::Trace;

/// A faulty line of a text, and the lowest cause in it.
#[derive(Clone, Copy)]
pub struct Fault {
    /// The number of the line, from 1 on.
    pub line: u32,
    /// The lowest cause in it.
    pub why: Cause,
}

/// The fault of a text that is to mean a program.
fn program_fault(alloc: Global, text: &[u8]) -> Result<Option<Fault>, AllocError>
    ensures { IfOk result (λ found. MatchOption found (HasMeaning Meant.Program text.now) (HasFault Meant.Program text.now)) }
{
    match Program::parse(alloc, text) {
        Ok(_) => Ok(None),
        Err(TextFault::At { line, why }) => Ok(Some(Fault { line, why })),
        Err(TextFault::Memory) => Err(AllocError),
    }
}

/// The fault of a text that is to mean a trace.
fn trace_fault(alloc: Global, text: &[u8]) -> Result<Option<Fault>, AllocError>
    ensures { IfOk result (λ found. MatchOption found (HasMeaning Meant.Trace text.now) (HasFault Meant.Trace text.now)) }
{
    match Trace::parse(alloc, text) {
        Ok(_) => Ok(None),
        Err(TextFault::At { line, why }) => Ok(Some(Fault { line, why })),
        Err(TextFault::Memory) => Err(AllocError),
    }
}

/// The fault of a text, and none where it means what it is to mean.
pub(crate) fn fault_of(
    alloc: Global,
    meant: Meant,
    text: &[u8],
) -> Result<Option<Fault>, AllocError>
    ensures { IfOk result (λ found. MatchOption found (HasMeaning meant text.now) (HasFault meant text.now)) }
{
    match meant {
        Meant::Program => program_fault(alloc, text),
        Meant::Trace => trace_fault(alloc, text),
    }
}
