//! The program that a text means, or what a reader gives.

ghost use Rattle.std.specs.Prelude.{◌≡◌, ◌↔◌, false, IfOk, IfErr, IsErrOf, IsTrue};
ghost use Rattle.program_text.specs.Grammar.{TextMeans};
ghost use Rattle.program_text.specs.Programs.{contents};
ghost use Rattle.command_streams.specs.Watched.{held, has_failed, calls_of, IsCalledAtMost};
ghost use Rattle.command_streams.specs.Streams.{most_reads};
ghost use Rattle.command_streams.specs.Readings.{reading};
ghost use Rattle.tool_commands.specs.Programs.{IsProgramFault, StopsProgram};
ghost use Rattle.tool_commands.specs.Runs.{IsProgramRead};

use command_streams::{CliFault, Watched, read_text};
use program_text::Program;
use std::alloc::Allocator;
use std::io::Read;
use text_words::TextFault;

/// The program that a text means, which is let go. Want of memory is want of memory wherever it comes.
fn parse_program<A: Allocator + Copy>(alloc: A, text: Vec<u8, A>) -> Result<Program<A>, CliFault>
    ensures ok { IfOk result (λ program. TextMeans text.items (contents program)) }
    ensures fault { IfErr result (IsProgramFault text.items) }
{
    match Program::parse(alloc, text.as_slice()) {
        Ok(program) => Ok(program),
        Err(TextFault::Memory) => Err(CliFault::Memory),
        Err(fault) => Err(CliFault::Program(fault)),
    }
}

/// Reads a program to its end.
pub(crate) fn read_program<A: Allocator + Copy, P: Read>(
    alloc: A,
    reader: &mut Watched<P>,
) -> Result<Program<A>, CliFault>
    requires { has_failed reader.old ≡ false }
    ensures ok { IfOk result (λ program. IsProgramRead (reading (P.remaining (held reader.old)) (P.remaining (held reader.new))) (contents program)) }
    ensures fault { IfErr result (StopsProgram (reading (P.remaining (held reader.old)) (P.remaining (held reader.new)))) }
    ensures failed { IsErrOf result CliFault.Read ↔ IsTrue (has_failed reader.new) }
    ensures calls { IsCalledAtMost most_reads (calls_of reader.old) (calls_of reader.new) }
{
    let text = read_text(alloc, reader)?;
    parse_program(alloc, text)
}
