//! What statements ask.

ghost use Rattle.std.specs.Prelude.{◌≡◌, IsTrue};
ghost use Rattle.model_bodies.specs.Lines.{line_of};
ghost use Rattle.frame_steps.specs.Requests.{act_of, is_placed};

use crate::value::{cell_of, value_of};
use program_text::{REGISTERS, Statement};
use text_words::Act;

/// What a function asks for.
#[derive(Clone, Copy)]
pub struct Want {
    /// The act.
    pub act: Act,
    /// Its line in the program.
    pub line: u32,
}

/// What a statement asks; None where it asks nothing.
#[inline(always)]
pub fn act_of(registers: &[u64; REGISTERS], statement: Statement) -> Option<Act>
    requires { IsTrue (is_placed statement) }
    ensures { result ≡ act_of statement registers.now }
{
    match statement {
        Statement::Read { location, .. } => Some(Act::Read(cell_of(registers, location))),
        Statement::Write {
            location,
            value,
            ..
        } => { Some(Act::Write(cell_of(registers, location), value_of(registers, value))) }
        Statement::Bump {
            location,
            value,
            ..
        } => { Some(Act::Bump(cell_of(registers, location), value_of(registers, value))) }
        Statement::Update { reducer, value, .. } => {
            Some(Act::Update(reducer, value_of(registers, value)))
        }
        Statement::Put { reducer, value, .. } => Some(Act::Put(
            reducer,
            value_of(registers, value),
        )),
        Statement::Get { reducer, .. } => Some(Act::Get(reducer)),
        Statement::Spawn { .. } => Some(Act::Spawn),
        Statement::Call { .. } => Some(Act::Call),
        Statement::Sync { .. } => Some(Act::Sync),
        Statement::Let { .. } => None,
        Statement::ParallelFor { .. } => None,
        Statement::If { .. } => None,
        Statement::Else { .. } => None,
        Statement::End { .. } => None,
    }
}

/// The line of a statement.
pub fn line_of(statement: Statement) -> u32
    ensures { result ≡ line_of statement }
{
    match statement {
        Statement::Let { line, .. } => line,
        Statement::Read { line, .. } => line,
        Statement::Write { line, .. } => line,
        Statement::Bump { line, .. } => line,
        Statement::Update { line, .. } => line,
        Statement::Put { line, .. } => line,
        Statement::Get { line, .. } => line,
        Statement::Spawn { line, .. } => line,
        Statement::Call { line, .. } => line,
        Statement::Sync { line } => line,
        Statement::ParallelFor { line, .. } => line,
        Statement::If { line, .. } => line,
        Statement::Else { line, .. } => line,
        Statement::End { line } => line,
    }
}
