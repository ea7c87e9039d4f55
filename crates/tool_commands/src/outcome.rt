//! What a replay tells.

ghost use Rattle.std.specs.Prelude.{◌≡◌, ◌↔◌, false, IfOk, IfErr, IsTrue, reverse};
ghost use Rattle.std.specs.List.{list_any};
ghost use Rattle.model_histories.specs.Extensions.{IsClean};
ghost use Rattle.program_text.specs.Shapes.{shape_in};
ghost use Rattle.verdict_lines.specs.VerdictText.{is_refused as refused_spec};
ghost use Rattle.command_streams.specs.Watched.{held, has_failed};
ghost use Rattle.tool_commands.specs.Ends.{EndsSo};
ghost use Rattle.tool_commands.specs.Outcomes.{IsSo, line_of_outcome as line_spec, refusal_status as status_of_run, status_of};

use command_streams::{CliFault, Watched, write_text};
use locked_replay::Whole;
use program_text::Program;
use race_gate::{Answer, Entry};
use run_replay::{ReplayFault, replay};
use std::alloc::{AllocError, Allocator};
use std::io::Write;
use text_buffers::{push_number, push_words};

/// What the replay of entries tells.
#[derive(Clone, Copy)]
pub(crate) enum Outcome {
    /// They are a finished run, and so many.
    Replayed(u64),
    /// The entry of this number is not what the program and the gate make.
    Strange(u32),
    /// They are a run that is not finished.
    Unfinished,
}

/// Replays entries, the oldest first. It fails for want of memory alone.
pub(crate) fn outcome_of<A: Allocator + Copy, B: Allocator>(
    alloc: A,
    program: &Program<B>,
    entries: &[Entry],
) -> Result<Outcome, CliFault>
    ensures so { IfOk result (IsSo program.now.functions (shape_in program.now) entries.now) }
    ensures fault { IfErr result (λ fault. fault ≡ CliFault.Memory) }
{
    match replay(alloc, program, entries) {
        Ok(()) => Ok(Outcome::Replayed(entries.len() as u64)),
        Err(ReplayFault::Strange(number)) => Ok(Outcome::Strange(number)),
        Err(ReplayFault::Unfinished) => Ok(Outcome::Unfinished),
        Err(ReplayFault::Memory) => Err(CliFault::Memory),
    }
}

/// The line that tells an outcome.
pub(crate) fn outcome_line<A: Allocator>(
    alloc: A,
    outcome: Outcome,
) -> Result<Vec<u8, A>, AllocError>
    ensures { IfOk result (λ line. line.items ≡ line_spec outcome) }
{
    let mut line = Vec::new(alloc);
    match outcome {
        Outcome::Replayed(number) => push_number(&mut line, "replayed ", number),
        Outcome::Strange(number) => push_number(&mut line, "strange ", u64::from(number)),
        Outcome::Unfinished => push_words(&mut line, "unfinished"),
    }?;
    push_words(&mut line, "\n")?;
    Ok(line)
}

fn is_refused(entry: &Entry) -> bool
    ensures { result ≡ refused_spec entry.now.answer }
{
    matches!(entry.answer, Answer::Refused { .. } | Answer::Unset)
}

fn has_refusal(entries: &[Entry]) -> bool
    ensures { result ≡ list_any (λ entry. refused_spec entry.answer) entries.now }
{
    entries.iter().any(is_refused)
}

/// The exit status of a finished run: 1 where an entry is refused or unset, else 0.
pub(crate) fn refusal_status(entries: &[Entry]) -> u8
    ensures { result ≡ status_of_run entries.now }
{
    if has_refusal(entries) { 1 } else { 0 }
}

/// As [`refusal_status`], of a run of which it is known whether something was refused, so that no entry is looked at.
pub(crate) fn whole_status<A: Allocator>(whole: &Whole<A>) -> u8
    requires { IsTrue whole.now.clean ↔ IsClean (reverse whole.now.entries.items) }
    ensures { result ≡ status_of_run whole.now.entries.items }
{
    if whole.clean { 0 } else { 1 }
}

/// Writes what is told, and answers the exit status that it comes with. Where nothing is told, nothing is written.
pub(crate) fn write_told<A: Allocator, W: Write>(
    output: &mut Watched<W>,
    told: Result<(Vec<u8, A>, u8), CliFault>,
) -> Result<u8, CliFault>
    requires { has_failed output.old ≡ false }
    ensures { EndsSo told (W.contents (held output.old)) (W.contents (held output.new)) output.old output.new result }
{
    let (text, status) = told?;
    write_text(output, text.as_slice())?;
    Ok(status)
}

/// The exit status of an outcome: 4 where the entries are no finished run, else 1 where one is refused or unset, else 0.
pub(crate) fn outcome_status(outcome: Outcome, entries: &[Entry]) -> u8
    ensures { result ≡ status_of entries.now outcome }
{
    match outcome {
        Outcome::Replayed(_) => refusal_status(entries),
        Outcome::Strange(_) | Outcome::Unfinished => 4,
    }
}
