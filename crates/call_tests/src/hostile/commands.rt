//! The commands, from texts that are read to texts that are written.

ghost use Rattle.std.specs.Prelude.{◌≡◌, false};
ghost use Rattle.command_streams.specs.Watched.{has_failed};

mod elisions;
mod failures;
mod hosts;
mod kept;
mod pieces;
mod recorded;
mod schedules;
mod verdicts;
mod words;

use crate::hostile::devices::Filling;
use std::alloc::Global;
use std::io::Read;
use std::process::Abort;
use std::sync::Wait;
use std::thread::Threads;
use tool_commands::{
    CliFault, Extent, Form, Manner, OpenDoor, RecordForm, Rendering, Watched, draw_text,
    elide_text, explain_text, judge_stream, replay_text, run_text, write_run_trace,
};

/// The limit of each command.
const MOST: u32 = 1_000_000;

/// A command over a text that is read. It may want another text.
#[derive(Clone, Copy)]
enum Command<'a> {
    /// Judges the trace that is read.
    Judge,
    /// Writes the elision of the program that is read.
    Elide,
    /// Runs the program that is read by so many workers.
    Run(usize),
    /// The same by two workers, with the trace of the run in place of its report.
    Trace,
    /// Tells a person of the trace that is read, or of a run of the program that is read by two workers.
    Explain,
    /// The same of a run in the serial order, told to a program as JSON.
    ExplainAsJson,
    /// Replays this trace as a run of the program that is read.
    Replay(&'a str),
    /// Replays the trace that is read as a run of this program.
    Follow(&'a str),
    /// Draws the trace that is read.
    Draw,
}

use Command::{Draw, Elide, Explain, ExplainAsJson, Follow, Judge, Replay, Run, Trace};

/// Replays the text that is read, a trace or a program, with the other one, which stands in memory and so can be read.
fn replay<P: Read>(
    rt: &impl Abort,
    alloc: Global,
    input: &mut Watched<P>,
    other: &str,
    is_trace: bool,
    output: &mut Watched<Filling>,
) -> Result<u8, CliFault>
    requires reader { has_failed input.old ≡ false }
    requires writer { has_failed output.old ≡ false }
{
    let mut other = Watched::new(other.as_bytes());
    let answer = if is_trace {
        replay_text(alloc, &mut other, input, output)
    } else {
        replay_text(alloc, input, &mut other, output)
    };
    assert!(rt; !other.failed());
    answer
}

/// What the command answers.
fn answer_command<P: Read, R: Abort + Threads + Wait + Sync>(
    rt: &R,
    alloc: Global,
    command: Command<'_>,
    input: &mut Watched<P>,
    output: &mut Watched<Filling>,
) -> Result<u8, CliFault>
    requires reader { has_failed input.old ≡ false }
    requires writer { has_failed output.old ≡ false }
{
    match command {
        Judge => judge_stream(alloc, input, output, MOST),
        Elide => elide_text(alloc, input, output, MOST),
        Run(workers) => {
            assert!(rt; 0 < workers && workers <= 64);
            run_text(rt, alloc, alloc, input, workers, &OpenDoor, output, MOST)
        }
        Trace => write_run_trace(rt, alloc, input, 2, &OpenDoor, output, MOST),
        Explain | ExplainAsJson => {
            let is_json = matches!(command, ExplainAsJson);
            let manner = Manner {
                is_painted: false,
                rendering: if is_json {
                    Rendering::Record(RecordForm::Json)
                } else {
                    Rendering::Text
                },
                extent: Extent::First,
                file: "p.cilk",
            };
            explain_text(
                rt, alloc, &manner, input, 2, is_json, &OpenDoor, output, MOST,
            )
        }
        Replay(other) | Follow(other) => {
            let is_trace = matches!(command, Follow(_));
            replay(rt, alloc, input, other, is_trace, output)
        }
        Draw => draw_text(alloc, Form::Dot, input, output),
    }
}

/// What a command answers and writes, and how what it reads and its writer have fared.
struct Outcome {
    answer: Result<u8, CliFault>,
    output: Filling,
    reads: u64,
    read_failed: bool,
    write_failed: bool,
}

impl Drop for Outcome {
    fn drop(self) {
        let Outcome {
            answer: _,
            output: _,
            reads: _,
            read_failed: _,
            write_failed: _,
        } = self;
    }
}

/// The outcome of a command that has answered so.
fn outcome_of<T>(
    answer: Result<u8, CliFault>,
    input: &Watched<T>,
    output: Watched<Filling>,
) -> Outcome {
    Outcome {
        answer,
        reads: input.calls(),
        read_failed: input.failed(),
        write_failed: output.failed(),
        output: output.into_inner(),
    }
}

/// How a writer takes what is written.
#[derive(Clone, Copy)]
enum Takes {
    /// All that there is, at each call.
    All,
    /// A byte at each of so many calls, and then nothing.
    Calls(u32),
    /// The same, and then it answers errors.
    CallsThenErrors(u32),
}

impl Takes {
    /// How many calls it goes along with.
    fn calls(self) -> u32 {
        match self {
            Takes::All => u32::MAX,
            Takes::Calls(left) | Takes::CallsThenErrors(left) => left,
        }
    }

    /// A writer that takes so.
    fn writer(self, alloc: Global) -> Filling {
        Filling {
            held: Vec::new(alloc),
            most: if matches!(self, Takes::All) {
                usize::MAX
            } else {
                1
            },
            left: self.calls(),
            answers_an_error: matches!(self, Takes::CallsThenErrors(_)),
        }
    }
}

/// What is wanted of a command.
#[derive(Clone, Copy)]
enum Wanted<'a> {
    /// It ends with this status and writes this text.
    Text(u8, &'a str),
    /// It ends with this status and writes one of these texts.
    Among(u8, &'a [&'a str]),
    /// It writes nothing, and answers a fault with this status and text.
    Fault(u8, &'a str),
    /// Its reader fails, which is told, and nothing is written.
    Unread,
    /// Its reader is interrupted at once, which is told as a failure, and nothing is written.
    Interrupted,
    /// What it reads is too long, which is told after so many reads at least and so many at most, and nothing is written.
    TooLong(u64, u64),
    /// It writes this text to a writer that takes it so: it fails just where those are fewer calls than this many, and the writer holds
    /// what they wrote.
    Filled(Takes, u32, &'a str),
}

use Wanted::{Among, Fault, Filled, Interrupted, Text, TooLong, Unread};

/// Whether the command has ended with this status, and neither its reader nor its writer has failed.
fn is_ended(outcome: &Outcome, status: u8) -> bool {
    matches!(outcome.answer, Ok(found) if found == status)
        && !outcome.read_failed
        && !outcome.write_failed
}

/// Whether these bytes are those of one of the texts.
fn is_one_of(bytes: &[u8], texts: &[&str]) -> bool {
    for text in texts {
        if text.as_bytes() == bytes {
            return true;
        }
    }
    false
}

/// Whether the command has written nothing, and answers a fault with this status and text.
fn has_fault(alloc: Global, outcome: &Outcome, status: u8, wanted: &str) -> bool {
    let Err(fault) = &outcome.answer else {
        return false;
    };
    match format!(in alloc; "{fault}") {
        Ok(told) => {
            outcome.output.held.is_empty() && fault.status() == status && told.as_str() == wanted
        }
        Err(_) => false,
    }
}

/// Whether the reader has failed, which is told, and nothing is written.
fn is_unread(outcome: &Outcome) -> bool {
    matches!(outcome.answer, Err(CliFault::Read))
        && outcome.read_failed
        && outcome.output.held.is_empty()
}

/// Whether the writer, which went along with so many calls, has failed just where they are fewer than the text takes, and holds what they
/// wrote.
fn has_filled(outcome: &Outcome, left: u32, calls: u32, text: &str) -> bool {
    let is_cut = left < calls;
    let (front, _) = text.as_bytes().split_at(text.len().min(left as usize));
    matches!(outcome.answer, Err(CliFault::Write)) == is_cut
        && outcome.write_failed == is_cut
        && matches!(outcome.answer, Ok(0)) != is_cut
        && !outcome.read_failed
        && outcome.output.held.as_slice() == front
}

/// Whether the outcome is what is wanted.
fn is_met(alloc: Global, outcome: &Outcome, wanted: Wanted<'_>) -> bool {
    let written = outcome.output.held.as_slice();
    match wanted {
        Text(status, text) => is_ended(outcome, status) && written == text.as_bytes(),
        Among(status, texts) => is_ended(outcome, status) && is_one_of(written, texts),
        Fault(status, text) => has_fault(alloc, outcome, status, text),
        Unread => is_unread(outcome),
        Interrupted => is_unread(outcome) && outcome.reads == 1,
        TooLong(least, most) => {
            matches!(outcome.answer, Err(CliFault::TooLong))
                && !outcome.read_failed
                && written.is_empty()
                && least <= outcome.reads
                && outcome.reads <= most
        }
        Filled(takes, calls, text) => has_filled(outcome, takes.calls(), calls, text),
    }
}

/// The outcome is what is wanted.
fn meets(rt: &impl Abort, alloc: Global, outcome: &Outcome, wanted: Wanted<'_>) {
    let written = outcome.output.held.as_slice();
    assert!(rt; is_met(alloc, outcome, wanted), "it wrote {written:?}");
}

/// The command over this reader does what is wanted.
fn check<P: Read + Drop, R: Abort + Threads + Wait + Sync>(
    rt: &R,
    alloc: Global,
    command: Command<'_>,
    reader: P,
    wanted: Wanted<'_>,
) {
    let mut input = Watched::new(reader);
    let takes = match wanted {
        Filled(takes, ..) => takes,
        _ => Takes::All,
    };
    let mut output = Watched::new(takes.writer(alloc));
    let answer = answer_command(rt, alloc, command, &mut input, &mut output);
    meets(rt, alloc, &outcome_of(answer, &input, output), wanted);
}
