//! Growths of commands, from texts that are read to texts that are written. What they are written to takes memory of another heap.

use super::{Heap, Told, note};
use crate::hostile::worked::{FIB, PAIR, PAIR_TRACE};
use std::alloc::Global;
use tool_commands::{CliFault, Watched, elide_text, judge_stream, replay_text};

const MOST: u32 = 1_000_000;

/// Three requests, of which the second takes memory. The strand of the third has ended, unless the second is refused.
const SPAWNING: &[u8] = b"cilk 1\nmem x\nreducer h sum\nwrite 0 x 5\nspawn 0\nread 0 x\n";

/// A command that is asked over a heap.
pub(super) enum Command {
    Judge,
    Elide,
    Replay,
}

/// What a command is called here, and what it tells where no growth is refused: its exit status, and what it writes.
fn wanted_of(command: &Command) -> (&'static str, u8, &'static [u8]) {
    match command {
        Command::Judge => (
            "judge_stream",
            2,
            b"1 granted\n2 split 1 2 3\nillegal not-running\n",
        ),
        // FIB's elision.
        Command::Elide => ("elide_text", 0, b"x 55\nrequests 713\n"),
        // The replay of PAIR's trace, in which a read is refused.
        Command::Replay => ("replay_text", 1, b"replayed 7\n"),
    }
}

/// What `judge` tells where the second request finds no memory, with status 3.
const STARVED: &[u8] = b"1 granted\nillegal memory\n2 value 5\n";

/// What a command has answered and written.
type Ended = (Result<u8, CliFault>, Vec<u8>);

fn perform(alloc: Global, heap: &Heap, command: &Command) -> Ended {
    let mut output = Watched::new(Vec::new(alloc));
    let answer = match command {
        Command::Judge => judge_stream(heap, &mut Watched::new(SPAWNING), &mut output, MOST),
        Command::Elide => elide_text(heap, &mut Watched::new(FIB), &mut output, MOST),
        Command::Replay => {
            let mut program = Watched::new(PAIR);
            replay_text(
                heap,
                &mut program,
                &mut Watched::new(PAIR_TRACE),
                &mut output,
            )
        }
    };
    (answer, output.into_inner())
}

/// Whether the command has ended with this status, and written this.
fn tells(ended: &Ended, status: u8, text: &[u8]) -> bool {
    let (answer, output) = ended;
    matches!(answer, Ok(found) if *found == status) && output.as_slice() == text
}

/// A command of which a growth was refused writes nothing and tells so, where it needs what was refused, as `judge` tells it of a request. It
/// tells what it always does where it is asked once more. `judge` does without the room that it asks for in advance, and it and `replay`
/// without less room for a text that they have read.
pub(super) fn call_command(alloc: Global, heap: &Heap, command: &Command, told: &mut Told) -> bool {
    let (name, status, text) = wanted_of(command);
    let ended = perform(alloc, heap, command);
    let is_usual = tells(&ended, status, text);
    if !note(told, name, heap.has_refused()) {
        return is_usual;
    }
    let lacks_memory = matches!(ended.0, Err(CliFault::Memory)) && ended.1.is_empty();
    let is_borne = match command {
        Command::Judge => is_usual || tells(&ended, 3, STARVED),
        Command::Elide => false,
        Command::Replay => is_usual,
    };
    (lacks_memory || is_borne) && tells(&perform(alloc, heap, command), status, text)
}
