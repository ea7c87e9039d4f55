//! Growths of programs, of frames, of elisions and of replays.

ghost use Rattle.std.specs.Prelude.{◌≡◌};
ghost use Rattle.frame_steps.specs.Frames.{Stands};

use super::{Asked, Heap, Told};
use crate::hostile::worked::{FIB, PAIR};
use frame_steps::{Frame, FrameFault};
use model_accesses::{Kind, Rule};
use program_text::Program;
use race_gate::{Answer, Entry};
use run_replay::{ReplayFault, replay};
use serial_elision::{ElideFault, elide};
use shadow_history::Witness;
use sp_labels::Spawned;
use std::alloc::{AllocError, Global};
use text_words::{Act, Monoid, Request, TextFault};

/// FIB as it is printed, without what stands before the words of a line.
const PRINTED: &[u8] =
    b"cilk 1\nmem x\nreducer h sum\nfunc main z\nput h 0\ncall fib 10\nget r h\nwrite x r\nend\nfunc fib n\nlet t = n < 2\nif t\nupdate h n\nelse\nlet a = n - 1\nlet b = n - 2\nspawn fib a\ncall fib b\nsync\nend\nend\n";

/// The program, which was read, tells its text, its shape and its elision.
fn ask_program(heap: &Heap, program: &Program<&Heap>) -> Asked {
    let Ok(text) = program.print(heap) else {
        return Err("Program::print");
    };
    let Ok(shape) = program.shape(heap) else {
        return Err("Program::shape");
    };
    let elided = match elide(heap, program, 713) {
        Ok(elided) => elided,
        Err(ElideFault::Memory) => return Err("elide"),
        Err(_) => return Ok(false),
    };
    Ok(
        program.functions.as_slice().len() == 2
            && text.as_slice() == PRINTED
            && shape.cells == 1
            && shape.monoids.as_slice() == [Monoid::Sum].as_slice()
            && elided.memory.as_slice() == [55].as_slice()
            && elided.requests == 713,
    )
}

pub(super) fn call_program(heap: &Heap, told: &mut Told) -> Asked {
    match Program::parse(heap, FIB) {
        Ok(program) => again!(told, ask_program(heap, &program)),
        Err(TextFault::Memory) => Err("Program::parse"),
        Err(_) => Ok(false),
    }
}

/// A function that calls another, which writes.
const CALLING: &[u8] = b"cilk 1\nmem x\nfunc main z\ncall f 5\nend\nfunc f v\nwrite x v\nend\n";

/// The frame asks for this on this line.
fn wants(program: &Program<Global>, frame: &mut Frame<&Heap>, act: Act, line: u32) -> bool
    requires { Stands program.now.functions frame.old }
    ensures { Stands program.now.functions frame.new }
{
    if frame.is_over() {
        return false;
    }
    let want = frame.next(program);
    want.act == act && want.line == line
}

/// The frame asks for its call, is answered, once more where there was no memory, and goes on with the function that it calls.
fn is_called(program: &Program<Global>, frame: &mut Frame<&Heap>, told: &mut Told) -> bool
    requires { Stands program.now.functions frame.old }
{
    if !wants(program, frame, Act::Call, 4) {
        return false;
    }
    let answered = twice!(
        told,
        "Frame::answer",
        FrameFault::Memory,
        frame.answer(program, &Answer::Same),
        wants(program, frame, Act::Call, 4)
    );
    answered.is_ok() && wants(program, frame, Act::Write(0, 5), 7)
}

/// Frames of a program are answered a call, or get room for one.
pub(super) fn call_frames(alloc: Global, heap: &Heap, told: &mut Told) -> Asked {
    let Ok(program) = Program::parse(alloc, CALLING) else {
        return Ok(false);
    };
    let mut answered = Frame::new(heap, &program, program.main(), 0);
    let mut roomy = Frame::new(heap, &program, program.main(), 0);
    let is_answered = is_called(&program, &mut answered, told);
    let reserved = twice!(
        told,
        "Frame::reserve_call",
        AllocError,
        roomy.reserve_call(),
        !roomy.has_room()
    );
    Ok(is_answered && reserved.is_ok() && roomy.has_room())
}

/// A run of PAIR in which the child writes first.
const ENTRIES: &[Entry] = &[
    entry!(
        0,
        Act::Spawn,
        5,
        Answer::Split(Spawned {
            child: 1,
            next: 2,
            join: 3,
            first: true,
        }),
    ),
    entry!(1, Act::Write(0, 7), 9, Answer::Granted),
    entry!(
        2,
        Act::Read(0),
        6,
        Answer::Refused {
            rule: Rule::Race,
            witness: Witness {
                entry: 2,
                strand: 1,
                kind: Kind::Write,
            },
        },
    ),
    entry!(1, Act::Sync, 10, Answer::Same),
    entry!(1, Act::Return, 10, Answer::Ended),
    entry!(2, Act::Sync, 7, Answer::Joined(3)),
    entry!(3, Act::Return, 7, Answer::Finished),
];

/// Replays the run.
pub(super) fn replay_pair(alloc: Global, heap: &Heap) -> Asked {
    let Ok(pair) = Program::parse(alloc, PAIR) else {
        return Ok(false);
    };
    match replay(heap, &pair, ENTRIES) {
        Err(ReplayFault::Memory) => Err("replay"),
        replayed => Ok(replayed.is_ok()),
    }
}
