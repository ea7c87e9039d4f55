//! Frames that are asked and answered, one request after another.

ghost use Rattle.frame_steps.specs.Frames.{Stands};

use frame_steps::{Frame, FrameFault};
use model_accesses::{Kind, Rule, Witness};
use model_strands::Spawned;
use program_text::Program;
use race_gate::Answer;
use std::alloc::Global;
use std::test::Fail;
use text_words::Act;

const PAIR: &[u8] =
    b"cilk 1\nmem x\nmem y\nfunc main z\n  spawn f 7\n  read r x\nend\nfunc f v\n  write x v\nend\n";

const REFUSED_OR_NOT: &[u8] =
    b"cilk 1\nmem x\nfunc main z\n  let r = 4\n  read r x\n  if ok\n    write x 1\n  else\n    write x r\n  end\nend\n";

const CALLS: &[u8] =
    b"cilk 1\nmem x\nfunc main z\n  let r = 4\n  call f 9\n  write x r\nend\nfunc f v\n  let r = v + 1\n  write x r\nend\n";

const TURNS: &[u8] =
    b"cilk 2\nmem x\nfunc main z\n  let i = 5\n  pfor i 0 f\n  write x i\n  pfor i 2 f\n  write x i\nend\nfunc f n\nend\n";

/// The first spawn of a block by strand 0.
const SPLIT: Answer = Answer::Split(Spawned {
    child: 1,
    next: 2,
    join: 3,
    first: true,
});

const REFUSED: Answer = Answer::Refused {
    rule: Rule::Race,
    witness: Witness {
        entry: 2,
        strand: 1,
        kind: Kind::Write,
    },
};

/// What a frame does.
enum Step {
    /// It goes on, and asks this on that line.
    Asks(Act, u32),
    /// What it asks is a spawn of this function with that argument.
    Spawns(u32, u64),
    /// It takes this answer.
    Takes(Answer),
    /// It does not take this answer.
    Refuses(Answer),
    /// It takes room for a call.
    Reserves,
    /// It has room for a call, or has none.
    HasRoom(bool),
    /// Its open block has this join, or it has no open block.
    HasJoin(Option<u32>),
    IsOver,
}

use Step::{Asks, HasJoin, HasRoom, IsOver, Refuses, Reserves, Spawns, Takes};

/// Whether a frame does this step.
fn does(program: &Program<Global>, frame: &mut Frame<Global>, step: &Step) -> bool
    requires { Stands program.now.functions frame.old }
    ensures { Stands program.now.functions frame.new }
{
    match step {
        Asks(act, line) => {
            if frame.is_over() {
                return false;
            }
            let want = frame.next(program);
            want.act == *act && want.line == *line
        }
        Spawns(function, argument) => match frame.spawns(program) {
            Some(target) => target.function == *function && target.argument == *argument,
            None => false,
        },
        Takes(answer) => frame.answer(program, answer).is_ok(),
        Refuses(answer) => frame.answer(program, answer) == Err(FrameFault::Strange),
        Reserves => frame.reserve_call().is_ok() && frame.has_room(),
        HasRoom(wanted) => frame.has_room() == *wanted,
        HasJoin(join) => frame.block_join() == *join,
        IsOver => frame.is_over(),
    }
}

/// Whether a frame does these steps, one after another.
fn does_all(program: &Program<Global>, frame: &mut Frame<Global>, steps: &[Step]) -> bool
    requires { Stands program.now.functions frame.old }
{
    for step in steps {
        if !does(program, frame, step) {
            return false;
        }
    }
    true
}

const CASES: &[(&[u8], &[Step])] = &[
    // A spawn, which is asked for again when it is asked again, a refused read, the sync at the end.
    (
        PAIR,
        &[
            Refuses(Answer::Granted),
            Asks(Act::Spawn, 5),
            Asks(Act::Spawn, 5),
            Spawns(1, 7),
            Refuses(Answer::Granted),
            Takes(SPLIT),
            HasJoin(Some(3)),
            Asks(Act::Read(0), 6),
            Takes(REFUSED),
            Asks(Act::Sync, 7),
            Takes(Answer::Waits),
            HasJoin(None),
            Asks(Act::Return, 7),
            Refuses(Answer::Resumed),
            Takes(Answer::Finished),
            IsOver,
        ],
    ),
    // A refused read leaves its register and clears `ok`, which decides; then the else part runs.
    (
        REFUSED_OR_NOT,
        &[
            Asks(Act::Read(0), 5),
            Takes(REFUSED),
            Asks(Act::Write(0, 4), 9),
            Takes(Answer::Granted),
            Asks(Act::Sync, 11),
            Takes(Answer::Same),
        ],
    ),
    (
        REFUSED_OR_NOT,
        &[
            Asks(Act::Read(0), 5),
            Takes(Answer::Value(6)),
            Asks(Act::Write(0, 1), 7),
            Takes(Answer::Granted),
            Asks(Act::Sync, 11),
            Takes(Answer::Same),
        ],
    ),
    // A called function has registers of its own, and returns to the statement behind the call.
    (
        CALLS,
        &[
            Reserves,
            Asks(Act::Call, 5),
            Takes(Answer::Same),
            Asks(Act::Write(0, 10), 10),
            Takes(Answer::Granted),
            Asks(Act::Sync, 11),
            Takes(Answer::Same),
            Asks(Act::Return, 11),
            Refuses(Answer::Ended),
            Takes(Answer::Resumed),
            Asks(Act::Write(0, 4), 6),
            Takes(Answer::Granted),
        ],
    ),
    // An answer is taken once: then nothing is wanted until it is asked again.
    (
        PAIR,
        &[
            Refuses(SPLIT),
            Asks(Act::Spawn, 5),
            Takes(SPLIT),
            Refuses(SPLIT),
            Asks(Act::Read(0), 6),
            Takes(Answer::Value(7)),
            Refuses(Answer::Value(7)),
            Asks(Act::Sync, 7),
            Takes(Answer::Joined(3)),
            Refuses(Answer::Joined(3)),
            Asks(Act::Return, 7),
            Takes(Answer::Finished),
            Refuses(Answer::Finished),
            IsOver,
        ],
    ),
    // So it is at calls and returns. Room for a call is kept until there is one.
    (
        CALLS,
        &[
            HasRoom(false),
            Reserves,
            Asks(Act::Call, 5),
            HasRoom(true),
            Takes(Answer::Same),
            Refuses(Answer::Same),
            HasRoom(false),
            Reserves,
            Asks(Act::Write(0, 10), 10),
            Takes(Answer::Granted),
            Refuses(Answer::Granted),
            HasRoom(true),
            Asks(Act::Sync, 11),
            Takes(Answer::Same),
            Refuses(Answer::Same),
            HasRoom(true),
            Asks(Act::Return, 11),
            Takes(Answer::Resumed),
            Refuses(Answer::Resumed),
            HasRoom(true),
            Asks(Act::Write(0, 4), 6),
            Takes(REFUSED),
            Refuses(REFUSED),
            HasRoom(true),
        ],
    ),
    // A `pfor` spawns once for each number, and then syncs; its register keeps the last number. With no number it syncs alone.
    (
        TURNS,
        &[
            Asks(Act::Sync, 5),
            Takes(Answer::Same),
            Asks(Act::Write(0, 5), 6),
            Takes(Answer::Granted),
            Asks(Act::Spawn, 7),
            Asks(Act::Spawn, 7),
            Spawns(1, 0),
            Refuses(Answer::Granted),
            Takes(SPLIT),
            Asks(Act::Spawn, 7),
            Asks(Act::Spawn, 7),
            Spawns(1, 1),
            Refuses(Answer::Granted),
            Takes(SPLIT),
            Asks(Act::Sync, 7),
            Takes(Answer::Waits),
            Asks(Act::Write(0, 1), 8),
            Takes(Answer::Granted),
        ],
    ),
];

/// A new frame of each program's first function does these steps.
#[test]
fn frames_ask_and_are_answered(rt: HostRuntime) -> Result<(), Fail> {
    for (text, steps) in CASES {
        let program = Program::parse(rt.alloc(), text)?;
        let mut frame = Frame::new(rt.alloc(), &program, 0, 0);
        assert!(rt; does_all(&program, &mut frame, steps), "{text:?}");
    }
    Ok(())
}
