//! Worked runs.

use super::gathered::{ENDED, FINISHED, JOINED, READ, REFUSED, SPLIT, SYNCED, WRITTEN};
use program_text::Program;
use race_gate::{Answer, Entry};
use run_replay::{ReplayFault, replay};
use std::alloc::Global;
use text_words::{Act, Request};

const PAIR: &[u8] =
    b"cilk 1\nmem x\nmem y\nfunc main z\n  spawn f 7\n  read r x\nend\nfunc f v\n  write x v\nend\n";

const ENDLESS: &[u8] = b"cilk 1\nfunc main z\ncall main 0\nend\n";

// Whether the replay of these entries as a run of the program that a text means is so.
fn gives(alloc: Global, text: &[u8], entries: &[Entry], wanted: Result<(), ReplayFault>) -> bool {
    match Program::parse(alloc, text) {
        Ok(program) => replay(alloc, &program, entries) == wanted,
        Err(_) => false,
    }
}

// A program's text, entries, and what their replay answers.
type Case<'a> = (&'a [u8], &'a [Entry], Result<(), ReplayFault>);

// An entry that is not that of the program's run.
macro_rules! other {
    ($strand:literal, $act:expr, $line:literal, $answer:expr) => {
        Entry {
            request: Request {
                strand: $strand,
                act: $act,
                line: $line,
            },
            answer: $answer,
        }
    };
}

const CALL: Entry = other!(0, Act::Call, 3, Answer::Same);

const CASES: &[Case<'static>] = &[
    (
        PAIR,
        &[SPLIT, WRITTEN, READ, SYNCED, ENDED, JOINED, FINISHED],
        Ok(()),
    ),
    (
        PAIR,
        &[SPLIT, WRITTEN, READ, SYNCED, ENDED, JOINED],
        Err(ReplayFault::Unfinished),
    ),
    (PAIR, &[], Err(ReplayFault::Unfinished)),
    // Calls need not end.
    (
        ENDLESS,
        &[CALL, CALL, CALL, CALL, CALL],
        Err(ReplayFault::Unfinished),
    ),
    // Nothing follows the end.
    (
        PAIR,
        &[
            SPLIT, WRITTEN, READ, SYNCED, ENDED, JOINED, FINISHED, FINISHED,
        ],
        Err(ReplayFault::Strange(8)),
    ),
];

// Whether the replay of the program's run with this entry at a place, counted from 0, answers that it is strange there.
fn is_strange(alloc: Global, place: u32, entry: Entry) -> bool {
    let mut entries = [SPLIT, WRITTEN, READ, SYNCED, ENDED, JOINED, FINISHED];
    match entries.get_mut(place as usize) {
        Some(one) => *one = entry,
        None => return false,
    }
    let wanted = Err(ReplayFault::Strange(place.wrapping_add(1)));
    gives(alloc, PAIR, &entries, wanted)
}

const STRANGE: &[(u32, Entry)] = &[
    // Another answer is strange.
    (1, other!(1, Act::Write(0, 7), 9, REFUSED)),
    // Another request is strange.
    (2, other!(2, Act::Read(1), 6, REFUSED)),
    (3, other!(9, Act::Sync, 10, Answer::Same)),
    // So is an answer that no gate gives, wherever it stands.
    (0, other!(0, Act::Spawn, 5, Answer::Unset)),
    (1, other!(1, Act::Write(0, 7), 9, Answer::Unset)),
    (2, other!(2, Act::Read(0), 6, Answer::Unset)),
    (3, other!(1, Act::Sync, 10, Answer::Unset)),
    (4, other!(1, Act::Return, 10, Answer::Unset)),
    (5, other!(2, Act::Sync, 7, Answer::Unset)),
    (6, other!(3, Act::Return, 7, Answer::Unset)),
];

#[test]
fn a_run_is_replayed(rt: HostRuntime) {
    for (text, entries, wanted) in CASES {
        assert!(rt; gives(rt.alloc(), text, entries, *wanted), "{wanted:?}");
    }
    for (place, entry) in STRANGE {
        assert!(rt; is_strange(rt.alloc(), *place, *entry), "at {place}");
    }
}
