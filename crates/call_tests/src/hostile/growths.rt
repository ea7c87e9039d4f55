//! Each growth of a call refused in turn, over a heap of the test: the call answers that there is no memory, what it was asked on is as
//! before, and where it is asked once more, or none is refused, it answers as ever.

/// What a strand asks on a line.
macro_rules! request {
    ($strand:literal, $act:expr, $line:literal) => {
        Request {
            strand: $strand,
            act: $act,
            line: $line,
        }
    };
}

/// What a strand asks on a line, and what it is answered.
macro_rules! entry {
    ($strand:literal, $act:expr, $line:literal, $answer:expr $(,)?) => {
        Entry {
            request: request!($strand, $act, $line),
            answer: $answer,
        }
    };
}

/// What a call answers, made once more where it answered that there is no memory, if what it was made on was as before then.
macro_rules! twice {
    ($told:ident, $call:literal, $memory:pat, $answer:expr, $is_as_before:expr) => {
        match $answer {
            Err($memory) if crate::hostile::growths::note($told, $call, true) && $is_as_before => $answer,
            answer => answer,
        }
    };
    ($told:ident, $call:literal, $memory:pat, $answer:expr) => {
        twice!($told, $call, $memory, $answer, true)
    };
}

/// What calls that change nothing answer, made once more where there was no memory for one of them.
macro_rules! again {
    ($told:ident, $asked:expr) => {
        match $asked {
            Err(call) if crate::hostile::growths::note($told, call, true) => $asked,
            asked => asked,
        }
    };
}

mod commands;
mod gates;
mod kept;
mod lists;
mod programs;
mod strands;
mod traces;

use crate::checks::equal;
use crate::refusing::Refusing;
use commands::Command;
use std::alloc::Global;
use std::process::Abort;

/// A heap of which one growth is refused.
type Heap = Refusing<Global>;

/// The calls that have answered that there is no memory, and the hints for which there was none.
type Told = Vec<&'static str>;

/// Notes the call if there was no memory for it. Whether there was none.
fn note(told: &mut Told, call: &'static str, is_refused: bool) -> bool {
    is_refused && told.push(call).is_ok()
}

/// Whether calls answered and left what they should, or the call for which there was no memory.
type Asked = Result<bool, &'static str>;

/// What is called one after another over a heap.
enum Calls {
    List,
    Strands,
    Branches,
    Views,
    Reads,
    Shadow,
    Trace,
    /// The requests to a gate, one by one.
    Requests,
    /// The same in a list.
    Replies,
    Lines,
    Program,
    Frames,
    Replay,
    Command(Command),
}

/// Makes the calls, once each, and notes those that it makes once more.
fn ask_calls(alloc: Global, heap: &Heap, calls: &Calls, told: &mut Told) -> Asked {
    match calls {
        Calls::List => lists::call_list(heap, told),
        Calls::Strands => strands::call_strands(heap, told),
        Calls::Branches => kept::call_branches(heap, told),
        Calls::Views => kept::call_views(heap, told),
        Calls::Reads => kept::call_reads(alloc, heap),
        Calls::Shadow => kept::call_shadow(alloc, heap),
        Calls::Trace => traces::call_trace(heap, told),
        Calls::Requests => gates::call_gate(alloc, heap, false, told),
        Calls::Replies => gates::call_gate(alloc, heap, true, told),
        Calls::Lines => gates::write_lines(heap),
        Calls::Program => programs::call_program(heap, told),
        Calls::Frames => programs::call_frames(alloc, heap, told),
        Calls::Replay => programs::replay_pair(alloc, heap),
        Calls::Command(command) => Ok(commands::call_command(alloc, heap, command, told)),
    }
}

/// Makes the calls, and notes those for which there was no memory. Whether each answered and left what it should.
fn make_calls(alloc: Global, heap: &Heap, calls: &Calls, told: &mut Told) -> bool {
    matches!(again!(told, ask_calls(alloc, heap, calls, told)), Ok(true))
}

/// Where the growths of calls have no end.
const ENDLESS: usize = 10_000;

/// Makes the calls over a new heap that refuses the growth behind so many. Whether there was such a growth, and so no memory for just one call.
fn check_refused(
    rt: &impl Abort,
    alloc: Global,
    calls: &Calls,
    names: &[&str],
    growths: usize,
    told: &mut Told,
) -> bool {
    let heap = Refusing::new(alloc);
    heap.refuse((growths as u64).saturating_add(1));
    let is_right = make_calls(alloc, &heap, calls, told);
    let has_refused = heap.has_refused();
    let refused = if has_refused {
        growths.saturating_add(1)
    } else {
        growths
    };
    let found = (is_right, told.len());
    equal(rt, &(names, growths), &found, &(true, refused));
    has_refused
}

/// Refuses the first growth of the calls, the second, and so on until none is refused. For each that is refused there is no memory for just
/// one call, and so it is for each call that has a name here.
fn check(rt: &impl Abort, alloc: Global, calls: &Calls, names: &[&str]) {
    let mut told = Vec::new(alloc);
    for growths in 0..ENDLESS {
        if !check_refused(rt, alloc, calls, names, growths, &mut told) {
            break;
        }
    }
    assert!(rt; told.len() < ENDLESS, "{names:?}");
    for name in names {
        assert!(rt; told.contains(name), "{name}");
    }
}

#[test]
fn growths_of_lists_and_strands(rt: HostRuntime) {
    let alloc = rt.alloc();
    check(
        &rt,
        alloc,
        &Calls::List,
        &[
            "OrderList::new",
            "OrderList::reserve",
            "OrderList::make_room",
        ],
    );
    check(
        &rt,
        alloc,
        &Calls::Strands,
        &[
            "Strands::new",
            "Strands::reserve_event",
            "Strands::make_room",
            "Strands::spawn",
            "Strands::call",
        ],
    );
}

#[test]
fn growths_of_what_is_kept_of_strands(rt: HostRuntime) {
    let alloc = rt.alloc();
    check(
        &rt,
        alloc,
        &Calls::Branches,
        &["Branches::new", "Branches::reserve_event"],
    );
    check(
        &rt,
        alloc,
        &Calls::Views,
        &["Views::new", "Views::reserve_event"],
    );
    check(&rt, alloc, &Calls::Reads, &["ReadPeers::new"]);
    check(&rt, alloc, &Calls::Shadow, &["Shadow::new"]);
}

#[test]
fn growths_of_traces_and_gates(rt: HostRuntime) {
    let alloc = rt.alloc();
    check(
        &rt,
        alloc,
        &Calls::Trace,
        &["Trace::parse", "Trace::print", "Trace::shape", "cell_name"],
    );
    check(&rt, alloc, &Calls::Requests, &["Gate::new", "Gate::judge"]);
    check(&rt, alloc, &Calls::Replies, &["Gate::new", "judge_all"]);
    check(&rt, alloc, &Calls::Lines, &["verdict_lines"]);
}

#[test]
fn growths_of_programs_and_runs(rt: HostRuntime) {
    let alloc = rt.alloc();
    check(
        &rt,
        alloc,
        &Calls::Program,
        &[
            "Program::parse",
            "Program::print",
            "Program::shape",
            "elide",
        ],
    );
    check(
        &rt,
        alloc,
        &Calls::Frames,
        &["Frame::answer", "Frame::reserve_call"],
    );
    check(&rt, alloc, &Calls::Replay, &["replay"]);
}

const COMMANDS: &[(Calls, &str)] = &[
    (Calls::Command(Command::Judge), "judge_stream"),
    (Calls::Command(Command::Elide), "elide_text"),
    (Calls::Command(Command::Replay), "replay_text"),
];

#[test]
fn growths_of_commands(rt: HostRuntime) {
    for (command, name) in COMMANDS {
        check(&rt, rt.alloc(), command, &[*name]);
    }
}
