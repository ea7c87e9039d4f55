//! Traces of which `explain` keeps the first piece and the requests, and texts that it keeps as they stand. What is told is worked out by
//! hand from what is told of short texts.

ghost use Rattle.std.specs.Prelude.{◌≡◌, false};
ghost use Rattle.command_streams.specs.Watched.{has_failed};

use super::Command;
use super::Command::{Explain, ExplainAsJson};
use super::Wanted::Text;
use super::pieces::{LATE, Long, RETURNS, WIDE, check_broken, check_pieces};
use command_streams::{KeptText, read_kept};
use std::alloc::{AllocError, Global};
use std::process::Abort;
use std::test::Fail;
use tool_commands::Watched;

/// A head, lines that are repeated, and a tail.
macro_rules! long {
    ($head:literal, $repeated:literal, $tail:literal) => {
        Long {
            head: $head,
            repeated: $repeated,
            times: 20_000,
            tail: $tail,
        }
    };
}

/// Plain lines of requests alone.
const PLAIN: Long = long!("cilk 1\nmem x\n", "read 0 x\n", "");

/// A line behind the others that has no line feed.
const UNENDED: Long = long!("cilk 1\nmem x\n", "read 0 x\n", "read 0 x");

/// One with a number that has a zero before it.
const ZERO: Long = long!("cilk 1\nmem x\n", "read 0 x\n", "read 00 x\n");

/// A blank line.
const BLANK: Long = long!("cilk 1\nmem x\n", "read 0 x\n", "\nread 0 x\n");

/// A comment behind each request.
const REMARKS: Long = long!("cilk 1\nmem x\n", "read 0 x\n# a remark\n", "");

/// A note in the head, and one behind the requests.
const RECORDED: Long = long!(
    "cilk 1\nmem x\n#run first\n",
    "read 0 x\n",
    "#run last\nread 0 x\n"
);

/// Notes in the head alone, and a race.
const RACED: Long = long!(
    "cilk 1\nmem x\n#of x the cell\n#at 9 a.c:9\n#run first\nspawn 0 @5\nwrite 1 x 7 @9\n",
    "read 2 x @6\n",
    ""
);

/// A name that is wrong.
const FAULTY: Long = long!("cilk 1\nmem x\n", "read 0 x\n", "read 0 y\nread 0 x\n");

/// A request of a strand that has ended.
const ENDED: Long = long!(
    "cilk 1\nmem x\n",
    "read 0 x\n",
    "return 0\nread 0 x\nread 0 x\n"
);

/// A program.
const PROGRAM: Long = long!("cilk 1\nmem x\nfunc main z\n", "write x 1\n", "end\n");

/// What is told of so many requests that are clean.
macro_rules! clean {
    ($judged:literal) => {
        concat!(
            "clean: no two of the accesses of this trace race, in whatever order its strands run\njudged: ",
            $judged,
            "\n"
        )
    };
}

const RECORDED_TOLD: &str =
    "clean: no two of the accesses of this trace race, in whatever order its strands run
judged: 20001 requests
recorded: first
recorded: last
";

const RACED_TOLD: &str = "race: write-read on the cell, 20000 times
  --> a.c:9
   = this write
   = spawned at line 5
  --> line 6
   = this read, may run before it or after it
  --> line 5
   = here they part: what is spawned comes to a.c:9, while the spawner goes on to line 6
   = help: a `sync` in the spawner before line 6 would order them

20000 refusals at 1 pair of places, among 20002 requests
recorded: first
";

const RACED_RECORD: &str =
    r#"{"memory":null,"outcome":"raced","pairs":1,"races":[{"group":1,"help":"a `sync` in the spawner before line 6 would order them","kind":"write-read","locations":["the cell"],"outstanding":null,"parting":{"child":{"code":null,"column":null,"file":"a.c","function":null,"line":9},"next":{"code":null,"column":null,"file":null,"function":null,"line":6},"spawn":{"code":null,"column":null,"file":null,"function":null,"line":5}},"refused":{"further":0,"place":{"code":null,"column":null,"file":null,"function":null,"line":6},"within":[],"word":"read"},"rule":"determinacy-race","spawn_line":5,"times":20000,"witness":{"further":0,"place":{"code":null,"column":null,"file":"a.c","function":null,"line":9},"within":[{"place":{"code":null,"column":null,"file":null,"function":null,"line":5},"way":"spawned"}],"word":"write"}}],"recorded":["first"],"refusals":20000,"requests":20002,"traces":1,"untold":[],"version":1,"warned":0,"warnings":[]}"#;

const FAULTY_TOLD: &str = "error: no cell has this name
     --> p.cilk:20003
      |
20003 | read 0 y
      |        ^
      = help: declare it before the first request, by `mem NAME`
";

const ENDED_TOLD: &str = "error: this strand has ended
     --> p.cilk:20004
      |
20004 | read 0 x
      | ^^^^^^^^
      = request 20002: strand 0 ended at line 20003: `return 0`
      = help: a spawn and a sync end their strand: `judge` prints the number by which the function goes on. Behind a return there is none
";

const PROGRAM_TOLD: &str =
    "clean for every schedule: no run of this program has a race, and each leaves this memory\nx 1\n";

/// How many bytes a reader gives at each read at most.
const PIECES: &[usize] = &[7, 100_003, 131_072];

/// Texts, and whether all behind the first piece are plain lines of requests.
const KEPT: &[(Long, bool)] = &[
    (PLAIN, true),
    (RACED, true),
    (ENDED, true),
    (UNENDED, false),
    (ZERO, false),
    (BLANK, false),
    (REMARKS, false),
    (RETURNS, false),
    (WIDE, false),
    (LATE, false),
    (RECORDED, false),
    (FAULTY, false),
    (PROGRAM, false),
];

/// Whether the text is given again, and stands as it was read unless it is plain.
fn is_kept(
    alloc: Global,
    kept: &KeptText,
    text: &[u8],
    is_plain: bool,
) -> Result<bool, AllocError> {
    match kept {
        KeptText::Whole(kept) => Ok(!is_plain && kept.as_slice() == text),
        KeptText::Plain(kept) => Ok(is_plain && kept.to_text(alloc)?.as_slice() == text),
    }
}

/// The text is kept so.
fn check_kept(rt: &impl Abort, alloc: Global, long: &Long, is_plain: bool) -> Result<(), Fail> {
    let text = long.text(alloc)?;
    let mut reader = Watched::new(text.as_bytes());
    let kept = read_kept(alloc, &mut reader)?;
    assert!(rt; is_kept(alloc, &kept, text.as_bytes(), is_plain)?);
    Ok(())
}

/// Of plain lines of requests no text is kept, and it is given again; others are kept as they stand.
#[test]
fn plain_lines_are_kept_as_requests(rt: HostRuntime) -> Result<(), Fail> {
    for (long, is_plain) in KEPT {
        check_kept(&rt, rt.alloc(), long, *is_plain)?;
    }
    Ok(())
}

/// Commands over long texts, their exit statuses, and what is told.
const TOLD: &[(Command<'static>, Long, u8, &str)] = &[
    // Nothing is refused.
    (Explain, PLAIN, 0, clean!("20000 requests")),
    (Explain, UNENDED, 0, clean!("20001 requests")),
    (Explain, ZERO, 0, clean!("20001 requests")),
    (Explain, BLANK, 0, clean!("20001 requests")),
    (Explain, REMARKS, 0, clean!("20000 requests")),
    (Explain, RETURNS, 0, clean!("20001 requests")),
    (Explain, WIDE, 0, clean!("2 requests")),
    (Explain, LATE, 0, clean!("1 request")),
    // Others.
    (Explain, RECORDED, 0, RECORDED_TOLD),
    (Explain, RACED, 1, RACED_TOLD),
    (Explain, FAULTY, 2, FAULTY_TOLD),
    (Explain, ENDED, 2, ENDED_TOLD),
    (Explain, PROGRAM, 0, PROGRAM_TOLD),
    (ExplainAsJson, RACED, 1, RACED_RECORD),
];

/// Behind the first piece a text goes on with plain lines of requests, or with others, and the same is told as of a short text.
#[test]
fn long_texts_are_explained(rt: HostRuntime) -> Result<(), Fail> {
    for (command, long, status, told) in TOLD {
        let text = long.text(rt.alloc())?;
        let wanted = Text(*status, told);
        check_pieces(&rt, rt.alloc(), *command, text.as_bytes(), PIECES, wanted);
    }
    Ok(())
}

/// A reader that fails behind the first piece, among plain lines of requests.
#[test]
fn a_failure_behind_the_first_piece(rt: HostRuntime) -> Result<(), Fail> {
    check_broken(&rt, rt.alloc(), Explain, &PLAIN, 150_000)
}
