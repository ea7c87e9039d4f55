//! Whole messages that `explain` tells of no text. tests/messages.t and tests/mistakes-in-words.t have others.

use super::texts::is_text;
use source_quotes::{Meant, fault_message};
use std::test::Fail;
use text_words::Cause;

/// A text with a fault in it, its line and cause, and what is told of it.
type Case<'a> = (&'a str, u32, Cause, &'a str);

const FAULTS: &[Case<'static>] = &[
    // A trace in place of a program.
    (
        "cilk 1\nmem x\nwrite 0 x 1\n",
        3,
        Cause::BadWord,
        "error: a request of a trace stands in a program
 --> p.cilk:3
  |
3 | write 0 x 1
  | ^^^^^^^^^^^
  = the form of this line in a program is `write CELL VALUE`
  = help: judge a trace by `cilkcheck judge FILE`; a program has no requests, but functions
",
    ),
    // No `main`.
    (
        "cilk 1\nmem x\n",
        3,
        Cause::NoMain,
        "error: there is no function `main`
 --> p.cilk:3
  |
3 | 
  | 
  = help: add the function with which the program begins: `func main z`
",
    ),
];

/// What is told of each fault on paper.
#[test]
fn faults_are_told(rt: HostRuntime) -> Result<(), Fail> {
    for (text, line, why, wanted) in FAULTS {
        let bytes = text.as_bytes();
        let told = fault_message(
            rt.alloc(),
            false,
            "p.cilk",
            bytes,
            *line,
            *why,
            Meant::Program,
        )?;
        is_text(&rt, told.as_slice(), wanted);
    }
    Ok(())
}
