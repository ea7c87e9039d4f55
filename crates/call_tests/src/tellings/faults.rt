//! All faults of a text at once, and the whole text about them. tests/faults-of-a-text.t has others.

use super::texts::is_text;
use fault_lists::{Fault, faults_message};
use program_text::Program;
use source_quotes::Meant;
use std::test::Fail;
use text_words::TextFault;

/// Letters that are no ASCII in two comments, one of them behind `func`.
const PROGRAM: &str = "cilk 1\nmem x # \u{e9}\nfunc main z # \u{e9}\nend\n";

const FAULTS: &str = "error: a line has printable ASCII characters and tabs alone, in comments too
 --> p.cilk:2
  |
2 | mem x # \u{e9}
  |         ^
  = help: write it in ASCII, or leave it out

error: a line has printable ASCII characters and tabs alone, in comments too
 --> p.cilk:3
  |
3 | func main z # \u{e9}
  |               ^
  = help: write it in ASCII, or leave it out

2 faults
";

#[test]
fn faults_of_programs(rt: HostRuntime) -> Result<(), Fail> {
    let text = PROGRAM.as_bytes();
    match Program::parse(rt.alloc(), text) {
        Err(TextFault::At { line, why }) => {
            let first = Fault { line, why };
            let told = faults_message(rt.alloc(), false, "p.cilk", text, Meant::Program, first)?;
            is_text(&rt, told.as_slice(), FAULTS);
        }
        _ => is_text(&rt, b"no fault", FAULTS),
    }
    Ok(())
}
