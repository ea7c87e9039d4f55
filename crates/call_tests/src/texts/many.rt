//! The limits of traces and programs: texts that have much of one thing.

use super::checks::{Given, reading_of};
use crate::checks::equal;
use program_text::Program;
use std::alloc::{AllocError, Global};
use text_words::Cause;
use trace_text::Trace;

/// What a text is read as.
enum Form {
    Trace,
    Program,
}

/// A text with much of one thing.
struct Much {
    /// What it is read as.
    form: Form,
    /// Its first lines.
    head: &'static str,
    /// What is repeated: a line, in which its number stands between two parts if there are two.
    line: (&'static str, Option<&'static str>),
    /// What is repeated as often behind these lines.
    closing: &'static str,
    /// Its last lines.
    tail: &'static str,
}

/// Appends the text with so much.
fn append_much(text: &mut String, much: &Much, count: u32) -> Result<(), AllocError> {
    let (line, end) = much.line;
    text.push_str(much.head)?;
    for number in 0..count {
        text.push_str(line)?;
        if let Some(end) = end {
            write!(text, "{number}{end}")?;
        }
    }
    for _ in 0..count {
        text.push_str(much.closing)?;
    }
    text.push_str(much.tail)
}

/// Whether so much means a trace or a program, and its fault where it does not. None where memory was refused.
fn read_much(alloc: Global, much: &Much, count: u32) -> Option<Given<()>> {
    let mut text = String::new(alloc);
    append_much(&mut text, much, count).ok()?;
    let fault = match much.form {
        Form::Trace => Trace::parse(alloc, text.as_bytes()).err(),
        Form::Program => Program::parse(alloc, text.as_bytes()).err(),
    };
    match fault {
        Some(fault) => reading_of(Err(fault)),
        None => Some(Ok(())),
    }
}

/// What there is much of, the most of it, and the line on which one more stands.
type Limit = (Much, u32, u32);

const LIMITS: &[Limit] = &[
    // `if`s in one another.
    (
        Much {
            form: Form::Program,
            head: "cilk 1\nfunc main z\n",
            line: ("if z\n", None),
            closing: "end\n",
            tail: "end\n",
        },
        64,
        67,
    ),
    // Statements and the `end` of their function.
    (
        Much {
            form: Form::Program,
            head: "cilk 1\n# c\nfunc main z\n",
            line: ("\nsync\n", None),
            closing: "",
            tail: "end\n",
        },
        99_999,
        200_004,
    ),
    // Functions beside `main`.
    (
        Much {
            form: Form::Program,
            head: "cilk 1\nfunc main z\nend\n",
            line: ("func f", Some(" z\nend\n")),
            closing: "",
            tail: "",
        },
        999,
        2_002,
    ),
    // Registers beside a parameter.
    (
        Much {
            form: Form::Program,
            head: "cilk 1\nfunc main z\n",
            line: ("let r", Some(" = z\n")),
            closing: "",
            tail: "end\n",
        },
        15,
        18,
    ),
    (
        Much {
            form: Form::Program,
            head: "cilk 1\nfunc main z\n",
            line: ("let r", Some(" = 0\n")),
            closing: "",
            tail: "end\n",
        },
        15,
        18,
    ),
    // Reducers.
    (
        Much {
            form: Form::Program,
            head: "cilk 1\n",
            line: ("reducer h", Some(" sum\n")),
            closing: "",
            tail: "func main z\nend\n",
        },
        256,
        258,
    ),
    (
        Much {
            form: Form::Trace,
            head: "cilk 1\n",
            line: ("reducer h", Some(" max\n")),
            closing: "",
            tail: "",
        },
        256,
        258,
    ),
    // Lines, behind three.
    (
        Much {
            form: Form::Program,
            head: "cilk 1\nfunc main z\nend\n",
            line: ("\n", None),
            closing: "",
            tail: "",
        },
        3_999_997,
        4_000_001,
    ),
];

/// So much means a trace or a program, and one more is too much, by what stands on that line.
#[test]
fn limits(rt: HostRuntime) {
    for (much, most, line) in LIMITS {
        let whole = read_much(rt.alloc(), much, *most);
        let more = read_much(rt.alloc(), much, most.wrapping_add(1));
        let wanted = (Some(Ok(())), Some(Err((*line, Cause::TooMany))));
        equal(&rt, &(much.head, *most), &(whole, more), &wanted);
    }
}
