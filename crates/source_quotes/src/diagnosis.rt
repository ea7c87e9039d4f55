//! What is wrong with a line, and which part of it.

ghost use Rattle.std.specs.Prelude.{◌≡◌};
ghost use Rattle.source_quotes.specs.Mistakes.{cause_of};

use crate::form::begins_behind;
use crate::meant::Meant;
use crate::mistake::{ByteMistake, HeaderMistake, LimitMistake, Mistake, NestingMistake};
use crate::part::Part;
use crate::scene::{Scene, first_words, open_at};
use crate::values::{bad_numbers, unknown_names};
use crate::words::bad_words;
use text_words::{Cause, comment_at};

/// The most lines of a text.
const MOST_LINES: u32 = 4_000_000;

/// The most statements of a program.
const MOST_STATEMENTS: usize = 100_000;

/// The most `if` within one another.
const MOST_DEPTH: usize = 64;

/// A mistake, and the part of the line that is wrong.
#[derive(Clone, Copy)]
pub(crate) struct Diagnosis {
    pub(crate) mistake: Mistake,
    pub(crate) part: Part,
}

/// What is wrong with a line whose first byte that no line may hold is this one.
fn byte_mistake(scene: &Scene<'_, '_>, byte: u8) -> ByteMistake {
    let is_first = scene.number == 1;
    match byte {
        b'\r' => ByteMistake::Return,
        0..=0x1f | 0x7f => ByteMistake::Control,
        0xef if is_first && scene.line.starts_with(b"\xef\xbb\xbf") => ByteMistake::OrderMark,
        0xff if is_first && scene.line.starts_with(b"\xff\xfe") => ByteMistake::Wide,
        0xfe if is_first && scene.line.starts_with(b"\xfe\xff") => ByteMistake::Wide,
        _ => ByteMistake::Other,
    }
}

/// What is wrong with a line that has a byte that no line may hold.
fn bad_byte(scene: &Scene<'_, '_>) -> (ByteMistake, Part) {
    for (at, byte) in scene.line.iter().enumerate() {
        if !matches!(*byte, b'\t' | b' '..=b'~') {
            return (byte_mistake(scene, *byte), Part::Byte(at));
        }
    }
    (ByteMistake::Other, Part::Byte(0))
}

/// What stands in place of a header.
fn before_header(scene: &Scene<'_, '_>) -> (HeaderMistake, Part) {
    match (scene.words, scene.lines) {
        ([_, ..], _) => (HeaderMistake::Other, Part::Statement),
        ([], []) => (HeaderMistake::Empty, Part::Statement),
        ([], [first, ..]) => match comment_at(first) {
            Some(at) => (HeaderMistake::Comment, Part::Byte(at)),
            None => (HeaderMistake::Blank, Part::Statement),
        },
    }
}

/// What is wrong with a first line that is no header. A text that includes headers is C or C++.
fn bad_header(scene: &Scene<'_, '_>) -> (HeaderMistake, Part) {
    match scene.words {
        ["cilk", "1" | "2", _, ..] => (HeaderMistake::Long, Part::Onward(2)),
        ["cilk", _, ..] => (HeaderMistake::Version, Part::Word(1)),
        ["cilk"] => (HeaderMistake::Version, Part::Statement),
        _ if scene.lines.iter().any(|line| line.starts_with(b"#include")) => {
            (HeaderMistake::Source, before_header(scene).1)
        }
        _ => before_header(scene),
    }
}

/// What is wrong with a line that may not stand where it does, or behind the last line, where a function or an `if` is open.
fn bad_nesting(scene: &Scene<'_, '_>) -> NestingMistake {
    if scene.number as usize > scene.lines.len() {
        return match open_at(scene.lines) {
            Some((_, "if")) => NestingMistake::OpenIf,
            Some(_) => NestingMistake::OpenFunction,
            None => NestingMistake::Other,
        };
    }
    match scene.word(0) {
        "mem" | "reducer" => match scene.meant {
            Meant::Program => NestingMistake::Declaration,
            Meant::Trace => NestingMistake::TraceDeclaration,
        },
        "func" => NestingMistake::Function,
        "else" => match open_at(scene.before()) {
            Some((_, "if")) => NestingMistake::SecondElse,
            _ => NestingMistake::Else,
        },
        "end" => NestingMistake::End,
        _ => NestingMistake::Statement,
    }
}

/// How many lines have words behind the first `func`.
fn statements_among(lines: &[&[u8]]) -> usize {
    let mut is_begun = false;
    let mut count = 0_usize;
    for line in lines {
        let first = first_words(line).0;
        if is_begun && !first.is_empty() {
            count = count.saturating_add(1);
        }
        is_begun |= first == "func";
    }
    count
}

/// How many `if` are open behind these lines of a function.
fn depth_of(function: &[&[u8]]) -> usize {
    let mut depth = 0_usize;
    for line in function {
        match first_words(line).0 {
            "if" => depth = depth.saturating_add(1),
            "end" => depth = depth.saturating_sub(1),
            _ => {}
        }
    }
    depth
}

/// Which limit a line passes.
fn passed_limit(scene: &Scene<'_, '_>) -> LimitMistake {
    if scene.number > MOST_LINES {
        return LimitMistake::Lines;
    }
    let is_program = matches!(scene.meant, Meant::Program);
    if is_program && statements_among(scene.before()) >= MOST_STATEMENTS {
        return LimitMistake::Statements;
    }
    match scene.word(0) {
        "mem" => LimitMistake::Cells,
        "reducer" => LimitMistake::Reducers,
        first if !is_program && begins_behind(Meant::Trace, first) => LimitMistake::Requests,
        "func" => LimitMistake::Functions,
        "if" if depth_of(scene.function()) >= MOST_DEPTH => LimitMistake::Depth,
        "let" | "read" | "get" | "pfor" => LimitMistake::Registers,
        _ => LimitMistake::Other,
    }
}

/// What is wrong with a line that has this cause.
pub(crate) fn diagnose(scene: &Scene<'_, '_>, why: Cause) -> Diagnosis
    ensures { cause_of result.mistake ≡ why }
{
    let (mistake, part) = match why {
        Cause::NotText => {
            let (mistake, part) = bad_byte(scene);
            (Mistake::Byte(mistake), part)
        }
        Cause::BadHeader => {
            let (mistake, part) = bad_header(scene);
            (Mistake::Header(mistake), part)
        }
        Cause::BadWord => {
            let (mistake, part) = bad_words(scene);
            (Mistake::Word(mistake), part)
        }
        Cause::BadNumber => {
            let (mistake, part) = bad_numbers(scene);
            (Mistake::Number(mistake), part)
        }
        Cause::UnknownName => {
            let (mistake, part) = unknown_names(scene);
            (Mistake::Unknown(mistake), part)
        }
        Cause::TwiceNamed => (Mistake::Twice, Part::Word(1)),
        Cause::BadNesting => (Mistake::Nesting(bad_nesting(scene)), Part::Statement),
        Cause::NoMain => (Mistake::NoMain, Part::Statement),
        Cause::TooMany => (Mistake::Limit(passed_limit(scene)), Part::Statement),
    };
    Diagnosis { mistake, part }
}
