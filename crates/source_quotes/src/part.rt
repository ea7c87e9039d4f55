//! Parts of a line.

ghost use Rattle.std.specs.Prelude.{◌≤◌, ◌+◌, length};
ghost use Rattle.source_quotes.specs.Parts.{IsWithin};

use crate::look::{blanks_of, end_of};

/// Bytes of a line.
#[derive(Clone, Copy)]
pub struct Span {
    /// How many bytes stand before them.
    pub from: usize,
    /// How many they are.
    pub count: usize,
}

/// Which part of a line is meant.
#[derive(Clone, Copy)]
pub enum Part {
    /// All of its statement.
    Statement,
    /// The word with this number, from 0 on.
    Word(usize),
    /// What stands in brackets in this word.
    Index(usize),
    /// This word, and all behind it.
    Onward(usize),
    /// The byte with this number, from 0 on.
    Byte(usize),
}

/// How many bytes stand before the first one that is among these ends.
fn count_before(bytes: &[u8], ends: &[u8]) -> usize
    ensures { result ≤ length bytes.now }
{
    for (at, byte) in bytes.iter().enumerate() {
        if ends.contains(byte) {
            return at;
        }
    }
    bytes.len()
}

/// What ends a word.
const WORD_ENDS: &[u8] = b" \t#";

/// Where the word with this number begins, or the line's statement ends.
fn word_from(line: &[u8], number: usize) -> usize
    ensures { result ≤ length line.now }
{
    let mut from = blanks_of(line);
    for _ in 0..number {
        let (_, behind) = line.split_at(from);
        let length = count_before(behind, WORD_ENDS);
        let (_, after) = behind.split_at(length);
        from += length + blanks_of(after);
    }
    from
}

/// The word with this number.
fn word_span(line: &[u8], number: usize) -> Span
    ensures { IsWithin result line.now }
{
    let from = word_from(line, number);
    let (_, behind) = line.split_at(from);
    Span {
        from,
        count: count_before(behind, WORD_ENDS),
    }
}

/// The word with this number, and all of the statement behind it.
fn onward_span(line: &[u8], number: usize) -> Span
    ensures { IsWithin result line.now }
{
    let from = word_from(line, number);
    let (_, behind) = line.split_at(from);
    Span {
        from,
        count: end_of(behind),
    }
}

/// What stands in brackets in the word with this number, and nothing where it has none.
fn index_span(line: &[u8], number: usize) -> Span
    ensures { IsWithin result line.now }
{
    let word = word_span(line, number);
    let (front, _) = line.split_at(word.from + word.count);
    let (_, bytes) = front.split_at(word.from);
    let open = count_before(bytes, b"[");
    let (_, bracket) = bytes.split_at(open);
    match bracket {
        [_, index @ ..] => Span {
            from: word.from + open + 1,
            count: count_before(index, b"]"),
        },
        [] => Span {
            from: word.from,
            count: 0,
        },
    }
}

/// The bytes of a part of a line. Where the line has no such part, all of its statement.
pub fn span_of(line: &[u8], part: Part) -> Span
    ensures { IsWithin result line.now }
{
    let span = match part {
        Part::Statement => onward_span(line, 0),
        Part::Word(number) => word_span(line, number),
        Part::Index(number) => index_span(line, number),
        Part::Onward(number) => onward_span(line, number),
        Part::Byte(at) if at < line.len() => Span { from: at, count: 1 },
        Part::Byte(_) => Span { from: 0, count: 0 },
    };
    if span.count == 0 {
        onward_span(line, 0)
    } else {
        span
    }
}
