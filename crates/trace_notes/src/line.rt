//! A line that is a note.

ghost use Rattle.std.specs.Prelude.{◌≡◌, ◌↔◌, IsTrue, cond, Some, None};
ghost use Rattle.std.specs.Option.{option_map};
ghost use Rattle.std.specs.Str.Parse.{digits_value};
ghost use Rattle.text_words.specs.Text.{BeginsWithDigit};
ghost use Rattle.trace_notes.specs.Lines.{is_comment, is_mark, said, said_of_mark, head_of, rest_of, said_of_word, said_by, said_on};

use crate::place::split_place;
use text_words::as_text;

/// What a note says.
#[derive(Clone, Copy)]
pub enum Note<'a> {
    /// What the mark `@K` stands for: a place, which can be taken apart.
    Mark(u32, &'a str),
    /// What the cell with that name stands for.
    Cell(&'a str, &'a str),
    /// What each cell of the memory with that name stands for.
    Memory(&'a str, &'a str),
    /// What was recorded.
    Run(&'a str),
}

/// Whether a line begins with `#`, as each note does.
pub fn is_comment(line: &[u8]) -> bool
    ensures { result ≡ is_comment line.now }
{
    matches!(line, [b'#', ..])
}

fn begins_with_digit(word: &str) -> bool
    ensures { IsTrue result ↔ BeginsWithDigit word.now }
{
    matches!(word.as_bytes(), [b'0'..=b'9', ..])
}

/// The number of a mark.
fn mark_of(digits: &str) -> Option<u32>
    ensures { result ≡ cond (is_mark digits.now) (Some (digits_value 10 digits.now)) None }
{
    if !begins_with_digit(digits) {
        return None;
    }
    match digits.parse::<u32>() {
        Ok(0) => None,
        Ok(mark) => Some(mark),
        Err(_) => None,
    }
}

fn note_of_mark<'a>(digits: &str, place: &'a str) -> Option<Note<'a>>
    ensures { option_map said result ≡ said_of_mark digits.now place.now }
{
    match mark_of(digits) {
        Some(mark) if split_place(place).is_some() => Some(Note::Mark(mark, place)),
        _ => None,
    }
}

fn note_of_word<'a>(word: &'a str, text: &'a str) -> Note<'a>
    ensures { said result ≡ said_of_word word.now text.now }
{
    match word.strip_suffix("[*]") {
        Some(name) => Note::Memory(name, text),
        None => Note::Cell(word, text),
    }
}

/// What stands before the first space and behind it. Where there is none, nothing stands behind it.
fn split_space(text: &str) -> (&str, &str)
    ensures head { result.0.now ≡ head_of text.now }
    ensures rest { result.1.now ≡ rest_of text.now }
{
    match text.split_once(' ') {
        Some((head, rest)) => (head, rest),
        None => (text, ""),
    }
}

/// What a line says whose first word is this, with what stands behind the space.
fn note_by<'a>(word: &str, rest: &'a str) -> Option<Note<'a>>
    ensures { option_map said result ≡ said_by word.now rest.now }
{
    match word {
        "#at" => {
            let (digits, place) = split_space(rest);
            note_of_mark(digits, place)
        }
        "#of" => {
            let (cell, text) = split_space(rest);
            if text.is_empty() {
                None
            } else {
                Some(note_of_word(cell, text))
            }
        }
        "#run" => {
            if rest.is_empty() {
                None
            } else {
                Some(Note::Run(rest))
            }
        }
        _ => None,
    }
}

/// What a line says as a note, if it is one: `#at K PLACE`, `#of CELL TEXT` or `#run TEXT`, with one space between these. The line has no
/// line feed, and no carriage return at its end.
pub fn note_on(line: &[u8]) -> Option<Note<'_>>
    ensures { option_map said result ≡ said_on line.now }
{
    let Some(text) = as_text(line) else {
        return None;
    };
    let (word, rest) = split_space(text);
    note_by(word, rest)
}
