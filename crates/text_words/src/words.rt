//! Lines of a text, and words of a line.

ghost use Rattle.std.specs.Prelude.{◌≡◌, ◌==◌, ◌<◌, [], ◌∷◌, length, position, MatchOption};
ghost use Rattle.std.specs.List.{before_first, list_all};
ghost use Rattle.std.specs.Str.Lines.{strip_carriage_return};
ghost use Rattle.text_words.specs.Text.{pieces, IsTextLine, is_hash, is_text_byte as text_byte};
ghost use Rattle.text_words.specs.Text as spec;

use std::marker::Model;
use std::str::SplitAsciiWhitespace;

fn line_feed(text: &[u8]) -> Option<usize>
    ensures { result ≡ position (λ byte. byte == 10) text.now }
{
    text.iter().position(|b| *b == b'\n')
}

/// The first line of a text without its line feed, and the text behind it.
pub fn split_line(text: &[u8]) -> (&[u8], &[u8])
    requires { 0 < length text.now }
    ensures pieces { pieces text.now ≡ result.0.now ∷ pieces result.1.now }
    ensures shorter { length result.1.now < length text.now }
{
    match line_feed(text) {
        Some(end) => (&text[..end], &text[end + 1..]),
        None => (text, &text[text.len()..]),
    }
}

/// A line without the carriage return at its end.
pub fn without_return(line: &[u8]) -> &[u8]
    ensures { result.now ≡ strip_carriage_return line.now }
{
    match line {
        [front @ .., b'\r'] => front,
        _ => line,
    }
}

fn is_text_byte(byte: u8) -> bool
    ensures { result ≡ text_byte byte }
{
    byte == b'\t' || (b' ' <= byte && byte <= b'~')
}

/// Whether a line holds such bytes only. Each is tested, so that several are at once.
fn is_text(line: &[u8]) -> bool
    ensures { result ≡ list_all text_byte line.now }
{
    let mut all = true;
    for byte in line {
        all &= is_text_byte(*byte);
    }
    all
}

#[tactic(auto, using(crate::proofs::WordsOfLine::text_is_utf8, crate::proofs::WordsOfLine::is_text_line, crate::proofs::WordsOfLine::is_no_text_line))]
/// The line as text, unless it has a byte that no line may hold.
pub fn as_text(line: &[u8]) -> Option<&str>
    ensures { MatchOption result (IsTextLine line.now → ⊥) (λ text. (text.now ≡ line.now) × IsTextLine line.now) }
{
    if !is_text(line) {
        return None;
    }
    let Ok(text) = str::from_utf8(line) else {
        return None;
    };
    Some(text)
}

/// Where the comment of a line begins.
pub fn comment_at(line: &[u8]) -> Option<usize>
    ensures { result ≡ position is_hash line.now }
{
    line.iter().position(|byte| *byte == b'#')
}

/// A line without its comment.
pub fn without_comment(line: &[u8]) -> &[u8]
    ensures { result.now ≡ before_first is_hash line.now }
{
    match comment_at(line) {
        Some(at) => &line[..at],
        None => line,
    }
}

fn before_comment(line: &str) -> &str
    ensures { result.now ≡ before_first is_hash line.now }
{
    match line.split_once('#') {
        Some((front, _)) => front,
        None => line,
    }
}

/// The words that are left of a line, which contracts see as a list of texts.
#[derive(Drop)]
pub struct Words<'a> {
    rest: SplitAsciiWhitespace<'a>,
}

impl<'a> Model for Words<'a> {
    ghost use Rattle.std.specs.Prelude.{ℕ, List};
    ghost use Rattle.std.specs.Str.Iter.{split_ascii_whitespace_text};
    ghost use Rattle.text_words.specs.Text.{IsTextLine, split_words};

    ghost Value = { List (List ℕ) };

    ghost view = { λ words. split_words (split_ascii_whitespace_text words.rest) };

    ghost invariant = { λ words. IsTextLine (split_ascii_whitespace_text words.rest) };
}

impl<'a> Words<'a> {
    /// The words of a line before its comment.
    pub fn of_line(line: &'a str) -> Words<'a>
        requires { IsTextLine line.now }
        ensures { result ≡ spec.words line.now }
    {
        Words {
            rest: before_comment(line).split_ascii_whitespace(),
        }
    }

    /// Takes the next word, if one is left.
    pub fn take(&mut self) -> Option<&'a str>
        ensures { MatchOption result ((self.old ≡ []) × (self.new ≡ [])) (λ word. self.old ≡ word.now ∷ self.new) }
    {
        self.rest.next()
    }
}
