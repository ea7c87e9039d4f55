//! How quotes look, and the parts that they are made of.

ghost use Rattle.std.specs.Prelude.{◌≡◌, ◌≤◌, ◌++◌, length, decimal, replicate, take, drop};
ghost use Rattle.text_buffers.specs.Builders.{Adds};
ghost use Rattle.source_quotes.specs.Lines.{line_in, blanks, end_from, statement_length};
ghost use Rattle.source_quotes.specs.declared.look.Paint.TheVariants.{Blue};
ghost use Rattle.source_quotes.specs.Quotes.{look_of, before_paint, behind_paint, painted};
ghost use Rattle.source_quotes.specs.Parts.{IsWithin, indent, sign_below};
ghost use Rattle.source_quotes.specs.Quotes.{gutter, quote, sign, marked, place, noted, counted};

use crate::part::Span;
use crate::source::Source;
use itoa::Buffer;
use text_buffers::TextBuilder;

/// What words are painted in, on a terminal.
#[derive(Clone, Copy)]
pub enum Paint {
    /// What is wrong.
    Red,
    /// What may be wrong.
    Yellow,
    /// What stands at the left.
    Blue,
    /// What is to be read first.
    Bold,
}

/// How quotes look.
#[derive(Clone, Copy)]
pub struct Look {
    /// Whether words are painted, for a terminal.
    pub is_painted: bool,
    /// How wide the column of numbers is.
    pub width: usize,
}

impl Look {
    /// The look of quotes from a source.
    pub fn of(is_painted: bool, source: &Source<'_>) -> Look
        ensures { result ≡ look_of is_painted source.now }
    {
        Look {
            is_painted,
            width: Buffer::new().format(source.count()).len(),
        }
    }
}

/// What stands before and behind painted words.
fn paint_codes(look: Look, paint: Paint) -> (&'static str, &'static str)
    ensures start { result.0.now ≡ before_paint look.is_painted paint }
    ensures end { result.1.now ≡ behind_paint look.is_painted }
{
    if !look.is_painted {
        return ("", "");
    }
    let start = match paint {
        Paint::Red => "\u{1b}[1;31m",
        Paint::Yellow => "\u{1b}[1;33m",
        Paint::Blue => "\u{1b}[1;34m",
        Paint::Bold => "\u{1b}[1m",
    };
    (start, "\u{1b}[0m")
}

/// Adds words in a paint.
pub fn push_painted(text: &mut TextBuilder, look: Look, paint: Paint, words: &str)
    ensures { Adds text.old (painted look paint words.now) text.new }
{
    let (start, end) = paint_codes(look, paint);
    text.push_words(start);
    text.push_words(words);
    text.push_words(end);
}

/// Adds a byte so many times.
fn push_repeated(text: &mut TextBuilder, count: usize, byte: u8)
    ensures { Adds text.old (replicate count byte) text.new }
{
    for _ in 0..count {
        text.push_byte(byte);
    }
}

/// Adds this sign at the left of what is no line of the source.
pub fn push_left_sign(text: &mut TextBuilder, look: Look, sign: &str)
    ensures { Adds text.old (replicate look.width 32 ++ painted look Blue sign.now) text.new }
{
    push_repeated(text, look.width, b' ');
    push_painted(text, look, Paint::Blue, sign);
}

/// Adds the left of what is no line of the source.
pub fn push_gutter(text: &mut TextBuilder, look: Look)
    ensures { Adds text.old (gutter look) text.new }
{
    push_left_sign(text, look, " |");
}

/// Adds what stands before a note beside the source.
pub fn push_note_sign(text: &mut TextBuilder, look: Look)
    ensures { Adds text.old (noted look) text.new }
{
    push_left_sign(text, look, " =");
    text.push_words(" ");
}

/// Adds the line of the source with this number.
pub fn push_quote(text: &mut TextBuilder, look: Look, source: &Source<'_>, number: u32)
    ensures { Adds text.old (quote look source.now number) text.new }
{
    let mut buffer = Buffer::new();
    let digits = buffer.format(number);
    push_repeated(text, look.width.saturating_sub(digits.len()), b' ');
    let (start, end) = paint_codes(look, Paint::Blue);
    text.push_words(start);
    text.push_words(digits);
    text.push_words(" |");
    text.push_words(end);
    text.push_words(" ");
    text.push_bytes(source.line(number));
    text.push_words("\n");
}

/// How many blanks stand at the beginning of a line.
pub(crate) fn blanks_of(line: &[u8]) -> usize
    ensures count { result ≡ blanks line.now }
    ensures within { result ≤ length line.now }
{
    for (at, byte) in line.iter().enumerate() {
        if *byte != b' ' && *byte != b'\t' {
            return at;
        }
    }
    line.len()
}

/// Where a statement ends, without the blanks and the comment behind it.
pub(crate) fn end_of(line: &[u8]) -> usize
    ensures end { result ≡ end_from 0 0 line.now }
    ensures within { result ≤ length line.now }
{
    let mut end = 0;
    for (at, byte) in line.iter().enumerate() {
        if *byte == b'#' {
            return end;
        }
        if *byte != b' ' && *byte != b'\t' {
            end = at + 1;
        }
    }
    end
}

/// The statement on a line, without the blanks before it and what is behind it.
pub fn statement_of(line: &[u8]) -> &[u8]
    ensures { result.now ≡ take (statement_length line.now) (drop (blanks line.now) line.now) }
{
    let (_, behind) = line.split_at(blanks_of(line));
    let (statement, _) = behind.split_at(end_of(behind));
    statement
}

/// Adds, below a line, this sign under its statement. What the sign says may follow.
pub fn push_sign(text: &mut TextBuilder, look: Look, line: &[u8], mark: u8)
    ensures { Adds text.old (sign look line.now mark) text.new }
{
    let (front, statement) = line.split_at(blanks_of(line));
    push_gutter(text, look);
    text.push_words(" ");
    text.push_bytes(front);
    let (start, end) = paint_codes(look, Paint::Red);
    text.push_words(start);
    push_repeated(text, end_of(statement), mark);
    text.push_words(end);
}

/// Adds the line of the source with this number, and this sign below its statement.
pub fn push_marked_line(
    text: &mut TextBuilder,
    look: Look,
    source: &Source<'_>,
    number: u32,
    mark: u8,
)
    ensures { Adds text.old (marked look source.now number mark) text.new }
{
    push_quote(text, look, source, number);
    push_sign(text, look, source.line(number), mark);
}

/// Adds what stands below these bytes: their tabs, and a space for each other byte.
fn push_indent(text: &mut TextBuilder, front: &[u8])
    ensures { Adds text.old (indent front.now) text.new }
{
    for byte in front {
        text.push_byte(if *byte == b'\t' { b'\t' } else { b' ' });
    }
}

/// Adds, below a line, this sign in a paint under a part of it.
pub fn push_sign_below(
    text: &mut TextBuilder,
    look: Look,
    paint: Paint,
    line: &[u8],
    span: Span,
    mark: u8,
)
    requires { IsWithin span line.now }
    ensures { Adds text.old (sign_below look paint line.now span mark) text.new }
{
    let (front, _) = line.split_at(span.from);
    push_gutter(text, look);
    text.push_words(" ");
    push_indent(text, front);
    let (start, end) = paint_codes(look, paint);
    text.push_words(start);
    push_repeated(text, span.count, mark);
    text.push_words(end);
}

/// Adds how many there are, and of what, which is one word.
pub fn push_count(text: &mut TextBuilder, count: usize, word: &str)
    ensures { Adds text.old (counted count word.now) text.new }
{
    let plural = if count == 1 { "" } else { "s" };
    text.push_number("", count as u64);
    text.push_words(" ");
    text.push_words(word);
    text.push_words(plural);
}

/// Adds where in a file it is: its name and a line, and an empty line at the left.
pub fn push_place(text: &mut TextBuilder, look: Look, file: &str, number: u32)
    ensures { Adds text.old (place look file.now number) text.new }
{
    push_left_sign(text, look, "-->");
    text.push_words(" ");
    text.push_words(file);
    text.push_number(":", u64::from(number));
    text.push_words("\n");
    push_gutter(text, look);
    text.push_words("\n");
}
