//! The lines of a text.

ghost use Rattle.std.specs.Prelude.{◌≡◌, ◌++◌, ℕ, [], map, length, reverse, IfOk};
ghost use Rattle.text_words.specs.Text.{lines};
ghost use Rattle.source_quotes.specs.Lines.{line_in};
ghost use denote.Ref.{Bor};

use std::alloc::{AllocError, Global};
use std::marker::Model;
use text_words::{split_line, without_return};

/// A text by its lines, each without what ends it. Contracts see the list of the lines.
#[derive(Drop)]
pub struct Source<'a> {
    lines: Vec<&'a [u8]>,
}

impl<'a> Model for Source<'a> {
    ghost use Rattle.std.specs.Prelude.{ℕ, List, map};
    ghost use denote.Ref.{Bor};

    ghost Value = { List (List ℕ) };

    ghost view = { λ source. map (λ (line : Bor (List ℕ)). line.now) source.lines.items };
}

impl<'a> Source<'a> {
    /// The lines of a text. Errors where there is no memory.
    pub fn new(alloc: Global, text: &'a [u8]) -> Result<Source<'a>, AllocError>
        ensures { IfOk result (λ source. source ≡ lines text.now) }
    {
        let mut lines = Vec::new(alloc);
        let mut rest = text;
        while !rest.is_empty() {
            let (line, after) = split_line(rest);
            lines.push(without_return(line))?;
            rest = after;
        }
        Ok(Source { lines })
    }

    /// How many lines there are.
    pub fn count(&self) -> usize
        ensures { result ≡ length self.now }
    {
        self.lines.len()
    }

    /// The line with this number, from 1 on; behind the last one, an empty line.
    pub fn line(&self, number: u32) -> &'a [u8]
        ensures { result.now ≡ line_in self.now number }
    {
        match self.lines.get((number as usize).saturating_sub(1)) {
            Some(line) => line,
            None => &[],
        }
    }

    /// All lines.
    pub fn as_slice(&self) -> &[&'a [u8]] {
        self.lines.as_slice()
    }
}
