//! Requests in plain form, by code of their own for each keyword.
//!
//! Each keyword has a function, so that its code knows its case and is not put in line with the other nine: a `match` whose arms are
//! `self.take_control(at, Act::Spawn, text)`, `self.take_access(at, Kind::Read, text)` and so on does the same, and takes 4 to 18 % more of
//! the time of `judge`. Any line can be read as [`Draft::take_lines`] reads those that are not in plain form.

ghost use Rattle.std.specs.Prelude.{◌<◌, ◌≤◌, ℕ, List, length};
ghost use Rattle.trace_text.specs.Lines.{HasKeyword, IsControl};
ghost use Rattle.trace_text.specs.declared.keyword.Keyword.TheVariants.{Access};
ghost use Rattle.trace_text.specs.Plain.{BeginsRequest};
ghost use Rattle.text_words.specs.Limits.{most_lines};
ghost use Rattle.trace_text.specs.Drafts.{so_far, TellsIfSome};
ghost use Rattle.trace_text.specs.Pieces.{ReadsPlain};

use crate::keyword::{keyword_for, keyword_word};
use crate::line::{act_of, request_on};
use crate::plain::{behind_word, mark, place, strand, value_for};
use crate::trace::Draft;
use access_table::{Kind, word};
use std::alloc::Allocator;
use text_words::{Act, TextFault, Version};

impl<'a, A: Allocator + Copy> Draft<'a, A> {
    /// Adds a request in plain form, of which the mark and the line feed are left, and gives what stands behind its line. None, which
    /// changes nothing, where the line does not end in plain form or has no room.
    #[inline(always)]
    fn ask_plain<'b>(&mut self, at: u32, strand: u32, act: Act, bytes: &'b [u8]) -> Option<&'b [u8]>
        ensures { (text : List ℕ) → BeginsRequest self.old.names text strand act bytes.now →
            TellsIfSome at (so_far self.old.names self.old.lines) text result (so_far self.new.names self.new.lines) }
    {
        let Some((mark, rest)) = mark(bytes) else {
            return None;
        };
        match self.ask(at, request_on(at, strand, act, mark)) {
            Ok(()) => Some(rest),
            Err(fault) => {
                self.lacks_memory = matches!(fault, TextFault::Memory);
                None
            }
        }
    }

    /// Adds the request without operands that the first line of the text is, and gives what stands behind the line. None, which changes
    /// nothing, where the line is no such request in plain form or has no room.
    #[inline(always)]
    fn take_control<'b>(&mut self, at: u32, act: Act, text: &'b [u8]) -> Option<&'b [u8]>
        requires { IsControl act }
        ensures { TellsIfSome at (so_far self.old.names self.old.lines) text.now result (so_far self.new.names self.new.lines) }
    {
        let Some(rest) = behind_word(keyword_word(keyword_for(act)).as_bytes(), text) else {
            return None;
        };
        let Some((strand, rest)) = strand(rest) else {
            return None;
        };
        self.ask_plain(at, strand, act, rest)
    }

    /// The same of an access.
    #[inline(always)]
    fn take_access<'b>(&mut self, at: u32, kind: Kind, text: &'b [u8]) -> Option<&'b [u8]>
        requires { HasKeyword self.old.names.version (Access kind) }
        ensures { TellsIfSome at (so_far self.old.names self.old.lines) text.now result (so_far self.new.names self.new.lines) }
    {
        let Some(rest) = behind_word(word(kind).as_bytes(), text) else {
            return None;
        };
        let Some((strand, rest)) = strand(rest) else {
            return None;
        };
        let Some((place, rest)) = place(kind, &self.names, rest) else {
            return None;
        };
        let Some((value, rest)) = value_for(kind, rest) else {
            return None;
        };
        self.ask_plain(at, strand, act_of(kind, place, value), rest)
    }

    /// The same of a spawn, by a function without a hint, as for each keyword.
    fn take_spawn<'b>(&mut self, at: u32, text: &'b [u8]) -> Option<&'b [u8]>
        ensures { TellsIfSome at (so_far self.old.names self.old.lines) text.now result (so_far self.new.names self.new.lines) }
    {
        self.take_control(at, Act::Spawn, text)
    }

    /// The same of a sync.
    fn take_sync<'b>(&mut self, at: u32, text: &'b [u8]) -> Option<&'b [u8]>
        ensures { TellsIfSome at (so_far self.old.names self.old.lines) text.now result (so_far self.new.names self.new.lines) }
    {
        self.take_control(at, Act::Sync, text)
    }

    /// The same of a call.
    fn take_call<'b>(&mut self, at: u32, text: &'b [u8]) -> Option<&'b [u8]>
        ensures { TellsIfSome at (so_far self.old.names self.old.lines) text.now result (so_far self.new.names self.new.lines) }
    {
        self.take_control(at, Act::Call, text)
    }

    /// The same of a return.
    fn take_return<'b>(&mut self, at: u32, text: &'b [u8]) -> Option<&'b [u8]>
        ensures { TellsIfSome at (so_far self.old.names self.old.lines) text.now result (so_far self.new.names self.new.lines) }
    {
        self.take_control(at, Act::Return, text)
    }

    /// The same of a read.
    fn take_read<'b>(&mut self, at: u32, text: &'b [u8]) -> Option<&'b [u8]>
        ensures { TellsIfSome at (so_far self.old.names self.old.lines) text.now result (so_far self.new.names self.new.lines) }
    {
        self.take_access(at, Kind::Read, text)
    }

    /// The same of a write.
    fn take_write<'b>(&mut self, at: u32, text: &'b [u8]) -> Option<&'b [u8]>
        ensures { TellsIfSome at (so_far self.old.names self.old.lines) text.now result (so_far self.new.names self.new.lines) }
    {
        self.take_access(at, Kind::Write, text)
    }

    /// The same of a bump, which version 2 alone has.
    fn take_bump<'b>(&mut self, at: u32, text: &'b [u8]) -> Option<&'b [u8]>
        ensures { TellsIfSome at (so_far self.old.names self.old.lines) text.now result (so_far self.new.names self.new.lines) }
    {
        let Version::Two = self.names.version() else {
            return None;
        };
        self.take_access(at, Kind::Bump, text)
    }

    /// The same of an update.
    fn take_update<'b>(&mut self, at: u32, text: &'b [u8]) -> Option<&'b [u8]>
        ensures { TellsIfSome at (so_far self.old.names self.old.lines) text.now result (so_far self.new.names self.new.lines) }
    {
        self.take_access(at, Kind::Update, text)
    }

    /// The same of a put.
    fn take_put<'b>(&mut self, at: u32, text: &'b [u8]) -> Option<&'b [u8]>
        ensures { TellsIfSome at (so_far self.old.names self.old.lines) text.now result (so_far self.new.names self.new.lines) }
    {
        self.take_access(at, Kind::Put, text)
    }

    /// The same of a get.
    fn take_get<'b>(&mut self, at: u32, text: &'b [u8]) -> Option<&'b [u8]>
        ensures { TellsIfSome at (so_far self.old.names self.old.lines) text.now result (so_far self.new.names self.new.lines) }
    {
        self.take_access(at, Kind::Get, text)
    }

    /// The same of any request, whose keyword the first bytes tell. So it is told here, and nowhere below.
    #[inline(always)]
    fn take_plain<'b>(&mut self, at: u32, text: &'b [u8]) -> Option<&'b [u8]>
        requires { 0 < length text.now }
        ensures { TellsIfSome at (so_far self.old.names self.old.lines) text.now result (so_far self.new.names self.new.lines) }
    {
        match text[0] {
            b's' if text.len() > 1 && text[1] == b'p' => self.take_spawn(at, text),
            b's' => self.take_sync(at, text),
            b'c' => self.take_call(at, text),
            b'r' if text.len() > 2 && text[2] == b'a' => self.take_read(at, text),
            b'r' => self.take_return(at, text),
            b'w' => self.take_write(at, text),
            b'b' => self.take_bump(at, text),
            b'u' => self.take_update(at, text),
            b'p' => self.take_put(at, text),
            b'g' => self.take_get(at, text),
            _ => None,
        }
    }

    /// Adds the requests in plain form at the head of a text that stands behind a request and the line with the number `at`, up to the first
    /// line of another form or without room. It gives what stands behind them, and the number of their last line. No other function reads
    /// such lines, so that the code for each keyword stands once in the program.
    #[inline(never)]
    pub(crate) fn take_plain_lines<'b>(&mut self, at: u32, text: &'b [u8]) -> (&'b [u8], u32)
        requires { at ≤ most_lines }
        ensures { ReadsPlain at (so_far self.old.names self.old.lines) text.now result.1 result.0.now (so_far self.new.names self.new.lines) }
    {
        self.lacks_memory = false;
        let mut rest = text;
        let mut last = at;
        while !rest.is_empty() {
            match self.take_plain(last + 1, rest) {
                Some(behind) => rest = behind,
                None => return (rest, last),
            }
            last += 1;
        }
        (rest, last)
    }
}
