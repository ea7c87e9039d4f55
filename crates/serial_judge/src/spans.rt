//! Children that have returned, and that no sync has followed, by the numbers of their records.

ghost use Rattle.std.specs.Prelude.{◌≡◌, ◌≤◌, ◌+◌, ℕ, List, Bool, [], map, length, take, is_some, OnOk, OnErr};
ghost use Rattle.std.specs.Bool.{OnTrue, OnFalse};
ghost use Rattle.serial_judge.specs.Moves.{moved_span, AreMoves};
ghost use Rattle.serial_judge.specs.Spans.{has_number, is_held, IsAscending, IsAdded};

use crate::reclaim::Moves;
use std::alloc::{AllocError, Allocator};
use std::marker::Model;

/// The records of one child, or of some that one place spawned one after another.
#[derive(Clone, Copy)]
pub struct Span {
    /// The number of its first record.
    pub begin: u32,
    /// The number behind its last one.
    pub end: u32,
    /// The site of the spawn.
    pub site: u32,
}

impl Span {
    #[inline(always)]
    fn has(self, number: u32) -> bool
        ensures { result ≡ has_number self number }
    {
        self.begin <= number && number < self.end
    }

    fn renumbered<B: Allocator>(self, moves: &Moves<B>) -> Span
        ensures { (marks : List Bool) → AreMoves marks moves.now → self.begin ≤ length marks + 1 → self.end ≤ length marks + 1 →
            result ≡ moved_span marks self }
    {
        Span {
            begin: moves.number(self.begin),
            end: moves.number(self.end),
            site: self.site,
        }
    }
}

/// The one of some spans that has the number.
#[inline(never)]
fn search(spans: &[Span], number: u32) -> Option<Span>
    requires { (high : ℕ) × IsAscending 1 spans.now high }
    ensures { is_some result ≡ is_held spans.now number }
{
    // The first span that ends behind the number is the only one that may have it.
    let mut low = 0;
    let mut high = spans.len();
    while low < high {
        let middle = low + (high - low) / 2;
        if spans[middle].end <= number {
            low = middle + 1;
        } else {
            high = middle;
        }
    }
    if low < spans.len() && spans[low].has(number) {
        Some(spans[low])
    } else {
        None
    }
}

/// Makes the last span longer, where it is not one of the first `fixed`, and the new one lies directly behind it and has its site.
#[inline(always)]
fn lengthen<A: Allocator>(spans: &mut Vec<Span, A>, fixed: usize, span: Span) -> bool
    requires ascending { IsAscending 1 spans.old.items span.begin }
    requires order { span.begin ≤ span.end }
    ensures longer { OnTrue result (IsAdded spans.old.items spans.new.items fixed span) }
    ensures same { OnFalse result (spans.new ≡ spans.old) }
{
    let len = spans.len();
    if len <= fixed {
        return false;
    }
    let last = spans[len - 1];
    if last.end != span.begin {
        return false;
    }
    if last.site != span.site {
        return false;
    }
    spans[len - 1].end = span.end;
    true
}

/// Gives the numbers of some spans anew.
fn renumber_all<B: Allocator>(spans: &mut [Span], moves: &Moves<B>)
    ensures { (marks : List Bool) → AreMoves marks moves.now → IsAscending 1 spans.old (length marks + 1) →
        spans.new ≡ map (moved_span marks) spans.old }
{
    for span in spans.iter_mut() {
        *span = span.renumbered(moves);
    }
}

/// The spans in their order.
#[derive(Drop)]
pub struct Spans<A: Allocator> {
    spans: Vec<Span, A>,
}

impl<A: Allocator> Model for Spans<A> {
    ghost use Rattle.std.specs.Prelude.{ℕ, List};
    ghost use Rattle.serial_judge.specs.declared.spans.Span.{Span};
    ghost use Rattle.serial_judge.specs.Spans.{IsAscending};

    ghost Value = { List Span };

    ghost view = { λ v. v.spans.items };

    ghost invariant = { λ v. (high : ℕ) × IsAscending 1 v.spans.items high };
}

impl<A: Allocator> Spans<A> {
    pub fn new(alloc: A) -> Spans<A>
        ensures { result ≡ [] }
    {
        Spans {
            spans: Vec::new(alloc),
        }
    }

    #[inline(always)]
    pub fn len(&self) -> usize
        ensures { result ≡ length self.now }
    {
        self.spans.len()
    }

    /// The span that has the number. Most questions are about the last spans.
    #[inline(always)]
    pub fn find(&self, number: u32) -> Option<Span>
        ensures { is_some result ≡ is_held self.now number }
    {
        let last = *self.spans.last()?;
        if number >= last.end {
            return None;
        }
        if number >= last.begin {
            return Some(last);
        }
        search(&self.spans, number)
    }

    /// Adds a span behind the others, of which the first `fixed` stay as they are. One that the last span's site spawned directly behind it
    /// makes that one longer, so that a loop takes no memory.
    pub fn add(&mut self, fixed: usize, span: Span) -> Result<(), AllocError>
        requires ascending { IsAscending 1 self.old span.begin }
        requires order { span.begin ≤ span.end }
        requires fixed { fixed ≤ length self.old }
        ensures ok { OnOk result (IsAdded self.old self.new fixed span) }
        ensures err { OnErr result (self.new ≡ self.old) }
    {
        if span.begin == span.end {
            return Ok(());
        }
        if lengthen(&mut self.spans, fixed, span) {
            return Ok(());
        }
        self.spans.push(span)?;
        Ok(())
    }

    /// Gives the numbers of the spans anew.
    pub fn renumber<B: Allocator>(&mut self, moves: &Moves<B>)
        requires { (marks : List Bool) × AreMoves marks moves.now × IsAscending 1 self.old (length marks + 1) }
        ensures { (marks : List Bool) → AreMoves marks moves.now → IsAscending 1 self.old (length marks + 1) →
            self.new ≡ map (moved_span marks) self.old }
    {
        renumber_all(&mut self.spans, moves);
    }

    /// Leaves only the first `count` spans.
    #[inline(always)]
    pub fn cut(&mut self, count: usize)
        ensures { self.new ≡ take count self.old }
    {
        self.spans.truncate(count);
    }
}
