//! A list of lines.

ghost use Rattle.std.specs.Prelude.{◌≡◌, ◌≤◌, ◌*◌, ◌++◌, ◌∷◌, [], ℕ, List, drop, get_or, length, OnOk, OnErr, IsTrue, ◌↔◌};
ghost use Rattle.packed_trace.specs.Heads.{marker, strand_in, line_of_numbers as line_of_numbers_spec};
ghost use Rattle.packed_trace.specs.Lines.{lines_from, lines_left};

use crate::head::{
    has_more, head_of, is_spawn, is_sync, line_of_head, line_of_numbers, numbers_of,
};
use std::alloc::{AllocError, Allocator};
use std::marker::Model;
use text_words::TraceLine;

/// One request of so many is looked at for a guess. It is a prime, which few patterns of requests repeat themselves by.
const SAMPLED: usize = 31;

/// The lines of a trace that ask for something, in their order.
#[derive(Drop)]
pub struct TraceLines<A: Allocator> {
    heads: Vec<u64, A>,
    numbers: Vec<u64, A>,
    last: u32,
}

impl<A: Allocator> Model for TraceLines<A> {
    ghost use Rattle.std.specs.Prelude.{List};
    ghost use Rattle.text_words.specs.declared.value.TraceLine.{TraceLine as SpecLine};
    ghost use Rattle.packed_trace.specs.Lines.{lines_from, AreWhole};

    ghost Value = { List SpecLine };

    ghost view = { λ lines. lines_from 0 lines.heads.items lines.numbers.items };

    ghost invariant = { λ lines. AreWhole lines.heads.items lines.numbers.items lines.last };
}

/// Adds a head. Whether there is room for it is asked here, and not by a call for each line.
#[inline(always)]
fn add<A: Allocator>(heads: &mut Vec<u64, A>, head: u64) -> Result<(), AllocError>
    ensures added { OnOk result (heads.new.items ≡ heads.old.items ++ head ∷ []) }
    ensures unchanged { OnErr result (heads.new.items ≡ heads.old.items) }
{
    if heads.len() == heads.capacity() {
        heads.reserve(1)?;
    }
    heads.push_reserved(head);
    Ok(())
}

impl<A: Allocator> TraceLines<A> {
    /// No lines.
    pub fn new(alloc: A) -> TraceLines<A>
    where
        A: Copy,
        ensures { result ≡ [] }
    {
        TraceLines {
            heads: Vec::new(alloc),
            numbers: Vec::new(alloc),
            last: 0,
        }
    }

    /// Adds the line of a head and three numbers more, which has the number `at`.
    fn push_numbers(
        &mut self,
        at: u32,
        head: u64,
        value: u64,
        who: u64,
        spot: u64,
    ) -> Result<(), AllocError>
        requires long { strand_in head ≡ marker }
        requires at { (line_of_numbers_spec head value who spot).at ≡ at }
        ensures pushed { OnOk result (self.new ≡ self.old ++ line_of_numbers_spec head value who spot ∷ []) }
        ensures unchanged { OnErr result (self.new ≡ self.old) }
    {
        self.heads.reserve(1)?;
        self.numbers.reserve(3)?;
        self.numbers.push_reserved(value);
        self.numbers.push_reserved(who);
        self.numbers.push_reserved(spot);
        self.heads.push_reserved(head);
        self.last = at;
        Ok(())
    }

    /// Adds a line at the end. Where there is no memory for it, the lines stay as they are.
    #[inline(always)]
    pub fn push(&mut self, line: TraceLine) -> Result<(), AllocError>
        ensures pushed { OnOk result (self.new ≡ self.old ++ line ∷ []) }
        ensures unchanged { OnErr result (self.new ≡ self.old) }
    {
        let Some(head) = head_of(self.last, line) else {
            let (head, value, who, spot) = numbers_of(line);
            return self.push_numbers(line.at, head, value, who, spot);
        };
        add(&mut self.heads, head)?;
        self.last = line.at;
        Ok(())
    }

    /// How many lines there are.
    pub fn len(&self) -> usize
        ensures { result ≡ length self.now }
    {
        self.heads.len()
    }

    /// About how many strands the requests make, if all are granted: two a spawn, and a third at each that opens a block, of which there
    /// are about as many as syncs. It is a guess from one request of so many, and an eighth more, by which room is asked for in advance.
    pub fn likely_strands(&self) -> usize
        ensures { result ≤ length self.now * 3 }
    {
        let heads = self.heads.as_slice();
        let (mut spawns, mut syncs) = (0, 0);
        for part in 0..heads.len() / SAMPLED {
            let head = heads[part * SAMPLED];
            spawns += usize::from(is_spawn(head));
            syncs += usize::from(is_sync(head));
        }
        let sampled = spawns * 2 + spawns.min(syncs + 1);
        (sampled + sampled / 8)
            .saturating_mul(SAMPLED)
            .min(self.heads.len() * 3)
    }

    /// Whether there are none.
    pub fn is_empty(&self) -> bool
        ensures { IsTrue result ↔ (self.now ≡ []) }
    {
        self.heads.is_empty()
    }

    #[tactic(auto, unfolding(crate::specs::Lines::lines_left))]
    /// The lines, from the first on.
    pub fn iter(&self) -> Iter<'_>
        ensures { lines_left result ≡ self.now }
    {
        Iter {
            heads: self.heads.as_slice(),
            numbers: self.numbers.as_slice(),
            last: 0,
        }
    }
}

/// Gives lines one by one, from the first on.
#[derive(Clone, Copy)]
pub struct Iter<'a> {
    heads: &'a [u64],
    numbers: &'a [u64],
    last: u32,
}

/// The number at this place, or 0 where there is none.
fn number_at(numbers: &[u64], at: usize) -> u64
    ensures { result ≡ get_or numbers.now at 0 }
{
    match numbers.get(at) {
        Some(number) => *number,
        None => 0,
    }
}

/// The numbers behind the first three.
fn behind_three(numbers: &[u64]) -> &[u64]
    ensures { result.now ≡ drop 3 numbers.now }
{
    &numbers[numbers.len().min(3)..]
}

/// The line of a head that takes three numbers more, and the numbers behind these.
fn long_line(head: u64, numbers: &[u64]) -> (TraceLine, &[u64])
    ensures line { result.0 ≡ line_of_numbers_spec head (get_or numbers.now 0 0) (get_or numbers.now 1 0) (get_or numbers.now 2 0) }
    ensures behind { result.1.now ≡ drop 3 numbers.now }
{
    let (value, who, spot) = (
        number_at(numbers, 0),
        number_at(numbers, 1),
        number_at(numbers, 2),
    );
    (
        line_of_numbers(head, value, who, spot),
        behind_three(numbers),
    )
}

/// The line of a head behind the line with the number `last`, and the numbers that it leaves.
#[inline(always)]
fn first_line(last: u32, head: u64, numbers: &[u64]) -> (TraceLine, &[u64])
    ensures { (heads : List ℕ) → lines_from last (head ∷ heads) numbers.now ≡ result.0 ∷ lines_from result.0.at heads result.1.now }
{
    if has_more(head) {
        return long_line(head, numbers);
    }
    (line_of_head(last, head), numbers)
}

impl<'a> Iterator for Iter<'a> {
    ghost use Rattle.std.specs.Iterator.{item_count, YieldsFirst};
    ghost use Rattle.packed_trace.specs.Lines.{lines_left};

    type Item = TraceLine;

    ghost next_gives = { YieldsFirst lines_left };

    ghost remaining = { item_count lines_left };

    #[inline(always)]
    fn next(&mut self) -> Option<TraceLine> {
        let (head, behind) = self.heads.split_first()?;
        let (line, numbers) = first_line(self.last, *head, self.numbers);
        self.heads = behind;
        self.numbers = numbers;
        self.last = line.at;
        Some(line)
    }
}
