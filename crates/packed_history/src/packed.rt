//! A receipt in sixteen bytes.

ghost use Rattle.std.specs.Prelude.{◌≡◌, ◌↔◌, ◌+◌, ◌%◌, ◌^◌, IsTrue, true};
ghost use Rattle.std.specs.Option.{IfSome};
ghost use Rattle.model_histories.specs.declared.reply.Receipt.{Receipt as SpecReceipt};
ghost use Rattle.packed_history.specs.Shorts.{deed_act as act_spec, answer_of as answer_spec, index_of as index_spec};
ghost use Rattle.packed_history.specs.Shorts.{is_long as is_long_spec, is_refused as is_refused_spec, is_short as is_short_spec, plain as plain_spec};
ghost use Rattle.packed_history.specs.Packing.{deed_with as deed_spec};
ghost use Rattle.packed_history.specs.Packing.{IsStart, unpacked};
ghost use Rattle.packed_history.specs.Refusals.{with_refusal};

use crate::deed::{numbers_of, to_u32};
use crate::refusal::{Refusal, access_numbers, act_of, answer_of};
use model_accesses::{Act, Request};
use model_histories::{Answer, Receipt};
use model_strands::Spawned;
use std::mem::size_of;

/// How many numbers a head can name: more than a history can have.
const NUMBERS: u64 = 1 << 20;
/// How many strands: more than a history can have.
const STRANDS: u64 = 1 << 22;
/// How many lines of the program.
const LINES: u64 = 1 << 17;
/// How many heads have the tag 0.
const HEADS: u64 = NUMBERS * STRANDS * LINES;
/// The first tag of a refused access, whose witness is kept beside.
const REFUSED: u64 = 16;
/// The tag of a receipt that is kept beside, from which on all tags are such.
const LONG: u64 = 22;

/// A receipt in sixteen bytes: the head holds its number, its strand, its line and the tag of its deed, from the lowest bit up; behind it
/// stand the deed's two numbers, or 0.
#[derive(Clone, Copy)]
pub struct Packed {
    head: u64,
    first: u32,
    second: u32,
}

const _: () = prove!(size_of::<Packed>() == 16);

/// A spawn that was answered so; the spawner goes on as the strand behind its child.
#[inline(always)]
fn split(child: u32, join: u32, first: bool) -> Answer
    ensures { result ≡ Answer.Split (record { child = child; next = (child + 1) % 2 ^ 32; join = join; first = first }) }
{
    Answer::Split(Spawned {
        child,
        next: child.wrapping_add(1),
        join,
        first,
    })
}

/// What was asked and answered, by one choice for both.
#[inline(always)]
fn unpack_parts(tag: u64, first: u32, second: u32) -> (Act, Answer)
    ensures act { result.0 ≡ act_spec (deed_spec tag first second) }
    ensures answer { result.1 ≡ answer_spec (deed_spec tag first second) }
{
    let value = u64::from(second);
    match tag {
        0 => (Act::Spawn, split(first, second, true)),
        1 => (Act::Spawn, split(first, second, false)),
        2 => (Act::Call, Answer::Same),
        3 => (Act::Sync, Answer::Same),
        4 => (Act::Sync, Answer::Joined(first)),
        5 => (Act::Sync, Answer::Waits),
        6 => (Act::Return, Answer::Resumed),
        7 => (Act::Return, Answer::Ended),
        8 => (Act::Return, Answer::EndedJoined(first)),
        9 => (Act::Return, Answer::Finished),
        10 => (Act::Read(first), Answer::Value(value)),
        11 => (Act::Write(first, value), Answer::Granted),
        12 => (Act::Bump(first, value), Answer::Granted),
        13 => (Act::Update(first, value), Answer::Granted),
        14 => (Act::Put(first, value), Answer::Granted),
        15 => (Act::Get(first), Answer::Value(value)),
        _ => (Act::Call, Answer::Same),
    }
}

/// The head without its tag, where the numbers fit.
#[inline(always)]
fn start_of(number: u32, request: Request) -> Option<u64>
    ensures { IfSome result (λ start. IsStart start number request.strand request.line) }
{
    let number = u64::from(number);
    let strand = u64::from(request.strand);
    let line = u64::from(request.line);
    if number >= NUMBERS || strand >= STRANDS || line >= LINES {
        return None;
    }
    Some(number + NUMBERS * (strand + STRANDS * line))
}

/// The receipt in sixteen bytes, where it has such.
#[inline(always)]
pub fn packed_of(receipt: Receipt) -> Option<Packed>
    ensures { IfSome result (λ packed. (is_short_spec (unpacked packed).deed ≡ true) × (plain_spec (unpacked packed) ≡ receipt)) }
{
    let start = start_of(receipt.number, receipt.request)?;
    let numbers = numbers_of(receipt.request.act, receipt.answer)?;
    Some(Packed {
        head: start + HEADS * numbers.tag,
        first: numbers.first,
        second: numbers.second,
    })
}

/// The receipt of a refused access in sixteen bytes, and what stands at this place beside, where it has such.
#[inline(always)]
pub fn refused_of(receipt: Receipt, place: usize) -> Option<(Packed, Refusal)>
    ensures { IfSome result (λ both.
        (is_refused_spec (unpacked both.0).deed ≡ true) × (index_spec (unpacked both.0).deed ≡ place)
        × (with_refusal both.1 (unpacked both.0) ≡ receipt)) }
{
    match receipt.answer {
        Answer::Refused { rule, witness } => {
            let start = start_of(receipt.number, receipt.request)?;
            let numbers = access_numbers(receipt.request.act)?;
            let second = to_u32(place as u64)?;
            let short = Packed {
                head: start + HEADS * numbers.tag,
                first: numbers.first,
                second,
            };
            let refusal = Refusal {
                value: numbers.second,
                entry: witness.entry,
                strand: witness.strand,
                rule,
                kind: witness.kind,
            };
            Some((short, refusal))
        }
        _ => None,
    }
}

/// Stands for the receipt that is kept beside at this place.
pub fn long_at(place: usize) -> Packed
    ensures long { is_long_spec (unpacked result).deed ≡ true }
    ensures index { index_spec (unpacked result).deed ≡ place }
{
    let place = place as u64;
    Packed {
        head: HEADS * LONG,
        first: (place % 4_294_967_296) as u32,
        second: (place / 4_294_967_296) as u32,
    }
}

impl Packed {
    /// Whether the two differ at most in the place of what they have beside.
    #[inline(always)]
    pub fn is_alike(self, other: Packed) -> bool
        ensures { IsTrue result ↔ (self.head ≡ other.head) × (self.first ≡ other.first) }
    {
        self.head == other.head && self.first == other.first
    }

    /// Whether the two are the same bytes.
    #[inline(always)]
    pub fn is_same(self, other: Packed) -> bool
        ensures { IsTrue result ↔ self ≡ other }
    {
        self.is_alike(other) && self.second == other.second
    }

    /// Whether the receipt is kept in these bytes alone.
    #[inline(always)]
    pub fn is_short(self) -> bool
        ensures { result ≡ is_short_spec (unpacked self).deed }
    {
        self.head / HEADS < REFUSED
    }

    /// Whether the receipt is kept beside.
    #[inline(always)]
    pub fn is_long(self) -> bool
        ensures { result ≡ is_long_spec (unpacked self).deed }
    {
        self.head / HEADS >= LONG
    }

    #[inline(always)]
    pub fn number(self) -> u32
        ensures { result ≡ (unpacked self).number }
    {
        (self.head % NUMBERS) as u32
    }

    #[inline(always)]
    fn strand(self) -> u32
        ensures { result ≡ (unpacked self).strand }
    {
        (self.head / NUMBERS % STRANDS) as u32
    }

    #[inline(always)]
    fn line(self) -> u32
        ensures { result ≡ (unpacked self).line }
    {
        (self.head / (NUMBERS * STRANDS) % LINES) as u32
    }

    /// The receipt that it stands for, where none is kept beside.
    #[inline(always)]
    pub fn unpack(self) -> Receipt
        ensures { result ≡ plain_spec (unpacked self) }
    {
        let (act, answer) = unpack_parts(self.head / HEADS, self.first, self.second);
        Receipt {
            number: self.number(),
            request: Request {
                strand: self.strand(),
                line: self.line(),
                act,
            },
            answer,
        }
    }

    /// The receipt of the refused access that has this beside.
    pub fn unpack_refused(self, refusal: Refusal) -> Receipt
        requires { is_refused_spec (unpacked self).deed ≡ true }
        ensures { result ≡ with_refusal refusal (unpacked self) }
    {
        Receipt {
            number: self.number(),
            request: Request {
                strand: self.strand(),
                line: self.line(),
                act: act_of(self.head / HEADS, self.first, refusal.value),
            },
            answer: answer_of(refusal),
        }
    }

    /// The place of what a refused access has beside.
    pub fn place(self) -> u32
        requires { is_refused_spec (unpacked self).deed ≡ true }
        ensures { result ≡ index_spec (unpacked self).deed }
    {
        self.second
    }

    /// The place of the receipt that is kept beside.
    pub fn index(self) -> u64
        requires { is_long_spec (unpacked self).deed ≡ true }
        ensures { result ≡ index_spec (unpacked self).deed }
    {
        u64::from(self.second) * 4_294_967_296 + u64::from(self.first)
    }
}
