//! A receipt in small numbers.

ghost use Rattle.std.specs.Prelude.{◌≡◌, ◌↔◌, IsTrue, IfSome};
ghost use Rattle.packed_history.specs.Packing.{IsToldBy};

use model_accesses::{Act, Request};
use model_histories::{Answer, Entry};
use model_strands::Spawned;

/// What was asked and answered, in small numbers: which of the deeds it is, below 16, and its two numbers, or 0.
#[derive(Clone, Copy)]
pub struct Numbers {
    pub tag: u64,
    pub first: u32,
    pub second: u32,
}

#[inline(always)]
pub fn in_numbers(tag: u64, first: u32, second: u32) -> Numbers
    ensures { result ≡ record { tag = tag; first = first; second = second } }
{
    Numbers { tag, first, second }
}

/// The value, where it is small.
#[inline(always)]
pub fn to_u32(value: u64) -> Option<u32>
    ensures { IfSome result (λ number. number ≡ value) }
{
    if value <= 4_294_967_295 {
        Some(value as u32)
    } else {
        None
    }
}

/// The numbers of a deed with a value, where it is small.
#[inline(always)]
pub fn with_value(tag: u64, first: u32, value: u64) -> Option<Numbers>
    ensures { IfSome result (λ numbers. numbers ≡ record { tag = tag; first = first; second = value }) }
{
    Some(in_numbers(tag, first, to_u32(value)?))
}

/// A spawn, where the next strand has the number behind the child's.
#[inline(always)]
fn spawn_numbers(strands: Spawned) -> Option<Numbers>
    ensures { IfSome result (IsToldBy Act.Spawn (Answer.Split strands)) }
{
    if strands.next != strands.child.wrapping_add(1) {
        None
    } else if strands.first {
        Some(in_numbers(0, strands.child, strands.join))
    } else {
        Some(in_numbers(1, strands.child, strands.join))
    }
}

/// What was asked and answered, where it is small.
#[inline(always)]
pub fn numbers_of(act: Act, answer: Answer) -> Option<Numbers>
    ensures { IfSome result (IsToldBy act answer) }
{
    match (act, answer) {
        (Act::Spawn, Answer::Split(strands)) => spawn_numbers(strands),
        (Act::Call, Answer::Same) => Some(in_numbers(2, 0, 0)),
        (Act::Sync, Answer::Same) => Some(in_numbers(3, 0, 0)),
        (Act::Sync, Answer::Joined(join)) => Some(in_numbers(4, join, 0)),
        (Act::Sync, Answer::Waits) => Some(in_numbers(5, 0, 0)),
        (Act::Return, Answer::Resumed) => Some(in_numbers(6, 0, 0)),
        (Act::Return, Answer::Ended) => Some(in_numbers(7, 0, 0)),
        (Act::Return, Answer::EndedJoined(join)) => Some(in_numbers(8, join, 0)),
        (Act::Return, Answer::Finished) => Some(in_numbers(9, 0, 0)),
        (Act::Read(cell), Answer::Value(value)) => with_value(10, cell, value),
        (Act::Write(cell, value), Answer::Granted) => with_value(11, cell, value),
        (Act::Bump(cell, value), Answer::Granted) => with_value(12, cell, value),
        (Act::Update(reducer, value), Answer::Granted) => with_value(13, reducer, value),
        (Act::Put(reducer, value), Answer::Granted) => with_value(14, reducer, value),
        (Act::Get(reducer), Answer::Value(value)) => with_value(15, reducer, value),
        _ => None,
    }
}

fn is_same_act(one: Act, other: Act) -> bool
    ensures { IsTrue result ↔ one ≡ other }
{
    one == other
}

/// Whether the two are one answer.
pub fn is_same_answer(one: Answer, other: Answer) -> bool
    ensures { IsTrue result ↔ one ≡ other }
{
    one == other
}

fn is_same_request(one: Request, other: Request) -> bool
    ensures { IsTrue result ↔ one ≡ other }
{
    one.strand == other.strand && one.line == other.line && is_same_act(one.act, other.act)
}

/// Whether the two are one entry.
pub fn is_same_entry(one: Entry, other: Entry) -> bool
    ensures { IsTrue result ↔ one ≡ other }
{
    is_same_request(one.request, other.request) && is_same_answer(one.answer, other.answer)
}
