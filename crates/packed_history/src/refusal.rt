//! What a refused access has beside its sixteen bytes.

ghost use Rattle.std.specs.Prelude.{◌≡◌, ◌↔◌, IsTrue, IfSome};
ghost use Rattle.packed_history.specs.Refusals.{IsAsked, act_with, answer_with};

use crate::deed::{Numbers, in_numbers, with_value};
use model_accesses::{Act, Kind, Rule, Witness};
use model_histories::Answer;
use std::mem::size_of;

/// What was refused and why: the value of a write, bump, update or put, or 0, and what the answer names.
#[derive(Clone, Copy)]
pub struct Refusal {
    pub value: u32,
    pub entry: u32,
    pub strand: u32,
    pub rule: Rule,
    pub kind: Kind,
}

const _: () = prove!(size_of::<Refusal>() == 16);

/// Which access was asked for, by a tag behind those of deeds, its cell or reducer, and its value, where that is small.
#[inline(always)]
pub fn access_numbers(act: Act) -> Option<Numbers>
    ensures { IfSome result (IsAsked act) }
{
    match act {
        Act::Read(cell) => Some(in_numbers(16, cell, 0)),
        Act::Write(cell, value) => with_value(17, cell, value),
        Act::Bump(cell, value) => with_value(18, cell, value),
        Act::Update(reducer, value) => with_value(19, reducer, value),
        Act::Put(reducer, value) => with_value(20, reducer, value),
        Act::Get(reducer) => Some(in_numbers(21, reducer, 0)),
        _ => None,
    }
}

/// What was asked.
pub fn act_of(tag: u64, first: u32, value: u32) -> Act
    ensures { result ≡ act_with tag first value }
{
    let number = u64::from(value);
    match tag {
        16 => Act::Read(first),
        17 => Act::Write(first, number),
        18 => Act::Bump(first, number),
        19 => Act::Update(first, number),
        20 => Act::Put(first, number),
        _ => Act::Get(first),
    }
}

/// What was answered.
pub fn answer_of(refusal: Refusal) -> Answer
    ensures { result ≡ answer_with refusal }
{
    Answer::Refused {
        rule: refusal.rule,
        witness: Witness {
            entry: refusal.entry,
            strand: refusal.strand,
            kind: refusal.kind,
        },
    }
}

/// Whether the two are one refusal.
pub fn is_same_refusal(one: Refusal, other: Refusal) -> bool
    ensures { IsTrue result ↔ one ≡ other }
{
    one.value == other.value
        && one.entry == other.entry
        && one.strand == other.strand
        && one.rule == other.rule
        && one.kind == other.kind
}
