//! One line of a trace in numbers.

ghost use Rattle.std.specs.Prelude.{◌≡◌, ◌≢◌, ◌↔◌, ◌<◌, ◌+◌, ◌*◌, ◌%◌, ◌^◌, IsTrue, false};
ghost use Rattle.std.specs.Option.{IfSome};
ghost use Rattle.packed_trace.specs.Heads.{tag_of as tag_spec, place_of as place_spec, act_value as value_spec, tagged_act as act_spec};
ghost use Rattle.packed_trace.specs.Heads.{strands, acts, places, marker, strand_in, tag_in, rest_in};
ghost use Rattle.packed_trace.specs.Heads.{line_of_head as line_of_head_spec, line_of_numbers as line_of_numbers_spec};

use text_words::{Act, Request, TraceLine};

/// How many strands a head can name, but for the last, which says that three numbers more follow.
const STRANDS: u64 = 1 << 22;
/// How many kinds of acts.
const ACTS: u64 = 1 << 4;
/// How many cells or reducers.
const PLACES: u64 = 1 << 20;
/// How many values.
const VALUES: u64 = 1 << 18;
/// What stands in place of a strand where three numbers more follow.
const MARKER: u64 = STRANDS - 1;
/// How many numbers there are of 32 bits.
const HALF: u64 = 1 << 32;

// The parts of an act are taken one by one, which asks its kind by comparisons alone: to take all at once is a jump by the kind.

/// The number of an act's kind.
#[inline(always)]
fn tag_of(act: Act) -> u64
    ensures { result ≡ tag_spec act }
{
    match act {
        Act::Spawn => 0,
        Act::Sync => 1,
        Act::Call => 2,
        Act::Return => 3,
        Act::Read(_) => 4,
        Act::Write(_, _) => 5,
        Act::Bump(_, _) => 6,
        Act::Update(_, _) => 7,
        Act::Put(_, _) => 8,
        Act::Get(_) => 9,
    }
}

/// Its cell or its reducer, and 0 where it has none.
#[inline(always)]
fn place_of(act: Act) -> u32
    ensures { result ≡ place_spec act }
{
    match act {
        Act::Spawn | Act::Sync | Act::Call | Act::Return => 0,
        Act::Read(place)
        | Act::Write(place, _)
        | Act::Bump(place, _)
        | Act::Update(place, _)
        | Act::Put(place, _)
        | Act::Get(place) => place,
    }
}

/// Its value, and 0 where it has none.
#[inline(always)]
fn value_of(act: Act) -> u64
    ensures { result ≡ value_spec act }
{
    match act {
        Act::Write(_, value) | Act::Bump(_, value) | Act::Update(_, value) | Act::Put(_, value) =>
            value,
        _ => 0,
    }
}

/// The act of these numbers.
#[inline(always)]
fn act_of(tag: u64, place: u32, value: u64) -> Act
    ensures { result ≡ act_spec tag place value }
{
    match tag {
        0 => Act::Spawn,
        1 => Act::Sync,
        2 => Act::Call,
        3 => Act::Return,
        4 => Act::Read(place),
        5 => Act::Write(place, value),
        6 => Act::Bump(place, value),
        7 => Act::Update(place, value),
        8 => Act::Put(place, value),
        _ => Act::Get(place),
    }
}

/// The head of a line where it is enough: one behind the line with the number `last`, with no mark, and with small numbers.
#[inline(always)]
pub fn head_of(last: u32, line: TraceLine) -> Option<u64>
    ensures { IfSome result (λ head. (strand_in head ≢ marker) × (line_of_head_spec last head ≡ line)) }
{
    let act = line.request.act;
    let (tag, place, value) = (tag_of(act), u64::from(place_of(act)), value_of(act));
    let strand = u64::from(line.request.strand);
    if line.marked || line.request.line != line.at || u64::from(line.at) != u64::from(last) + 1 {
        return None;
    }
    if strand >= MARKER || place >= PLACES || value >= VALUES {
        return None;
    }
    Some(((value * PLACES + place) * ACTS + tag) * STRANDS + strand)
}

/// The head of a line that takes three numbers more, and these.
#[inline(always)]
pub fn numbers_of(line: TraceLine) -> (u64, u64, u64, u64)
    ensures head { strand_in result.0 ≡ marker }
    ensures line { line_of_numbers_spec result.0 result.1 result.2 result.3 ≡ line }
{
    let act = line.request.act;
    let (tag, value) = (tag_of(act), value_of(act));
    let head = (u64::from(place_of(act)) * ACTS + tag) * STRANDS + MARKER;
    let who = u64::from(line.request.strand) * HALF + u64::from(line.request.line);
    let spot = u64::from(line.at) * 2 + u64::from(line.marked);
    (head, value, who, spot)
}

/// Whether three numbers more follow a head.
#[inline(always)]
pub fn has_more(head: u64) -> bool
    ensures { IsTrue result ↔ (strand_in head ≡ marker) }
{
    head % STRANDS == MARKER
}

/// Whether a head is that of a spawn, with three numbers more or without.
#[inline(always)]
pub fn is_spawn(head: u64) -> bool
    ensures { IsTrue result ↔ (tag_in head ≡ 0) }
{
    head / STRANDS % ACTS == 0
}

/// Whether a head is that of a sync.
#[inline(always)]
pub fn is_sync(head: u64) -> bool
    ensures { IsTrue result ↔ (tag_in head ≡ 1) }
{
    head / STRANDS % ACTS == 1
}

/// The line of a head that is enough, behind the line with the number `last`.
#[inline(always)]
pub fn line_of_head(last: u32, head: u64) -> TraceLine
    ensures { result ≡ line_of_head_spec last head }
{
    let at = last.wrapping_add(1);
    let rest = head / STRANDS;
    let (tag, rest) = (rest % ACTS, rest / ACTS);
    let act = act_of(tag, (rest % PLACES) as u32, rest / PLACES);
    TraceLine {
        request: Request {
            strand: (head % STRANDS) as u32,
            line: at,
            act,
        },
        at,
        marked: false,
    }
}

/// The line of a head and three numbers more.
pub fn line_of_numbers(head: u64, value: u64, who: u64, spot: u64) -> TraceLine
    ensures { result ≡ line_of_numbers_spec head value who spot }
{
    let rest = head / STRANDS;
    let act = act_of(rest % ACTS, (rest / ACTS % HALF) as u32, value);
    TraceLine {
        request: Request {
            strand: (who / HALF % HALF) as u32,
            line: (who % HALF) as u32,
            act,
        },
        at: (spot / 2 % HALF) as u32,
        marked: spot % 2 == 1,
    }
}
