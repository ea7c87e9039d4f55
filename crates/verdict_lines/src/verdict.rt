//! The verdict lines: a line for each reply of a gate.

ghost use Rattle.std.specs.Prelude.{◌≡◌, ◌++◌, ◌∷◌, ◌+◌, ◌≤◌, ℕ, [], List, IfOk, OnOk, IsOk};
ghost use Rattle.std.specs.Prelude.{IsSome, codes, decimal, length, take, unwrap_or, vec_capacity};
ghost use Rattle.std.specs.List.{All};
ghost use Rattle.verdict_lines.specs.VerdictText.{refusal_word, HasWord, HasWords, answer_text};
ghost use Rattle.verdict_lines.specs.VerdictText.{fault_word, numbers_text, line_of_reply, verdict_text};
ghost use Rattle.verdict_lines.specs.RefusedText.{earlier_told, new_told};
ghost use Rattle.verdict_lines.specs.Rooms.{line_room};

use crate::digit_cache::DigitCache;
use crate::slice_text::{put_bytes, put_mostly_small, put_number, put_word};
use access_table::{Kind, asked_by, rule_word};
use model_accesses::Witness;
use model_strands::Spawned;
use race_gate::{Answer, GateFault, Reply};
use std::alloc::{AllocError, Allocator};
use text_words::Act;

/// Room for each verdict line, in bytes: the longest is of four numbers, of at most 20 digits each, and the words between them.
pub const LINE_ROOM: usize = 96;

/// The word of the rule that an act and an earlier access of this kind come under.
pub fn rule_of_refusal(act: Act, witness: Kind) -> &'static str
    requires { IsSome (refusal_word act witness) }
    ensures word { refusal_word act witness ≡ Some result.now }
    ensures short { length result.now ≤ 16 }
{
    let Some(asked) = asked_by(act) else {
        unreachable!()
    };
    match rule_word(witness, asked.kind) {
        Some(word) => word,
        None => unreachable!(),
    }
}

/// Puts a word, a number and a line feed at a place of a slice, and answers the place behind them. What stands before the place stays.
#[inline(always)]
pub fn put_word_line<const N: usize>(
    out: &mut [u8],
    at: usize,
    word: &[u8; N],
    number: u64,
) -> usize
    requires room { at + N + 21 ≤ length out.old }
    ensures len { length out.new ≡ length out.old }
    ensures put { take result out.new ≡ take at out.old ++ (word.now ++ decimal number ++ codes "\n") }
{
    let place = put_bytes(out, at, word);
    let end = put_number(out, place, number);
    put_bytes(out, end, b"\n")
}

// What tells a spawn, a join or a refusal is a call of its own: so the rest of `put_answer` is short enough for the compiler to put it in
// line where requests are judged, and which answers an act can have is known there.

/// Puts the end of a line that tells a spawn.
#[inline(never)]
fn put_split(out: &mut [u8], at: usize, spawned: Spawned) -> usize
    requires room { at + 70 ≤ length out.old }
    ensures len { length out.new ≡ length out.old }
    ensures put { take result out.new
        ≡ take at out.old ++ (codes " split" ++ numbers_text (spawned.child ∷ spawned.next ∷ spawned.join ∷ []) ++ codes "\n") }
{
    let place = put_bytes(out, at, b" split ");
    let child = put_number(out, place, u64::from(spawned.child));
    let between = put_bytes(out, child, b" ");
    let next = put_number(out, between, u64::from(spawned.next));
    put_word_line(out, next, b" ", u64::from(spawned.join))
}

/// Puts so many of these bytes at a place of a slice, and answers the place behind them. What stands before the place stays. All the bytes
/// are written, as one value, so that no length is asked: what stands behind the answered place is lost.
#[inline(always)]
fn put_head<const N: usize>(out: &mut [u8], at: usize, bytes: &[u8; N], count: usize) -> usize
    requires room { at + N ≤ length out.old }
    requires within { count ≤ N }
    ensures end { result ≡ at + count }
    ensures len { length out.new ≡ length out.old }
    ensures put { take result out.new ≡ take at out.old ++ take count bytes.now }
{
    put_bytes(out, at, bytes);
    at + count
}

/// What a refusal tells up to the kind of the earlier access, and how many bytes that is.
#[inline(always)]
fn earlier_text(earlier: Kind) -> (&'static [u8; 16], usize)
    ensures within { result.1 ≤ 16 }
    ensures text { take result.1 result.0.now ≡ earlier_told earlier }
{
    match earlier {
        Kind::Write => (b" refused write- ", 15),
        Kind::Bump => (b" refused bump-  ", 14),
        Kind::Read => (b" refused read-  ", 14),
        Kind::Update | Kind::Put | Kind::Get => (b" refused view-  ", 14),
    }
}

/// What a refusal tells of the kind of the new access, and how many bytes that is.
#[inline(always)]
fn new_text(new: Kind) -> (&'static [u8; 8], usize)
    ensures within { result.1 ≤ 8 }
    ensures text { take result.1 result.0.now ≡ new_told new }
{
    match new {
        Kind::Write => (b"write   ", 6),
        Kind::Bump => (b"bump    ", 5),
        Kind::Read => (b"read    ", 5),
        Kind::Update | Kind::Put | Kind::Get => (b"read    ", 5),
    }
}

/// Puts the word of a refusal and that of the rule that an act and an earlier access of this kind come under, each behind a space, and a
/// space. A text for each of the two kinds is data, where a text for each pair of kinds would be a jump that no processor foresees.
#[inline(always)]
fn put_rule(out: &mut [u8], at: usize, act: Act, witness: Kind) -> usize
    requires word { IsSome (refusal_word act witness) }
    requires room { at + 26 ≤ length out.old }
    ensures end { result ≤ at + 24 }
    ensures len { length out.new ≡ length out.old }
    ensures put { take result out.new ≡ take at out.old ++ (codes " refused " ++ unwrap_or (refusal_word act witness) [] ++ codes " ") }
{
    let Some(asked) = asked_by(act) else {
        unreachable!()
    };
    let (earlier, count) = earlier_text(witness);
    let place = put_head(out, at, earlier, count);
    let (new, count) = new_text(asked.kind);
    put_head(out, place, new, count)
}

/// Puts the end of a line that tells a refusal: that, the rule and the witness.
#[inline(never)]
fn put_refusal(out: &mut [u8], at: usize, act: Act, witness: Witness) -> usize
    requires word { IsSome (refusal_word act witness.kind) }
    requires room { at + 48 ≤ length out.old }
    ensures len { length out.new ≡ length out.old }
    ensures put { take result out.new ≡ take at out.old ++
        (codes " refused " ++ unwrap_or (refusal_word act witness.kind) [] ++ codes " " ++ decimal witness.entry ++ codes "\n") }
{
    let end = put_rule(out, at, act, witness.kind);
    put_word_line(out, end, b"", u64::from(witness.entry))
}

/// Puts the end of a line that tells a join by a sync.
#[inline(never)]
fn put_joined(out: &mut [u8], at: usize, join: u32) -> usize
    requires room { at + 29 ≤ length out.old }
    ensures len { length out.new ≡ length out.old }
    ensures put { take result out.new ≡ take at out.old ++ (codes " joined " ++ decimal join ++ codes "\n") }
{
    put_word_line(out, at, b" joined ", u64::from(join))
}

/// Puts the end of a line that tells a join by a return.
#[inline(never)]
fn put_ended_joined(out: &mut [u8], at: usize, join: u32) -> usize
    requires room { at + 35 ≤ length out.old }
    ensures len { length out.new ≡ length out.old }
    ensures put { take result out.new ≡ take at out.old ++ (codes " ended-joined " ++ decimal join ++ codes "\n") }
{
    put_word_line(out, at, b" ended-joined ", u64::from(join))
}

/// Puts the end of a line that tells a value.
#[inline(always)]
fn put_value(out: &mut [u8], at: usize, value: u64) -> usize
    requires room { at + 28 ≤ length out.old }
    ensures len { length out.new ≡ length out.old }
    ensures put { take result out.new ≡ take at out.old ++ (codes " value " ++ decimal value ++ codes "\n") }
{
    let place = put_bytes(out, at, b" value ");
    let end = put_mostly_small(out, place, value);
    put_bytes(out, end, b"\n")
}

/// Puts the end of a line behind the entry's number: what the gate answered to an act.
#[inline(always)]
fn put_answer(out: &mut [u8], at: usize, act: Act, answer: Answer) -> usize
    requires word { HasWord act answer }
    requires room { at + 70 ≤ length out.old }
    ensures len { length out.new ≡ length out.old }
    ensures put { take result out.new ≡ take at out.old ++ (codes " " ++ answer_text act answer ++ codes "\n") }
{
    match answer {
        Answer::Split(spawned) => put_split(out, at, spawned),
        Answer::Same => put_bytes(out, at, b" same\n"),
        Answer::Joined(join) => put_joined(out, at, join),
        Answer::Waits => put_bytes(out, at, b" waits\n"),
        Answer::Resumed => put_bytes(out, at, b" resumed\n"),
        Answer::Ended => put_bytes(out, at, b" ended\n"),
        Answer::EndedJoined(join) => put_ended_joined(out, at, join),
        Answer::Finished => put_bytes(out, at, b" finished\n"),
        Answer::Granted => put_bytes(out, at, b" granted\n"),
        Answer::Value(value) => put_value(out, at, value),
        Answer::Refused { witness, .. } => put_refusal(out, at, act, witness),
        Answer::Unset => put_bytes(out, at, b" refused unset\n"),
    }
}

/// Puts the line of a fault.
fn put_fault(out: &mut [u8], at: usize, fault: GateFault) -> usize
    requires room { at + 24 ≤ length out.old }
    ensures len { length out.new ≡ length out.old }
    ensures put { take result out.new ≡ take at out.old ++ (codes "illegal " ++ fault_word fault ++ codes "\n") }
{
    match fault {
        GateFault::Stopped => put_bytes(out, at, b"illegal stopped\n"),
        GateFault::Limit => put_bytes(out, at, b"illegal limit\n"),
        GateFault::NotRunning => put_bytes(out, at, b"illegal not-running\n"),
        GateFault::BadName => put_bytes(out, at, b"illegal bad-name\n"),
        GateFault::Unsynced => put_bytes(out, at, b"illegal unsynced\n"),
        GateFault::Memory => put_bytes(out, at, b"illegal memory\n"),
    }
}

/// Puts the verdict line of a reply at a place of a slice that has [`LINE_ROOM`] bytes from there on, and answers the place behind it.
/// What stands before the place stays. The line is as [`verdict_lines`] writes it. `counted` is where entries' numbers are counted: one
/// for all replies of a gate.
#[inline(always)]
pub fn put_verdict(out: &mut [u8], at: usize, reply: &Reply, counted: &mut DigitCache) -> usize
    requires words { HasWords reply.now }
    requires room { at + line_room ≤ length out.old }
    ensures len { length out.new ≡ length out.old }
    ensures put { take result out.new ≡ take at out.old ++ line_of_reply reply.now }
{
    match reply {
        Reply::Done(receipt) => {
            let end = counted.put(out, at, u64::from(receipt.number));
            put_answer(out, end, receipt.request.act, receipt.answer)
        }
        Reply::Illegal(fault) => put_fault(out, at, *fault),
    }
}

/// Adds the verdict line of a reply.
fn push_verdict<A: Allocator>(
    text: &mut Vec<u8, A>,
    reply: &Reply,
    counted: &mut DigitCache,
) -> Result<(), AllocError>
    requires { HasWords reply.now }
    ensures { OnOk result (text.new.items ≡ text.old.items ++ line_of_reply reply.now) }
{
    let at = text.len();
    // Room is asked for once, for the longest line, and what is left of it is cut off.
    text.extend_from_slice(&[0; LINE_ROOM])?;
    let end = put_verdict(text.as_mut_slice(), at, reply, counted);
    text.truncate(end);
    Ok(())
}

/// The verdict lines of replies, a line for each. A Done reply is the entry's number, a space and the answer; an Illegal one is `illegal`
/// and the word of the fault. The rule of a refusal is told by the kinds of the two accesses, so each refusal among the replies must be
/// of an access that conflicts with its witness, as those of a gate are.
pub fn verdict_lines<A: Allocator>(alloc: A, replies: &[Reply]) -> Result<Vec<u8, A>, AllocError>
    requires { All HasWords replies.now }
    ensures { IfOk result (λ text. text.items ≡ verdict_text replies.now) }
{
    let mut text = Vec::new(alloc);
    let mut counted = DigitCache::new();
    for reply in replies {
        push_verdict(&mut text, reply, &mut counted)?;
    }
    Ok(text)
}
